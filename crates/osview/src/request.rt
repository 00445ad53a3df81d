//! What the words ask for.

ghost use Rattle.std.specs.Prelude.{◌≡◌, IfSome};
ghost use Rattle.osrun_core_jobs.specs.Jobs.{IsWithin, job_of as told_job};
ghost use Rattle.osview.specs.Words.{AreWithin, IsLawful};

use crate::options::{ParsedWords, parsed_words};
use osrun_core_jobs::Job;
use osview_answer::{ExplainJob, GraphChoice, GraphJob, StreamJob};

/// What is to be done.
#[derive(Clone, Copy, Debug)]
pub(crate) enum Request<'w> {
    /// To tell in sentences what a run came to.
    Report(Job<'w>),
    /// To show the elements of a stream.
    Stream(StreamJob<'w>),
    /// To tell how many steps `main` and the tasks of a run take.
    Steps(Job<'w>),
    /// To draw a graph.
    Graph(GraphJob<'w>),
    /// To tell why an activation never ran.
    Explain(ExplainJob<'w>),
    /// To tell how the program is used.
    Help,
    /// To tell its version.
    Version,
}

/// What the words ask for, if they do.
pub(crate) fn request_of(words: &[String]) -> Option<Request<'_>>
    ensures { IfSome result IsLawful }
{
    let (first, rest) = words.split_first()?;
    match first.as_str() {
        "report" => report_of(&parsed_words(rest)?),
        "stream" => stream_of(&parsed_words(rest)?),
        "steps" => steps_of(&parsed_words(rest)?),
        "graph" => graph_of(&parsed_words(rest)?),
        "explain" => explain_of(&parsed_words(rest)?),
        word if rest.is_empty() => option_of(word),
        _ => None,
    }
}

/// The run of a program over an input, which stand first.
fn job_of<'w>(words: &ParsedWords<'w>) -> Job<'w>
    requires { AreWithin words.now.options }
    ensures { IsWithin (told_job result) }
{
    Job {
        program: words.name(0),
        input: words.name(1),
        terms: words.options.terms(),
    }
}

/// The report that words ask for: of a program and an input.
fn report_of<'w>(words: &ParsedWords<'w>) -> Option<Request<'w>>
    requires { AreWithin words.now.options }
    ensures { IfSome result IsLawful }
{
    if words.count != 2 || words.options.activations.is_some() {
        return None;
    }
    Some(Request::Report(job_of(words)))
}

/// The steps that words ask for: of a program and an input.
fn steps_of<'w>(words: &ParsedWords<'w>) -> Option<Request<'w>>
    requires { AreWithin words.now.options }
    ensures { IfSome result IsLawful }
{
    if words.count != 2 || words.options.activations.is_some() {
        return None;
    }
    Some(Request::Steps(job_of(words)))
}

/// The stream that words ask for: of a program and an input, its name, from which position on, and how many positions at most.
fn stream_of<'w>(words: &ParsedWords<'w>) -> Option<Request<'w>>
    requires { AreWithin words.now.options }
    ensures { IfSome result IsLawful }
{
    if words.count < 3 || words.options.activations.is_some() {
        return None;
    }
    let first = number_at(words, 3, 0)?;
    let count = number_at(words, 4, u64::MAX)?;
    Some(Request::Stream(StreamJob {
        job: job_of(words),
        name: words.name(2),
        first,
        count,
    }))
}

/// The graph that words ask for: of a program and an input, of its tasks and streams, or of some activations.
fn graph_of<'w>(words: &ParsedWords<'w>) -> Option<Request<'w>>
    requires { AreWithin words.now.options }
    ensures { IfSome result IsLawful }
{
    if words.count != 2 {
        return None;
    }
    let view = match words.options.activations {
        Some((first, end)) => GraphChoice::Activations { first, end },
        None => GraphChoice::Streams,
    };
    Some(Request::Graph(GraphJob {
        job: job_of(words),
        view,
    }))
}

/// The explanation that words ask for: of a program and an input, and the number of an activation, 0 to 65,535.
fn explain_of<'w>(words: &ParsedWords<'w>) -> Option<Request<'w>>
    requires { AreWithin words.now.options }
    ensures { IfSome result IsLawful }
{
    if words.count != 3 || words.options.activations.is_some() {
        return None;
    }
    let activation = words.name(2).parse::<u16>().ok()?;
    Some(Request::Explain(ExplainJob {
        job: job_of(words),
        activation: u32::from(activation),
    }))
}

/// The number that the word at a place is; another number where there is no such word.
fn number_at(words: &ParsedWords<'_>, place: usize, otherwise: u64) -> Option<u64> {
    if words.count <= place {
        return Some(otherwise);
    }
    words.name(place).parse::<u64>().ok()
}

/// What a single word asks for.
fn option_of<'w>(word: &str) -> Option<Request<'w>>
    ensures { IfSome result IsLawful }
{
    match word {
        "--help" => Some(Request::Help),
        "--version" => Some(Request::Version),
        _ => None,
    }
}
