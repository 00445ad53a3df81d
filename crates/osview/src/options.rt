//! What words have behind the one that says what to do: names and numbers, and options between them.

ghost use Rattle.std.specs.Prelude.{◌≡◌, ◌<◌, ◌≤◌, IfSome, length, unwrap_or};
ghost use Rattle.flow_core_laws.specs.Limits.{budget_limit, workers_limit};
ghost use Rattle.osrun_core_jobs.specs.Limits.{default_budget, default_workers};
ghost use Rattle.osrun_core_run.specs.RunOf.{AreTerms};
ghost use Rattle.osview.specs.Words.{AreWithin};

use flow_core_laws::{BUDGET_LIMIT, WORKERS_LIMIT};
use osrun_core_jobs::{DEFAULT_BUDGET, DEFAULT_WORKERS, Terms};

/// How many names and numbers there are at most.
const MOST: usize = 5;

/// The options that were given, each once at most.
#[derive(Clone, Copy, Debug)]
pub(crate) struct Options {
    /// `--workers`, 1 to 64.
    workers: Option<u32>,
    /// `--budget`: how many turns each task may take, up to 1,000,000,000.
    task_budget: Option<u64>,
    /// `--control`: how many turns the control program may take, up to 1,000,000,000.
    control_budget: Option<u64>,
    /// `--activations A..B`: which activations are shown.
    pub(crate) activations: Option<(u64, u64)>,
}

/// The number that a word is, from the least to the most.
fn number_within(word: &str, least: u64, most: u64) -> Option<u64>
    ensures low { IfSome result (λ number. least ≤ number) }
    ensures high { IfSome result (λ number. number ≤ most) }
{
    match word.parse::<u64>() {
        Ok(number) if least <= number && number <= most => Some(number),
        _ => None,
    }
}

/// A number of turns.
fn turns_of(word: &str) -> Option<u64>
    ensures { IfSome result (λ turns. turns ≤ budget_limit) }
{
    number_within(word, 0, BUDGET_LIMIT)
}

/// A number of workers.
fn workers_of(word: &str) -> Option<u32>
    ensures some { IfSome result (λ workers. 1 ≤ workers) }
    ensures few { IfSome result (λ workers. workers ≤ workers_limit) }
{
    match number_within(word, 1, u64::from(WORKERS_LIMIT)) {
        Some(workers) => Some(workers as u32),
        None => None,
    }
}

/// Two numbers with two dots between them.
fn range_of(word: &str) -> Option<(u64, u64)> {
    let (first, end) = word.split_once("..")?;
    let first = first.parse::<u64>().ok()?;
    let end = end.parse::<u64>().ok()?;
    Some((first, end))
}

impl Options {
    /// The options where none is given.
    pub(crate) fn none() -> Options
        ensures { AreWithin result }
    {
        Options {
            workers: None,
            task_budget: None,
            control_budget: None,
            activations: None,
        }
    }

    /// These options with one more, where there is such an option and it wasn't given before.
    fn with(self, name: &str, value: &str) -> Option<Options>
        requires { AreWithin self }
        ensures { IfSome result AreWithin }
    {
        match name {
            "workers" if self.workers.is_none() => Some(Options {
                workers: Some(workers_of(value)?),
                ..self
            }),
            "budget" if self.task_budget.is_none() => Some(Options {
                task_budget: Some(turns_of(value)?),
                ..self
            }),
            "control" if self.control_budget.is_none() => Some(Options {
                control_budget: Some(turns_of(value)?),
                ..self
            }),
            "activations" if self.activations.is_none() => Some(Options {
                activations: Some(range_of(value)?),
                ..self
            }),
            _ => None,
        }
    }

    /// On which terms a program is run: what `osrun run` has where an option isn't given.
    pub(crate) fn terms(self) -> Terms
        requires { AreWithin self }
        ensures within { AreTerms result }
        ensures workers { result.workers ≡ unwrap_or self.workers default_workers }
        ensures task_budget { result.task_budget ≡ unwrap_or self.task_budget default_budget }
        ensures control_budget { result.control_budget ≡ unwrap_or self.control_budget default_budget }
    {
        Terms {
            workers: self.workers.unwrap_or(DEFAULT_WORKERS),
            task_budget: self.task_budget.unwrap_or(DEFAULT_BUDGET),
            control_budget: self.control_budget.unwrap_or(DEFAULT_BUDGET),
        }
    }
}

/// What words give: names and numbers in their order, and options.
#[derive(Clone, Copy, Debug)]
pub(crate) struct ParsedWords<'w> {
    names: [&'w str; MOST],
    /// How many names and numbers there are.
    pub(crate) count: usize,
    pub(crate) options: Options,
}

impl<'w> ParsedWords<'w> {
    /// The name or the number at a place; nothing behind the last one.
    pub(crate) fn name(&self, place: usize) -> &'w str {
        match self.names.get(place) {
            Some(name) => name,
            None => "",
        }
    }

    /// These words with one more name or number, where there are not too many.
    fn with_name(self, name: &'w str) -> Option<ParsedWords<'w>>
        requires { AreWithin self.options }
        ensures { IfSome result (λ parsed. AreWithin parsed.options) }
    {
        if self.count >= MOST || name.starts_with('-') {
            return None;
        }
        let mut names = self.names;
        names[self.count] = name;
        Some(ParsedWords {
            names,
            count: self.count + 1,
            options: self.options,
        })
    }

    /// These words with one more option.
    fn with_option(self, name: &str, value: &str) -> Option<ParsedWords<'w>>
        requires { AreWithin self.options }
        ensures { IfSome result (λ parsed. AreWithin parsed.options) }
    {
        let options = self.options.with(name, value)?;
        Some(ParsedWords { options, ..self })
    }
}

/// What words give, where each is a name or a number, or belongs to an option: `--NAME=VALUE`, or `--NAME` and `VALUE` behind it.
pub(crate) fn parsed_words(words: &[String]) -> Option<ParsedWords<'_>>
    ensures { IfSome result (λ parsed. AreWithin parsed.options) }
{
    let mut parsed = ParsedWords {
        names: [""; MOST],
        count: 0,
        options: Options::none(),
    };
    let mut place = 0;
    while place < words.len() {
        let word = words[place].as_str();
        place += 1;
        match word.strip_prefix("--") {
            None => parsed = parsed.with_name(word)?,
            Some(option) => match option.split_once('=') {
                Some((name, value)) => parsed = parsed.with_option(name, value)?,
                None => {
                    let value = words.get(place)?;
                    place += 1;
                    parsed = parsed.with_option(option, value.as_str())?;
                }
            },
        }
    }
    Some(parsed)
}
