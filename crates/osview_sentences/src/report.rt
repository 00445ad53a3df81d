ghost use Rattle.std.specs.Prelude.{◌≡◌, ◌++◌, List, IfOk, OnOk, count_by, length};
ghost use Rattle.collector.specs.Status.{has_done};
ghost use Rattle.collector.specs.Written.{written};
ghost use Rattle.os_io.specs.Lines.{ended_line};
ghost use Rattle.flow_core_laws.specs.declared.activation.Activation.{Activation};
ghost use Rattle.flow_core_laws.specs.Place.{written_count};
ghost use Rattle.osview_sentences.specs.Report.{control_text, created_text, heading, likewise_text, limit_text, limit_words};
ghost use Rattle.osview_sentences.specs.Report.{more_text, report, sentence_lines, share_text};
ghost use Rattle.osview_sentences.specs.Contexts.{IsContext, IsToldRun, say_over};
ghost use Rattle.osview_sentences.specs.Facts.{sentences};
ghost use Rattle.osview_sentences.specs.Tally.{told_for};
ghost use Rattle.stream_match_layouts.specs.Layout.{IsLayout, IsLayoutOf};

use crate::amounts::Asked;
use crate::context::{Context, add_whole};
use crate::fact::Sentence;
use crate::finding::sentences;
use crate::passing::add_passing;
use crate::readers::Readers;
use crate::tally::Tally;
use crate::told_run::ToldRun;
use crate::wording::trap_text;
use c_int::ControlLimit;
use collector::written_length;
use flow_core_laws::{ControlEnd, Ends, TaskEnd};
use os_io::Memory;
use osview_text::{Text, activation_word};
use std::alloc::Global;
use stream_match_layouts::Layout;

/// What is counted in a run.
#[derive(Clone, Copy)]
struct Counts {
    activations: u64,
    /// How many of them are done.
    done: u64,
    /// How many bytes of the output stand before the first one that isn't there.
    there: u64,
    /// How many positions of the output are claimed for writing.
    claimed: u64,
}

/// How many activations are done.
fn count_done(ends: &[Option<TaskEnd>]) -> u64
    ensures { result ≡ count_by has_done ends.now }
{
    let mut count = 0;
    for end in ends {
        if matches!(end, Some(TaskEnd::Done)) {
            count += 1;
        }
    }
    count
}

/// Adds that some more sentences are like the one that was told.
fn add_likewise(told: &mut Text, more: u64) -> Result<(), Memory>
    ensures { OnOk result (told.new ≡ told.old ++ likewise_text more) }
{
    told.field(b"; likewise ", more)?;
    told.add(b" more of this task")?;
    Ok(())
}

/// Adds how many more sentences are like the one that was told, if there are any.
fn add_more(told: &mut Text, more: u64) -> Result<(), Memory>
    ensures { OnOk result (told.new ≡ told.old ++ more_text more) }
{
    if more == 0 {
        Ok(())
    } else {
        add_likewise(told, more)
    }
}

/// Adds how many activations there were when `main` ended.
fn add_created(told: &mut Text, count: u64) -> Result<(), Memory>
    ensures { OnOk result (told.new ≡ told.old ++ created_text count) }
{
    told.field(b" after ", count)?;
    told.add(activation_word(count))?;
    Ok(())
}

/// Adds that `main` went no further.
fn add_stopped(told: &mut Text, what: &[u8], count: u64) -> Result<(), Memory>
    ensures { OnOk result (told.new ≡ told.old ++ (what.now ++ created_text count)) }
{
    told.add(what)?;
    add_created(told, count)
}

/// Adds that `main` was stopped at a limit.
fn add_limit(told: &mut Text, limit: u8, count: u64) -> Result<(), Memory>
    ensures { OnOk result (told.new ≡ told.old ++ control_text (ControlEnd.Limit limit) count) }
{
    told.add(b"main was stopped")?;
    add_created(told, count)?;
    told.add(limit_text(limit))?;
    Ok(())
}

/// Adds that `main` trapped.
fn add_trapped(told: &mut Text, code: u8, at: u32, count: u64) -> Result<(), Memory>
    ensures { OnOk result (told.new ≡ told.old ++ control_text (ControlEnd.Trapped code at) count) }
{
    told.field(b"main trapped in line ", at as u64)?;
    add_created(told, count)?;
    told.add(b": ")?;
    told.add(trap_text(code))?;
    Ok(())
}

/// Adds how `main` ended.
fn add_control(told: &mut Text, control: ControlEnd, count: u64) -> Result<(), Memory>
    ensures { OnOk result (told.new ≡ told.old ++ control_text control count) }
{
    match control {
        ControlEnd::Done => add_stopped(told, b"main ended", count),
        ControlEnd::Trapped { code, line } => add_trapped(told, code, line, count),
        ControlEnd::OverBudget => add_stopped(told, b"main used up its turns", count),
        ControlEnd::Limit(limit) => add_limit(told, limit, count),
    }
}

/// Adds the line that tells how `main` ended.
fn add_control_line(told: &mut Text, control: ControlEnd, count: u64) -> Result<(), Memory>
    ensures { OnOk result (told.new ≡ told.old ++ ended_line (control_text control count)) }
{
    add_control(told, control, count)?;
    told.add(b"\n")
}

/// Adds a line that tells how many there are of how many.
fn add_share_line(told: &mut Text, some: u64, all: u64, what: &[u8]) -> Result<(), Memory>
    ensures { OnOk result (told.new ≡ told.old ++ ended_line (share_text some all what.now)) }
{
    told.number(some)?;
    told.field(b" of ", all)?;
    told.add(what)?;
    told.add(b"\n")
}

/// Adds all that is said of an activation with the number of those that are like it, as a line.
fn add_sentence_line(
    told: &mut Text,
    over: &Context<'_>,
    sentence: Sentence,
    more: u64,
) -> Result<(), Memory>
    requires { IsContext over.now }
    ensures { OnOk result (told.new ≡ told.old ++ ended_line (say_over over.now.run sentence ++ more_text more)) }
{
    add_whole(told, over, sentence)?;
    add_more(told, more)?;
    told.add(b"\n")?;
    Ok(())
}

/// Adds the line of one sentence for `count` activations that are alike, if there are any.
fn add_told_for(
    told: &mut Text,
    over: &Context<'_>,
    sentence: Sentence,
    count: u64,
) -> Result<(), Memory>
    requires { IsContext over.now }
    ensures { OnOk result (told.new ≡ told.old ++ told_for (say_over over.now.run) sentence count) }
{
    if count == 0 {
        Ok(())
    } else {
        add_sentence_line(told, over, sentence, count - 1)
    }
}

/// Adds the lines of sentences.
fn add_lines(
    told: &mut Text,
    alloc: Global,
    over: &Context<'_>,
    all: &[Sentence],
) -> Result<(), Memory>
    requires { IsContext over.now }
    ensures { OnOk result (told.new ≡ told.old ++ sentence_lines (say_over over.now.run) all.now) }
{
    let mut tally = Tally::of(alloc, all)?;
    for sentence in all {
        let count = tally.take(*sentence);
        add_told_for(told, over, *sentence, count)?;
    }
    Ok(())
}

/// Adds the lines of what became of the activations of a run that aren't done.
fn add_sentences(told: &mut Text, alloc: Global, run: &ToldRun<'_>) -> Result<(), Memory>
    requires { IsToldRun run.now }
    ensures { OnOk result (told.new ≡ told.old
        ++ sentence_lines (say_over run.now) (sentences run.now.activations.now run.now.layout.now.input_len run.now.ends.now.ends run.now.lines.now)) }
{
    let all = sentences(alloc, run.layout, run.ends, run.lines)?;
    let readers = Readers::of(alloc, run.layout.spans.as_slice(), run.lines)?;
    let asked = Asked::of(alloc, run.layout)?;
    let over = Context {
        run: *run,
        readers: &readers,
        asked: &asked,
    };
    add_lines(told, alloc, &over, &all)
}

/// Adds the lines before those of the sentences.
fn add_heading(told: &mut Text, control: ControlEnd, count: Counts) -> Result<(), Memory>
    ensures { OnOk result (told.new ≡ told.old ++ heading control count.activations count.done count.there count.claimed) }
{
    add_control_line(told, control, count.activations)?;
    add_share_line(
        told,
        count.done,
        count.activations,
        b" activations are done",
    )?;
    add_share_line(
        told,
        count.there,
        count.claimed,
        b" bytes of the output are there",
    )?;
    Ok(())
}

/// What stopped `main` at a limit.
fn limit_words(limit: ControlLimit) -> &'static [u8]
    ensures { result.now ≡ limit_words limit }
{
    match limit {
        ControlLimit::Activations => b", as many as there may be: larger blocks need fewer",
        ControlLimit::Elements =>
            b": the windows of one more would cover more than 4194304 elements in all",
    }
}

/// What stopped `main`, by the code of the limit.
fn limit_text(limit: u8) -> &'static [u8]
    ensures { result.now ≡ limit_text limit }
{
    limit_words(ControlLimit::of_code(limit).unwrap_or(ControlLimit::Elements))
}

/// What is counted in a run.
fn count_all(layout: &Layout, ends: &Ends) -> Counts
    requires { IsLayout layout.now }
    ensures activations { (activations : List Activation) → IsLayoutOf layout.now activations → result.activations ≡ length activations }
    ensures done { result.done ≡ count_by has_done ends.now.ends }
    ensures there { result.there ≡ length (written ends.now.output) }
    ensures claimed { (activations : List Activation) → IsLayoutOf layout.now activations
        → result.claimed ≡ written_count activations 1 }
{
    Counts {
        activations: layout.starts.len() as u64 - 1,
        done: count_done(ends.ends.as_slice()),
        there: written_length(ends.output.as_slice()) as u64,
        claimed: layout.cursors.writes.as_slice()[1],
    }
}

/// The report of a run in sentences: how `main` ended, how many activations are done, how many bytes of the output are there, which
/// activations leave elements of a stream out, and what became of those that aren't done.
pub fn report_text(alloc: Global, run: &ToldRun<'_>, control: ControlEnd) -> Result<Vec<u8>, Memory>
    requires { IsToldRun run.now }
    ensures { IfOk result (λ told. told.items ≡ report run.now.text.now run.now.names.now run.now.lines.now run.now.activations.now
        run.now.layout.now.input_len run.now.ends.now control) }
{
    let mut told = Text::new(alloc);
    add_heading(&mut told, control, count_all(run.layout, run.ends))?;
    add_passing(&mut told, run)?;
    add_sentences(&mut told, alloc, run)?;
    Ok(told.into_bytes())
}
