ghost use Rattle.std.specs.Prelude.{◌≡◌, ◌++◌, [], ℕ, IfOk, OnOk};
ghost use Rattle.std.specs.Option.{option_map_or};
ghost use Rattle.osview_sentences.specs.FirstReaders.{AreReaders, also_found, found, other_line, second_line, with_line};
ghost use Rattle.osview_sentences.specs.Readers.{reads_text, shared_text};

use crate::fact::{Fact, Supply};
use crate::finding::line_of;
use os_io::Memory;
use osview_text::Text;
use std::alloc::Global;
use std::collections::BTreeMap;
use stream_match_layouts::Span;

/// The lines of the first two tasks that read a stream.
#[derive(Clone, Copy)]
struct Two {
    first: u32,
    /// The first line that is another one, where there is one.
    second: Option<u32>,
}

/// The lines of the tasks that read streams, as far as it takes to tell of another one for each line.
#[derive(Drop)]
pub(crate) struct Readers {
    lines: BTreeMap<u32, Two>,
}

/// The lines of a stream's readers, once one more claim reads it for a task in `line`.
fn with_line(two: Option<Two>, line: u32) -> Two
    ensures { result ≡ with_line two line }
{
    match two {
        None => Two {
            first: line,
            second: None,
        },
        Some(two) => Two {
            first: two.first,
            second: second_line(two, line),
        },
    }
}

/// The second line, where one more claim has a line.
fn second_line(two: Two, line: u32) -> Option<u32>
    ensures { result ≡ second_line two line }
{
    if two.second.is_none() && two.first != line {
        Some(line)
    } else {
        two.second
    }
}

/// The first of two lines that is another one than this.
fn other_line(two: Option<Two>, at: u32) -> Option<u32>
    ensures { result ≡ other_line two at }
{
    let two = two?;
    if two.first == at {
        two.second
    } else {
        Some(two.first)
    }
}

impl Readers {
    ghost use Rattle.std.specs.Option.{option_or};
    ghost use Rattle.std.specs.Prelude.{None};
    ghost use Rattle.osview_sentences.specs.FirstReaders.{line_if_reads, lines_of, with_line_at};

    /// The readers before any claim.
    fn new(alloc: Global) -> Readers
        ensures { (stream : ℕ) → lines_of result stream ≡ None }
    {
        Readers {
            lines: BTreeMap::new(alloc),
        }
    }

    /// The lines of tasks that read a stream.
    fn of_stream(&self, stream: u32) -> Option<Two>
        ensures { result ≡ lines_of self.now stream }
    {
        self.lines.get(&stream).copied()
    }

    /// One more claim, which reads a stream for a task in a line.
    fn add(&mut self, stream: u32, line: u32) -> Result<(), Memory>
        ensures { OnOk result ((other : ℕ) → lines_of self.new other ≡ with_line_at stream line other (lines_of self.old other)) }
    {
        let two = with_line(self.of_stream(stream), line);
        self.lines.insert(stream, two)?;
        Ok(())
    }

    /// Notes one more claim, if it reads.
    fn note(&mut self, lines: &[u32], span: Span) -> Result<(), Memory>
        ensures { OnOk result ((stream at : ℕ) → found self.new stream at ≡ option_or (found self.old stream at) (line_if_reads lines.now stream at span)) }
    {
        if span.write {
            Ok(())
        } else {
            self.add(span.stream, line_of(lines, u32::from(span.frame)))
        }
    }

    /// The readers among some claims, by the line of each activation's task.
    pub(crate) fn of(alloc: Global, spans: &[Span], lines: &[u32]) -> Result<Readers, Memory>
        ensures { IfOk result (AreReaders spans.now lines.now) }
    {
        let mut readers = Readers::new(alloc);
        for span in spans {
            readers.note(lines, *span)?;
        }
        Ok(readers)
    }

    /// The line of another task that reads a stream, that of the first such claim.
    fn other(&self, stream: u32, at: u32) -> Option<u32>
        ensures { result ≡ found self.now stream at }
    {
        other_line(self.of_stream(stream), at)
    }
}

/// Adds that another task reads the stream.
fn add_reads(told: &mut Text, at: u32) -> Result<(), Memory>
    ensures { OnOk result (told.new ≡ told.old ++ reads_text at) }
{
    told.field(b"; the task in line ", at as u64)?;
    told.add(b" reads this stream too")?;
    Ok(())
}

/// Adds that another task reads the stream, if one does.
fn add_reads_if(told: &mut Text, at: Option<u32>) -> Result<(), Memory>
    ensures { OnOk result (told.new ≡ told.old ++ option_map_or reads_text at []) }
{
    match at {
        Some(at) => add_reads(told, at),
        None => Ok(()),
    }
}

/// Adds whether another task reads the stream on which one waits for what nobody writes.
fn add_shared(
    told: &mut Text,
    readers: &Readers,
    stream: u32,
    at: u32,
    supply: Supply,
) -> Result<(), Memory>
    ensures { OnOk result (told.new ≡ told.old ++ shared_text supply (found readers.now stream at)) }
{
    match supply {
        Supply::Nobody => add_reads_if(told, readers.other(stream, at)),
        Supply::Ended | Supply::Itself | Supply::Waiting { .. } => Ok(()),
    }
}

/// Adds what else is to be said of what became of an activation whose task stands in this line.
pub(crate) fn add_also(
    told: &mut Text,
    readers: &Readers,
    at: u32,
    fact: Fact,
) -> Result<(), Memory>
    ensures { OnOk result (told.new ≡ told.old ++ also_found readers.now at fact) }
{
    match fact {
        Fact::Trapped { .. } | Fact::OverBudget | Fact::Poisoned { .. } => Ok(()),
        Fact::Waits { stream, supply, .. } => add_shared(told, readers, stream, at, supply),
    }
}
