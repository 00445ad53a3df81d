ghost use Rattle.std.specs.Prelude.{◌≡◌, ◌++◌, [], OnOk, codes};
ghost use Rattle.osview_sentences.specs.Names.{called, stream_text};
ghost use Rattle.osview_sentences.specs.Sentences.{element_text, fact_text, from_text, given_text, sentence_text, supply_text};
ghost use Rattle.osview_sentences.specs.Sentences.{trap_text, trap_words, waits_text, who_text};

use crate::fact::{Fact, Sentence, Supply};
use crate::stream_name::{StreamName, name_of};
use c_int::{OperatorTrap, Trap};
use os_io::Memory;
use osview_text::Text;

/// A trap in words.
fn trap_words(trap: Trap) -> &'static [u8]
    ensures { result.now ≡ trap_words trap }
{
    match trap {
        Trap::Operator(OperatorTrap::Overflow) => b"overflow, the result is no int",
        Trap::Operator(OperatorTrap::DivisorZero) => b"division by zero",
        Trap::Operator(OperatorTrap::Shift) =>
            b"a shift by less than 0 or more than 31, or to the left of a negative number or out of int",
        Trap::Index => b"the index is outside the array, the view or the stream array",
        Trap::NoByte => b"an element for osout is no byte",
        Trap::WindowSize => b"the size of the window is outside 1 to 65536",
        Trap::Move => b"the burst or the tick is outside 0 to 65536",
        Trap::OutputBurst => b"the burst of the output window isn't its size",
    }
}

/// A trap in words, by its code.
pub(crate) fn trap_text(code: u8) -> &'static [u8]
    ensures { result.now ≡ trap_text code }
{
    match Trap::of_code(code) {
        Some(trap) => trap_words(trap),
        None => b"a code that no trap has",
    }
}

/// Adds what a stream is called by its name.
fn add_called(told: &mut Text, text: &[u8], stream: u32, name: StreamName) -> Result<(), Memory>
    ensures { OnOk result (told.new ≡ told.old ++ called text.now stream name) }
{
    told.add(name.bytes(text))?;
    if name.count == 1 {
        return Ok(());
    }
    told.field(b"[", stream.saturating_sub(name.first) as u64)?;
    told.add(b"]")
}

/// Adds what a stream is called.
pub(crate) fn add_stream(
    told: &mut Text,
    text: &[u8],
    names: &[StreamName],
    stream: u32,
) -> Result<(), Memory>
    ensures { OnOk result (told.new ≡ told.old ++ stream_text text.now names.now stream) }
{
    match name_of(names, stream) {
        Some(name) => add_called(told, text, stream, name),
        None => told.number(stream as u64),
    }
}

/// Adds that an activation should give an element, and how that one fares.
fn add_giver(told: &mut Text, giver: u32, fares: &[u8]) -> Result<(), Memory>
    ensures { OnOk result (told.new ≡ told.old ++ from_text giver fares.now) }
{
    told.field(b" from activation ", giver as u64)?;
    told.add(b", which ")?;
    told.add(fares)?;
    Ok(())
}

/// Adds who should give an element.
fn add_supply(told: &mut Text, supply: Supply) -> Result<(), Memory>
    ensures { OnOk result (told.new ≡ told.old ++ supply_text supply) }
{
    match supply {
        Supply::Ended => told.add(b", which stands past the end of the input"),
        Supply::Nobody => told.add(b", which no task writes"),
        Supply::Itself => Ok(()),
        Supply::Waiting { giver } => add_giver(told, giver, b"waits too"),
    }
}

/// Adds where a trap was hit, and which.
fn add_trap(told: &mut Text, code: u8, line: u32) -> Result<(), Memory>
    ensures { OnOk result (told.new ≡ told.old ++ fact_text [] [] (Fact.Trapped code line)) }
{
    told.field(b"trapped in line ", line as u64)?;
    told.add(b": ")?;
    told.add(trap_text(code))
}

/// Adds that it never ran, and by which activation.
fn add_poisoned(told: &mut Text, root: u32) -> Result<(), Memory>
    ensures { OnOk result (told.new ≡ told.old ++ fact_text [] [] (Fact.Poisoned root)) }
{
    told.field(b"never ran, since activation ", root as u64)?;
    told.add(b" failed")
}

/// Adds for which element it waits, but for who should give it.
fn add_element(
    told: &mut Text,
    text: &[u8],
    names: &[StreamName],
    stream: u32,
    position: u64,
) -> Result<(), Memory>
    ensures { OnOk result (told.new ≡ told.old ++ element_text (stream_text text.now names.now stream) position) }
{
    told.field(b"element ", position)?;
    told.add(b" of stream ")?;
    add_stream(told, text, names, stream)?;
    Ok(())
}

/// Adds for which element of others it waits, and who should give it.
fn add_given(
    told: &mut Text,
    text: &[u8],
    names: &[StreamName],
    stream: u32,
    position: u64,
    supply: Supply,
) -> Result<(), Memory>
    ensures { OnOk result (told.new ≡ told.old ++ given_text (stream_text text.now names.now stream) position supply) }
{
    told.add(b"waits for ")?;
    add_element(told, text, names, stream, position)?;
    add_supply(told, supply)?;
    Ok(())
}

/// Adds that a stream has no first element.
fn add_no_first(
    told: &mut Text,
    text: &[u8],
    names: &[StreamName],
    stream: u32,
) -> Result<(), Memory>
    ensures { OnOk result (told.new ≡ told.old ++ (codes "waits for itself: stream " ++ stream_text text.now names.now stream
        ++ codes " has no first element")) }
{
    told.add(b"waits for itself: stream ")?;
    add_stream(told, text, names, stream)?;
    told.add(b" has no first element")?;
    Ok(())
}

/// Adds for which element it waits that it should write.
fn add_own(
    told: &mut Text,
    text: &[u8],
    names: &[StreamName],
    stream: u32,
    position: u64,
) -> Result<(), Memory>
    ensures { OnOk result (told.new ≡ told.old ++ (codes "waits for itself: it writes " ++ element_text (stream_text text.now names.now stream) position)) }
{
    told.add(b"waits for itself: it writes ")?;
    add_element(told, text, names, stream, position)?;
    Ok(())
}

/// Adds that it waits for itself.
fn add_itself(
    told: &mut Text,
    text: &[u8],
    names: &[StreamName],
    stream: u32,
    position: u64,
) -> Result<(), Memory>
    ensures { OnOk result (told.new ≡ told.old ++ waits_text (stream_text text.now names.now stream) position Supply.Itself) }
{
    if position == 0 {
        add_no_first(told, text, names, stream)
    } else {
        add_own(told, text, names, stream, position)
    }
}

/// Adds for which element it waits, and who should give it.
fn add_waits(
    told: &mut Text,
    text: &[u8],
    names: &[StreamName],
    stream: u32,
    position: u64,
    supply: Supply,
) -> Result<(), Memory>
    ensures { OnOk result (told.new ≡ told.old ++ waits_text (stream_text text.now names.now stream) position supply) }
{
    match supply {
        Supply::Itself => add_itself(told, text, names, stream, position),
        Supply::Ended | Supply::Nobody | Supply::Waiting { .. } => add_given(
            told, text, names, stream, position, supply,
        ),
    }
}

/// Adds what became of an activation.
fn add_fact(told: &mut Text, text: &[u8], names: &[StreamName], fact: Fact) -> Result<(), Memory>
    ensures { OnOk result (told.new ≡ told.old ++ fact_text text.now names.now fact) }
{
    match fact {
        Fact::Trapped { code, line } => add_trap(told, code, line),
        Fact::OverBudget => told.add(b"used up its turns"),
        Fact::Poisoned { root } => add_poisoned(told, root),
        Fact::Waits {
            stream,
            position,
            supply,
        } => add_waits(told, text, names, stream, position, supply),
    }
}

/// Adds of which activation something is said.
pub(crate) fn add_who(told: &mut Text, activation: u32, line: u32) -> Result<(), Memory>
    ensures { OnOk result (told.new ≡ told.old ++ who_text activation line) }
{
    told.field(b"activation ", activation as u64)?;
    told.field(b", of the task in line ", line as u64)?;
    told.add(b", ")?;
    Ok(())
}

/// Adds what became of an activation.
pub(crate) fn add_sentence(
    told: &mut Text,
    text: &[u8],
    names: &[StreamName],
    sentence: Sentence,
) -> Result<(), Memory>
    ensures { OnOk result (told.new ≡ told.old ++ sentence_text text.now names.now sentence) }
{
    add_who(told, sentence.activation, sentence.task_line)?;
    add_fact(told, text, names, sentence.fact)?;
    Ok(())
}
