ghost use Rattle.std.specs.Prelude.{◌≡◌, ◌++◌, OnOk};
ghost use Rattle.osview_sentences.specs.Amounts.{amounts_text};
ghost use Rattle.osview_sentences.specs.Contexts.{IsContext, say_over};
ghost use Rattle.osview_sentences.specs.Readers.{also_text, spans_of};

use crate::amounts::{Asked, add_amounts};
use crate::fact::{Fact, Sentence};
use crate::readers::{Readers, add_also};
use crate::told_run::ToldRun;
use crate::wording::add_sentence;
use os_io::Memory;
use osview_text::Text;

/// What sentences are told over.
#[derive(Clone, Copy)]
pub(crate) struct Context<'a> {
    pub(crate) run: ToldRun<'a>,
    /// Which tasks read which streams, by the claims of the run's activations.
    pub(crate) readers: &'a Readers,
    /// Up to which position the claims read each stream.
    pub(crate) asked: &'a Asked,
}

/// Adds what is said of the numbers of elements where an activation waits.
fn add_amounts_over(
    told: &mut Text,
    over: &Context<'_>,
    frame: u32,
    fact: Fact,
) -> Result<(), Memory>
    requires { IsContext over.now }
    ensures { OnOk result (told.new ≡ told.old ++ amounts_text over.now.run.activations.now over.now.run.layout.now.input_len frame fact) }
{
    add_amounts(told, &over.run, over.asked, frame, fact)
}

/// Adds what else is to be said of what became of an activation whose task stands in this line.
fn add_also_over(told: &mut Text, over: &Context<'_>, at: u32, fact: Fact) -> Result<(), Memory>
    requires { IsContext over.now }
    ensures { OnOk result (told.new ≡ told.old ++ also_text (spans_of over.now.run.activations.now) over.now.run.lines.now at fact) }
{
    add_also(told, over.readers, at, fact)
}

/// Adds all that is said of an activation that isn't done.
pub(crate) fn add_whole(
    told: &mut Text,
    over: &Context<'_>,
    sentence: Sentence,
) -> Result<(), Memory>
    requires { IsContext over.now }
    ensures { OnOk result (told.new ≡ told.old ++ say_over over.now.run sentence) }
{
    add_sentence(told, over.run.text, over.run.names, sentence)?;
    add_amounts_over(told, over, sentence.activation, sentence.fact)?;
    add_also_over(told, over, sentence.task_line, sentence.fact)
}
