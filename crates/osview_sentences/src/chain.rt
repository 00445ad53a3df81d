ghost use Rattle.std.specs.Prelude.{◌≡◌, ◌<◌, ◌++◌, All, IfOk, OnOk, length};
ghost use Rattle.osview_sentences.specs.Contexts.{IsContext, IsToldRun};
ghost use Rattle.osview_sentences.specs.Whole.{became_text, member_line, member_lines};

use crate::amounts::Asked;
use crate::context::{Context, add_whole};
use crate::fact::{Fact, Sentence};
use crate::finding::{fact_of, line_of};
use crate::readers::Readers;
use crate::told_run::ToldRun;
use crate::wording::add_who;
use os_io::Memory;
use osview_text::Text;
use std::alloc::Global;

/// Adds what is said of an activation.
fn add_became(
    told: &mut Text,
    over: &Context<'_>,
    frame: u32,
    line: u32,
    fact: Option<Fact>,
) -> Result<(), Memory>
    requires { IsContext over.now }
    ensures { OnOk result (told.new ≡ told.old ++ became_text over.now.run.text.now over.now.run.names.now over.now.run.lines.now
        over.now.run.activations.now over.now.run.layout.now.input_len frame line fact) }
{
    match fact {
        Some(fact) => add_whole(
            told,
            over,
            Sentence {
                activation: frame,
                task_line: line,
                fact,
            },
        ),
        None => {
            add_who(told, frame, line)?;
            told.add(b"is done")
        }
    }
}

/// Adds the line of an activation.
fn add_member(told: &mut Text, over: &Context<'_>, frame: u32) -> Result<(), Memory>
    requires context { IsContext over.now }
    requires exists { frame < length over.now.run.activations.now }
    ensures { OnOk result (told.new ≡ told.old ++ member_line over.now.run.text.now over.now.run.names.now over.now.run.lines.now
        over.now.run.activations.now over.now.run.layout.now.input_len over.now.run.ends.now.ends frame) }
{
    let fact = fact_of(over.run.layout, over.run.ends, frame);
    add_became(told, over, frame, line_of(over.run.lines, frame), fact)?;
    told.add(b"\n")
}

/// The lines of some activations of a run, in the order in which they are listed: what became of each, and where it waits, for which
/// element of which stream, and who should give it.
pub fn chain_text(alloc: Global, run: &ToldRun<'_>, members: &[u32]) -> Result<Vec<u8>, Memory>
    requires is_run { IsToldRun run.now }
    requires exist { All (λ a. a < length run.now.activations.now) members.now }
    ensures { IfOk result (λ told. told.items ≡ member_lines run.now.text.now run.now.names.now run.now.lines.now
        run.now.activations.now run.now.layout.now.input_len run.now.ends.now.ends members.now) }
{
    let readers = Readers::of(alloc, run.layout.spans.as_slice(), run.lines)?;
    let asked = Asked::of(alloc, run.layout)?;
    let over = Context {
        run: *run,
        readers: &readers,
        asked: &asked,
    };
    let mut told = Text::new(alloc);
    for member in members {
        add_member(&mut told, &over, *member)?;
    }
    Ok(told.into_bytes())
}
