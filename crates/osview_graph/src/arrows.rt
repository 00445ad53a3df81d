ghost use Rattle.std.specs.Prelude.{◌≡◌, ◌++◌, OnOk};
ghost use Rattle.osview_graph.specs.Arrows.{arrows_of, reading_text, uses, writing_text};
ghost use Rattle.osview_graph.specs.Tally.{arrow_by, arrow_for};

use crate::drawn::Drawn;
use crate::labels::add_span;
use crate::tally::{Sizes, Tally};
use crate::uses::{Use, uses};
use os_io::Memory;
use osview_text::Text;
use std::alloc::Global;

/// Adds the ends of the arrow from a task to a stream.
fn add_writing(told: &mut Text, one: Use) -> Result<(), Memory>
    ensures { OnOk result (told.new ≡ told.old ++ writing_text one) }
{
    told.field(b"  task", u64::from(one.task))?;
    told.field(b" -> stream", u64::from(one.stream))?;
    told.add(b" [label=\"")
}

/// Adds the ends of the arrow from a stream to a task.
fn add_reading(told: &mut Text, one: Use) -> Result<(), Memory>
    ensures { OnOk result (told.new ≡ told.old ++ reading_text one) }
{
    told.field(b"  stream", u64::from(one.stream))?;
    told.field(b" -> task", u64::from(one.task))?;
    told.add(b" [label=\"")
}

/// Adds the arrow of one with these sizes.
fn add_arrow(told: &mut Text, one: Use, sizes: Sizes) -> Result<(), Memory>
    ensures { OnOk result (told.new ≡ told.old ++ arrow_by one sizes) }
{
    if one.write {
        add_writing(told, one)?;
        add_span(told, sizes.least_horizon, sizes.greatest_horizon)?;
        return told.add(b"\"];\n");
    }
    add_reading(told, one)?;
    add_span(told, sizes.least_horizon, sizes.greatest_horizon)?;
    told.add(b", burst ")?;
    add_span(told, sizes.least_burst, sizes.greatest_burst)?;
    told.add(b"\"];\n")
}

/// Adds the arrow of one with the sizes that are left, if there are any.
fn add_if_left(told: &mut Text, one: Use, sizes: Option<Sizes>) -> Result<(), Memory>
    ensures { OnOk result (told.new ≡ told.old ++ arrow_for one sizes) }
{
    match sizes {
        Some(sizes) => add_arrow(told, one, sizes),
        None => Ok(()),
    }
}

/// Adds the arrows of some uses.
fn add_all(alloc: Global, told: &mut Text, all: &[Use]) -> Result<(), Memory>
    ensures { OnOk result (told.new ≡ told.old ++ arrows_of all.now) }
{
    let mut tally = Tally::of(alloc, all)?;
    for one in all {
        let sizes = tally.take(*one);
        add_if_left(told, *one, sizes)?;
    }
    Ok(())
}

/// Adds the arrows between tasks and streams.
pub(crate) fn add_arrows(alloc: Global, told: &mut Text, drawn: &Drawn<'_>) -> Result<(), Memory>
    ensures { OnOk result (told.new ≡ told.old ++ arrows_of (uses drawn.now.activations.now)) }
{
    let all = uses(alloc, drawn.activations)?;
    add_all(alloc, told, &all)
}
