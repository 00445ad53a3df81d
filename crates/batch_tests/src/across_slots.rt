//! A span whose elements lie in the slots of two batches.

ghost use Rattle.flow_core_laws.specs.IsSound.{IsSound};
ghost use Rattle.flow_core_laws.specs.StandsFor.{StandsFor};
ghost use Rattle.stream_match_layouts.specs.Layout.{IsLayout, IsLayoutOf};

use crate::cases::{Case, Shape, activations_of, input_of};
use crate::runs::{are_elements, are_ends, outcomes_of};
use epoch_run_batches_table::Batch;
use flow_core::{Activation, Plan, execute_one};
use lawful_layouts::{Lasts, lawful_layout};
use os_io::{List, Memory};
use std::alloc::Global;
use std::process::Abort;
use std::test::Fail;
use std::thread::Threads;
use stream_match::build;
use stream_match_layouts::Layout;

/// How the first three of four activations are cut into two batches. The last one is a batch of its own, and looks in the slots of both.
#[derive(Clone, Copy)]
struct Cut {
    first: &'static [u32],
    second: &'static [u32],
}

static CUTS: [Cut; 3] = [
    // The span begins in one slot and ends in the other.
    Cut {
        first: &[0, 1],
        second: &[2],
    },
    // The slot that has its first and its last element has a gap between them.
    Cut {
        first: &[0, 2],
        second: &[1],
    },
    // Its first element is in the slot that is looked in last.
    Cut {
        first: &[1, 2],
        second: &[0],
    },
];

/// An activation that reads what two batches wrote to one stream comes to what one thread comes to, also where some of it is poison.
#[test]
fn a_span_across_two_slots_is_read(rt: HostRuntime) -> Result<(), Fail> {
    for some_fail in [false, true] {
        let case = Case {
            shape: Shape::Join,
            activations: 4,
            input: 3,
            some_fail,
        };
        comes_to_the_same(&rt, rt.alloc(), case)?;
    }
    Ok(())
}

/// Whether the batches of each cut come to what one thread comes to.
fn comes_to_the_same<R: Threads + Abort + Sync>(
    rt: &R,
    alloc: Global,
    case: Case,
) -> Result<(), Fail> {
    let input = input_of(alloc, case.input)?;
    let activations = activations_of(alloc, case)?;
    let Some(layout) = lawful_layout(alloc, 4, case.input, activations.as_slice())? else {
        return Err(Fail::from("the activations aren't lawful"));
    };
    if input.len() != layout.input_len as usize {
        return Err(Fail::from("the input has another length"));
    }
    let plan = build(alloc, &layout, input.as_slice())?;
    come_to_the_same(
        rt,
        alloc,
        case.some_fail,
        activations.as_slice(),
        &layout,
        &plan,
        input.as_slice(),
    )
}

/// The same over the plan of all activations.
fn come_to_the_same<R: Threads + Abort + Sync>(
    rt: &R,
    alloc: Global,
    some_fail: bool,
    activations: &[Activation],
    layout: &Layout,
    plan: &Plan,
    input: &[u8],
) -> Result<(), Fail>
    requires layout { IsLayout layout.now }
    requires laid { IsLayoutOf layout.now activations.now }
    requires sound { IsSound plan.now }
    requires stands { StandsFor plan.now activations.now input.now }
{
    let bodies = Lasts { plan, some_fail };
    let one = execute_one(alloc, plan, &bodies)?;
    for cut in &CUTS {
        let batches = batches_of(alloc, *cut)?;
        let outcomes = outcomes_of(
            rt,
            alloc,
            some_fail,
            activations,
            layout,
            plan,
            input,
            batches.as_slice(),
            2,
        )?;
        are_ends(rt, outcomes.as_slice(), one.ends.as_slice());
        are_elements(rt, outcomes.as_slice(), one.output.as_slice());
    }
    Ok(())
}

/// The batches of a cut.
fn batches_of(alloc: Global, cut: Cut) -> Result<List<Batch>, Memory> {
    let mut batches = List::new(alloc);
    batches.push(batch_of(alloc, cut.first, &[])?)?;
    batches.push(batch_of(alloc, cut.second, &[])?)?;
    batches.push(batch_of(alloc, &[3], &[0, 1])?)?;
    Ok(batches)
}

/// A batch of these activations, which looks in these slots.
fn batch_of(alloc: Global, numbers: &[u32], from: &[u32]) -> Result<Batch, Memory> {
    Ok(Batch {
        numbers: List::from_slice(alloc, numbers)?,
        from: List::from_slice(alloc, from)?,
    })
}
