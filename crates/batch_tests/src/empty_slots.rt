//! A batch that is handed a slot which is still empty.

ghost use Rattle.std.specs.Prelude.{◌≡◌, false, IfOk, length};
ghost use Rattle.epoch_run_batches_table.specs.Running.{run_of};
ghost use Rattle.flow_core_laws.specs.StandsFor.{StandsFor};
ghost use Rattle.lawful_layouts.specs.Lasts.{last_outcome};
ghost use Rattle.stream_match_layouts.specs.Layout.{IsLayout, IsLayoutOf};

use crate::cases::{Case, Shape, activations_of, input_of};
use crate::runs::{nothing, range_of};
use epoch_run_batches::{
    Buffers, Local, Meaning, SlotContent, Sources, Workload, fill_slot, run_batch,
};
use flow_core::{Activation, Plan};
use lawful_layouts::{Lasts, lawful_layout};
use os_io::{List, Memory};
use std::alloc::Global;
use std::marker::{Brand, PhantomData};
use std::process::Abort;
use std::sync::OnceLock;
use std::test::Fail;
use stream_match::build;
use stream_match_layouts::Layout;

/// A chain of six.
const CHAIN: Case = Case {
    shape: Shape::Chain,
    activations: 6,
    input: 4,
    some_fail: false,
};

/// The second half of a chain reads what the first half wrote: while its slot is empty, none of the second half runs, and then all do.
#[test]
fn an_empty_slot_leaves_out_what_reads_from_it(rt: HostRuntime) -> Result<(), Fail> {
    let alloc = rt.alloc();
    let input = input_of(alloc, CHAIN.input)?;
    let activations = activations_of(alloc, CHAIN)?;
    let Some(layout) = lawful_layout(alloc, 4, CHAIN.input, activations.as_slice())? else {
        return Err(Fail::from("the activations aren't lawful"));
    };
    if input.len() != layout.input_len as usize {
        return Err(Fail::from("the input has another length"));
    }
    let plan = build(alloc, &layout, input.as_slice())?;
    let ran = run_halves(
        alloc,
        activations.as_slice(),
        &layout,
        &plan,
        input.as_slice(),
    )?;
    assert!(rt; ran == [0, 3, 3]);
    Ok(())
}

/// How many activations of each half run: of the second one before the first one's slot is full, of the first one, and of the second one again.
fn run_halves(
    alloc: Global,
    activations: &[Activation],
    layout: &Layout,
    plan: &Plan,
    input: &[u8],
) -> Result<[usize; 3], Memory>
    requires layout { IsLayout layout.now }
    requires laid { IsLayoutOf layout.now activations.now }
    requires stands { StandsFor plan.now activations.now input.now }
{
    halves::<Brand>(alloc, activations, layout, plan, input)
}

/// The same of the run that is picked.
fn halves<J: Meaning>(
    alloc: Global,
    activations: &[Activation],
    layout: &Layout,
    plan: &Plan,
    input: &[u8],
) -> Result<[usize; 3], Memory>
    requires run { J.run ≡ run_of activations.now input.now (last_outcome plan.now false) }
    requires layout { IsLayout layout.now }
    requires laid { IsLayoutOf layout.now activations.now }
    requires stands { StandsFor plan.now activations.now input.now }
{
    let mut slots: Vec<OnceLock<SlotContent<J>>> = Vec::with_capacity(alloc, 2)?;
    slots.push(OnceLock::new())?;
    slots.push(OnceLock::new())?;
    let too_early = half(alloc, activations, layout, plan, input, slots.as_slice(), 1)?;
    let first = half(alloc, activations, layout, plan, input, slots.as_slice(), 0)?;
    let second = half(alloc, activations, layout, plan, input, slots.as_slice(), 1)?;
    Ok([too_early, first, second])
}

/// How many activations of a half run. Their slot is filled, where some do.
fn half<J: Meaning>(
    alloc: Global,
    activations: &[Activation],
    layout: &Layout,
    plan: &Plan,
    input: &[u8],
    slots: &[OnceLock<SlotContent<J>>],
    number: u32,
) -> Result<usize, Memory>
    requires run { J.run ≡ run_of activations.now input.now (last_outcome plan.now false) }
    requires layout { IsLayout layout.now }
    requires laid { IsLayoutOf layout.now activations.now }
    requires stands { StandsFor plan.now activations.now input.now }
{
    let lasts = Lasts {
        plan,
        some_fail: false,
    };
    let bodies = Local { bodies: &lasts };
    let workload = Workload {
        first: 0,
        layout,
        bodies: &bodies,
    };
    let before = nothing(alloc);
    let sources = Sources {
        input,
        before: &before,
        slots,
    };
    let numbers = range_of(
        alloc,
        number.saturating_mul(3),
        number.saturating_mul(3).saturating_add(3),
    )?;
    let from = range_of(alloc, 0, number)?;
    let outcome = run_batch(
        alloc,
        &workload,
        &sources,
        numbers.as_slice(),
        from.as_slice(),
        &mut Buffers::new(alloc),
        &mut (),
    )?;
    let ran = outcome.ended.len();
    if ran > 0 {
        if let Some(slot) = slots.get(number as usize) {
            fill_slot(
                slot,
                SlotContent {
                    outcome,
                    of: PhantomData,
                },
            );
        }
    }
    Ok(ran)
}
