ghost use Rattle.std.specs.Prelude.{◌≡◌, [], ◌≤◌, ◌++◌, List, OnOk, length};
ghost use Rattle.flow_core_laws.specs.declared.activation.Activation.{Activation};
ghost use Rattle.stream_match_layouts.specs.Layout.{IsLayoutOf, TakesMore};
ghost use Rattle.control_run.specs.Stretches.{RunSoFar};
ghost use Rattle.epoch_run.specs.NextSpans.{ComeBehind};
ghost use Rattle.epoch_run.specs.Standing.{HasAdvanced, HasCreatedNext};

use crate::beside::advance;
use crate::next_spans::NextSpans;
use crate::size::EpochSize;
use control_run::{ControlRun, take_out};
use flow_core_laws::Activation;
use os_io::{List, Memory};
use std::alloc::Global;
use stream_match::Layout;

/// Has the control program create the new activations of an epoch behind those of a list, and adds their positions to the layout of all.
/// After `Memory` both may hold anything, and the caller gives the run up.
pub(crate) fn create_behind(
    control: &mut ControlRun<'_>,
    activations: &mut List<Activation>,
    layout: &mut Layout,
    size: EpochSize,
) -> Result<(), Memory>
    requires some { 1 ≤ size.activations }
    requires takes { (after : RunSoFar) (next : List Activation) → HasAdvanced size.activations control.old after [] next → TakesMore layout.old next }
    ensures next { OnOk result (HasCreatedNext size.activations control.old control.new activations.old activations.new layout.old layout.new) }
    ensures streams { OnOk result (length layout.new.writers ≡ length layout.old.writers) }
    ensures input { OnOk result (layout.new.input_len ≡ layout.old.input_len) }
{
    let first = activations.len();
    advance(control, activations, size)?;
    let (_, next) = activations.as_slice().split_at(first);
    layout.append(next)?;
    Ok(())
}

/// Adds the next activations to a list of the last ones so far, and their positions to the layout of all. After `Memory` both may hold
/// anything, and the caller gives the run up.
pub(crate) fn add(
    alloc: Global,
    activations: &mut List<Activation>,
    layout: &mut Layout,
    next: List<Activation>,
    laid: NextSpans,
) -> Result<(), Memory>
    requires takes { TakesMore layout.old next }
    requires laid { ComeBehind layout.old next laid }
    ensures activations { OnOk result (activations.new ≡ activations.old ++ next) }
    ensures laid { OnOk result ((before : List Activation) → IsLayoutOf layout.old before → IsLayoutOf layout.new (before ++ next)) }
    ensures streams { OnOk result (length layout.new.writers ≡ length layout.old.writers) }
    ensures input { OnOk result (layout.new.input_len ≡ layout.old.input_len) }
{
    join(layout, next.as_slice(), laid)?;
    put_behind(alloc, activations, next)
}

/// Puts the positions of the next activations behind the layout.
fn join(layout: &mut Layout, next: &[Activation], laid: NextSpans) -> Result<(), Memory>
    requires takes { TakesMore layout.old next.now }
    requires laid { ComeBehind layout.old next.now laid }
    ensures laid { OnOk result ((before : List Activation) → IsLayoutOf layout.old before → IsLayoutOf layout.new (before ++ next.now)) }
    ensures streams { OnOk result (length layout.new.writers ≡ length layout.old.writers) }
    ensures input { OnOk result (layout.new.input_len ≡ layout.old.input_len) }
{
    laid.join_to(layout)?;
    Ok(())
}

/// Puts all activations of a list behind those of another.
fn put_behind(
    alloc: Global,
    activations: &mut List<Activation>,
    next: List<Activation>,
) -> Result<(), Memory>
    ensures { OnOk result (activations.new ≡ activations.old ++ next) }
{
    if activations.len() == 0 {
        *activations = next;
        return Ok(());
    }
    move_all(alloc, activations, next)
}

/// Moves all activations of a list behind those of another.
fn move_all(
    alloc: Global,
    activations: &mut List<Activation>,
    mut next: List<Activation>,
) -> Result<(), Memory>
    ensures { OnOk result (activations.new ≡ activations.old ++ next) }
{
    activations.reserve(next.len())?;
    for number in 0..next.len() {
        let activation = take_out(alloc, &mut next, number);
        activations.push(activation)?;
    }
    Ok(())
}
