//! Running the activations of a portion, one by one.

ghost use Rattle.std.specs.Prelude.{◌≡◌, ◌∷◌, ◌++◌, ◌≤◌, [], IfOk, List, OnOk, false, true};
ghost use Rattle.flow_core_laws.specs.Limits.{budget_limit};
ghost use Rattle.flow_core_laws.specs.declared.activation.Activation.{Activation};
ghost use Rattle.epoch_run_portions.specs.Positions.{HavePassed};
ghost use Rattle.epoch_run_portions.specs.Running.{HaveRun, HaveRunSome, MayRun};

use crate::positions::Positions;
use epoch_run_in_order::Apart;
use flow_core_laws::Activation;
use os_code::Code;
use os_io::Memory;
use std::alloc::Global;

/// Runs activations one by one behind those that were passed, until one of them finds not all that it reads. It answers whether it came to
/// the last of them. After `Memory` the portion is to be given up.
pub(crate) fn run_all(
    positions: &mut Positions,
    apart: &mut Apart,
    alloc: Global,
    code: &Code,
    activations: &[Activation],
    input: &[u8],
    budget: u64,
    latest: u32,
) -> Result<bool, Memory>
    requires budget { budget ≤ budget_limit }
    requires next { MayRun code.now activations.now positions.old apart.old }
    ensures ran { IfOk result (HaveRunSome code.now activations.now input.now budget positions.old apart.old apart.new) }
    ensures passed { IfOk result (λ goes_on. goes_on ≡ true → (before : List Activation) → HavePassed code.now.streams before positions.old
        → HavePassed code.now.streams (before ++ activations.now) positions.new) }
{
    for activation in activations {
        let goes_on = run_next(
            positions, apart, alloc, code, activation, input, budget, latest,
        )?;
        if !goes_on {
            return Ok(false);
        }
    }
    Ok(true)
}

/// Runs the next activation. Where not all that it reads is there, the portion begins anew behind it, unless more activations than `latest` were
/// passed by then. It answers whether the portion goes on.
fn run_next(
    positions: &mut Positions,
    apart: &mut Apart,
    alloc: Global,
    code: &Code,
    activation: &Activation,
    input: &[u8],
    budget: u64,
    latest: u32,
) -> Result<bool, Memory>
    requires budget { budget ≤ budget_limit }
    requires next { MayRun code.now (activation.now ∷ []) positions.old apart.old }
    ensures went { IfOk result (λ goes_on. goes_on ≡ true
        → HaveRun code.now (activation.now ∷ []) input.now budget positions.old apart.old apart.new) }
    ensures stopped { IfOk result (λ goes_on. goes_on ≡ false → HaveRun code.now [] input.now budget positions.old apart.old apart.new) }
    ensures passed { OnOk result ((before : List Activation) → HavePassed code.now.streams before positions.old
        → HavePassed code.now.streams (before ++ activation.now ∷ []) positions.new) }
{
    positions.pass(activation)?;
    let ran = apart.run(code, activation, positions.spans.as_slice(), input, budget)?;
    if ran {
        return Ok(true);
    }
    if positions.count > latest {
        return Ok(false);
    }
    *apart = Apart::behind(
        alloc,
        code,
        positions.count,
        positions.cursors.writes.as_slice(),
    )?;
    Ok(true)
}
