ghost use Rattle.std.specs.Prelude.{◌≡◌, ◌≤◌, All, IfOk, length};
ghost use Rattle.flow_core_laws.specs.Limits.{input_limit};
ghost use Rattle.collector.specs.Written.{IsByteIfThere};
ghost use Rattle.epoch_run.specs.Run.{created};
ghost use Rattle.epoch_run_bodies.specs.Frames.{code_ends};
ghost use Rattle.os_code.specs.Codes.{parts_of};
ghost use Rattle.os_code.specs.Outcomes.{main_control};
ghost use Rattle.os_code.specs.Tasks.{Fits};
ghost use Rattle.osrun_core_run.specs.RunOf.{AreTerms, budgets_of};
ghost use Rattle.stream_match_layouts.specs.Lawful.{AreLawful};
ghost use Rattle.stream_match_layouts.specs.Layout.{IsLayout, IsLayoutOf};

use crate::body_laws::{codes_give_bytes, outputs_are_bytes};
use epoch_run::{Budgets, RunResult, run_epochs};
use os_code::Code;
use os_io::Memory;
use osrun_core_jobs::Terms;
use std::alloc::Global;
use std::thread::Threads;
use task_workers::Gate;

/// Runs a code over an input in epochs: the activations that its `main` creates, their positions, and what they come to,
/// whatever the number of workers. Its output has only bytes.
pub fn run_in_epochs<R: Threads + Sync, G: Gate>(
    rt: &R,
    alloc: Global,
    terms: Terms,
    code: &Code,
    input: &[u8],
    gate: &G,
) -> Result<RunResult, Memory>
    requires within { AreTerms terms }
    requires few { length input.now ≤ input_limit }
    ensures layout { IfOk result (λ run. IsLayoutOf run.layout (created (parts_of code.now) input.now (budgets_of terms))) }
    ensures whole { IfOk result (λ run. IsLayout run.layout) }
    ensures input { IfOk result (λ run. run.layout.input_len ≡ length input.now) }
    ensures control { IfOk result (λ run. run.control ≡ (main_control (parts_of code.now) (length input.now) terms.control_budget).end) }
    ensures ends { IfOk result (λ run. run.ends
        ≡ code_ends (parts_of code.now) (created (parts_of code.now) input.now (budgets_of terms)) input.now terms.task_budget) }
    ensures fit { IfOk result (λ run. All (Fits (parts_of code.now)) (created (parts_of code.now) input.now (budgets_of terms))) }
    ensures lawful { IfOk result (λ run. AreLawful code.now.streams (created (parts_of code.now) input.now (budgets_of terms))) }
    ensures bytes { IfOk result (λ run. All IsByteIfThere run.ends.output) }
{
    let budgets = Budgets {
        task: terms.task_budget,
        control: terms.control_budget,
    };
    codes_give_bytes();
    outputs_are_bytes();
    run_epochs(rt, alloc, code, input, budgets, terms.workers, gate)
}
