ghost use Rattle.std.specs.Prelude.{◌≡◌, ◌≤◌, All, IfOk, length};
ghost use Rattle.flow_core_laws.specs.Limits.{input_limit, workers_limit};
ghost use Rattle.os_code.specs.Codes.{parts_of};
ghost use Rattle.os_code.specs.Outcomes.{main_control};
ghost use Rattle.os_code.specs.Tasks.{Fits};
ghost use Rattle.stream_match_layouts.specs.Lawful.{AreLawful};
ghost use Rattle.stream_match_layouts.specs.Layout.{IsLayout, IsLayoutOf};
ghost use Rattle.epoch_run_bodies.specs.Frames.{code_ends};
ghost use Rattle.epoch_run.specs.Run.{AreBudgets, created};

use crate::held::Held;
use crate::result::{Budgets, RunResult};
use crate::room::keep_room_in_place;
use crate::size::EpochSize;
use crate::standing::Standing;
use crate::way::Way;
use os_code::Code;
use os_io::Memory;
use std::alloc::Global;
use std::thread::Threads;
use task_workers::Gate;

/// Runs a code over an input in epochs of at most 4,096 new activations, and of fewer where their windows are large, or the
/// workers few: while 2 to 64 workers run one epoch, the control program creates the activations of the next one; one worker does the one
/// after the other. What it comes to is the data-flow meaning of all activations that the control program creates.
///
/// Where nobody waits, the activations run in control order instead: one after the other, without a plan, until one of them doesn't find there
/// what it reads. By several workers they do so where bodies are short, and are portioned out among these where that pays: then all activations are
/// created at once. Where one of them has to wait, the run goes on behind those that ran, and the others are created again as they come.
///
/// The gate is called as in `execute`, with the number of a frame in its epoch, and in control order with worker 0 and the number of an
/// activation in its stretch; of activations that a portion runs it isn't told. Their positions, their ends and the output are held of the whole
/// run, the activations themselves until all so far have ended, a plan and its cells of one epoch at a time.
pub fn run_epochs<R: Threads + Sync, G: Gate>(
    rt: &R,
    alloc: Global,
    code: &Code,
    input: &[u8],
    budgets: Budgets,
    workers: u32,
    gate: &G,
) -> Result<RunResult, Memory>
    requires workers { (1 ≤ workers) × (workers ≤ workers_limit) }
    requires input { length input.now ≤ input_limit }
    requires budgets { AreBudgets budgets }
    // the layout of all activations that `main` creates, and how it ended
    ensures layout { IfOk result (λ run. IsLayoutOf run.layout (created (parts_of code.now) input.now budgets)) }
    ensures whole { IfOk result (λ run. IsLayout run.layout) }
    ensures streams { IfOk result (λ run. length run.layout.writers ≡ code.now.streams) }
    ensures input { IfOk result (λ run. run.layout.input_len ≡ length input.now) }
    ensures control { IfOk result (λ run. run.control ≡ (main_control (parts_of code.now) (length input.now) budgets.control).end) }
    // how they end, and the elements of the output
    ensures ends { IfOk result (λ run. run.ends
        ≡ code_ends (parts_of code.now) (created (parts_of code.now) input.now budgets) input.now budgets.task) }
    // each of them fits the code, and they are what a layout takes
    ensures fit { IfOk result (λ run. All (Fits (parts_of code.now)) (created (parts_of code.now) input.now budgets)) }
    ensures lawful { IfOk result (λ run. AreLawful code.now.streams (created (parts_of code.now) input.now budgets)) }
{
    let size = EpochSize::by_workers(workers);
    run_by(
        rt,
        alloc,
        code,
        input,
        budgets,
        workers,
        gate,
        size,
        Way::InOrder,
    )
}

/// Runs a code over an input in epochs of this size, as `run_epochs` does, and never in control order.
pub fn run_epochs_of<R: Threads + Sync, G: Gate>(
    rt: &R,
    alloc: Global,
    code: &Code,
    input: &[u8],
    budgets: Budgets,
    workers: u32,
    gate: &G,
    size: EpochSize,
) -> Result<RunResult, Memory>
    requires workers { (1 ≤ workers) × (workers ≤ workers_limit) }
    requires input { length input.now ≤ input_limit }
    requires budgets { AreBudgets budgets }
    requires some { 1 ≤ size.activations }
    // the layout of all activations that `main` creates, and how it ended
    ensures layout { IfOk result (λ run. IsLayoutOf run.layout (created (parts_of code.now) input.now budgets)) }
    ensures whole { IfOk result (λ run. IsLayout run.layout) }
    ensures streams { IfOk result (λ run. length run.layout.writers ≡ code.now.streams) }
    ensures input { IfOk result (λ run. run.layout.input_len ≡ length input.now) }
    ensures control { IfOk result (λ run. run.control ≡ (main_control (parts_of code.now) (length input.now) budgets.control).end) }
    // how they end, and the elements of the output
    ensures ends { IfOk result (λ run. run.ends
        ≡ code_ends (parts_of code.now) (created (parts_of code.now) input.now budgets) input.now budgets.task) }
    // each of them fits the code, and they are what a layout takes
    ensures fit { IfOk result (λ run. All (Fits (parts_of code.now)) (created (parts_of code.now) input.now budgets)) }
    ensures lawful { IfOk result (λ run. AreLawful code.now.streams (created (parts_of code.now) input.now budgets)) }
{
    run_by(
        rt,
        alloc,
        code,
        input,
        budgets,
        workers,
        gate,
        size,
        Way::InEpochs,
    )
}

/// Runs a code over an input in epochs of this size, and in control order where it may.
fn run_by<R: Threads + Sync, G: Gate>(
    rt: &R,
    alloc: Global,
    code: &Code,
    input: &[u8],
    budgets: Budgets,
    workers: u32,
    gate: &G,
    size: EpochSize,
    way: Way,
) -> Result<RunResult, Memory>
    requires workers { (1 ≤ workers) × (workers ≤ workers_limit) }
    requires input { length input.now ≤ input_limit }
    requires budgets { AreBudgets budgets }
    requires some { 1 ≤ size.activations }
    // the layout of all activations that `main` creates, and how it ended
    ensures layout { IfOk result (λ run. IsLayoutOf run.layout (created (parts_of code.now) input.now budgets)) }
    ensures whole { IfOk result (λ run. IsLayout run.layout) }
    ensures streams { IfOk result (λ run. length run.layout.writers ≡ code.now.streams) }
    ensures input { IfOk result (λ run. run.layout.input_len ≡ length input.now) }
    ensures control { IfOk result (λ run. run.control ≡ (main_control (parts_of code.now) (length input.now) budgets.control).end) }
    // how they end, and the elements of the output
    ensures ends { IfOk result (λ run. run.ends
        ≡ code_ends (parts_of code.now) (created (parts_of code.now) input.now budgets) input.now budgets.task) }
    // each of them fits the code, and they are what a layout takes
    ensures fit { IfOk result (λ run. All (Fits (parts_of code.now)) (created (parts_of code.now) input.now budgets)) }
    ensures lawful { IfOk result (λ run. AreLawful code.now.streams (created (parts_of code.now) input.now budgets)) }
{
    keep_room_in_place(alloc, workers);
    let mut standing = Standing::new(alloc, code, input, budgets)?;
    let end = 'epochs: loop {
        let next = standing.next_size(size, workers);
        let end = standing.go_on(rt, alloc, code, input, budgets, workers, gate, next, way)?;
        if let Some(end) = end {
            break 'epochs end;
        }
    };
    standing.run_last(rt, alloc, code, input, budgets, workers, gate)?;
    let Standing { layout, held, .. } = standing;
    let Held { ends, .. } = held;
    Ok(RunResult {
        layout,
        ends,
        control: end,
    })
}
