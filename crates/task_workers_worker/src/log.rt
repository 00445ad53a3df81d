ghost use Rattle.std.specs.Prelude.{◌≡◌, ◌≤◌, ◌<◌, ℕ, [], IfOk, length};
ghost use Rattle.flow_core_laws.specs.Limits.{activations_limit};
ghost use Rattle.flow_core_laws.specs.Plans.{frame_at};
ghost use Rattle.task_workers_worker.specs.Logs.{FitsWindows};

use flow_core_laws::Plan;
use os_io::{Memory, Room};
use std::alloc::Global;

/// What a worker did, and its room for the windows of one frame.
#[derive(Drop)]
pub struct WorkLog {
    /// The number by which the gate knows the worker.
    pub worker: u32,
    /// The frames that it ran, in order.
    pub frames: Room<u32>,
    /// The input elements of the frame that it runs.
    pub inputs: Room<i32>,
    /// The output elements of the frame that it runs.
    pub outputs: Room<i32>,
}

// The greatest number of inputs of a frame.
fn most_inputs(plan: &Plan) -> u32
    requires few { length plan.now.frames ≤ activations_limit }
    ensures { (f : ℕ) → f < length plan.now.frames → (frame_at plan.now f).inputs ≤ result }
{
    let mut most = 0;
    for frame in 0..plan.frames.len() as u32 {
        most = most.max(plan.frame(frame).inputs);
    }
    most
}

// The greatest number of outputs of a frame.
fn most_outputs(plan: &Plan) -> u32
    requires few { length plan.now.frames ≤ activations_limit }
    ensures { (f : ℕ) → f < length plan.now.frames → (frame_at plan.now f).outputs ≤ result }
{
    let mut most = 0;
    for frame in 0..plan.frames.len() as u32 {
        most = most.max(plan.frame(frame).outputs);
    }
    most
}

impl WorkLog {
    /// An empty log with room for all frames of the plan, and for the windows of each.
    pub fn new(alloc: Global, plan: &Plan, worker: u32) -> Result<WorkLog, Memory>
        requires few { length plan.now.frames ≤ activations_limit }
        ensures worker { IfOk result (λ log. log.worker ≡ worker) }
        ensures empty { IfOk result (λ log. log.frames.items ≡ []) }
        ensures frames { IfOk result (λ log. length plan.now.frames ≤ log.frames.spare) }
        ensures windows { IfOk result (λ log. FitsWindows plan.now log) }
    {
        Ok(WorkLog {
            worker,
            frames: Room::new(alloc, plan.frames.len() as u32)?,
            inputs: Room::new(alloc, most_inputs(plan))?,
            outputs: Room::new(alloc, most_outputs(plan))?,
        })
    }
}
