ghost use Rattle.std.specs.Prelude.{◌≡◌, ◌≤◌, ◌+◌, All, IfOk, length, sum_by};
ghost use Rattle.flow_core_laws.specs.Limits.{positions_limit};
ghost use Rattle.flow_core_laws.specs.IsSound.{IsSound};
ghost use Rattle.task_workers_round.specs.Results.{room_of};

use flow_core::{Plan, TaskEnd};
use os_io::Memory;
use std::alloc::Global;

/// Room for what the frames of a round come to.
#[derive(Drop)]
pub struct Results {
    /// An end for each frame, in the order of the frames.
    pub ends: Vec<TaskEnd>,
    /// The elements that the frames write, those of one frame behind those of another.
    pub outputs: Vec<i32>,
}

impl Results {
    /// Room for all frames of a plan, so for those of any of its rounds.
    pub fn new(alloc: Global, plan: &Plan) -> Result<Results, Memory>
        requires { IsSound plan.now }
        ensures ends { IfOk result (λ r. length r.ends.items ≡ length plan.now.frames) }
        ensures outputs { IfOk result (λ r. length r.outputs.items
            ≡ sum_by (λ p. p.outputs) plan.now.frames) }
    {
        let mut ends = Vec::new(alloc);
        ends.resize(plan.frames.len(), TaskEnd::Done)?;
        let mut outputs = Vec::new(alloc);
        outputs.resize(all_outputs(plan), 0)?;
        Ok(Results { ends, outputs })
    }
}

/// How many elements the frames of a plan write.
fn all_outputs(plan: &Plan) -> usize
    requires { IsSound plan.now }
    ensures { result ≡ sum_by (λ p. p.outputs) plan.now.frames }
{
    let mut count = 0;
    for frame in plan.frames.as_slice() {
        count += frame.outputs as usize;
    }
    count
}

/// The greatest number of elements that a frame writes.
pub fn most_outputs(plan: &Plan) -> usize
    ensures { All (λ p. p.outputs ≤ result) plan.now.frames }
{
    let mut most = 0;
    for frame in plan.frames.as_slice() {
        most = most.max(frame.outputs as usize);
    }
    most
}

/// How many elements these frames write together.
pub fn outputs_of(plan: &Plan, frames: &[u32]) -> usize
    requires { room_of plan.now frames.now ≤ positions_limit }
    ensures { result ≡ room_of plan.now frames.now }
{
    let mut count = 0;
    for frame in frames {
        count += plan.frame(*frame).outputs as usize;
    }
    count
}
