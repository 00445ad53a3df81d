ghost use Rattle.std.specs.Prelude.{◌≡◌, ◌+◌, ◌≤◌, ℕ, IfOk, List, OnOk, drop, length, take};
ghost use Rattle.flow_core_laws.specs.Limits.{budget_limit};
ghost use Rattle.flow_core_laws.specs.declared.activation.Activation.{Activation};
ghost use Rattle.os_code.specs.Codes.{parts_of};
ghost use Rattle.os_code.specs.declared.code.Code.{Code};
ghost use Rattle.os_code.specs.declared.parts.Parts.{Parts};
ghost use Rattle.stream_match_layouts.specs.Layout.{IsLayoutOf};
ghost use Rattle.epoch_run_in_order.specs.Standing.{AreLast, IsReady, StandsBehind};

use crate::inputs::Inputs;
use crate::streams::Streams;
use flow_core_laws::{Activation, Ends, TaskEnd};
use os_code::Code;
use os_io::{List, Memory};
use std::alloc::Global;
use stream_match::Kept;
use stream_match_layouts::Layout;
use task_vm::Scratch;
use task_workers_round::Gate;

/// A run of activations in control order, behind those that ran so far.
#[derive(Drop)]
pub struct InOrder {
    /// How each activation that ran ended.
    pub ends: List<Option<TaskEnd>>,
    /// What the streams hold behind the activations that ran.
    pub streams: Streams,
    /// What the next activation reads.
    pub(crate) inputs: Inputs,
    /// What the next activation writes.
    pub(crate) outputs: Vec<i32>,
    /// The memory that its task works in.
    pub(crate) scratch: Scratch,
    /// How many steps the bodies of those that ran took, as far as the number goes.
    pub steps: u64,
}

/// What is held of activations that ran in control order.
#[derive(Drop)]
pub struct HeldInOrder {
    /// How each of them ended, and the elements of the output.
    pub ends: Ends,
    /// The elements that the declared streams hold: all that may still be read, and some before the read cursors.
    pub kept: Vec<Kept>,
}

impl InOrder {
    /// Runs activations in order: the last ones of a layout, as long as each finds there what it reads, and as long as their bodies took
    /// fewer steps together than a number. It answers how many ran. The gate is called with worker 0 and the number of an activation among
    /// these before it runs, or is found to wait. After `Memory` the run is to be given up.
    pub fn run_all<G: Gate>(
        &mut self,
        code: &Code,
        activations: &[Activation],
        layout: &Layout,
        input: &[u8],
        budget: u64,
        most_steps: u64,
        gate: &G,
    ) -> Result<usize, Memory>
        requires budget { budget ≤ budget_limit }
        requires ready { IsReady code.now self.old }
        requires last { AreLast code.now layout.now (length self.old.ends) activations.now }
        ensures ready { OnOk result (IsReady code.now self.new) }
        ensures within { IfOk result (λ count. count ≤ length activations.now) }
        ensures count { IfOk result (λ count. length self.new.ends ≡ length self.old.ends + count) }
        ensures stands { IfOk result (λ count. (all given : List Activation) → IsLayoutOf layout.now given
            → given ≡ take (length given) all → drop (length self.old.ends) given ≡ activations.now
            → StandsBehind (parts_of code.now) all (take (length self.old.ends) given) input.now budget self.old
            → StandsBehind (parts_of code.now) all (take (length self.old.ends + count) given) input.now budget self.new) }
    {
        let first = self.ends.len();
        let begun = self.steps;
        self.ends.reserve(activations.len())?;
        let mut count = 0;
        'running: while count < activations.len() && self.steps.saturating_sub(begun) < most_steps {
            gate.at(0, count as u32);
            let number = first + count;
            let spans = layout.spans_of(number);
            let ran = self.run_next(
                code,
                number as u32,
                &activations[count],
                spans,
                input,
                budget,
            )?;
            if !ran {
                break 'running;
            }
            count += 1;
        }
        Ok(count)
    }

    /// Gives up what nobody reads any more of what the streams hold, where all activations of a layout have run.
    pub fn give_up(&mut self, alloc: Global, layout: &Layout) -> Result<(), Memory>
        ensures ready { OnOk result ((code : Code) → IsReady code self.old → IsReady code self.new) }
        ensures same { OnOk result (self.new.ends ≡ self.old.ends) }
        ensures stands { OnOk result ((code : Parts) (all given : List Activation) (input : List ℕ) (budget : ℕ) → IsLayoutOf layout.now given
            → length layout.now.writers ≡ length self.old.streams.elements
            → StandsBehind code all given input budget self.old → StandsBehind code all given input budget self.new) }
    {
        self.streams
            .give_up(alloc, layout.cursors.reads.as_slice())?;
        Ok(())
    }
}
