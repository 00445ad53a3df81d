//! A walk over the control program, stretch by stretch.

ghost use Rattle.std.specs.Prelude.{◌≡◌, ◌+◌, ◌≤◌, IfOk, OnOk, false};
ghost use Rattle.flow_core_laws.specs.Limits.{budget_limit, input_limit};
ghost use Rattle.control_run.specs.Stretches.{not_begun};
ghost use Rattle.os_code.specs.Codes.{parts_of};
ghost use Rattle.epoch_run_portions.specs.Walk.{HasGiven, HasWalked, IsSameRun};

use crate::positions::Positions;
use control_run::ControlRun;
use flow_core_laws::Activation;
use os_code::Code;
use os_io::{List, Memory};
use std::alloc::Global;
use std::mem;

/// How many activations the control program creates at a time, at most, before they run or are passed.
pub const STRETCH: u32 = 256;

/// The control program where it has come, the stretch of activations that it created last, and the positions behind those that were passed.
#[derive(Drop)]
pub(crate) struct Walk<'c> {
    pub control: ControlRun<'c>,
    pub activations: List<Activation>,
    pub positions: Positions,
}

impl<'c> Walk<'c> {
    /// A walk before the first activation, over an input of `input_len` bytes.
    pub(crate) fn new(
        alloc: Global,
        code: &'c Code,
        input_len: u32,
        budget: u64,
    ) -> Result<Walk<'c>, Memory>
        requires input { input_len ≤ input_limit }
        requires budget { budget ≤ budget_limit }
        ensures run { IfOk result (λ walk. walk.control ≡ not_begun (parts_of code.now) input_len budget) }
        ensures walked { IfOk result HasWalked }
    {
        Ok(Walk {
            control: ControlRun::new(alloc, code, input_len, budget)?,
            activations: List::new(alloc),
            positions: Positions::new(alloc, code.streams)?,
        })
    }

    /// Has the control program create the next activations, at most `at_most`, in the places of the last ones. It answers whether it has ended.
    pub(crate) fn next_stretch(&mut self, alloc: Global, at_most: u32) -> Result<bool, Memory>
        requires { 1 ≤ at_most }
        ensures given { IfOk result (HasGiven at_most self.old.control self.new.control self.new.activations) }
        ensures same { self.new.positions ≡ self.old.positions }
    {
        let ended = mem::replace(&mut self.activations, List::new(alloc));
        self.control.reuse(ended);
        let ended = self.control.advance(&mut self.activations, at_most)?;
        Ok(ended)
    }

    /// Has it create a stretch of activations, and passes them. It answers whether it has ended.
    fn pass_stretch(&mut self, alloc: Global, at_most: u32) -> Result<bool, Memory>
        requires some { 1 ≤ at_most }
        requires walked { HasWalked self.old }
        ensures walked { OnOk result (HasWalked self.new) }
        ensures same { OnOk result (IsSameRun self.old.control self.new.control) }
        ensures going { IfOk result (λ ended. ended ≡ false → self.new.positions.count ≡ self.old.positions.count + at_most) }
    {
        let ended = self.next_stretch(alloc, at_most)?;
        self.positions.pass_all(self.activations.as_slice())?;
        Ok(ended)
    }

    /// Passes activations until `count` were passed, or the control program has ended. After `Memory` the walk is to be given up.
    pub(crate) fn pass_to(&mut self, alloc: Global, count: u32) -> Result<(), Memory>
        requires { HasWalked self.old }
        ensures walked { OnOk result (HasWalked self.new) }
        ensures same { OnOk result (IsSameRun self.old.control self.new.control) }
    {
        'passing: while self.positions.count < count {
            let at_most = (count - self.positions.count).min(STRETCH);
            let ended = self.pass_stretch(alloc, at_most)?;
            if ended {
                break 'passing;
            }
        }
        Ok(())
    }
}
