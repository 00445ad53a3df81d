ghost use Rattle.std.specs.Prelude.{◌≡◌, ℕ, ◌≤◌, [], OnOk};
ghost use Rattle.flow_core_laws.specs.Limits.{budget_limit, input_limit};
ghost use Rattle.os_code.specs.declared.parts.Parts.{Parts};
ghost use Rattle.control_run.specs.Ending.{HasAppended};

use crate::made::Made;
use crate::running::{CountedEnd, run};
use crate::spare::Spare;
use flow_core_laws::Activation;
use os_code::{Code, CodeUnit};
use os_io::{List, Memory};
use std::alloc::Global;
use task_vm::registers::{Caller, Registers};

/// A run of `main`: where it stands, its lists, and what it has made.
#[derive(Debug, Drop)]
pub(crate) struct Machine {
    pub registers: Registers,
    pub stack: Vec<i32>,
    pub slots: Vec<i32>,
    pub callers: Vec<Caller>,
    pub made: Made,
}

impl Machine {
    ghost use Rattle.std.specs.Prelude.{◌≡◌, ◌+◌, ◌≤◌, IfOk};
    ghost use Rattle.os_code.specs.Codes.{parts_of};
    ghost use Rattle.control_run.specs.Ending.{HasCome, HasAppended, IsMainUnit, StopsAs, contents};

    /// A machine at the start of `main`, with the length of the input in slot 0. It reserves the operand stack, the slots
    /// and the calls that the code needs.
    pub fn new(
        alloc: Global,
        code: &Code,
        unit: CodeUnit,
        input_len: u32,
        budget: u64,
    ) -> Result<Machine, Memory>
        requires input { input_len ≤ input_limit }
        requires budget { budget ≤ budget_limit }
        requires unit { IsMainUnit (parts_of code.now) unit }
        ensures come { IfOk result (λ machine. HasCome (parts_of code.now) input_len budget (contents machine)) }
        ensures nothing { IfOk result (λ machine. machine.made.created ≡ 0) }
    {
        let mut slots = vec![in alloc; 0; code.slots_need() as usize]?;
        slots[0] = input_len as i32;
        Ok(Machine {
            registers: Registers {
                place: unit.start as usize,
                top: 0,
                low: 0,
                first: 0,
                end: unit.slots as usize,
                depth: 0,
                turns: budget,
                past: code.instrs.len() - unit.start as usize,
            },
            stack: vec![in alloc; 0; code.stack_need() as usize]?,
            slots,
            callers: vec![in alloc; Caller {
                place: 0,
                operands: 0,
                slots: 0,
                end: 0
            }; code.units.len()]?,
            made: Made::new(alloc, code.streams)?,
        })
    }
    /// Goes on until `at_most` activations, at least one, are added to the list, or the run has ended: then it answers how.
    /// After `Memory` the list has some of the next activations, and the machine stands nowhere.
    pub fn go_on(
        &mut self,
        alloc: Global,
        code: &Code,
        input_len: u32,
        budget: u64,
        spare: &mut Spare,
        into: &mut List<Activation>,
        at_most: u32,
    ) -> Result<Option<CountedEnd>, Memory>
        requires budget { budget ≤ budget_limit }
        requires some { 1 ≤ at_most }
        requires stands { HasCome (parts_of code.now) input_len budget (contents self.old) }
        ensures gives { HasAppended (parts_of code.now) input_len budget self.old.made.created self.new.made.created into.old into.new }
        ensures at_most { self.new.made.created ≤ self.old.made.created + at_most }
        ensures stops { IfOk result (StopsAs (parts_of code.now) input_len budget (self.old.made.created + at_most) (contents self.new)) }
    {
        let from = self.made.created;
        spare.forget();
        let ran = run(
            alloc,
            code,
            &mut self.registers,
            self.stack.as_mut_slice(),
            self.slots.as_mut_slice(),
            self.callers.as_mut_slice(),
            &mut self.made,
            spare,
            at_most,
            input_len,
            budget,
        );
        let handed = hand_over(alloc, from, &mut self.made, spare, into);
        let stopped = ran?;
        handed?;
        Ok(stopped)
    }
}

/// Puts the activations that were made from the one numbered `from` on behind those of a list. After `Memory` it counts those that it could put there.
fn hand_over(
    alloc: Global,
    from: u32,
    made: &mut Made,
    spare: &mut Spare,
    into: &mut List<Activation>,
) -> Result<(), Memory>
    requires ordered { from ≤ made.old.created }
    ensures gives { (code : Parts) (input_len budget : ℕ) → HasAppended code input_len budget from made.old.created [] spare.old
        → HasAppended code input_len budget from made.new.created into.old into.new }
    ensures few { made.new.created ≤ made.old.created }
    ensures same { OnOk result (made.new ≡ made.old) }
{
    let count = spare.hand_over(alloc, into);
    let all = (made.created - from) as usize;
    if count < all {
        made.created = from + count as u32;
        return Err(Memory);
    }
    Ok(())
}
