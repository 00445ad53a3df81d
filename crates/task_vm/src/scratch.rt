ghost use Rattle.std.specs.Prelude.{◌≡◌, ◌+◌, ◌-◌, ◌++◌, ◌≤◌, length, replicate, pos, IfOk};

use crate::registers::Caller;
use os_code::Code;
use os_io::{Memory, Room};
use std::alloc::Global;
use std::marker::Model;

/// The working room of `run_task`: made once for a code, and good for every run of it.
#[derive(Drop)]
pub struct Scratch {
    pub(crate) stack: Vec<i32>,
    /// The slots, as many as the deepest call so far needed, with memory for those of every chain of calls: what no task
    /// reaches isn't touched.
    pub(crate) slots: Room<i32>,
    pub(crate) callers: Vec<Caller>,
    pub(crate) steps: u64,
    pub(crate) turns: u64,
}

impl Model for Scratch {
    ghost use Rattle.std.specs.Prelude.{◌+◌, length, vec_len};
    ghost use Rattle.task_vm.specs.Space.{Space};

    ghost Value = { Space };

    ghost view = { λ s. record {
      stack = vec_len s.stack;
      slots = length s.slots.items + s.slots.spare;
      calls = vec_len s.callers;
      steps = s.steps;
      turns = s.turns;
    } };
}

impl Scratch {
    ghost use Rattle.os_code.specs.Codes.{parts_of};
    ghost use Rattle.task_vm.specs.Space.{IsMadeFor};

    /// Reserves the operand stack, the slots and the calls that a code needs.
    pub fn new(alloc: Global, code: &Code) -> Result<Scratch, Memory>
        ensures made { IfOk result (IsMadeFor (parts_of code.now)) }
        ensures steps { IfOk result (λ scratch. scratch.steps ≡ 0) }
        ensures turns { IfOk result (λ scratch. scratch.turns ≡ 0) }
    {
        let Ok(slots) = u32::try_from(code.slots_need()) else {
            return Err(Memory);
        };
        Ok(Scratch {
            stack: vec![in alloc; 0; code.stack_need() as usize]?,
            slots: Room::new(alloc, slots)?,
            callers: vec![in alloc; Caller {
                place: 0,
                operands: 0,
                slots: 0,
                end: 0
            }; code.units.len()]?,
            steps: 0,
            turns: 0,
        })
    }

    /// How many steps the last run made; 0 before the first.
    pub fn steps(&self) -> u64
        ensures { result ≡ self.now.steps }
    {
        self.steps
    }

    /// How many turns of its budget the last run took; 0 before the first.
    pub fn turns(&self) -> u64
        ensures { result ≡ self.now.turns }
    {
        self.turns
    }
}

/// Fills a room up with zeros, until it holds `count` slots.
pub(crate) fn reach(slots: &mut Room<i32>, count: usize)
    requires { count ≤ length slots.old.items + slots.old.spare }
    ensures items { slots.new.items ≡ slots.old.items ++ replicate (count - length slots.old.items) (pos 0) }
    ensures room { length slots.new.items + slots.new.spare ≡ length slots.old.items + slots.old.spare }
{
    let missing = count.saturating_sub(slots.len());
    for _ in 0..missing {
        slots.push_spare(0);
    }
}
