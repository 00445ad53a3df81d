use crate::machine::Machine;
use crate::spare::Spare;
use crate::stage::Stage;
use flow_core_laws::{Activation, ControlEnd};
use os_code::Code;
use os_io::{List, Memory};
use std::alloc::Global;
use std::marker::Model;
use task_vm::registers::unit_at;

/// A run of `main` that gives its activations by stretches: it stops behind as many as were asked for, and goes on
/// from there. Of the activations that it has given it keeps their number and what the limits and ticks need, so that
/// all stretches together take the time of one run.
#[derive(Drop)]
pub struct ControlRun<'c> {
    alloc: Global,
    code: &'c Code,
    input_len: u32,
    budget: u64,
    machine: Machine,
    spare: Spare,
    stage: Stage,
}

impl<'c> Model for ControlRun<'c> {
    ghost use Rattle.control_run.specs.Stretches.{RunSoFar};

    ghost Value = { RunSoFar };

    ghost use Rattle.control_run.specs.Standing.{run_so_far, Stands};

    ghost view = { run_so_far };

    ghost invariant = { Stands };
}

impl<'c> ControlRun<'c> {
    ghost use Rattle.std.specs.Prelude.{◌≡◌, ◌++◌, ◌≤◌, All, IsTrue, IfOk, OnErr, length, nat_lt, take};
    ghost use Rattle.flow_core_laws.specs.Limits.{budget_limit, input_limit};
    ghost use Rattle.os_code.specs.Codes.{parts_of};
    ghost use Rattle.os_code.specs.Tasks.{Fits};
    ghost use Rattle.stream_match_layouts.specs.Lawful.{AreLawful};
    ghost use Rattle.control_run.specs.Stretches.{IsPartOfStretch, StepsTold, TurnsTold, advanced, created_so_far, end_told, not_begun, remaining, whole};

    /// A run that has not begun. The input has `input_len` bytes; the budget is in turns: each iteration of a loop, each call
    /// and each tick takes one. It takes memory for what the longest chain of calls needs, and a number for each stream.
    pub fn new(
        alloc: Global,
        code: &'c Code,
        input_len: u32,
        budget: u64,
    ) -> Result<ControlRun<'c>, Memory>
        requires input { input_len ≤ input_limit }
        requires budget { budget ≤ budget_limit }
        ensures { IfOk result (λ run. run ≡ not_begun (parts_of code.now) input_len budget) }
    {
        let unit = unit_at(code.units.as_slice(), code.main as usize);
        let machine = Machine::new(alloc, code, unit, input_len, budget)?;
        Ok(ControlRun {
            alloc,
            code,
            input_len,
            budget,
            machine,
            spare: Spare::of(List::new(alloc)),
            stage: Stage::Standing,
        })
    }

    /// Takes activations that are run no more: the next ones are made in their places, which saves asking for memory anew. Where
    /// the next stretch makes exactly as many, and the list that it adds to has none, this list becomes that one.
    pub fn reuse(&mut self, ended: List<Activation>)
        ensures { self.new ≡ self.old }
    {
        self.spare = Spare::of(ended);
    }

    /// Appends the next `at_most` activations, or all that remain where fewer do. It answers true exactly where fewer
    /// remained: the run has then ended. All calls together end within `(budget + 1) * (code length + 1)` steps. It
    /// takes memory for each activation, its captured values and its claims. After `Memory` the list has some of these
    /// activations, and the run is to be given up: it answers `Memory` from then on.
    pub fn advance(&mut self, into: &mut List<Activation>, at_most: u32) -> Result<bool, Memory>
        requires some { 1 ≤ at_most }
        // the list, the answer and the run
        ensures list { IfOk result (λ _. into.new ≡ into.old ++ take at_most (remaining self.old)) }
        ensures answer { IfOk result (λ ended. ended ≡ nat_lt (length (remaining self.old)) at_most) }
        ensures run { IfOk result (λ _. self.new ≡ advanced self.old at_most) }
        ensures some_of_them { OnErr result (IsPartOfStretch self.old at_most self.new into.old into.new) }
        // what the run had given and what this call gives are together what it has now given: all of it where the run has ended
        ensures joined { IfOk result (λ _. created_so_far self.new ≡ created_so_far self.old ++ take at_most (remaining self.old)) }
        ensures all { IfOk result (λ ended. IsTrue ended → created_so_far self.new ≡ (whole self.new).activations) }
        // each of them fits the code, and they are what a layout takes
        ensures fit { All (Fits self.new.code) (created_so_far self.new) }
        ensures lawful { AreLawful self.new.code.streams (created_so_far self.new) }
    {
        match self.stage {
            Stage::Ended(_) => return Ok(true),
            Stage::GivenUp => return Err(Memory),
            Stage::Standing => {}
        }
        self.stage = Stage::GivenUp;
        let stop = self.machine.go_on(
            self.alloc,
            self.code,
            self.input_len,
            self.budget,
            &mut self.spare,
            into,
            at_most,
        )?;
        match stop {
            Some(stopped) => {
                self.stage = Stage::Ended(stopped);
                Ok(true)
            }
            None => {
                self.stage = Stage::Standing;
                Ok(false)
            }
        }
    }

    /// How the run has ended, once `advance` has answered true.
    pub fn end(&self) -> Option<ControlEnd>
        ensures { result ≡ end_told self.now }
    {
        match self.stage {
            Stage::Ended(stopped) => Some(stopped.end),
            Stage::Standing | Stage::GivenUp => None,
        }
    }

    /// How many steps the run has made in all, once `advance` has answered true.
    pub fn steps(&self) -> Option<u64>
        ensures { StepsTold self.now result }
    {
        match self.stage {
            Stage::Ended(stopped) => Some(stopped.steps),
            Stage::Standing | Stage::GivenUp => None,
        }
    }

    /// How many turns of its budget the run has taken in all, once `advance` has answered true.
    pub fn turns(&self) -> Option<u64>
        ensures { TurnsTold self.now result }
    {
        match self.stage {
            Stage::Ended(stopped) => Some(self.budget - stopped.turns),
            Stage::Standing | Stage::GivenUp => None,
        }
    }
}
