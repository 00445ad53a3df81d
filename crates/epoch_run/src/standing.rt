ghost use Rattle.std.specs.Prelude.{◌≡◌, ◌<◌, ◌≤◌, ℕ, List, [], None, IfOk, IfSome, IsTrue, OnOk, length, true};
ghost use Rattle.control_run.specs.Stretches.{created_so_far};
ghost use Rattle.flow_core_laws.specs.Limits.{activations_limit, input_limit, workers_limit};
ghost use Rattle.flow_core_laws.specs.declared.activation.Activation.{Activation};
ghost use Rattle.os_code.specs.Codes.{parts_of};
ghost use Rattle.os_code.specs.declared.code.Code.{Code};
ghost use Rattle.os_code.specs.Outcomes.{main_control};
ghost use Rattle.stream_match_layouts.specs.Layout.{IsLayout, IsLayoutOf};
ghost use Rattle.epoch_run_bodies.specs.Frames.{code_ends};
ghost use Rattle.epoch_run.specs.NextSpans.{ComeBehind};
ghost use Rattle.epoch_run.specs.Run.{AreBudgets, created};
ghost use Rattle.epoch_run.specs.Standing.{HasAdvanced, HasMoved, HasRun, StandsAt};
ghost use Rattle.epoch_run.specs.declared.result.Budgets.{Budgets};

use crate::adding::{add, create_behind};
use crate::at_once::run_at_once;
use crate::beside::run_and_advance;
use crate::epoch::{none_waits, run_epoch};
use crate::held::Held;
use crate::in_order::run_in_order;
use crate::next_spans::NextSpans;
use crate::open_bodies::OpenBodies;
use crate::result::Budgets;
use crate::size::EpochSize;
use crate::way::Way;
use control_run::ControlRun;
use epoch_run_bodies::TaskBodies;
use epoch_run_bodies::laws::later_activations_change_nothing;
use flow_core_epochs::laws::run_in_epochs;
use flow_core_laws::{Activation, ControlEnd};
use os_code::Code;
use os_io::{List, Memory};
use std::alloc::Global;
use std::mem;
use std::thread::Threads;
use stream_match::Layout;
use task_workers::Gate;

/// A run between two epochs.
#[derive(Drop)]
pub(crate) struct Standing<'c> {
    /// The control program, where it has come.
    pub(crate) control: ControlRun<'c>,
    /// The activations that it has created, from a number on: those before them have ended, and are run no more.
    pub(crate) activations: List<Activation>,
    /// The number of the first of them.
    pub(crate) first: u32,
    /// The positions of all that it has created.
    pub layout: Layout,
    /// How the activations that were run ended, what they wrote to the output, and what of their elements may still be read.
    pub held: Held,
    /// How many activations had run when several workers last tried to portion out the run.
    pub(crate) tried: u32,
}

impl<'c> Standing<'c> {
    /// A run before its first epoch.
    pub(crate) fn new(
        alloc: Global,
        code: &'c Code,
        input: &[u8],
        budgets: Budgets,
    ) -> Result<Standing<'c>, Memory>
        requires input { length input.now ≤ input_limit }
        requires budgets { AreBudgets budgets }
        ensures { IfOk result (λ standing. StandsAt code.now input.now budgets standing) }
    {
        run_in_epochs();
        let control = ControlRun::new(alloc, code, input.len() as u32, budgets.control)?;
        let layout = Layout::new(alloc, code.streams, input.len() as u32)?;
        Ok(Standing {
            control,
            activations: List::new(alloc),
            first: 0,
            layout,
            held: Held::nothing(alloc),
            tried: 0,
        })
    }

    /// The size of the next epoch, by that of an epoch for which few activations wait and little is kept: the first one is small by several workers.
    pub(crate) fn next_size(&self, size: EpochSize, workers: u32) -> EpochSize
        requires { 1 ≤ size.activations }
        ensures { 1 ≤ result.activations }
    {
        if self.layout.starts.len() <= 1 {
            size.first(workers)
        } else {
            size.with_waiting(self.held.without_end.len(), self.held.kept.len())
        }
    }

    /// Runs what has no end yet, and has the control program create more, by an epoch or in control order. It answers how the
    /// control program has ended, once it has. After `Memory` the run is to be given up.
    pub(crate) fn go_on<R: Threads + Sync, G: Gate>(
        &mut self,
        rt: &R,
        alloc: Global,
        code: &'c Code,
        input: &[u8],
        budgets: Budgets,
        workers: u32,
        gate: &G,
        size: EpochSize,
        way: Way,
    ) -> Result<Option<ControlEnd>, Memory>
        requires workers { (1 ≤ workers) × (workers ≤ workers_limit) }
        requires input { length input.now ≤ input_limit }
        requires budgets { AreBudgets budgets }
        requires stands { StandsAt code.now input.now budgets self.old }
        requires some { 1 ≤ size.activations }
        ensures stands { IfOk result (λ _. StandsAt code.now input.now budgets self.new) }
        ensures grows { IfOk result (λ end. end ≡ None → length (created_so_far self.old.control) < length (created_so_far self.new.control)) }
        ensures all { IfOk result (λ end. IfSome end (λ _. created_so_far self.new.control ≡ created (parts_of code.now) input.now budgets)) }
        ensures end { IfOk result (λ end. IfSome end (λ e. e ≡ (main_control (parts_of code.now) (length input.now) budgets.control).end)) }
    {
        if way == Way::InOrder && self.may_go_in_order(workers) {
            return self.go_on_in_order(rt, alloc, code, input, budgets, workers, gate, size);
        }
        self.go_on_in_epochs(rt, alloc, code, input, budgets, workers, gate, size)
    }

    /// Whether nobody waited behind the last epoch, and bodies may be short for what a table costs. To one worker their length makes no
    /// difference.
    fn may_go_in_order(&self, workers: u32) -> bool {
        self.held.without_end.len() == 0 && (workers == 1 || self.held.pace.may_be_short())
    }

    /// Whether nobody waits now, and bodies are short.
    fn goes_in_order(&self, workers: u32) -> bool
        ensures { IsTrue result → length self.now.held.without_end ≡ 0 }
    {
        self.held.without_end.len() == 0 && (workers == 1 || self.held.pace.is_short())
    }

    /// Runs what has no end yet by itself, which tells whether one waits and how long bodies are; and goes on in control order where
    /// that serves, and else in epochs.
    fn go_on_in_order<R: Threads + Sync, G: Gate>(
        &mut self,
        rt: &R,
        alloc: Global,
        code: &'c Code,
        input: &[u8],
        budgets: Budgets,
        workers: u32,
        gate: &G,
        size: EpochSize,
    ) -> Result<Option<ControlEnd>, Memory>
        requires workers { (1 ≤ workers) × (workers ≤ workers_limit) }
        requires input { length input.now ≤ input_limit }
        requires budgets { AreBudgets budgets }
        requires stands { StandsAt code.now input.now budgets self.old }
        requires some { 1 ≤ size.activations }
        ensures stands { IfOk result (λ _. StandsAt code.now input.now budgets self.new) }
        ensures grows { IfOk result (λ end. end ≡ None → length (created_so_far self.old.control) < length (created_so_far self.new.control)) }
        ensures all { IfOk result (λ end. IfSome end (λ _. created_so_far self.new.control ≡ created (parts_of code.now) input.now budgets)) }
        ensures end { IfOk result (λ end. IfSome end (λ e. e ≡ (main_control (parts_of code.now) (length input.now) budgets.control).end)) }
    {
        self.run(rt, alloc, code, input, budgets, workers, gate)?;
        if self.goes_in_order(workers) {
            return run_in_order(rt, self, alloc, code, input, budgets, workers, gate);
        }
        self.go_on_in_epochs(rt, alloc, code, input, budgets, workers, gate, size)
    }

    /// Runs an epoch, and has the control program create the new activations of the next one.
    fn go_on_in_epochs<R: Threads + Sync, G: Gate>(
        &mut self,
        rt: &R,
        alloc: Global,
        code: &Code,
        input: &[u8],
        budgets: Budgets,
        workers: u32,
        gate: &G,
        size: EpochSize,
    ) -> Result<Option<ControlEnd>, Memory>
        requires workers { (1 ≤ workers) × (workers ≤ workers_limit) }
        requires budgets { AreBudgets budgets }
        requires stands { StandsAt code.now input.now budgets self.old }
        requires some { 1 ≤ size.activations }
        ensures stands { IfOk result (λ _. StandsAt code.now input.now budgets self.new) }
        ensures grows { IfOk result (λ end. end ≡ None → length (created_so_far self.old.control) < length (created_so_far self.new.control)) }
        ensures all { IfOk result (λ end. IfSome end (λ _. created_so_far self.new.control ≡ created (parts_of code.now) input.now budgets)) }
        ensures end { IfOk result (λ end. IfSome end (λ e. e ≡ (main_control (parts_of code.now) (length input.now) budgets.control).end)) }
    {
        self.run_and_create(rt, alloc, code, input, budgets, workers, gate, size)?;
        Ok(self.control.end())
    }

    /// Runs an epoch, and has the control program create the new activations of the next one: beside the epoch where several workers run
    /// it.
    fn run_and_create<R: Threads + Sync, G: Gate>(
        &mut self,
        rt: &R,
        alloc: Global,
        code: &Code,
        input: &[u8],
        budgets: Budgets,
        workers: u32,
        gate: &G,
        size: EpochSize,
    ) -> Result<(), Memory>
        requires workers { (1 ≤ workers) × (workers ≤ workers_limit) }
        requires budgets { AreBudgets budgets }
        requires stands { StandsAt code.now input.now budgets self.old }
        requires some { 1 ≤ size.activations }
        ensures stands { OnOk result (StandsAt code.now input.now budgets self.new) }
        ensures advanced { OnOk result (HasMoved size.activations self.old.control self.new.control) }
    {
        if workers > 1 && self.has_new() {
            return self.create_beside(rt, alloc, code, input, budgets, workers, gate, size);
        }
        self.run_then_create(rt, alloc, code, input, budgets, workers, gate, size)
    }

    /// Runs an epoch, and then has the control program create the new activations of the next one behind those that wait. What has
    /// ended is given up before, so that one epoch's activations alone are held where none waits.
    fn run_then_create<R: Threads + Sync, G: Gate>(
        &mut self,
        rt: &R,
        alloc: Global,
        code: &Code,
        input: &[u8],
        budgets: Budgets,
        workers: u32,
        gate: &G,
        size: EpochSize,
    ) -> Result<(), Memory>
        requires workers { (1 ≤ workers) × (workers ≤ workers_limit) }
        requires budgets { AreBudgets budgets }
        requires stands { StandsAt code.now input.now budgets self.old }
        requires some { 1 ≤ size.activations }
        ensures stands { OnOk result (StandsAt code.now input.now budgets self.new) }
        ensures advanced { OnOk result (HasMoved size.activations self.old.control self.new.control) }
    {
        self.run(rt, alloc, code, input, budgets, workers, gate)?;
        self.give_up_ended(alloc);
        create_behind(
            &mut self.control,
            &mut self.activations,
            &mut self.layout,
            size,
        )?;
        Ok(())
    }

    /// Runs an epoch, and at once has the control program create the new activations of the next one.
    fn create_beside<R: Threads + Sync, G: Gate>(
        &mut self,
        rt: &R,
        alloc: Global,
        code: &Code,
        input: &[u8],
        budgets: Budgets,
        workers: u32,
        gate: &G,
        size: EpochSize,
    ) -> Result<(), Memory>
        requires workers { (1 ≤ workers) × (workers ≤ workers_limit) }
        requires budgets { AreBudgets budgets }
        requires stands { StandsAt code.now input.now budgets self.old }
        requires some { 1 ≤ size.activations }
        ensures stands { OnOk result (StandsAt code.now input.now budgets self.new) }
        ensures advanced { OnOk result (HasMoved size.activations self.old.control self.new.control) }
    {
        let mut next = List::new(alloc);
        let laid = self.run_beside(
            rt, alloc, code, input, budgets, workers, gate, &mut next, size,
        )?;
        add(alloc, &mut self.activations, &mut self.layout, next, laid)?;
        Ok(())
    }

    /// Whether some of the activations are new.
    fn has_new(&self) -> bool
        requires { 1 ≤ length self.now.layout.starts }
    {
        self.held.ends.ends.len() < self.layout.frames()
    }

    /// Runs an epoch, and at once has the control program create the new activations of the next one, behind those of a list, and works out
    /// their positions.
    fn run_beside<R: Threads + Sync, G: Gate>(
        &mut self,
        rt: &R,
        alloc: Global,
        code: &Code,
        input: &[u8],
        budgets: Budgets,
        workers: u32,
        gate: &G,
        next: &mut List<Activation>,
        size: EpochSize,
    ) -> Result<NextSpans, Memory>
        requires workers { (1 ≤ workers) × (workers ≤ workers_limit) }
        requires budgets { AreBudgets budgets }
        requires stands { StandsAt code.now input.now budgets self.old }
        requires some { 1 ≤ size.activations }
        requires none { next.old ≡ [] }
        ensures run { OnOk result (HasRun code.now input.now budgets (created_so_far self.old.control) self.new) }
        ensures advanced { OnOk result (HasAdvanced size.activations self.old.control self.new.control next.old next.new) }
        ensures layout { OnOk result (self.new.layout ≡ self.old.layout) }
        ensures laid { IfOk result (λ laid. ComeBehind self.old.layout next.new laid) }
    {
        later_activations_change_nothing();
        let bodies = OpenBodies {
            code,
            input_len: self.layout.input_len,
            budgets,
            count: self.layout.frames() as u32,
            first: self.first,
            activations: self.activations.as_slice(),
        };
        let laid = run_and_advance(
            rt,
            alloc,
            &bodies,
            &self.layout,
            input,
            workers,
            gate,
            &mut self.held,
            &mut self.control,
            next,
            size,
        )?;
        self.give_up_ended(alloc);
        Ok(laid)
    }

    /// Runs the activations that have no end yet, and nothing else.
    fn run<R: Threads + Sync, G: Gate>(
        &mut self,
        rt: &R,
        alloc: Global,
        code: &Code,
        input: &[u8],
        budgets: Budgets,
        workers: u32,
        gate: &G,
    ) -> Result<(), Memory>
        requires workers { (1 ≤ workers) × (workers ≤ workers_limit) }
        requires budgets { AreBudgets budgets }
        requires stands { StandsAt code.now input.now budgets self.old }
        ensures run { OnOk result (HasRun code.now input.now budgets (created_so_far self.old.control) self.new) }
        ensures same { OnOk result (self.new ≡ record self.old { held = self.new.held }) }
    {
        later_activations_change_nothing();
        let bodies = OpenBodies {
            code,
            input_len: self.layout.input_len,
            budgets,
            count: self.layout.frames() as u32,
            first: self.first,
            activations: self.activations.as_slice(),
        };
        run_epoch(
            rt,
            alloc,
            &bodies,
            &self.layout,
            input,
            workers,
            gate,
            &mut self.held,
        )?;
        Ok(())
    }

    /// Gives up the activations of the list, where each of them has an end: the next ones are made in their lists.
    fn give_up_ended(&mut self, alloc: Global)
        requires { length self.old.held.ends.ends ≤ activations_limit }
        ensures run { (code : Code) (input : List ℕ) (budgets : Budgets) (all_created : List Activation) → HasRun code input budgets all_created self.old
            → HasRun code input budgets all_created self.new }
        ensures same { self.new ≡ record self.old { activations = self.new.activations; first = self.new.first } }
    {
        if self.held.without_end.len() == 0 {
            self.first = self.held.ends.ends.len() as u32;
            let ended = mem::replace(&mut self.activations, List::new(alloc));
            self.control.reuse(ended);
        }
    }

    /// Runs the last epoch. Where no activation has ended and none is found to wait, its plan is that of the whole run.
    pub(crate) fn run_last<R: Threads + Sync, G: Gate>(
        &mut self,
        rt: &R,
        alloc: Global,
        code: &Code,
        input: &[u8],
        budgets: Budgets,
        workers: u32,
        gate: &G,
    ) -> Result<(), Memory>
        requires workers { (1 ≤ workers) × (workers ≤ workers_limit) }
        requires budgets { AreBudgets budgets }
        requires stands { StandsAt code.now input.now budgets self.old }
        ensures layout { OnOk result (IsLayoutOf self.new.layout (created_so_far self.old.control)) }
        ensures whole { OnOk result (IsLayout self.new.layout) }
        ensures streams { OnOk result (length self.new.layout.writers ≡ code.now.streams) }
        ensures input { OnOk result (self.new.layout.input_len ≡ length input.now) }
        ensures ends { OnOk result (self.new.held.ends ≡ code_ends (parts_of code.now) (created_so_far self.old.control) input.now budgets.task) }
    {
        let all = self.runs_all(alloc)?;
        if all {
            return self.run_at_once(rt, alloc, code, input, budgets, workers, gate);
        }
        self.run_rest(rt, alloc, code, input, budgets, workers, gate)
    }

    /// Whether all activations are to be run now: none has ended, and none is found to wait. Where none was
    /// in an epoch yet, whether one waits isn't looked at.
    fn runs_all(&self, alloc: Global) -> Result<bool, Memory>
        requires { IsLayout self.now.layout }
        ensures { IfOk result (λ all. all ≡ true → self.now.first ≡ 0) }
    {
        if self.first > 0 || self.held.without_end.len() < self.held.ends.ends.len() {
            return Ok(false);
        }
        if self.held.ends.ends.len() == 0 {
            return Ok(true);
        }
        let all = none_waits(alloc, &self.layout)?;
        Ok(all)
    }

    /// Runs all activations by one plan, where the list has all.
    fn run_at_once<R: Threads + Sync, G: Gate>(
        &mut self,
        rt: &R,
        alloc: Global,
        code: &Code,
        input: &[u8],
        budgets: Budgets,
        workers: u32,
        gate: &G,
    ) -> Result<(), Memory>
        requires workers { (1 ≤ workers) × (workers ≤ workers_limit) }
        requires budgets { AreBudgets budgets }
        requires stands { StandsAt code.now input.now budgets self.old }
        requires all { self.old.first ≡ 0 }
        ensures layout { OnOk result (IsLayoutOf self.new.layout (created_so_far self.old.control)) }
        ensures whole { OnOk result (IsLayout self.new.layout) }
        ensures streams { OnOk result (length self.new.layout.writers ≡ code.now.streams) }
        ensures input { OnOk result (self.new.layout.input_len ≡ length input.now) }
        ensures ends { OnOk result (self.new.held.ends ≡ code_ends (parts_of code.now) (created_so_far self.old.control) input.now budgets.task) }
    {
        let bodies = TaskBodies {
            code,
            activations: self.activations.as_slice(),
            budget: budgets.task,
        };
        self.held.ends = run_at_once(rt, alloc, &bodies, &self.layout, input, workers, gate)?;
        Ok(())
    }

    /// Runs those that have no end yet.
    fn run_rest<R: Threads + Sync, G: Gate>(
        &mut self,
        rt: &R,
        alloc: Global,
        code: &Code,
        input: &[u8],
        budgets: Budgets,
        workers: u32,
        gate: &G,
    ) -> Result<(), Memory>
        requires workers { (1 ≤ workers) × (workers ≤ workers_limit) }
        requires budgets { AreBudgets budgets }
        requires stands { StandsAt code.now input.now budgets self.old }
        ensures layout { OnOk result (IsLayoutOf self.new.layout (created_so_far self.old.control)) }
        ensures whole { OnOk result (IsLayout self.new.layout) }
        ensures streams { OnOk result (length self.new.layout.writers ≡ code.now.streams) }
        ensures input { OnOk result (self.new.layout.input_len ≡ length input.now) }
        ensures ends { OnOk result (self.new.held.ends ≡ code_ends (parts_of code.now) (created_so_far self.old.control) input.now budgets.task) }
    {
        self.run(rt, alloc, code, input, budgets, workers, gate)?;
        Ok(())
    }
}
