ghost use Rattle.std.specs.Prelude.{◌≤◌, ◌<◌, ◌^◌, ℕ, All, List, length, IfOk};
ghost use Rattle.flow_core_laws.specs.Limits.{budget_limit, input_limit, workers_limit};
ghost use Rattle.flow_core_laws.specs.StandsFor.{StandsFor};
ghost use Rattle.os_ast.specs.Views.{program_tree};
ghost use Rattle.osrun_core_run.specs.HandedBack.{HasBytes, HasItsCell, IsMadeOf};
ghost use Rattle.osrun_core_run.specs.Replay.{IsReplay};
ghost use Rattle.stream_match_layouts.specs.Layout.{IsLayout, IsLayoutOf};

use crate::body_laws::{codes_give_bytes, outputs_are_bytes};
use crate::code_replay::replay_code;
use crate::compiling::compile;
use crate::inputs::cell_place;
use crate::made::MadeRun;
use crate::planning::Planned;
use crate::replay_lines::{repeat_line, short_line, stranger_line, stuck_line};
use epoch_run::Budgets;
use epoch_run_bodies::laws::agreeing_bodies_mean_one;
use flow_core_laws::laws;
use os_io::{List, Memory};
use std::alloc::Global;
use trace_replay::Replayed;
use window_check::Checked;

/// What a program comes to that is run by lists of its activations.
#[derive(Debug, Drop)]
pub enum Replay {
    /// The lists are whole: the activations ran in an order that the lists allow, and none is left that could run. This is the run.
    Whole(MadeRun),
    /// The lists are not whole: one line, with its line feed, tells why.
    Told(String),
}

/// What is handed back of an answer over a planned run.
fn hand_back(alloc: Global, planned: Planned, answer: Replayed) -> Result<Replay, Memory>
    requires layout { IsLayout planned.layout }
    requires laid { IsLayoutOf planned.layout planned.control.activations }
    requires stands { (input : List ℕ) × StandsFor planned.plan planned.control.activations input }
    requires bytes { HasBytes answer }
    requires cell { HasItsCell planned.plan answer }
    ensures { IfOk result (IsMadeOf planned answer) }
{
    match answer {
        Replayed::Whole(ends) => {
            let run = MadeRun::of(alloc, planned.layout, ends, planned.control.end)?;
            Ok(Replay::Whole(run))
        }
        Replayed::Stranger { list, place } => {
            let text = stranger_line(alloc, list, place)?;
            Ok(Replay::Told(text))
        }
        Replayed::Repeat { frame } => {
            let text = repeat_line(alloc, frame)?;
            Ok(Replay::Told(text))
        }
        Replayed::Stuck { list, frame, cell } => {
            let place = cell_place(&planned, frame, cell);
            let text = stuck_line(alloc, list, frame, place)?;
            Ok(Replay::Told(text))
        }
        Replayed::Short { frame } => {
            let text = short_line(alloc, frame)?;
            Ok(Replay::Told(text))
        }
    }
}

/// Runs a program over an input by lists of its activations, 1 to 64 of them, on one thread. The activations are those that its
/// `main` creates over the input, with their numbers from 0 on.
pub fn replay_program(
    alloc: Global,
    budgets: Budgets,
    checked: &Checked,
    input: &[u8],
    lists: &[List<u32>],
) -> Result<Replay, Memory>
    requires task_turns { budgets.task ≤ budget_limit }
    requires control_turns { budgets.control ≤ budget_limit }
    requires few { length input.now ≤ input_limit }
    requires lists { (1 ≤ length lists.now) × (length lists.now ≤ workers_limit) }
    requires short { All (λ list. length list < 2 ^ 32) lists.now }
    ensures { IfOk result (IsReplay budgets (program_tree checked.now.program) input.now lists.now) }
{
    agreeing_bodies_mean_one();
    codes_give_bytes();
    outputs_are_bytes();
    laws::plan_meaning();
    let code = compile(alloc, checked)?;
    let answered = replay_code(alloc, budgets, &code, input, lists)?;
    let replay = hand_back(alloc, answered.planned, answered.replayed)?;
    Ok(replay)
}
