//! The activations that the control program creates, and its end.

ghost use Rattle.std.specs.Prelude.{◌≡◌, IfOk, map};
ghost use Rattle.cddf_meaning.specs.Control.{control, control_of, control_state};
ghost use Rattle.cddf_meaning.specs.Run.{run_all};
ghost use Rattle.os_ast.specs.Views.{item_tree, program_tree, stmts_tree};
ghost use Rattle.cddf_meaning_plain_tasks.specs.Arounds.{round_sites};

use crate::run::stmts;
use cddf_meaning_plain_state::Stop;
use cddf_meaning_plain_tasks::control::{control_end, state_round};
use cddf_meaning_plain_tasks::tasks::{Main, main_of, tasks};
use cddf_meaning_plain_tasks::{Around, Sites, sites_of};
use flow_core_laws::{Control, ControlEnd};
use os_ast::Program;
use os_io::{List, Memory};
use std::alloc::Global;

/// Runs the body of `main`.
fn run_main(
    alloc: Global,
    main: &Main<'_>,
    sites: &Sites,
    input_len: u32,
    budget: u64,
) -> Result<Control, Stop>
    ensures { IfOk result (λ c. c ≡ control_of (run_all (round_sites (map item_tree main.now.file.now) sites.now) (stmts_tree main.now.function.now.body)
        (control_state input_len) budget)) }
{
    let mut state = state_round(alloc, input_len)?;
    let around = Around {
        file: main.file,
        control: Some(sites),
    };
    let mut turns = budget;
    let end = match stmts(alloc, &around, &main.function.body, &mut state, &mut turns) {
        Ok(_) => ControlEnd::Done,
        Err(Stop::Ended(ending)) => control_end(ending),
        Err(Stop::Memory) => return Err(Stop::Memory),
    };
    Ok(Control {
        activations: state.into_activations(),
        end,
    })
}

/// The activations that the control program creates for an input of `input_len` bytes, in order, and its end.
///
/// The program violates no rule. The input has at most 4,194,304 bytes, and the budget is that of the control program, in
/// turns. `Memory` is the one error; it says nothing of the program. The call is slow, and for tests.
pub fn plain_control(
    alloc: Global,
    program: &Program,
    input_len: u32,
    budget: u64,
) -> Result<Control, Memory>
    ensures { IfOk result (λ c. c ≡ control (program_tree program.now) input_len budget) }
{
    let Some(main) = main_of(program.items.as_slice()) else {
        return Ok(Control {
            activations: List::new(alloc),
            end: ControlEnd::Done,
        });
    };
    let tasks = tasks(alloc, &main)?;
    let sites = sites_of(alloc, tasks.as_slice())?;
    run_main(alloc, &main, &sites, input_len, budget).map_err(|_| Memory)
}
