//! The compiler: a code of a whole program.

ghost use Rattle.std.specs.Prelude.{◌≡◌, ◌≤◌, ◌+◌, ◌*◌, IfOk, length};
ghost use Rattle.lowering_draft.specs.Emission.Units.{parts_made, program_units};
ghost use Rattle.lowering.specs.Meanings.{RunsBodies, RunsControl};
ghost use Rattle.lowering.specs.declared.compiler.LowerError.TheVariants as errors;
ghost use Rattle.os_ast.specs.Spelling.{spell};
ghost use Rattle.os_ast.specs.Views.{program_tree};
ghost use Rattle.os_code.specs.Codes.{parts_of};
ghost use Rattle.lowering_relation.specs.Laws.{CodeStandsFor};
ghost use Rattle.lowering_relation.specs.Names.{told_at};
ghost use Rattle.lowering_relation.specs.Tasks.{program_tasks};
ghost use Rattle.lowering_relation.specs.Tiling.{IsTiled};
ghost use Rattle.window_check_laws.specs.Globals.{count_functions};

use crate::tasks::add_program_tasks;
use crate::units::add_functions;
use lowering_draft::{Told, Units, resolve};
use os_code::{Code, Parts};
use os_io::Memory;
use std::alloc::Global;
use thiserror::Error;
use window_check::Checked;

/// Why a program has no code.
#[derive(Clone, Copy, Debug, PartialEq, Eq, Error)]
pub enum LowerError {
    /// Memory could not be had.
    #[error("memory could not be had")]
    Memory,
}

impl From<Memory> for LowerError {
    ghost from_gives = { λ _ e. e ≡ errors.Memory };

    fn from(_memory: Memory) -> LowerError {
        LowerError::Memory
    }
}

/// A valid code that does what the program means. It has a unit for each function, `main` among them, and behind these
/// one for each task, in the order of the text; the k-th site is that of the k-th task. It takes one walk over the program
/// and a second pass over the code, and memory for no more than the code and its labels.
pub fn lower(alloc: Global, checked: &Checked) -> Result<Code, LowerError>
    ensures stands { IfOk result (λ code. CodeStandsFor (parts_of code) (program_tree checked.now.program)) }
    // what it does
    ensures bodies { IfOk result (λ code. RunsBodies (parts_of code) (program_tree checked.now.program)) }
    ensures control { IfOk result (λ code. RunsControl (parts_of code) (program_tree checked.now.program)) }
    // how large it is
    ensures few_instrs { IfOk result (λ code. length code.instrs ≤ 8 * length (spell (program_tree checked.now.program))) }
    ensures units { IfOk result (λ code.
        length code.units ≡ count_functions (program_tree checked.now.program) + length (program_tasks (program_tree checked.now.program))) }
    ensures sites { IfOk result (λ code. length code.sites ≡ length (program_tasks (program_tree checked.now.program))) }
{
    let parts = lower_parts(alloc, checked)?;
    Ok(Code::new(alloc, parts)?)
}

/// The parts of the code of a program: they stand for it, and its units lie one behind another.
fn lower_parts(alloc: Global, checked: &Checked) -> Result<Parts, Memory>
    ensures stands { IfOk result (λ parts. CodeStandsFor parts (program_tree checked.now.program)) }
    ensures tiled { IfOk result (λ parts. IsTiled parts (program_tree checked.now.program)) }
    ensures few { IfOk result (λ parts. length parts.instrs ≤ 8 * length (spell (program_tree checked.now.program))) }
{
    let made = units_of(alloc, checked)?;
    Ok(made_parts(made, checked.streams))
}

/// All units and sites of a program.
fn units_of(alloc: Global, checked: &Checked) -> Result<Units, Memory>
    ensures { IfOk result (λ made. made ≡ program_units (told_at checked.now.names) checked.now.captured (program_tree checked.now.program)) }
{
    let told = told_by(checked);
    let mut made = Units::new(alloc);
    let items = &checked.program.items;
    add_functions(&mut made, &told, items)?;
    add_program_tasks(alloc, &mut made, &told, checked.captured.as_slice(), items)?;
    Ok(made)
}

/// What the names of a program mean.
fn told_by(checked: &Checked) -> Told<'_>
    ensures { result.names.now ≡ checked.now.names }
{
    Told {
        names: checked.names.as_slice(),
    }
}

/// The parts of what was made, in which each label gives way to its place.
fn made_parts(made: Units, streams: u32) -> Parts
    ensures { result ≡ parts_made streams made }
{
    let Units {
        draft,
        units,
        sites,
        main,
    } = made;
    Parts {
        instrs: resolve(draft),
        units,
        sites,
        main,
        streams,
    }
}
