ghost use Rattle.std.specs.Prelude.{IfOk};
ghost use Rattle.os_ast.specs.Views.{program_tree};
ghost use Rattle.os_code.specs.Codes.{parts_of};
ghost use Rattle.osrun_core_run.specs.Code.{IsCodeOf};

use lowering::{LowerError, lower};
use os_code::Code;
use os_io::Memory;
use std::alloc::Global;
use window_check::Checked;

/// Compiles a checked program to a code that means the same.
pub fn compile(alloc: Global, checked: &Checked) -> Result<Code, Memory>
    ensures { IfOk result (λ code. IsCodeOf (parts_of code) (program_tree checked.now.program)) }
{
    match lower(alloc, checked) {
        Ok(code) => Ok(code),
        Err(LowerError::Memory) => Err(Memory),
    }
}
