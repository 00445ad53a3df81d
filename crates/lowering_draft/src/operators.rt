//! The operators of the trees as those of the machine.

ghost use Rattle.std.specs.Prelude.{◌≡◌, OnOk, pos, min};
ghost use Rattle.lowering_draft.specs.Draft.{with_instrs};
ghost use Rattle.lowering_draft.specs.Emission.Expressions.{literal};
ghost use Rattle.lowering_relation.specs.Expressions.{operation};

use crate::draft::Draft;
use c_int::{Types, binary_for};
use cddf_meaning::operators::operator_of_two;
use os_ast::Binary;
use os_code::Instr;
use os_io::Memory;

/// The number that a token has, which is at most 2,147,483,647.
pub fn literal(number: u32) -> i32
    ensures { result ≡ literal number }
{
    number.min(2_147_483_647) as i32
}

/// Adds the operator on the two numbers on the stack, by their types.
pub fn emit_operation(
    draft: &mut Draft,
    operator: Binary,
    types: Types,
    line: u32,
) -> Result<(), Memory>
    ensures { OnOk result (draft.new ≡ with_instrs draft.old (operation operator line types.left types.right)) }
{
    match operator_of_two(operator) {
        Some(operator) => draft.emit(Instr::Binary {
            op: binary_for(types, operator),
            line,
        }),
        None => {
            draft.emit(Instr::Drop)?;
            draft.emit(Instr::Drop)?;
            draft.emit(Instr::Push(0))
        }
    }
}
