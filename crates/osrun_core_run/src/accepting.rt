ghost use Rattle.std.specs.Prelude.{◌≡◌, ◌≤◌, ◌⊎◌, length, IfOk, IfErr, OnOk};
ghost use Rattle.front_end.specs.Texts.{IsAccepted};
ghost use Rattle.os_ast.specs.Trees.{ProgramTree};
ghost use Rattle.os_ast.specs.Views.{program_tree};
ghost use Rattle.os_lexer.specs.Limits.{text_limit};
ghost use Rattle.osrun_core_run.specs.Refusal.{IsRefusalOf};
ghost use Rattle.osrun_core_jobs.specs.declared.refusal.Refusal.{Refusal as Cause};

use crate::refused::text_refusal;
use front_end::{one_answer, read_program};
use osrun_core_jobs::Refusal;
use std::alloc::Global;
use window_check::Checked;

/// The program that a text is accepted as, with what its names mean.
pub fn accept(alloc: Global, text: &[u8]) -> Result<Checked, Refusal>
    requires { length text.now ≤ text_limit }
    ensures program { IfOk result (λ checked. IsAccepted text.now (program_tree checked.program)) }
    ensures refused { IfErr result (λ refusal. (refusal ≡ Refusal.Memory) ⊎ IsRefusalOf text.now refusal) }
    ensures accepted { (p : ProgramTree) → IsAccepted text.now p → IfErr result (λ refusal. refusal ≡ Refusal.Memory) }
    ensures rejected { (cause : Cause) → IsRefusalOf text.now cause → OnOk result ⊥ }
{
    one_answer();
    match read_program(alloc, text) {
        Ok(checked) => Ok(checked),
        Err(error) => Err(text_refusal(error)),
    }
}
