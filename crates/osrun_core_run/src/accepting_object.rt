ghost use Rattle.std.specs.Prelude.{◌≡◌, ◌≤◌, ◌⊎◌, length, IfOk, IfErr, OnOk};
ghost use Rattle.os_code.specs.Codes.{parts_of};
ghost use Rattle.os_code.specs.declared.parts.Parts.{Parts as CodeParts};
ghost use Rattle.osrun_core_jobs.specs.Files.{limit_of};
ghost use Rattle.osrun_core_jobs.specs.declared.refusal.Refusal.{Refusal as Cause};
ghost use Rattle.osrun_core_jobs.specs.declared.subject.Subject.TheVariants.{Object as ObjectFile};
ghost use Rattle.osrun_core_run.specs.Code.{IsObjectOf};
ghost use Rattle.osrun_core_run.specs.Refusal.{IsRefusalAs};

use crate::refused::object_refusal;
use os_code::Code;
use os_object::decode;
use os_object::laws::one_reading;
use osrun_core_jobs::Refusal;
use std::alloc::Global;

/// Reads the bytes of an object's file: the code that they spell, or why they are refused.
pub fn accept_object(alloc: Global, bytes: &[u8]) -> Result<Code, Refusal>
    requires { length bytes.now ≤ limit_of ObjectFile }
    ensures object { IfOk result (λ code. IsObjectOf bytes.now (parts_of code)) }
    ensures refused { IfErr result (λ refusal. (refusal ≡ Refusal.Memory) ⊎ IsRefusalAs ObjectFile bytes.now refusal) }
    ensures accepted { (parts : CodeParts) → IsObjectOf bytes.now parts → IfErr result (λ refusal. refusal ≡ Refusal.Memory) }
    ensures rejected { (cause : Cause) → IsRefusalAs ObjectFile bytes.now cause → OnOk result ⊥ }
{
    one_reading();
    match decode(alloc, bytes) {
        Ok(code) => Ok(code),
        Err(error) => Err(object_refusal(error)),
    }
}
