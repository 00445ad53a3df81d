ghost use Rattle.std.specs.Prelude.{◌≡◌, true, false, IfOk};
ghost use Rattle.os_code.specs.IsValid.{IsValid};

use crate::heights::heights_fit;
use crate::kinds::tasks_of;
use crate::places::places_stand;
use crate::regions::ends_of;
use crate::sites::sites_stand;
use os_code::Parts;
use os_io::Memory;
use std::alloc::Global;

/// Whether parts are valid.
pub fn is_valid(alloc: Global, parts: &Parts) -> Result<bool, Memory>
    ensures valid { IfOk result (λ valid. valid ≡ true → IsValid parts.now) }
    ensures not_valid { IfOk result (λ valid. valid ≡ false → IsValid parts.now → ⊥) }
{
    if !sites_stand(parts) {
        return Ok(false);
    }
    let Some(ends) = ends_of(alloc, parts)? else {
        return Ok(false);
    };
    let Some(tasks) = tasks_of(alloc, parts)? else {
        return Ok(false);
    };
    if !places_stand(parts, ends.as_slice(), tasks.as_slice()) {
        return Ok(false);
    }
    heights_fit(alloc, parts, ends.as_slice())
}
