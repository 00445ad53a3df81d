//! The elements of an activation's windows.

ghost use Rattle.std.specs.Prelude.{◌≡◌, ◌+◌, length, not, filter, sum_by};
ghost use Rattle.flow_core_laws.specs.declared.claim.Claim.{Claim as TheClaim};

use flow_core_laws::Claim;
use std::alloc::Global;
use std::process::Abort;

/// Bytes for the input windows.
pub(crate) fn inputs_of(rt: &impl Abort, alloc: Global, claims: &[Claim]) -> Vec<i32>
    ensures { length result.items
        ≡ sum_by (λ (claim : TheClaim). claim.horizon) (filter (λ (claim : TheClaim). not claim.write) claims.now) }
{
    let mut inputs = Vec::new(alloc);
    for claim in claims {
        if !claim.write {
            add_numbers(rt, &mut inputs, claim.horizon, 0);
        }
    }
    inputs
}

/// Room for the output windows, with numbers that no task may leave there.
pub(crate) fn outputs_of(rt: &impl Abort, alloc: Global, claims: &[Claim]) -> Vec<i32>
    ensures { length result.items
        ≡ sum_by (λ (claim : TheClaim). claim.horizon) (filter (λ (claim : TheClaim). claim.write) claims.now) }
{
    let mut outputs = Vec::new(alloc);
    for claim in claims {
        if claim.write {
            add_numbers(rt, &mut outputs, claim.horizon, -300);
        }
    }
    outputs
}

/// The byte at a place; each stands once among 256 in a row.
fn byte_at(place: usize) -> u8 {
    ((place % 256) as u8).wrapping_mul(37).wrapping_add(3)
}

/// Adds `count` numbers, each a byte with `added` added to it.
fn add_numbers(rt: &impl Abort, elements: &mut Vec<i32>, count: u32, added: i32)
    ensures { length elements.new.items ≡ length elements.old.items + count }
{
    for _ in 0..count {
        let byte = byte_at(elements.len());
        elements
            .push(added.wrapping_add(i32::from(byte)))
            .expect(rt, "memory");
    }
}
