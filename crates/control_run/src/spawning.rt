ghost use Rattle.std.specs.Prelude.{◌≡◌, ◌*◌, ◌<◌, ◌≤◌, [], All, length, map, pos, slice_index_or};
ghost use Rattle.flow_core_laws.specs.Limits.{activations_limit, positions_limit};
ghost use Rattle.os_ast.specs.Limits.{items_limit};
ghost use Rattle.os_code.specs.Machine.{spawned_claims};
ghost use Rattle.control_run.specs.Spawning.{HasShape, HasWindow, one_unless, spawn_end, spawn_list, spawn_made};

use crate::claims::{set_captured, set_claims};
use crate::made::Made;
use flow_core_laws::{Activation, ControlEnd};
use os_code::Site;

/// Makes the activation of a site out of another one with lists of the same lengths; or answers how `main` ends there, and then
/// the other one may hold anything. The slots are those of `main`; the operands are an index and a burst for each item.
#[inline(always)]
pub(crate) fn set_activation(
    streams: u32,
    number: u32,
    site: &Site,
    slots: &[i32],
    operands: &[i32],
    made: &mut Made,
    one: &mut Activation,
) -> Option<ControlEnd>
    requires windows { All (HasWindow (length slots.now)) site.now.items }
    requires captured { All (λ slot. slot < length slots.now) site.now.captured }
    requires pairs { length operands.now ≡ 2 * length site.now.items }
    requires few { length site.now.items ≤ items_limit }
    requires streams { length made.old.skips ≡ streams }
    requires positions { made.old.horizons ≤ positions_limit }
    requires activations { made.old.created ≤ activations_limit }
    requires shape { HasShape (length site.now.captured) (length site.now.items) one.old }
    ensures end { result ≡ spawn_end made.old site.now.line (spawned_claims streams slots.now site.now.items operands.now) }
    ensures made { made.new ≡ spawn_made made.old (spawned_claims streams slots.now site.now.items operands.now) }
    ensures one { one_unless result one.new ≡ spawn_list [] made.old number (map (λ slot. slice_index_or slots.now slot (pos 0)) site.now.captured)
        (spawned_claims streams slots.now site.now.items operands.now) }
{
    one.site = number;
    set_captured(slots, site.captured.as_slice(), one.captured.as_mut_slice());
    let positions = match set_claims(
        streams,
        slots,
        site.items.as_slice(),
        operands,
        one.claims.as_mut_slice(),
    ) {
        Ok(positions) => positions,
        Err(trap) => {
            return Some(ControlEnd::Trapped {
                code: trap.code(),
                line: site.line,
            });
        }
    };
    if let Some(limit) = made.limit(positions) {
        return Some(ControlEnd::Limit(limit.code()));
    }
    made.skips.give(one.claims.as_mut_slice());
    made.created += 1;
    made.horizons += positions;
    None
}
