//! The claims that a `Spawn` makes, and what it captures.

ghost use Rattle.std.specs.Prelude.{◌≡◌, ℕ, ◌*◌, ◌<◌, ◌≤◌, true, false, All, length, map, Some, pos, slice_index_or, IfOk};
ghost use Rattle.os_ast.specs.Limits.{items_limit};
ghost use Rattle.flow_core_laws.specs.Window.{horizon_sum};
ghost use Rattle.os_code.specs.Machine as machine;
ghost use Rattle.control_run.specs.Spawning.{HasWindow, with_claim_set, with_claims};

use crate::numbers::{amount_of, size_of, stream_of};
use c_int::Trap;
use flow_core_laws::Claim;
use os_code::SiteItem;
use task_vm::registers::number_at;

/// Sets the claims of the items, in order, and answers how many positions they cover together; or the first trap, and
/// then some of them are set. The operands are an index and a burst for each item; the slots are those of `main`.
#[inline(always)]
pub(crate) fn set_claims(
    streams: u32,
    slots: &[i32],
    items: &[SiteItem],
    operands: &[i32],
    claims: &mut [Claim],
) -> Result<u32, Trap>
    requires windows { All (HasWindow (length slots.now)) items.now }
    requires pairs { length operands.now ≡ 2 * length items.now }
    requires few { length items.now ≤ items_limit }
    requires room { length claims.old ≡ length items.now }
    ensures claims { with_claims result claims.new ≡ machine.spawned_claims streams slots.now items.now operands.now }
    ensures positions { IfOk result (λ positions. positions ≡ horizon_sum claims.new) }
{
    let mut positions: u32 = 0;
    for (k, item) in items.iter().enumerate() {
        let index = number_at(operands, 2 * k);
        let burst = number_at(operands, 2 * k + 1);
        match set_claim(streams, slots, *item, index, burst, &mut claims[k]) {
            Ok(horizon) => positions += horizon,
            Err(trap) => return Err(trap),
        }
    }
    Ok(positions)
}

/// Sets the claim of an item and answers how many positions it covers; or answers its trap, and then the claim stays as
/// it was. The stream is looked at first, then the horizon, then the burst.
#[inline(always)]
fn set_claim(
    streams: u32,
    slots: &[i32],
    item: SiteItem,
    index: i32,
    burst: i32,
    claim: &mut Claim,
) -> Result<u32, Trap>
    requires { HasWindow (length slots.now) item }
    ensures claim { with_claim_set result claim.new ≡ machine.claim_of streams slots.now item index burst }
    ensures positions { IfOk result (λ positions. positions ≡ claim.new.horizon) }
{
    if item.write {
        set_output_claim(streams, slots, item, index, burst, claim)
    } else {
        set_input_claim(streams, slots, item, index, burst, claim)
    }
}

/// Sets the claim of an output item: nothing writes the input, and the burst is the horizon.
#[inline(always)]
fn set_output_claim(
    streams: u32,
    slots: &[i32],
    item: SiteItem,
    index: i32,
    burst: i32,
    claim: &mut Claim,
) -> Result<u32, Trap>
    requires window { HasWindow (length slots.now) item }
    requires writes { item.write ≡ true }
    ensures claim { with_claim_set result claim.new ≡ machine.claim_of streams slots.now item index burst }
    ensures positions { IfOk result (λ positions. positions ≡ claim.new.horizon) }
{
    match stream_of(streams, 0, item.stream, index) {
        None => Err(Trap::Index),
        Some(stream) => match horizon_of(slots, item.window) {
            None => Err(Trap::WindowSize),
            Some(horizon) => {
                if i64::from(burst) != i64::from(horizon) {
                    return Err(Trap::OutputBurst);
                }
                claim.stream = stream;
                claim.write = true;
                claim.horizon = horizon;
                claim.burst = horizon;
                claim.skip = 0;
                Ok(horizon)
            }
        },
    }
}

/// Sets the claim of an input item: nothing reads the output, and the burst is an amount.
#[inline(always)]
fn set_input_claim(
    streams: u32,
    slots: &[i32],
    item: SiteItem,
    index: i32,
    burst: i32,
    claim: &mut Claim,
) -> Result<u32, Trap>
    requires window { HasWindow (length slots.now) item }
    requires reads { item.write ≡ false }
    ensures claim { with_claim_set result claim.new ≡ machine.claim_of streams slots.now item index burst }
    ensures positions { IfOk result (λ positions. positions ≡ claim.new.horizon) }
{
    match stream_of(streams, 1, item.stream, index) {
        None => Err(Trap::Index),
        Some(stream) => match horizon_of(slots, item.window) {
            None => Err(Trap::WindowSize),
            Some(horizon) => match amount_of(burst) {
                None => Err(Trap::Move),
                Some(burst) => {
                    claim.stream = stream;
                    claim.write = false;
                    claim.horizon = horizon;
                    claim.burst = burst;
                    claim.skip = 0;
                    Ok(horizon)
                }
            },
        },
    }
}

/// The horizon that a slot keeps, or 1.
#[inline(always)]
fn horizon_of(slots: &[i32], window: Option<u32>) -> Option<u32>
    requires { (slot : ℕ) → window ≡ Some slot → slot < length slots.now }
    ensures { result ≡ machine.horizon_of slots.now window }
{
    match window {
        None => Some(1),
        Some(slot) => size_of(number_at(slots, slot as usize)),
    }
}

/// Copies the values of the captured slots, in their order.
#[inline(always)]
pub(crate) fn set_captured(slots: &[i32], captured: &[u32], values: &mut [i32])
    requires there { All (λ slot. slot < length slots.now) captured.now }
    requires room { length values.old ≡ length captured.now }
    ensures { values.new ≡ map (λ slot. slice_index_or slots.now slot (pos 0)) captured.now }
{
    for (k, slot) in captured.iter().enumerate() {
        values[k] = number_at(slots, *slot as usize);
    }
}
