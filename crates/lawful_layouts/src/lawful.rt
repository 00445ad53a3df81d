//! The test whether activations are lawful, and their layout where they are.

ghost use Rattle.std.specs.Prelude.{◌≡◌, ◌+◌, ◌-◌, ◌^◌, ◌≤◌, All, IfNone, IfOk, IfSome, length, min, sum_by, false, true};
ghost use Rattle.flow_core_laws.specs.declared.claim.Claim.{Claim};
ghost use Rattle.flow_core_laws.specs.Window.{claims_of, horizon_sum};
ghost use Rattle.stream_match_layouts.specs.Lawful.{IsLawfulClaim, AreLawful};
ghost use Rattle.stream_match_layouts.specs.Layout.{IsLayout, IsLayoutOf};

use flow_core_laws::{ACTIVATIONS_LIMIT, Activation, Claim, HORIZON_LIMIT, POSITIONS_LIMIT};
use os_io::Memory;
use std::alloc::Global;
use stream_match_layouts::Layout;

/// What the moves of a run's cursors stay below together.
const MOVES_BOUND: u64 = 1 << 62;

/// The layout of activations over `streams` streams and an input of `input_len` elements, or none where they aren't lawful.
pub fn lawful_layout(
    alloc: Global,
    streams: u32,
    input_len: u32,
    activations: &[Activation],
) -> Result<Option<Layout>, Memory>
    ensures layout { IfOk result (λ found. IfSome found IsLayout) }
    ensures of { IfOk result (λ found. IfSome found (λ l. IsLayoutOf l activations.now)) }
    ensures streams { IfOk result (λ found. IfSome found (λ l. length l.writers ≡ streams)) }
    ensures input { IfOk result (λ found. IfSome found (λ l. l.input_len ≡ input_len)) }
    ensures none { IfOk result (λ found. IfNone found (2 ≤ streams → AreLawful streams activations.now → ⊥)) }
{
    if streams < 2 || !are_lawful(alloc, streams, activations)? {
        return Ok(None);
    }
    Ok(Some(laid_out(alloc, streams, input_len, activations)?))
}

/// Whether activations are lawful over `streams` streams.
fn are_lawful(alloc: Global, streams: u32, activations: &[Activation]) -> Result<bool, Memory>
    ensures lawful { IfOk result (λ lawful. lawful ≡ true → AreLawful streams activations.now) }
    ensures unlawful { IfOk result (λ lawful. lawful ≡ false → AreLawful streams activations.now → ⊥) }
{
    if activations.len() > ACTIVATIONS_LIMIT as usize {
        return Ok(false);
    }
    let claims = claims_in(alloc, activations)?;
    Ok(
        are_claims_lawful(streams, claims.as_slice())
            && horizon_sum(claims.as_slice()) <= POSITIONS_LIMIT as u64
            && moves_in(claims.as_slice()) < MOVES_BOUND,
    )
}

/// The layout of lawful activations.
fn laid_out(
    alloc: Global,
    streams: u32,
    input_len: u32,
    activations: &[Activation],
) -> Result<Layout, Memory>
    requires two { 2 ≤ streams }
    requires lawful { AreLawful streams activations.now }
    ensures layout { IfOk result IsLayout }
    ensures of { IfOk result (λ l. IsLayoutOf l activations.now) }
    ensures streams { IfOk result (λ l. length l.writers ≡ streams) }
    ensures input { IfOk result (λ l. l.input_len ≡ input_len) }
{
    let mut layout = Layout::new(alloc, streams, input_len)?;
    layout.append(activations)?;
    Ok(layout)
}

/// All claims of activations.
fn claims_in(alloc: Global, activations: &[Activation]) -> Result<Vec<Claim>, Memory>
    ensures { IfOk result (λ claims. claims.items ≡ claims_of activations.now) }
{
    let mut claims = Vec::new(alloc);
    for activation in activations {
        claims.extend_from_slice(activation.claims.as_slice())?;
    }
    Ok(claims)
}

/// Whether claims are lawful over `streams` streams.
fn are_claims_lawful(streams: u32, claims: &[Claim]) -> bool
    ensures lawful { result ≡ true → All (IsLawfulClaim streams) claims.now }
    ensures unlawful { result ≡ false → All (IsLawfulClaim streams) claims.now → ⊥ }
{
    for claim in claims {
        if !is_lawful(streams, *claim) {
            return false;
        }
    }
    true
}

/// Whether a claim is lawful over `streams` streams.
fn is_lawful(streams: u32, claim: Claim) -> bool
    ensures lawful { result ≡ true → IsLawfulClaim streams claim }
    ensures unlawful { result ≡ false → IsLawfulClaim streams claim → ⊥ }
{
    if claim.stream >= streams || claim.horizon == 0 || claim.horizon > HORIZON_LIMIT {
        return false;
    }
    if claim.write {
        return claim.stream != 0 && claim.burst == claim.horizon;
    }
    claim.stream != 1
}

/// The sum of the horizons of claims, or the greatest number where it is more.
fn horizon_sum(claims: &[Claim]) -> u64
    ensures { result ≡ min (horizon_sum claims.now) (2 ^ 64 - 1) }
{
    let mut sum: u64 = 0;
    for claim in claims {
        sum = sum.saturating_add(u64::from(claim.horizon));
    }
    sum
}

/// How far claims move cursors together.
fn moves_in(claims: &[Claim]) -> u64
    ensures { result ≡ min (sum_by (λ (c : Claim). c.skip + c.burst) claims.now) (2 ^ 64 - 1) }
{
    let mut sum: u64 = 0;
    for claim in claims {
        sum = sum.saturating_add(claim.skip.saturating_add(u64::from(claim.burst)));
    }
    sum
}
