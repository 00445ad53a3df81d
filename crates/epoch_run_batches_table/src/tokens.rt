//! The plan of batches: each writes a token, which those read that look in its slot.

ghost use Rattle.std.specs.Prelude.{◌≡◌, ℕ, ◌+◌, ◌<◌, ◌≤◌, All, IfOk, IfSome, OnOk, length};
ghost use Rattle.flow_core_laws.specs.IsSound.{IsSound};
ghost use Rattle.flow_core_laws.specs.Limits.{activations_limit};
ghost use Rattle.stream_match_layouts.specs.Lawful.{AreLawful};
ghost use Rattle.stream_match_layouts.specs.Layout.{IsLayout};
ghost use Rattle.epoch_run_batches_table.specs.Tokens.{IsTokenClaim};

use crate::batch::Batch;
use flow_core_laws::{ACTIVATIONS_LIMIT, Activation, Claim, POSITIONS_LIMIT, Plan};
use os_io::{List, Memory};
use std::alloc::Global;
use stream_match::build;
use stream_match_layouts::Layout;

/// The stream of the first batch's token, after the input and the output.
const FIRST_TOKEN: u32 = 2;

/// The plan of batches, a frame for each; none where they are more than a run may have activations, or look in more slots than these may have
/// inputs.
pub(crate) fn plan_of(alloc: Global, batches: &[Batch]) -> Result<Option<Plan>, Memory>
    ensures { IfOk result (λ found. IfSome found IsSound) }
{
    if batches.len() > ACTIVATIONS_LIMIT as usize {
        return Ok(None);
    }
    let Some(tokens) = tokens_of(alloc, batches)? else {
        return Ok(None);
    };
    let layout = laid_out(alloc, FIRST_TOKEN + batches.len() as u32, tokens.as_slice())?;
    let plan = build(alloc, &layout, &[])?;
    Ok(Some(plan))
}

/// The layout of lawful activations over no input.
fn laid_out(alloc: Global, streams: u32, tokens: &[Activation]) -> Result<Layout, Memory>
    requires two { 2 ≤ streams }
    requires lawful { AreLawful streams tokens.now }
    ensures layout { IfOk result IsLayout }
    ensures input { IfOk result (λ l. l.input_len ≡ 0) }
{
    let mut layout = Layout::new(alloc, streams, 0)?;
    layout.append(tokens)?;
    Ok(layout)
}

/// An activation for each batch; none where all together have too many claims.
fn tokens_of(alloc: Global, batches: &[Batch]) -> Result<Option<List<Activation>>, Memory>
    requires few { length batches.now ≤ activations_limit }
    ensures { IfOk result (λ found. IfSome found (AreLawful (FIRST_TOKEN + length batches.now))) }
{
    let streams = FIRST_TOKEN + batches.len() as u32;
    let mut tokens = List::with_capacity(alloc, batches.len())?;
    let mut claims: usize = 0;
    for number in 0..batches.len() {
        let from = batches[number].from.as_slice();
        let token = token_of(alloc, from, FIRST_TOKEN + number as u32, streams)?;
        claims = claims.saturating_add(token.claims.len());
        if claims > POSITIONS_LIMIT as usize {
            return Ok(None);
        }
        tokens.push(token)?;
    }
    Ok(Some(tokens))
}

/// The activation of a batch with the stream of its token: it writes that, and reads those of the batches in whose slots it looks.
fn token_of(alloc: Global, from: &[u32], own: u32, streams: u32) -> Result<Activation, Memory>
    requires token { (2 ≤ own) × (own < streams) }
    ensures { IfOk result (λ a. All (IsTokenClaim streams) a.claims) }
{
    let mut claims = List::with_capacity(alloc, 1)?;
    claims.push(writing(own))?;
    for batch in from {
        add_reading(&mut claims, *batch, streams)?;
    }
    Ok(Activation {
        site: 0,
        captured: List::new(alloc),
        claims,
    })
}

/// Adds the claim that reads the token of a batch, if there is one of this number.
fn add_reading(claims: &mut List<Claim>, batch: u32, streams: u32) -> Result<(), Memory>
    requires streams { 2 ≤ streams }
    requires tokens { All (IsTokenClaim streams) claims.old }
    ensures { OnOk result (All (IsTokenClaim streams) claims.new) }
{
    if batch >= streams - FIRST_TOKEN {
        return Ok(());
    }
    claims.push(reading(FIRST_TOKEN + batch))?;
    Ok(())
}

/// The claim that writes a token to a stream.
fn writing(stream: u32) -> Claim
    requires { 2 ≤ stream }
    ensures { (streams : ℕ) → stream < streams → IsTokenClaim streams result }
{
    Claim {
        stream,
        write: true,
        horizon: 1,
        burst: 1,
        skip: 0,
    }
}

/// The claim that reads the token of a stream.
fn reading(stream: u32) -> Claim
    requires { 2 ≤ stream }
    ensures { (streams : ℕ) → stream < streams → IsTokenClaim streams result }
{
    Claim {
        stream,
        write: false,
        horizon: 1,
        burst: 0,
        skip: 0,
    }
}
