ghost use Rattle.std.specs.Prelude.{◌≡◌, ◌+◌, ◌^◌, ◌<◌, All, length, replicate, slice_set, IfOk};
ghost use Rattle.flow_core_laws.specs.declared.claim.Claim.{Claim as TheClaim};
ghost use Rattle.os_code.specs.Machine.{skip_at, claims_with_skips, skips_after_all};

use flow_core_laws::Claim;
use os_io::{List, Memory};
use std::alloc::Global;
use std::marker::Model;

/// For each stream what ticks took from it since its last read claim.
#[derive(Debug, Drop)]
pub(crate) struct Ticked {
    amounts: List<u64>,
    /// Whether a tick was ever made. Most programs make none: their claims needn't be gone through.
    any: bool,
}

impl Model for Ticked {
    ghost use Rattle.std.specs.Prelude.{ℕ, List};
    ghost use Rattle.control_run.specs.Ticking.{IsZeroUnless};

    ghost Value = { List ℕ };

    ghost view = { λ ticked. ticked.amounts };

    ghost invariant = { λ ticked. IsZeroUnless ticked.any ticked.amounts };
}

impl Ticked {
    /// The amounts before any tick, for `streams` streams.
    pub fn new(alloc: Global, streams: u32) -> Result<Ticked, Memory>
        ensures { IfOk result (λ ticked. ticked ≡ replicate streams 0) }
    {
        Ok(Ticked {
            amounts: List::filled(alloc, 0, streams as usize)?,
            any: false,
        })
    }

    /// Gives read claims what ticks took from their streams, which then is 0 again. The claims have nothing of it yet.
    #[inline(always)]
    pub fn give(&mut self, claims: &mut [Claim])
        requires streams { All (λ (claim : TheClaim). claim.stream < length self.old) claims.old }
        requires nothing { All (λ (claim : TheClaim). claim.skip ≡ 0) claims.old }
        ensures claims { claims.new ≡ claims_with_skips self.old claims.old }
        ensures skips { self.new ≡ skips_after_all self.old claims.old }
    {
        if self.any {
            take_skips(claims, self.amounts.as_mut_slice());
        }
    }

    /// Adds what a tick takes from a stream.
    #[inline(always)]
    pub fn tick(&mut self, stream: u32, taken: u32)
        requires exists { stream < length self.old }
        requires fits { skip_at self.old stream + taken < 2 ^ 64 }
        ensures { self.new ≡ slice_set self.old stream (skip_at self.old stream + taken) }
    {
        self.any = true;
        tick(self.amounts.as_mut_slice(), stream, taken);
    }
}

/// Gives read claims what ticks took from their streams, which then is 0 again.
#[inline(never)]
fn take_skips(claims: &mut [Claim], skips: &mut [u64])
    requires { All (λ (claim : TheClaim). claim.stream < length skips.old) claims.old }
    ensures claims { claims.new ≡ claims_with_skips skips.old claims.old }
    ensures skips { skips.new ≡ skips_after_all skips.old claims.old }
{
    for k in 0..claims.len() {
        let claim = claims[k];
        if !claim.write {
            claims[k] = Claim {
                skip: skips[claim.stream as usize],
                ..claim
            };
            skips[claim.stream as usize] = 0;
        }
    }
}

/// Adds what a tick takes from a stream.
#[inline(always)]
fn tick(skips: &mut [u64], stream: u32, taken: u32)
    requires exists { stream < length skips.old }
    requires fits { skip_at skips.old stream + taken < 2 ^ 64 }
    ensures { skips.new ≡ slice_set skips.old stream (skip_at skips.old stream + taken) }
{
    skips[stream as usize] += u64::from(taken);
}
