ghost use Rattle.std.specs.Prelude.{◌≡◌, ◌+◌, ◌^◌, ◌<◌, replicate, IfOk};
ghost use Rattle.control_run.specs.Spawning.{limit_of};

use crate::ticked::Ticked;
use c_int::ControlLimit;
use flow_core_laws::{ACTIVATIONS_LIMIT, POSITIONS_LIMIT};
use os_io::Memory;
use std::alloc::Global;

/// What `main` has made, but for the activations themselves.
#[derive(Debug, Drop)]
pub(crate) struct Made {
    /// How many activations it has created.
    pub created: u32,
    /// For each stream what ticks took from it since its last read claim.
    pub skips: Ticked,
    /// How many positions the claims of the activations cover together.
    pub horizons: u32,
}

impl Made {
    /// What a run over `streams` streams has made before its first instruction.
    pub fn new(alloc: Global, streams: u32) -> Result<Made, Memory>
        ensures { IfOk result (λ made. made ≡ record { created = 0; skips = replicate streams 0; horizons = 0 }) }
    {
        Ok(Made {
            created: 0,
            skips: Ticked::new(alloc, streams)?,
            horizons: 0,
        })
    }

    /// The limit that an activation would pass whose windows cover `horizons` positions.
    pub fn limit(&self, horizons: u32) -> Option<ControlLimit>
        requires { self.now.horizons + horizons < 2 ^ 32 }
        ensures { result ≡ limit_of self.now.created (self.now.horizons + horizons) }
    {
        if self.created >= ACTIVATIONS_LIMIT {
            Some(ControlLimit::Activations)
        } else if self.horizons + horizons > POSITIONS_LIMIT {
            Some(ControlLimit::Elements)
        } else {
            None
        }
    }
}
