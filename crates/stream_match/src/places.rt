ghost use Rattle.std.specs.Prelude.{◌≡◌, ◌+◌, ◌++◌, ◌^◌, ◌<◌, All, IfOk, OnOk};
ghost use Rattle.std.specs.List.{flat_map};
ghost use Rattle.stream_match.specs.declared.stretch.Stretch.{Stretch};
ghost use Rattle.stream_match.specs.Stretch.{stretch_places};

use crate::stretch::Stretch;
use flow_core_laws::Place;
use os_io::{List, Memory};
use std::alloc::Global;

/// The place of each position of stretches, in order. Room for `room` places is taken at first; there may be more or fewer.
pub(crate) fn places_in(
    alloc: Global,
    stretches: &[Stretch],
    room: u32,
) -> Result<List<Place>, Memory>
    requires { All (λ (s : Stretch). s.first + s.count < 2 ^ 64) stretches.now }
    ensures { IfOk result (λ places. places ≡ flat_map stretch_places stretches.now) }
{
    let mut places = List::with_capacity(alloc, room as usize)?;
    for stretch in stretches {
        add_places(&mut places, *stretch)?;
    }
    Ok(places)
}

/// Adds the place of each position of a stretch.
fn add_places(places: &mut List<Place>, stretch: Stretch) -> Result<(), Memory>
    requires { stretch.first + stretch.count < 2 ^ 64 }
    ensures { OnOk result (places.new ≡ places.old ++ stretch_places stretch) }
{
    for offset in 0..stretch.count {
        places.push(Place {
            stream: stretch.stream,
            position: stretch.first + u64::from(offset),
        })?;
    }
    Ok(())
}
