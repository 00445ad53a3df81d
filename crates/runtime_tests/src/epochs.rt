//! Plans of epochs, and the places of what leaves them, worked out by hand.

ghost use Rattle.std.specs.Prelude.{◌≡◌, IfOk, true};
ghost use Rattle.runtime_tests.specs.Worked.{worked};
ghost use Rattle.stream_match.specs.EpochPlan.{AscendInLayout};
ghost use Rattle.stream_match_layouts.specs.Layout.{IsLayout, IsLayoutOf};

use crate::activations::activation_of;
use crate::literals::{frame, piece, reads, value, writes};
use flow_core::{Activation, Elem, FramePlan, Piece};
use lawful_layouts::lawful_layout;
use os_io::Memory;
use std::alloc::Global;
use std::process::Abort;
use std::test::Fail;
use stream_match::{EpochPlan, Kept, Layout, Place, build_epoch};

/// An epoch, with all that is to be found of it.
struct Case<'a> {
    numbers: &'a [u32],
    frames: &'a [FramePlan],
    sink: FramePlan,
    pieces: &'a [Piece],
    filled: &'a [Option<Elem>],
    /// The stream and the position of each cell of the sink.
    places: &'a [(u32, u64)],
}

impl Case<'_> {
    /// Whether all is found so over a layout and its input, where nothing is kept.
    fn holds(
        &self,
        rt: &(impl AllocGlobal + Abort),
        layout: &Layout,
        input: &[u8],
    ) -> Result<(), Fail>
        requires { IsLayout layout.now }
    {
        let epoch = epoch_over(rt.alloc(), layout, self.numbers, input)?;
        self.is(rt, &epoch);
        Ok(())
    }

    /// Whether the epoch has the plan that the case says.
    fn is(&self, rt: &impl Abort, epoch: &EpochPlan) {
        let plan = &epoch.plan;
        assert!(rt; epoch.frames.as_slice() == self.numbers);
        assert!(rt; plan.numbers.as_slice() == self.numbers);
        assert!(rt; plan.frames.as_slice() == self.frames);
        assert!(rt; plan.sink == self.sink);
        assert!(rt; plan.pieces.as_slice() == self.pieces);
        assert!(rt; plan.filled.as_slice() == self.filled);
        are_places(rt, epoch.places.as_slice(), self.places);
    }
}

/// Whether these places are the ones that are wanted.
fn are_places(rt: &impl Abort, found: &[Place], wanted: &[(u32, u64)]) {
    assert!(rt; found.len() == wanted.len());
    for (place, (stream, position)) in found.iter().zip(wanted) {
        assert!(rt; place.stream == *stream);
        assert!(rt; place.position == *position);
    }
}

/// The plan of an epoch of which nothing is kept.
fn epoch_over(
    alloc: Global,
    layout: &Layout,
    numbers: &[u32],
    input: &[u8],
) -> Result<EpochPlan, Fail>
    requires { IsLayout layout.now }
{
    if input.len() != layout.input_len as usize {
        return Err(Fail::from("the input has another length"));
    }
    if !are_frames(layout, numbers) {
        return Err(Fail::from("the frames aren't activations that ascend"));
    }
    Ok(build_epoch(alloc, layout, numbers, &[], input)?)
}

/// Whether numbers are those of activations of a layout, ascending.
fn are_frames(layout: &Layout, numbers: &[u32]) -> bool
    ensures { result ≡ true → AscendInLayout layout.now numbers.now }
{
    let mut next: usize = 0;
    for number in numbers {
        let frame = *number as usize;
        if frame < next || frame + 1 >= layout.starts.len() {
            return false;
        }
        next = frame + 1;
    }
    true
}

/// The activations of the epochs. Of stream 2 the first one writes the positions 0 to 3; the second reads position 0, and the fourth
/// position 1. Of stream 3 the third writes the positions 0 and 1, and the fourth reads position 0 and goes past both. The second
/// writes the positions 0 and 1 of the output, the third position 2 and the fourth position 3.
fn worked_activations(alloc: Global) -> Result<Vec<Activation>, Memory>
    ensures { IfOk result (λ activations. activations.items ≡ worked) }
{
    let mut activations = Vec::new(alloc);
    activations.push(activation_of(alloc, &[reads!(0, 1, 1, 0), writes!(2, 4)])?)?;
    activations.push(activation_of(alloc, &[reads!(2, 1, 1, 0), writes!(1, 2)])?)?;
    activations.push(activation_of(alloc, &[writes!(3, 2), writes!(1, 1)])?)?;
    activations.push(activation_of(
        alloc,
        &[reads!(2, 1, 1, 0), reads!(3, 1, 2, 0), writes!(1, 1)],
    )?)?;
    Ok(activations)
}

/// Their layout over an input of two elements.
fn worked_layout(alloc: Global) -> Result<Layout, Fail>
    ensures layout { IfOk result IsLayout }
    ensures of { IfOk result (λ layout. IsLayoutOf layout worked) }
{
    let activations = worked_activations(alloc)?;
    match lawful_layout(alloc, 4, 2, activations.as_slice())? {
        Some(layout) => Ok(layout),
        None => Err(Fail::from("the activations aren't lawful")),
    }
}

static CASES: [Case<'static>; 3] = [
    // There is no frame.
    Case {
        numbers: &[],
        frames: &[],
        sink: frame!(0, 0, 0, 0, 0, 0),
        pieces: &[],
        filled: &[],
        places: &[],
    },
    // The first and the third. No frame reads stream 2 or 3, and later activations read both from position 2 on: of what the first
    // one writes the last two positions leave, and of what the third one writes there none.
    Case {
        numbers: &[0, 2],
        frames: &[frame!(0, 1, 4, 0, 0, 1), frame!(1, 0, 3, 0, 1, 1)],
        sink: frame!(1, 3, 0, 3, 2, 0),
        pieces: &[piece!(0, 2, 2, 2, 1), piece!(1, 2, 2, 1, 3)],
        filled: &[value!(7), None, None, None],
        places: &[(2, 2), (2, 3), (1, 2)],
    },
    // All four. The second reads stream 2 from position 0 on, and the fourth stream 3: all that they write leaves.
    Case {
        numbers: &[0, 1, 2, 3],
        frames: &[
            frame!(0, 1, 4, 0, 0, 3),
            frame!(1, 1, 2, 1, 3, 1),
            frame!(2, 0, 3, 0, 4, 3),
            frame!(2, 2, 1, 2, 7, 1),
        ],
        sink: frame!(4, 10, 0, 10, 8, 0),
        pieces: &[
            piece!(0, 1, 0, 1, 1),
            piece!(0, 3, 1, 1, 2),
            piece!(0, 4, 0, 4, 4),
            piece!(1, 4, 0, 2, 8),
            piece!(2, 3, 0, 1, 3),
            piece!(2, 4, 0, 2, 10),
            piece!(2, 4, 2, 1, 12),
            piece!(3, 4, 0, 1, 13),
        ],
        filled: &[
            value!(7),
            None,
            None,
            None,
            None,
            None,
            None,
            None,
            None,
            None,
            None,
            None,
            None,
            None,
        ],
        places: &[
            (2, 0),
            (2, 1),
            (2, 2),
            (2, 3),
            (1, 0),
            (1, 1),
            (3, 0),
            (3, 1),
            (1, 2),
            (1, 3),
        ],
    },
];

/// The second and the fourth: the first and the third ran, and of what they wrote position 1 of stream 2 alone is kept. The fourth finds it
/// there; what else the two read nobody gives them. All that they write goes to the output.
static KEPT: Case<'static> = Case {
    numbers: &[1, 3],
    frames: &[frame!(0, 1, 2, 1, 0, 1), frame!(1, 2, 1, 1, 1, 1)],
    sink: frame!(3, 3, 0, 3, 2, 0),
    pieces: &[piece!(0, 2, 0, 2, 3), piece!(1, 2, 0, 1, 5)],
    filled: &[None, value!(6), None, None, None, None],
    places: &[(1, 0), (1, 1), (1, 3)],
};

/// The plan of that epoch.
fn epoch_with_kept(alloc: Global, layout: &Layout) -> Result<EpochPlan, Fail>
    requires layout { IsLayout layout.now }
    requires of { IsLayoutOf layout.now worked }
{
    let numbers = [1, 3];
    let kept = [Kept {
        stream: 2,
        position: 1,
        value: Elem::Value(6),
    }];
    let input = [7, 9];
    if input.len() != layout.input_len as usize || !are_frames(layout, &numbers) {
        return Err(Fail::from("the frames or the input aren't those of the layout"));
    }
    Ok(build_epoch(alloc, layout, &numbers, &kept, &input)?)
}

#[test]
fn each_cell_of_the_sink_has_its_stream_and_position(rt: HostRuntime) -> Result<(), Fail> {
    let input = [7, 9];
    let layout = worked_layout(rt.alloc())?;
    for case in &CASES {
        case.holds(&rt, &layout, &input)?;
    }
    Ok(())
}

#[test]
fn what_is_kept_is_there_from_the_start(rt: HostRuntime) -> Result<(), Fail> {
    let layout = worked_layout(rt.alloc())?;
    let epoch = epoch_with_kept(rt.alloc(), &layout)?;
    KEPT.is(&rt, &epoch);
    Ok(())
}
