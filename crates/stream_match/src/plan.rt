ghost use Rattle.std.specs.Prelude.{◌≡◌, [], ◌∷◌, List, IfOk, length};
ghost use Rattle.flow_core_laws.specs.declared.activation.Activation.{Activation};
ghost use Rattle.flow_core_laws.specs.IsSound.{IsSound};
ghost use Rattle.flow_core_laws.specs.StandsFor.{StandsFor};
ghost use Rattle.stream_match_layouts.specs.Layout.{IsLayout, IsLayoutOf};
ghost use Rattle.stream_match.specs.Weave.{IsWoven};
ghost use Rattle.stream_match.specs.Whole.{all_frames, output_reach, whole_weave};
ghost use Rattle.stream_match.specs.EpochCode.{IsLeft, reads_before};

use crate::gather::gathered;
use crate::reaching::{Left, Reaching, reading};
use crate::woven::weave_rows;
use flow_core_laws::Plan;
use os_io::{List, Memory};
use std::alloc::Global;
use stream_match_layouts::Layout;

/// The plan of the whole run over an input. Frame f is activation f. The cells are those of the
/// input windows, frame by frame, and behind them those of the sink, which are the positions of the
/// output that are claimed for writing. There is a piece for each pair of a write claim and a read
/// claim, or the sink, that have positions in common.
pub fn build(alloc: Global, layout: &Layout, input: &[u8]) -> Result<Plan, Memory>
    requires layout { IsLayout layout.now }
    requires input { length input.now ≡ layout.now.input_len }
    ensures exact { IfOk result (IsWoven layout.now (whole_weave layout.now input.now)) }
    ensures sound { IfOk result IsSound }
    ensures stands_for { IfOk result (λ plan. (activations : List Activation)
        → IsLayoutOf layout.now activations → StandsFor plan activations input.now) }
{
    let all = all_frames(alloc, layout)?;
    let read = reading(alloc, layout, all.as_slice())?;
    let left = output(alloc, layout, all.as_slice(), read.next)?;
    let kept = Vec::new(alloc);
    let plan = weave_rows(
        alloc,
        layout,
        all.as_slice(),
        &read,
        &left,
        kept.as_slice(),
        input,
    )?;
    Ok(plan)
}

/// The numbers of all activations.
fn all_frames(alloc: Global, layout: &Layout) -> Result<Vec<u32>, Memory>
    requires { IsLayout layout.now }
    ensures { IfOk result (λ frames. frames.items ≡ all_frames layout.now) }
{
    let count = layout.frames();
    let mut frames = Vec::with_capacity(alloc, count)?;
    for frame in 0..count as u32 {
        frames.push(frame)?;
    }
    Ok(frames)
}

/// The positions of the output that are claimed for writing, behind the cells of all frames.
fn output(alloc: Global, layout: &Layout, frames: &[u32], next: u32) -> Result<Left, Memory>
    requires layout { IsLayout layout.now }
    requires frames { frames.now ≡ all_frames layout.now }
    requires next { next ≡ reads_before layout.now (all_frames layout.now) (length (all_frames layout.now)) }
    ensures { IfOk result (IsLeft layout.now (all_frames layout.now) (output_reach layout.now ∷ [])) }
{
    let count = layout.cursors.writes.as_slice()[1];
    let mut left = Reaching {
        stretches: List::new(alloc),
        next,
    };
    left.add(layout.frames() as u32, 1, 0, count as u32)?;
    let stretches = left.stretches;
    let pieces = gathered(alloc, layout, frames, stretches.as_slice(), layout.frames())?;
    Ok(Left {
        stretches,
        pieces,
        next: left.next,
    })
}
