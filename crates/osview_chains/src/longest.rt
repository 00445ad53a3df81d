ghost use Rattle.std.specs.Prelude.{◌≡◌, ◌<◌, ◌+◌, ◌^◌, ◌≤◌, ℕ, None, IfOk, IsSome, length, slice_index, slice_index_or, slice_set, max};
ghost use Rattle.flow_core_laws.specs.IsSound.{IsSound};
ghost use Rattle.flow_core_laws.specs.Plans.{frame_at, plan_reads};
ghost use Rattle.osview_chains.specs.Behind.{Raises};
ghost use Rattle.osview_chains.specs.Chains.{IsLongest};
ghost use Rattle.osview_outcomes.specs.Order.{IsInOrder};

use flow_core_laws::{FramePlan, Plan};
use os_io::{List, Memory};
use std::alloc::Global;

/// The steps of a frame, if it ran.
fn steps_of(steps: &[Option<u64>], frame: u32) -> Option<u64>
    ensures { result ≡ slice_index_or steps.now frame None }
{
    match steps.get(frame as usize) {
        Some(own) => *own,
        None => None,
    }
}

/// Raises the numbers of the frames that wait for a frame, and of the sink, to a least one.
fn raise_readers(plan: &Plan, frame: u32, least: u128, behind: &mut List<u128>)
    requires sound { IsSound plan.now }
    requires exists { frame < length plan.now.frames }
    requires as_many { length behind.old ≡ length plan.now.frames + 1 }
    ensures { Raises plan.now (frame_at plan.now frame).piece ((frame_at plan.now frame).piece + (frame_at plan.now frame).pieces)
        frame least behind.old behind.new }
{
    let FramePlan { piece, pieces, .. } = plan.frame(frame);
    for number in piece as usize..piece as usize + pieces as usize {
        raise(behind, plan.pieces.as_slice()[number].to, least);
    }
}

/// Raises a number to a least one.
fn raise(numbers: &mut List<u128>, place: u32, least: u128)
    requires { place < length numbers.old }
    ensures { numbers.new ≡ slice_set numbers.old place (max (slice_index numbers.old place) least) }
{
    if numbers.as_slice()[place as usize] < least {
        numbers.as_mut_slice()[place as usize] = least;
    }
}

/// The steps of a frame together with those of a chain that it waits for.
fn together(behind: u128, own: u64) -> u128
    requires { behind + 18446744073709551615 < 2 ^ 128 }
    ensures sum { result ≡ behind + own }
    ensures small { own ≤ 18446744073709551615 }
{
    behind + u128::from(own)
}

/// The larger one of two numbers.
fn larger(a: u128, b: u128) -> u128
    ensures { result ≡ max a b }
{
    if a < b { b } else { a }
}

/// How many steps a longest chain takes: frames that ran, each of which waits for the next one. `steps` has those of each frame
/// that ran, and `order` all of these frames, each behind those that it waits for.
pub fn longest_chain(
    alloc: Global,
    plan: &Plan,
    order: &[u32],
    steps: &[Option<u64>],
) -> Result<u128, Memory>
    requires sound { IsSound plan.now }
    requires order { IsInOrder (plan_reads plan.now) (length plan.now.frames) order.now }
    requires listed { (f : ℕ) → IsSome (slice_index_or steps.now f None) → (k : ℕ) × (k < length order.now) × (slice_index order.now k ≡ f) }
    ensures { IfOk result (IsLongest (plan_reads plan.now) steps.now) }
{
    let mut behind = List::filled(alloc, 0, plan.frames.len() + 1)?;
    let mut most = 0;
    for frame in order {
        if let Some(own) = steps_of(steps, *frame) {
            let takes = together(behind.as_slice()[*frame as usize], own);
            raise_readers(plan, *frame, takes, &mut behind);
            most = larger(most, takes);
        }
    }
    Ok(most)
}
