//! Whether all new activations wait, as it was found by hand.

ghost use Rattle.stream_match_layouts.specs.Layout.{IsLayout};

use crate::activations::layout_of;
use crate::literals::{reads, writes};
use epoch_run_ready::{newest_wait, ready_since};
use flow_core::Claim;
use os_io::Memory;
use std::process::Abort;
use std::test::Fail;
use stream_match::Layout;

/// Activations on two declared streams, over an input of `input_len` elements.
struct Case<'a> {
    input_len: u32,
    /// The claims of each activation.
    tasks: &'a [&'a [Claim]],
    /// For each number whether all from that one on are found to wait.
    wait: &'a [bool],
}

/// Whether all is found so of each of these cases.
fn all_hold(rt: &(impl AllocGlobal + Abort), cases: &[Case<'_>]) -> Result<(), Fail> {
    for case in cases {
        let layout = layout_of(rt.alloc(), 4, case.input_len, case.tasks)?;
        are_found(
            rt,
            &layout,
            &READERS[..case.tasks.len().min(READERS.len())],
            case.wait,
        )?;
    }
    Ok(())
}

/// Whether those from each number on are found to wait, or not to.
fn are_found(
    rt: &(impl AllocGlobal + Abort),
    layout: &Layout,
    readers: &[u32],
    wait: &[bool],
) -> Result<(), Memory>
    requires { IsLayout layout.now }
{
    for (first, wait) in wait.iter().enumerate() {
        assert!(rt; newest_wait(rt.alloc(), layout, readers, first)? == *wait);
    }
    Ok(())
}

static CASES: [Case<'static>; 6] = [
    // Each waits for the one behind it.
    Case {
        input_len: 0,
        tasks: &[
            &[reads!(2, 1, 1, 1), writes!(2, 1)],
            &[reads!(2, 1, 1, 0), writes!(2, 1)],
            &[reads!(2, 1, 1, 0), writes!(2, 1)],
        ],
        wait: &[true, true, true],
    },
    // The last one waits for nobody.
    Case {
        input_len: 0,
        tasks: &[
            &[reads!(2, 1, 1, 1), writes!(2, 1)],
            &[reads!(2, 1, 1, 0), writes!(2, 1)],
            &[writes!(2, 1)],
        ],
        wait: &[false, false, false, false],
    },
    // One before the last waits for nobody.
    Case {
        input_len: 0,
        tasks: &[
            &[reads!(3, 1, 1, 0)],
            &[writes!(2, 2)],
            &[reads!(2, 4, 4, 0)],
        ],
        wait: &[false, false, true],
    },
    // The input ends before the last two.
    Case {
        input_len: 2,
        tasks: &[
            &[reads!(0, 2, 1, 0)],
            &[reads!(0, 2, 1, 0), writes!(2, 1)],
            &[reads!(2, 1, 1, 0), reads!(0, 1, 1, 0)],
        ],
        wait: &[false, true, true],
    },
    // The second one waits for the first, which has no end.
    Case {
        input_len: 0,
        tasks: &[&[reads!(3, 1, 1, 0), writes!(2, 1)], &[reads!(2, 1, 1, 0)]],
        wait: &[true, true],
    },
    // None is there.
    Case {
        input_len: 0,
        tasks: &[],
        wait: &[false],
    },
];

#[test]
fn new_activations_wait_for_one_another_for_the_input_or_for_nobody(
    rt: HostRuntime,
) -> Result<(), Fail> {
    all_hold(&rt, &CASES)
}

/// The numbers of the activations of a case, of which none has an end.
static READERS: [u32; 3] = [0, 1, 2];

/// Two activations, of which each reads what the other one writes, and one that waits for nobody.
static CIRCLE: [&[Claim]; 3] = [
    &[reads!(2, 1, 1, 0), writes!(3, 1)],
    &[reads!(3, 1, 1, 0), writes!(2, 1)],
    &[writes!(1, 1)],
];

#[test]
fn activations_wait_in_a_circle_with_the_readers_before_them(rt: HostRuntime) -> Result<(), Fail> {
    let layout = layout_of(rt.alloc(), 4, 0, &CIRCLE[..2])?;
    assert!(rt; newest_wait(rt.alloc(), &layout, &READERS[..2], 0)?);
    assert!(rt; newest_wait(rt.alloc(), &layout, &READERS[..2], 1)?);
    Ok(())
}

#[test]
fn a_circle_is_left_out_where_nothing_new_reaches_it(rt: HostRuntime) -> Result<(), Fail> {
    let layout = layout_of(rt.alloc(), 4, 0, &CIRCLE)?;
    let readers: [u32; 3] = [0, 1, 2];
    assert!(rt; layout.frames() == readers.len());
    let since = ready_since(rt.alloc(), &layout, &readers, 2)?;
    assert!(rt; since.as_slice() == [2].as_slice());
    let at_once = ready_since(rt.alloc(), &layout, &readers, 0)?;
    assert!(rt; at_once.as_slice() == readers.as_slice());
    Ok(())
}
