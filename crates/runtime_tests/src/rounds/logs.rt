//! What one worker opens stands in the lists of others too.
ghost use Rattle.flow_core_laws.specs.IsSound.{IsSound};

use crate::rounds::{CASES, plan_of_case};
use flow_core::Plan;
use lawful_layouts::Lasts;
use os_io::{List, Memory};
use std::alloc::Global;
use std::test::Fail;
use std::thread::Threads;
use task_workers::{NoGate, execute_logged};

/// The first frame opens a thousand others, which its worker has to itself until others take them.
#[test]
fn lists_of_others_have_what_one_worker_opened(rt: HostRuntime) -> Result<(), Fail> {
    let plan = plan_of_case(rt.alloc(), &CASES[2])?;
    others_log_some(&rt, rt.alloc(), &plan)
}

/// Whether in one of two thousand runs the list of a worker has a frame that another one opened.
fn others_log_some<R: Threads + Sync>(rt: &R, alloc: Global, plan: &Plan) -> Result<(), Fail>
    requires { IsSound plan.now }
{
    for _ in 0..2000 {
        if logged_by_others(rt, alloc, plan)? > 0 {
            return Ok(());
        }
    }
    Err(Fail::from("no other worker ran any of them"))
}

/// How many of the thousand frames four workers log that didn't open them.
fn logged_by_others<R: Threads + Sync>(rt: &R, alloc: Global, plan: &Plan) -> Result<usize, Memory>
    requires { IsSound plan.now }
{
    let bodies = Lasts {
        plan,
        some_fail: false,
    };
    let logged = execute_logged(rt, alloc, plan, &bodies, 4, &NoGate)?;
    Ok(opened_elsewhere(logged.lists.as_slice()))
}

/// How many frames stand in lists that frame 0, which opens them, isn't in. The last frame doesn't count.
fn opened_elsewhere(lists: &[List<u32>]) -> usize {
    let mut count: usize = 0;
    for list in lists {
        let ran = list.as_slice();
        if !ran.contains(&0) {
            count = count.saturating_add(ran.iter().filter(|frame| **frame <= 1000).count());
        }
    }
    count
}
