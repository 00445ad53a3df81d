//! What one worker opens others run too.
ghost use Rattle.flow_core_laws.specs.IsSound.{IsSound};

use crate::rounds::{CASES, plan_of_case};
use flow_core::Plan;
use lawful_layouts::Lasts;
use os_io::Memory;
use std::alloc::Global;
use std::sync::atomic::{AtomicU32, Ordering};
use std::test::Fail;
use std::thread::Threads;
use task_workers::{Gate, execute};

/// Which worker ran frame 0, and how many frames after it were run by others.
#[derive(Drop)]
struct Others {
    opener: AtomicU32,
    ran: AtomicU32,
}

impl Gate for Others {
    fn at(&self, worker: u32, frame: u32) {
        if frame == 0 {
            self.opener.store(worker, Ordering::SeqCst);
        } else if worker != self.opener.load(Ordering::SeqCst) {
            self.ran.fetch_add(1, Ordering::SeqCst);
        }
    }
}

/// The first frame opens a thousand others, which its worker has to itself until others take them.
#[test]
fn others_run_what_one_worker_opened(rt: HostRuntime) -> Result<(), Fail> {
    let plan = plan_of_case(rt.alloc(), &CASES[2])?;
    others_run_some(&rt, rt.alloc(), &plan)
}

/// Whether in one of two thousand runs a worker ran a frame that another one opened.
fn others_run_some<R: Threads + Sync>(rt: &R, alloc: Global, plan: &Plan) -> Result<(), Fail>
    requires { IsSound plan.now }
{
    for _ in 0..2000 {
        if run_by_others(rt, alloc, plan)? > 0 {
            return Ok(());
        }
    }
    Err(Fail::from("no other worker ran any of them"))
}

/// How many frames four workers run after frame 0 that didn't run that one.
fn run_by_others<R: Threads + Sync>(rt: &R, alloc: Global, plan: &Plan) -> Result<u32, Memory>
    requires { IsSound plan.now }
{
    let bodies = Lasts {
        plan,
        some_fail: false,
    };
    let gate = Others {
        opener: AtomicU32::new(0),
        ran: AtomicU32::new(0),
    };
    execute(rt, alloc, plan, &bodies, 4, &gate)?;
    Ok(gate.ran.load(Ordering::SeqCst))
}
