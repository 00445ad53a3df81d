//! Runs in control order that several workers portion out.

ghost use Rattle.std.specs.Prelude.{◌≤◌};
ghost use Rattle.flow_core_laws.specs.Limits.{workers_limit};

use crate::compiled::compiled;
use crate::ways::are_same;
use epoch_run::{Budgets, RunResult, run_epochs};
use os_code::Code;
use std::alloc::Global;
use std::process::Abort;
use std::sync::atomic::{AtomicU32, Ordering};
use std::thread::Threads;
use task_workers::{Gate, NoGate};

/// 18,000 activations of which each second one reads what the one before it wrote, and nothing else reads anything. One traps, one never ends, and
/// poison goes on to those that read it.
const PAIRS: &str = r"int main(void) {
    int s __attribute__((stream));
    int i, x, y, z;
    for (i = 0; i < 9000; i++) {
        #pragma omp task output(s << x)
        {
            int k;
            x = 1 / (i - 6500);
            for (k = 0; k < 20; k++) x = (x * 5 + i) & 255;
            while (i == 7500) ;
        }
        #pragma omp task input(s >> y) output(osout << z)
        {
            int k;
            z = y;
            for (k = 0; k < 20; k++) z = (z * 3 + k) & 255;
        }
    }
}
";

/// As many, in threes: no power of two is a border between them.
const THREES: &str = r"int main(void) {
    int s __attribute__((stream)), t __attribute__((stream));
    int i, x, y, z;
    for (i = 0; i < 6000; i++) {
        #pragma omp task output(s << x)
        {
            int k;
            x = i;
            for (k = 0; k < 20; k++) x = (x * 5 + k) & 255;
        }
        #pragma omp task input(s >> x) output(t << y)
        {
            int k;
            y = x;
            for (k = 0; k < 20; k++) y = (y * 7 + k) & 255;
        }
        #pragma omp task input(t >> y) output(osout << z)
        {
            int k;
            z = y;
            for (k = 0; k < 20; k++) z = (z * 3 + k) & 255;
        }
    }
}
";

/// The first 6,000 read nothing, and of the 16,001 others each reads what the one before it wrote, so that no portion can begin among these.
const CHAINED: &str = r"int main(void) {
    int s __attribute__((stream));
    int i, x, y, z;
    for (i = 0; i < 6000; i++) {
        #pragma omp task output(osout << z)
        {
            int k;
            z = i;
            for (k = 0; k < 20; k++) z = (z * 3 + k) & 255;
        }
    }
    #pragma omp task output(s << y)
    y = 1;
    for (i = 0; i < 16000; i++) {
        #pragma omp task input(s >> x) output(s << y, osout << z)
        {
            y = (x * 5 + i) & 255;
            z = y;
        }
    }
}
";

/// Each reads what the one before it wrote, from the first one on: nothing is portioned out.
const CHAIN: &str = r"int main(void) {
    int s __attribute__((stream));
    int i, x, y, z;
    #pragma omp task output(s << y)
    y = 1;
    for (i = 0; i < 5000; i++) {
        #pragma omp task input(s >> x) output(s << y, osout << z)
        {
            int k;
            y = x;
            for (k = 0; k < 20; k++) y = (y * 5 + i) & 255;
            z = y;
        }
    }
}
";

/// Each of 15,000 runs by itself, but for the one that waits for what is written 300 activations behind it.
const WAITING: &str = r"int main(void) {
    int s __attribute__((stream));
    int i, x, z;
    for (i = 0; i < 15000; i++) {
        if (i == 9000) {
            #pragma omp task input(s >> x) output(osout << z)
            z = x;
        }
        if (i == 9300) {
            #pragma omp task output(s << x)
            x = 77;
        }
        #pragma omp task output(osout << z)
        {
            int k;
            z = i & 255;
            for (k = 0; k < 20; k++) z = (z * 3 + k) & 255;
        }
    }
}
";

/// A program with the turns of `main`, and how many activations of it aren't run by portions at least and at most.
type Case = (&'static str, u64, u32, u32);

/// The first 1,024 run alone. `main` of the second one has turns for 7,000 of its loop. Behind the one that waits, the others run in epochs.
static CASES: [Case; 6] = [
    (PAIRS, 1_000_000, 1_024, 2_000),
    (PAIRS, 7_000, 1_024, 2_000),
    (THREES, 1_000_000, 1_024, 2_000),
    (CHAINED, 1_000_000, 10_000, 15_000),
    (CHAIN, 1_000_000, 5_001, 5_001),
    (WAITING, 1_000_000, 5_000, 9_000),
];

/// More frames than an epoch has, where fewer than 256 activations wait for its new ones.
const MOST_FRAMES: u32 = 4_096 + 256;

/// How often it was passed, and the largest number of a frame in its epoch.
#[derive(Drop)]
struct Calls {
    count: AtomicU32,
    largest: AtomicU32,
}

impl Gate for Calls {
    fn at(&self, _worker: u32, frame: u32) {
        self.count.fetch_add(1, Ordering::SeqCst);
        self.largest.fetch_max(frame, Ordering::SeqCst);
    }
}

/// A run by `workers` workers.
fn run<R: Threads + Sync, G: Gate>(
    rt: &R,
    alloc: Global,
    code: &Code,
    control: u64,
    workers: u32,
    gate: &G,
) -> Option<RunResult>
    requires workers { (1 ≤ workers) × (workers ≤ workers_limit) }
    requires budget { control ≤ 1000000 }
{
    let budgets = Budgets {
        task: 1_000,
        control,
    };
    run_epochs(rt, alloc, code, &[], budgets, workers, gate).ok()
}

/// Whether a program comes to the same by four workers as by one, and how the gate was passed: how often, and with which largest number.
fn portioned<R: Threads + Sync>(
    rt: &R,
    alloc: Global,
    code: &Code,
    control: u64,
) -> Option<(bool, u32, u32)>
    requires { control ≤ 1000000 }
{
    let calls = Calls {
        count: AtomicU32::new(0),
        largest: AtomicU32::new(0),
    };
    let alone = run(rt, alloc, code, control, 1, &NoGate)?;
    let run = run(rt, alloc, code, control, 4, &calls)?;
    let same = are_same(&run, &alone);
    let count = calls.count.load(Ordering::SeqCst);
    let largest = calls.largest.load(Ordering::SeqCst);
    Some((same, count, largest))
}

/// Asks that a program comes to the same, and how many of its activations aren't run by portions.
fn is_portioned<R: Threads + Sync + Abort>(rt: &R, alloc: Global, case: &Case) {
    let (text, control, least, most) = *case;
    let code = compiled(rt, alloc, text).expect(rt, "a program");
    let (same, calls, largest) = portioned(rt, alloc, &code, control.min(1_000_000)).expect(
        rt, "memory",
    );
    assert!(rt; same, "{text}");
    assert!(rt; least <= calls && calls <= most, "{calls} of {text}");
    assert!(rt; largest < MOST_FRAMES, "{largest} of {text}");
}

#[test]
fn portions_come_to_what_one_worker_comes_to(rt: HostRuntime) {
    for case in &CASES {
        is_portioned(&rt, rt.alloc(), case);
    }
}
