//! Programs whose activations wait for one another, starve and fail, in short epochs beside one epoch.

use crate::compiled::compiled;
use crate::ways::{Job, Ways, is_as_in_one_epoch, run_whole};
use std::alloc::Global;
use std::process::Abort;
use std::thread::Threads;

/// How many turns an activation has: more than any of them takes, but for those that never end.
const TURNS: u64 = 40;

const INPUT: [u8; 24] = [
    3, 141, 59, 26, 53, 58, 97, 93, 238, 46, 26, 43, 38, 32, 79, 50, 28, 84, 19, 71, 69, 39, 93, 75,
];

/// The first activation waits for the last; positions are skipped behind it, and read again over the borders of short epochs.
const WAITING: &str = r"int main(void) {
    int s __attribute__((stream)), t __attribute__((stream));
    int i, x, y, z;
    #pragma omp tick(s >> 19)
    #pragma omp task input(s >> x) output(osout << y)
    y = x;
    for (i = 0; i < 20; i++) {
        int w[4];
        #pragma omp task input(osin >> x) output(s << y, t << z)
        { y = x; z = x + i; }
        #pragma omp task input(t >> w[1]) output(osout << y)
        y = (w[0] + w[3]) & 255;
        #pragma omp tick(osin >> 0)
    }
}
";
/// Each activation waits for the one behind it; one traps, and one never ends.
const BACKWARD: &str = r"int main(void) {
    int s[12] __attribute__((stream));
    int i, x, y, z;
    for (i = 0; i < 10; i++) {
        #pragma omp task input(s[i + 1] >> x) output(s[i] << z, osout << y)
        { y = x; z = x + 1; }
    }
    #pragma omp task output(s[11] << x)
    x = 1 / 0;
    #pragma omp task input(osin >> x) output(s[10] << z)
    z = x;
    #pragma omp task output(osout << y)
    while (1) ;
}
";
/// Elements that nobody reads, and some that are read ten epochs after they were written.
const KEPT: &str = r"int main(void) {
    int s __attribute__((stream)), u __attribute__((stream));
    int i, x, y;
    #pragma omp task output(s << x, u << y)
    { x = 7; y = 8; }
    for (i = 0; i < 12; i++) {
        int w[1];
        #pragma omp task input(s >> w[0]) output(osout << y)
        y = w[0] + i;
    }
    #pragma omp task input(s >> x) output(osout << y)
    y = x;
}
";

/// The read cursors of the input and of a stream move on between activations, so that some elements are read by nobody; one activation waits for
/// what is written far behind its own cursor.
const TICKED: &str = r"int main(void) {
    int s __attribute__((stream));
    int i, x, y, z;
    for (i = 0; i < 7; i++) {
        int w[3];
        #pragma omp task input(osin >> x) output(s << w[3], osout << y)
        { w[0] = x; w[1] = x + i; w[2] = i; y = x; }
        #pragma omp tick(osin >> 1)
        #pragma omp tick(s >> 2)
        #pragma omp task input(s >> x) output(osout << z)
        z = x;
    }
    #pragma omp tick(s >> 4)
    #pragma omp task input(s >> x) output(osout << y)
    y = x;
    for (i = 0; i < 5; i++) {
        #pragma omp task output(s << x)
        x = 40 + i;
        #pragma omp tick(osin >> 1)
    }
    #pragma omp task input(osin >> x) output(osout << y)
    y = x;
}
";

/// Activations that wait for one another, and others behind them; some read behind the end of the input, and one waits for one
/// of these.
const STARVED: &str = r"int main(void) {
    int s __attribute__((stream)), t __attribute__((stream)), u __attribute__((stream));
    int i, x, y, z;
    #pragma omp task input(s >> x) output(t << y)
    y = x;
    #pragma omp task input(u >> x) output(osout << y)
    y = x;
    #pragma omp task input(t >> x) output(s << y)
    y = x + 1;
    for (i = 0; i < 3; i++) {
        #pragma omp task input(t >> x) output(t << y, osout << z)
        { y = x; z = x; }
    }
    for (i = 0; i < 26; i++) {
        #pragma omp task input(osin >> x) output(osout << y)
        y = x + 1 & 255;
    }
    #pragma omp task input(osin >> x) output(u << y)
    y = x;
}
";

/// Two trap and one never ends, and others read what these should have written, before and behind the borders of short epochs: by
/// overlapping windows, at second hand, and by two roots of which the greater comes first. Some starve beside poison.
const POISONED: &str = r"int main(void) {
    int s __attribute__((stream)), t __attribute__((stream)), u __attribute__((stream));
    int i, x, y, p[1], q[1];
    #pragma omp task input(u >> p[0]) output(t << y)
    y = p[0];
    for (i = 0; i < 6; i++) {
        int w[3];
        #pragma omp task output(s << y)
        y = 20 + i + 0 / (i - 3);
        #pragma omp task input(s >> w[1]) output(osout << y)
        y = w[0] + w[2];
    }
    #pragma omp task input(t >> q[0]) output(osout << y)
    y = q[0];
    #pragma omp task output(u << y)
    while (1) ;
    for (i = 0; i < 3; i++) {
        #pragma omp task input(s >> x, u >> p[0]) output(osout << y)
        y = x + p[0];
    }
    #pragma omp task output(s << y)
    y = 1 / 0;
}
";

/// Some 1,200 activations of which each reads what the one before it wrote, but for a few that wait for the one behind them.
const LONG: &str = r"int main(void) {
    int s __attribute__((stream)), t __attribute__((stream));
    int i, x, y;
    for (i = 0; i < 600; i++) {
        if (i % 250 == 100) {
            #pragma omp task input(t >> x) output(osout << y)
            y = x;
            #pragma omp task output(t << y)
            y = i & 255;
        }
        #pragma omp task output(s << y)
        y = i + 0 / (i - 400) & 255;
        #pragma omp task input(s >> x) output(osout << y)
        y = x + 1 & 255;
    }
}
";

static PROGRAMS: [&str; 7] = [WAITING, BACKWARD, KEPT, TICKED, STARVED, POISONED, LONG];

/// Asks that a program comes to the same in each way as in one epoch.
fn comes_to_the_same<R: Threads + Sync + Abort>(rt: &R, alloc: Global, text: &str) {
    let code = compiled(rt, alloc, text).expect(rt, text);
    let job = Job {
        text,
        code: &code,
        input: &INPUT,
        turns: TURNS,
    };
    let whole = run_whole(rt, alloc, job);
    is_as_in_one_epoch(rt, alloc, job, &whole, Ways::Each);
}

#[test]
fn each_way_comes_to_what_one_epoch_comes_to(rt: HostRuntime) {
    for text in &PROGRAMS {
        comes_to_the_same(&rt, rt.alloc(), *text);
    }
}
