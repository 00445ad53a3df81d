//! Programs as large as they may be.

use crate::beside::whole_beside;
use crate::compiled::instructions_of;
use crate::texts::push;
use std::alloc::Global;
use std::process::Abort;

/// Adds `count` pieces, each of three parts with its number behind the first and behind the second.
fn push_numbered(rt: &impl Abort, text: &mut String, parts: [&str; 3], count: u32) {
    let [first, second, third] = parts;
    for number in 0..count {
        write!(text, "{first}{number}{second}{number}{third}").expect(rt, "memory");
    }
}

/// A chain of `count` branches `else if` in a task, which runs for some of their numbers.
fn choices_text(rt: &impl Abort, alloc: Global, count: u32) -> String {
    let mut text = String::new(alloc);
    push(
        rt,
        &mut text,
        "int main(void) { int s __attribute__((stream)); int c, y; for (c = 0; c < 210; c += 21) {\n#pragma omp task output(s << y)\n",
        1,
    );
    push_numbered(rt, &mut text, ["if (c == ", ") y = ", "; else "], count);
    push(rt, &mut text, "y = -1;\n} }\n", 1);
    text
}

/// A task with eight items that captures `count` scalars, all of which it names and changes.
fn captures_text(rt: &impl Abort, alloc: Global, count: u32) -> String {
    let mut text = String::new(alloc);
    push(
        rt,
        &mut text,
        "int main(void) { int s __attribute__((stream)); int y, w[2], a, b, c, d, e, f",
        1,
    );
    push_numbered(rt, &mut text, [", v", " = ", ""], count);
    push(
        rt,
        &mut text,
        ";\nfor (a = 1; a < 4; a++) {\n#pragma omp task output(s << y, s << w[2], s << b, s << c, s << d, s << e, s << f, osout)\n{ osout = v1;",
        1,
    );
    push_numbered(
        rt,
        &mut text,
        [" y = (y * 3 + v", ") % 9973; v", "++;"],
        count,
    );
    push(rt, &mut text, " f = v0; }\n", 1);
    push_numbered(rt, &mut text, [" v", " = v", " + a;"], count);
    push(rt, &mut text, "} }\n", 1);
    text
}

/// A long chain of choices is gone along, and as many scalars and items as may be are taken.
#[test]
fn long_tasks_run_as_they_mean(rt: HostRuntime) {
    let text = choices_text(&rt, rt.alloc(), 190);
    whole_beside(&rt, rt.alloc(), text.as_str(), 0);
    let text = captures_text(&rt, rt.alloc(), 64);
    whole_beside(&rt, rt.alloc(), text.as_str(), 0);
}

/// A head, a piece, how often it is repeated, and a tail.
type Long = (&'static str, &'static str, u32, &'static str);

/// Chains, loops and tasks.
static LONG: [Long; 3] = [
    ("int main(void) { int c, y; y = 1", "+c*2-y", 43_677, "; }"),
    (
        "int main(void) { int x, y; ",
        "while (x) { x--; if (y) continue; break; } ",
        6_094,
        "}",
    ),
    (
        "int f(int a) { int b[2]; b[1] = a; return b[1]; } int main(void) { int y;\n",
        "\n#pragma omp task output(osout << y)\ny = f(3);\n",
        5_575,
        "}",
    ),
];

/// A text of these parts, nearly as long as a text may be.
fn long_text(rt: &impl Abort, alloc: Global, long: &Long) -> String {
    let (head, piece, count, tail) = *long;
    let mut text = String::new(alloc);
    push(rt, &mut text, head, 1);
    push(rt, &mut text, piece, count);
    push(rt, &mut text, tail, 1);
    assert!(rt; text.len() > 262_000);
    text
}

/// How many instructions such a text has.
fn instructions_at_length(rt: &impl Abort, alloc: Global, long: &Long) -> usize {
    let text = long_text(rt, alloc, long);
    instructions_of(rt, alloc, text.as_str())
}

#[test]
fn the_longest_lists_are_compiled(rt: HostRuntime) {
    for long in &LONG {
        assert!(rt; instructions_at_length(&rt, rt.alloc(), long) > 10_000);
    }
}
