//! The deepest programs are compiled, also on the stack of a thread.

use crate::compiled::instructions_of;
use crate::texts::push;
use std::alloc::Global;
use std::process::Abort;
use std::thread;

/// The body of a task or a function: a head, what is repeated before a middle, the middle, what is repeated behind it,
/// and a tail; and how often it is repeated in a program of depth 200.
type Nest = ([&'static str; 5], u32);

/// The lines before a body.
const BEFORE: &str =
    "int f(int a) { return a; } int g(int a, int b) { return b; } int h(int a) { int c[1];\n";

/// The lines behind a body.
const BEHIND: &str =
    "\n} int main(void) { int y;\n#pragma omp task output(osout << y)\ny = h(1);\n}\n";

static NESTS: [Nest; 19] = [
    (["return ", "(", "1", ")", ";"], 197),
    (["return ", "- ", "1", "", ";"], 197),
    (["return ", "!", "1", "", ";"], 197),
    (["return ", "f(", "1", ")", ";"], 197),
    (["return ", "g(1, ", "1", ")", ";"], 197),
    (["return ", "g(", "1", ", 1)", ";"], 197),
    (["return ", "c[", "0", "]", ";"], 197),
    (["return ", "a ? ", "1", " : 1", ";"], 197),
    (["return ", "a ? 1 : ", "1", "", ";"], 197),
    (["return ", "1 && (", "1", ") || 2", ";"], 197),
    (["c[", "(", "0", ")", "] = 1;"], 197),
    (["", "{ int b;", "", "}", ""], 198),
    (["", "{ a = 1; ", ";", "}", ""], 197),
    (["", "if (a) ", ";", "", ""], 198),
    (["", "if (a) ; else ", ";", "", ""], 198),
    (["", "while (a) ", "break;", "", ""], 198),
    (["", "for (;;) ", "break;", "", ""], 198),
    (
        [
            "",
            "for (int b; b; b++) while (b) if (b) ",
            "continue;",
            "",
            "",
        ],
        66,
    ),
    (["int b = ", "(", "1", ")", ";"], 197),
];

fn nest_text(rt: &impl Abort, alloc: Global, nest: &Nest) -> String {
    let ([head, open, middle, close, tail], count) = *nest;
    let mut text = String::new(alloc);
    push(rt, &mut text, BEFORE, 1);
    push(rt, &mut text, head, 1);
    push(rt, &mut text, open, count);
    push(rt, &mut text, middle, 1);
    push(rt, &mut text, close, count);
    push(rt, &mut text, tail, 1);
    push(rt, &mut text, BEHIND, 1);
    text
}

#[test]
fn a_thread_compiles_a_depth_of_200(rt: HostRuntime) {
    for nest in &NESTS {
        let text = nest_text(&rt, rt.alloc(), nest);
        let count = instructions_of(&rt, rt.alloc(), text.as_str());
        let compiler = thread::spawn(&rt, move || instructions_of(&rt, rt.alloc(), text.as_str()));
        let same = compiler.expect(&rt, "a thread").join(&rt) == count;
        assert!(rt; same, "{}", nest.0[1]);
    }
}
