//! Each operator on numbers at which something changes, in each place where it may stand.

use crate::beside::{bodies_within, control_beside};
use crate::compiled::compile;
use crate::texts::push;
use std::alloc::Global;
use std::process::Abort;

static BINARY: [&str; 18] = [
    "+", "-", "*", "/", "%", "<<", ">>", "&", "|", "^", "<", "<=", ">", ">=", "==", "!=", "&&",
    "||",
];

static CHANGES: [&str; 11] = [
    "=", "+=", "-=", "*=", "/=", "%=", "<<=", ">>=", "&=", "|=", "^=",
];

/// Statements that set `y` from the captured scalars `a` and `b`, where `@` stands for a change.
static TARGETS: [&str; 5] = [
    "{ a @ b; y = a; }",
    "{ int x = a; x @ b; y = x; }",
    "{ int c[3]; c[1] = a; c[1] @ b; y = c[1] + c[0] + c[2]; }",
    "{ y = a; y @ b; }",
    "{ w[2] = a; w[2] @ b; y = w[2]; }",
];

static UNARY: [&str; 8] = [
    "y = -a;",
    "y = +a;",
    "y = ~a;",
    "y = !a;",
    "{ y = a; y++; }",
    "{ y = a; --y; }",
    "{ w[1] = a; ++w[1]; y = w[1]; }",
    "{ a--; y = a; }",
];

/// The lines before a body that runs for each pair of the numbers.
const BEFORE: &str = "int edge(int i) {
if (i == 0) return 0; if (i == 1) return 1; if (i == 2) return -1; if (i == 3) return 2147483647;
if (i == 4) return -2147483647 - 1; if (i == 5) return 31; if (i == 6) return 32; if (i == 7) return -7; return 46341;
}
int main(void) {
int s __attribute__((stream)); int i, j;
for (i = 0; i < 9; i++) for (j = 0; j < 9; j++) {
int a = edge(i), b = edge(j), y, w[3];
#pragma omp task output(s << y, s << w[3])
";

/// A program whose task runs for each pair of the numbers, with a body of three parts.
fn pairs_text(rt: &impl Abort, alloc: Global, body: [&str; 3]) -> String {
    let [head, operator, tail] = body;
    let mut text = String::new(alloc);
    push(rt, &mut text, BEFORE, 1);
    push(rt, &mut text, head, 1);
    push(rt, &mut text, operator, 1);
    push(rt, &mut text, tail, 1);
    push(rt, &mut text, "\n}\n}\n", 1);
    text
}

/// The program of a text makes as many activations as there are pairs, which end as they mean.
fn pairs_beside(rt: &impl Abort, alloc: Global, text: &str) {
    let compiled = compile(rt, alloc, text);
    let control = control_beside(rt, alloc, &compiled, 0, 1_000);
    assert!(rt; control.activations.len() == 81, "{text}");
    bodies_within(rt, alloc, &compiled, &control, 0);
}

/// The body ends as it means for each pair of the numbers.
fn body_beside(rt: &impl Abort, alloc: Global, body: [&str; 3]) {
    let text = pairs_text(rt, alloc, body);
    pairs_beside(rt, alloc, text.as_str());
}

/// With each operator of a table between a head and a tail, the body ends as it means for each pair of numbers.
fn operators_beside(rt: &impl Abort, alloc: Global, head: &str, operators: &[&str], tail: &str) {
    for operator in operators {
        body_beside(rt, alloc, [head, *operator, tail]);
    }
}

#[test]
fn operators_give_what_they_mean(rt: HostRuntime) {
    operators_beside(&rt, rt.alloc(), "y = a ", &BINARY, " b;");
    operators_beside(&rt, rt.alloc(), "", &UNARY, "");
}

#[test]
fn changes_do_what_they_mean(rt: HostRuntime) {
    for target in &TARGETS {
        let (head, tail) = target.split_once("@").expect(&rt, "a place for a change");
        operators_beside(&rt, rt.alloc(), head, &CHANGES, tail);
    }
}
