//! Control programs with many activations, and the kernels over a thousand bytes.

use super::accepted;
use crate::counted::{COUNTED, Counted};
use cddf_meaning_plain::{plain_body, plain_control};
use flow_core_laws::{Activation, Claim, ControlEnd, TaskEnd};
use os_ast::Program;
use std::alloc::Global;
use std::process::Abort;

static KERNELS: [(&str, usize); 5] = [
    (
        "const int B = 4;\nint main(void) {\nint i;\nfor (i = 0; i < osin_len; i += B) {\n\
         int n = osin_len - i < B ? osin_len - i : B;\nint a[n], b[n];\n\
         #pragma omp task input(osin >> a[n]) output(osout << b[n])\n{\nint k;\n\
         for (k = 0; k < n; k++) b[k] = 255 - a[k];\n}\n}\nreturn 0;\n}\n",
        250,
    ),
    (
        "int main(void) {\nint i;\nfor (i = 0; i + 2 < osin_len; i++) {\nint w[3], y;\n\
         #pragma omp task input(osin >> w[1]) output(osout << y)\ny = (w[0] + w[1] + w[2]) / 3;\n}\nreturn 0;\n}\n",
        998,
    ),
    (
        "int wrap(int d) {\nreturn ((d + 128) & 255) - 128;\n}\nint main(void) {\nint i;\n\
         for (i = 0; i + 3 < osin_len; i += 4) {\nint a[4], b[4];\n\
         #pragma omp task input(osin >> a[4]) output(osout << b[4])\n{\nint k, d;\nfor (k = 0; k < 4; k += 2) {\n\
         d = wrap(a[k + 1] - a[k]);\nb[k] = (a[k] + (d >> 1)) & 255;\nb[k + 1] = d & 255;\n}\n}\n}\nreturn 0;\n}\n",
        250,
    ),
    (
        "int wrap(int d) {\nreturn ((d + 128) & 255) - 128;\n}\nint main(void) {\nint mid __attribute__((stream));\n\
         int i;\nfor (i = 0; i + 1 < osin_len; i += 2) {\nint a[2], m[2], q[2], o[2];\n\
         #pragma omp task input(osin >> a[2]) output(mid << m[2])\n{\nint d = wrap(a[1] - a[0]);\n\
         m[0] = (a[0] + (d >> 1)) & 255;\nm[1] = d;\n}\n#pragma omp task input(mid >> q[2]) output(osout << o[2])\n{\n\
         o[0] = q[0];\no[1] = (q[1] / 4) & 255;\n}\n}\nreturn 0;\n}\n",
        1_000,
    ),
    (
        "int main(void) {\nint s[3] __attribute__((stream));\nint i, j;\nfor (i = 0; i < osin_len; i++) {\n\
         int x, p, q, r, y;\n#pragma omp task input(osin >> x) output(s[0] << p, s[1] << q, s[2] << r)\n\
         { p = x; q = x >> 1; r = x >> 2; }\nfor (j = 0; j < 3; j++) {\n\
         #pragma omp task input(s[j] >> x) output(osout << y)\ny = x;\n}\n}\nreturn 0;\n}\n",
        4_000,
    ),
];

/// Adds `count` bytes, the first of them `first`, and answers which one would come next.
fn push_bytes(rt: &impl Abort, inputs: &mut Vec<i32>, first: u8, count: u32) -> u8 {
    let mut next = first;
    for _ in 0..count {
        inputs.push(i32::from(next)).expect(rt, "memory");
        next = next.wrapping_add(37);
    }
    next
}

/// Adds bytes for the input items of an activation.
fn push_inputs(rt: &impl Abort, inputs: &mut Vec<i32>, claims: &[Claim]) {
    let mut next: u8 = 0;
    for claim in claims {
        if !claim.write {
            next = push_bytes(rt, inputs, next, claim.horizon);
        }
    }
}

/// Bytes for the input items of an activation.
fn inputs(rt: &impl Abort, alloc: Global, claims: &[Claim]) -> Vec<i32> {
    let mut inputs = Vec::new(alloc);
    push_inputs(rt, &mut inputs, claims);
    inputs
}

/// How many activations a program has, and how its control program ends.
fn count_of(
    rt: &impl Abort,
    alloc: Global,
    text: &str,
    input_len: u32,
    budget: u64,
) -> (usize, ControlEnd) {
    let checked = accepted(rt, alloc, text);
    let control = plain_control(alloc, &checked.program, input_len, budget).expect(rt, "memory");
    (control.activations.len(), control.end)
}

/// A program makes as many activations, and ends, as its row says.
fn counts_so(rt: &impl Abort, alloc: Global, row: &Counted) {
    let (text, input_len, budget, count, end) = *row;
    let found = count_of(rt, alloc, text, input_len, budget);
    assert!(rt; found == (count, end), "budget {budget} of {text}");
}

/// Each row of a table holds.
fn all_count_so(rt: &impl Abort, alloc: Global, rows: &[Counted]) {
    for row in rows {
        counts_so(rt, alloc, row);
    }
}

#[test]
fn activations_are_counted(rt: HostRuntime) {
    all_count_so(&rt, rt.alloc(), &COUNTED);
}

/// Whether the body of an activation is done, and writes something.
fn is_done(rt: &impl Abort, alloc: Global, program: &Program, activation: &Activation) -> bool {
    let given = inputs(rt, alloc, activation.claims.as_slice());
    let (end, outputs) = plain_body(alloc, program, activation, given.as_slice(), 1_000).expect(
        rt, "memory",
    );
    end == TaskEnd::Done && !outputs.is_empty()
}

/// Whether the bodies of all activations are done, and write something.
fn all_done(rt: &impl Abort, alloc: Global, program: &Program, activations: &[Activation]) -> bool {
    for activation in activations {
        if !is_done(rt, alloc, program, activation) {
            return false;
        }
    }
    true
}

/// How many activations a program has over a thousand bytes, where it and all their bodies are done.
fn done_of(rt: &impl Abort, alloc: Global, program: &Program) -> Option<usize> {
    let control = plain_control(alloc, program, 1_000, 100_000).expect(rt, "memory");
    let activations = control.activations.as_slice();
    let done = control.end == ControlEnd::Done && all_done(rt, alloc, program, activations);
    done.then_some(activations.len())
}

/// A kernel has `count` activations over a thousand bytes, and all are done.
fn kernel_is_done(rt: &impl Abort, alloc: Global, text: &str, count: usize) {
    let checked = accepted(rt, alloc, text);
    let found = done_of(rt, alloc, &checked.program);
    assert!(rt; found == Some(count), "{text}");
}

/// Each kernel has as many activations over a thousand bytes as stand beside it, and all are done.
fn kernels_are_done(rt: &impl Abort, alloc: Global, kernels: &[(&str, usize)]) {
    for (text, count) in kernels {
        kernel_is_done(rt, alloc, *text, *count);
    }
}

/// Each body of the kernels over a thousand bytes is done, and fills its windows.
#[test]
fn kernels_are_done_over_a_thousand_bytes(rt: HostRuntime) {
    kernels_are_done(&rt, rt.alloc(), &KERNELS);
}
