//! A program with its code.

use front_end::read_program;
use lowering::lower;
use os_code::Code;
use std::alloc::Global;
use std::process::Abort;
use window_check::Checked;

/// A program that violates no rule, and its code.
#[derive(Drop)]
pub(crate) struct Compiled {
    pub checked: Checked,
    pub code: Code,
}

/// The program of a text that violates no rule.
fn checked(rt: &impl Abort, alloc: Global, text: &str) -> Checked {
    assert!(rt; text.len() <= 262_144);
    read_program(alloc, text.as_bytes()).expect(rt, text)
}

/// The program of a text, compiled.
pub(crate) fn compile(rt: &impl Abort, alloc: Global, text: &str) -> Compiled {
    let checked = checked(rt, alloc, text);
    let code = lower(alloc, &checked).expect(rt, "a code");
    Compiled { checked, code }
}

/// How many instructions the program of a text has.
pub(crate) fn instructions_of(rt: &impl Abort, alloc: Global, text: &str) -> usize {
    compile(rt, alloc, text).code.instrs.len()
}
