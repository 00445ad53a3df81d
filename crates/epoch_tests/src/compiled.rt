//! Programs as codes.

ghost use Rattle.std.specs.Prelude.{◌≤◌, length};
ghost use Rattle.os_lexer.specs.Limits.{text_limit};

use front_end::read_program;
use lowering::lower;
use os_code::Code;
use std::alloc::Global;
use std::process::Abort;

/// The code of a text that is a program.
pub(crate) fn compiled(rt: &impl Abort, alloc: Global, text: &str) -> Option<Code> {
    assert!(rt; text.len() <= 262_144);
    match read_program(alloc, text.as_bytes()) {
        Ok(checked) => lower(alloc, &checked).ok(),
        Err(_) => None,
    }
}
