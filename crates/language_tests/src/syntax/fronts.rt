//! Fronts of programs.

use os_lexer::lex;
use os_parser::is_front;
use std::alloc::Global;
use std::test::Fail;

/// Whether some program begins with the tokens of a text. It is nothing where the text has a fault, or memory can't be had.
fn begins(alloc: Global, text: &str) -> Option<bool> {
    if text.len() > 262_144 {
        return None;
    }
    match lex(alloc, text.as_bytes()) {
        Ok(tokens) => is_front(alloc, &tokens).ok(),
        Err(_) => None,
    }
}

#[test]
fn a_front_of_a_program_is_told(rt: HostRuntime) -> Result<(), Fail> {
    assert!(rt; begins(rt.alloc(), "int main(void) {") == Some(true));
    assert!(rt; begins(rt.alloc(), "}") == Some(false));
    Ok(())
}
