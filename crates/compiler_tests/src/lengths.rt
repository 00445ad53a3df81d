//! How many instructions there are a token: at most 8, by the promise of `lower`, and how many at the most that were found.

use crate::compiled::instructions_of;
use crate::texts::push;
use os_lexer::lex;
use std::alloc::Global;
use std::process::Abort;

/// A task with `count` links `&& y` on its item, each of 2 tokens and 7 instructions: to leave out the right side or not,
/// to load an element by its index, to look at it, and to give 1 or 0. Of links, changes, loops, calls, choices and
/// declarations none was found that comes nearer to 8 a token.
fn links_text(rt: &impl Abort, alloc: Global, count: u32) -> String {
    let mut text = String::new(alloc);
    push(
        rt,
        &mut text,
        "int main(void) { int y;\n#pragma omp task output(osout << y)\ny = y",
        1,
    );
    push(rt, &mut text, "&&y", count);
    push(rt, &mut text, "; }", 1);
    text
}

/// How many tokens a text has.
fn tokens_of(rt: &impl Abort, alloc: Global, text: &str) -> usize {
    assert!(rt; text.len() <= 262_144);
    lex(alloc, text.as_bytes()).expect(rt, "tokens").len()
}

#[test]
fn links_have_seven_instructions_for_two_tokens(rt: HostRuntime) {
    let text = links_text(&rt, rt.alloc(), 1_000);
    assert!(rt; tokens_of(&rt, rt.alloc(), text.as_str()) == 24 + 2 * 1_000);
    assert!(rt; instructions_of(&rt, rt.alloc(), text.as_str()) == 11 + 7 * 1_000);
}
