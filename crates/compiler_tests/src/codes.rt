//! Whole codes of small programs, written out by hand: which instructions stand for what, where jumps go, and how units
//! and sites lie.
//!
//! A code is shown by its instructions, then its units, each by its start, its arguments, its slots and its stack, then
//! its sites, each by its unit, its line, the slots that it captures and its items: `w 2 1` writes stream 2 with the window
//! of slot 1.

use crate::compiled::compile;
use crate::texts::push;
use os_code::{Code, CodeUnit, Instr, Site, SiteItem};
use std::alloc::Global;
use std::process::Abort;

static CODES: [(&str, &str); 9] = [
    // `main` alone
    ("int main(void) {\n}\n", "End; | 0 1 1 1 |"),
    // a branch that leaves, and what a function does at its end
    (
        "int f(int a) {\nif (a) return 1;\n}\nint main(void) {\n}\n",
        "Load(0); JumpZero(4); Push(1); Return; Push(0); Return; End; | 0 1 1 6 | 6 1 1 1 |",
    ),
    // a loop without a test, left at once: nothing jumps back
    (
        "int f(void) {\nwhile (1) break;\nreturn 2;\n}\nint main(void) {\n}\n",
        "Turn; Jump(2); Push(2); Return; Push(0); Return; End; | 0 0 0 6 | 6 1 1 1 |",
    ),
    // `&&` as a condition, `||` as a value
    (
        "int f(int a) {\nif (a && 1) a = a || 2;\nreturn a;\n}\nint main(void) {\n}\n",
        "Load(0); JumpZero(10); Load(0); JumpZero(6); Push(1); Jump(9); Push(2); Unary { op: Not, line: 2 }; \
         Unary { op: Not, line: 2 }; Store(0); Load(0); Return; Push(0); Return; End; | 0 1 1 14 | 14 1 1 1 |",
    ),
    // both branches, a negative number, an assigning operator
    (
        "int f(int a) {\nif (a) a = -3; else a += 2;\nreturn a;\n}\nint main(void) {\n}\n",
        "Load(0); JumpZero(5); Push(-3); Store(0); Jump(9); Load(0); Push(2); Binary { op: Add, line: 2 }; Store(0); \
         Load(0); Return; Push(0); Return; End; | 0 1 1 13 | 13 1 1 1 |",
    ),
    // a `for` with a step, to which `continue` goes
    (
        "const int n = 2;\nint f(void) {\nint k;\nfor (k = 0; k < n; k++) continue;\nreturn k;\n}\nint main(void) {\n}\n",
        "Push(0); Store(0); Push(0); Store(0); Turn; Load(0); Push(2); Binary { op: Less, line: 4 }; JumpZero(15); \
         Jump(10); Load(0); Push(1); Binary { op: Add, line: 4 }; Store(0); Jump(4); Load(0); Return; Push(0); Return; \
         End; | 0 0 1 19 | 19 1 1 1 |",
    ),
    // a local array, its elements, and a call
    (
        "int f(int a) {\nint b[3];\nb[1] = a;\nb[a]++;\nreturn b[1];\n}\nint main(void) {\nint x = f(1);\n}\n",
        "Zero { first: 1, count: 3 }; Push(1); Load(0); StoreAt { first: 1, size: 3, line: 3 }; Load(0); Copy; \
         LoadAt { first: 1, size: 3, line: 4 }; Push(1); Binary { op: Add, line: 4 }; \
         StoreAt { first: 1, size: 3, line: 4 }; Push(1); LoadAt { first: 1, size: 3, line: 5 }; Return; Push(0); Return; \
         Push(1); Turn; Call(0); Store(1); End; | 0 1 4 15 | 15 1 2 5 |",
    ),
    // a task that captures a scalar, and writes another
    (
        "int main(void) {\nint s __attribute__((stream)), x = 5, y;\n#pragma omp task output(s << y)\ny = x;\n}\n",
        "Push(5); Store(1); Push(0); Store(2); Push(0); Push(1); Spawn(0); End; Push(0); Load(0); \
         ItemStore { item: 0, line: 4 }; End; | 0 1 3 8 | 8 1 1 4 | 1 line 3 [1] w 2 |",
    ),
    // a window, its burst, and a tick
    (
        "int main(void) {\nint s __attribute__((stream));\nint w[4];\n#pragma omp task output(s << w[4])\nw[1] = 7;\n\
         #pragma omp tick(s >> 2)\n}\n",
        "Push(4); Window { slot: 1, line: 3 }; Push(0); Push(4); BurstOut { slot: 1, line: 4 }; Spawn(0); Push(0); Push(2); \
         BurstIn { line: 6 }; Turn; Tick(2); End; Push(1); Push(7); ItemStore { item: 0, line: 5 }; End; | 0 1 2 12 | \
         12 0 0 4 | 1 line 4 [] w 2 1 |",
    ),
];

fn write_instrs(rt: &impl Abort, text: &mut String, instrs: &[Instr]) {
    for instr in instrs {
        write!(text, "{instr:?}; ").expect(rt, "memory");
    }
}

fn write_unit(rt: &impl Abort, text: &mut String, unit: &CodeUnit) {
    let CodeUnit {
        start,
        args,
        slots,
        stack,
    } = *unit;
    write!(text, " {start} {args} {slots} {stack} |").expect(rt, "memory");
}

fn write_item(rt: &impl Abort, text: &mut String, item: &SiteItem) {
    let way = if item.write { "w" } else { "r" };
    write!(text, " {way} {}", item.stream).expect(rt, "memory");
    if let Some(slot) = item.window {
        write!(text, " {slot}").expect(rt, "memory");
    }
}

fn write_site(rt: &impl Abort, text: &mut String, site: &Site) {
    let captured = site.captured.as_slice();
    write!(text, " {} line {} {captured:?}", site.unit, site.line).expect(rt, "memory");
    for item in site.items.as_slice() {
        write_item(rt, text, item);
    }
    push(rt, text, " |", 1);
}

fn code_text(rt: &impl Abort, alloc: Global, code: &Code) -> String {
    let mut text = String::new(alloc);
    write_instrs(rt, &mut text, code.instrs.as_slice());
    push(rt, &mut text, "|", 1);
    for unit in code.units.as_slice() {
        write_unit(rt, &mut text, unit);
    }
    for site in code.sites.as_slice() {
        write_site(rt, &mut text, site);
    }
    text
}

/// Whether a code is shown so.
fn is_shown_so(rt: &impl Abort, alloc: Global, code: &Code, shown: &str) -> bool {
    let text = code_text(rt, alloc, code);
    text.as_str() == shown
}

/// The text is compiled to the code beside it.
fn is_compiled_so(rt: &impl Abort, alloc: Global, text: &str, shown: &str) {
    let compiled = compile(rt, alloc, text);
    assert!(rt; is_shown_so(rt, alloc, &compiled.code, shown), "{text}");
}

#[test]
fn codes_are_those_that_were_written_out(rt: HostRuntime) {
    for (text, shown) in &CODES {
        is_compiled_so(&rt, rt.alloc(), *text, *shown);
    }
}
