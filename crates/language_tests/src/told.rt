//! What is told of whole programs: what their names mean, the types of these, and what their tasks capture.
//!
//! A table is a text: cases with `====` between them, and in each a program, and under `----` what is told of it.

use front_end::read_program;
use os_ast::Resolved;
use std::alloc::Global;
use std::fmt::Write;
use std::process::Abort;
use window_check::Checked;

/// What a table tells.
#[derive(Clone, Copy)]
pub(crate) enum Told {
    /// How many streams there are, and what each name means by its place.
    Names,
    /// The type of each name by its place.
    Types,
    /// A line a task with the slots that it captures.
    Captured,
}

fn write_names(rt: &impl Abort, text: &mut String, checked: &Checked) {
    writeln!(text, "{} streams", checked.streams).expect(rt, "memory");
    for name in checked.names.as_slice() {
        let Resolved {
            place,
            what,
            unsigned,
        } = *name;
        let kind = if unsigned { " unsigned" } else { "" };
        writeln!(text, "{place} {what:?}{kind}").expect(rt, "memory");
    }
}

fn write_types(rt: &impl Abort, text: &mut String, names: &[Resolved]) {
    for name in names {
        let place = name.place;
        let kind = if name.unsigned { "unsigned" } else { "int" };
        writeln!(text, "{place} {kind}").expect(rt, "memory");
    }
}

fn write_slots(rt: &impl Abort, text: &mut String, slots: &[u32]) {
    write!(text, "task").expect(rt, "memory");
    for slot in slots {
        write!(text, " {slot}").expect(rt, "memory");
    }
    writeln!(text).expect(rt, "memory");
}

fn write_captured(rt: &impl Abort, text: &mut String, checked: &Checked) {
    for slots in checked.captured.as_slice() {
        write_slots(rt, text, slots.as_slice());
    }
}

fn told_of(rt: &impl Abort, alloc: Global, told: Told, checked: &Checked) -> String {
    let mut text = String::new(alloc);
    match told {
        Told::Names => write_names(rt, &mut text, checked),
        Told::Types => write_types(rt, &mut text, checked.names.as_slice()),
        Told::Captured => write_captured(rt, &mut text, checked),
    }
    text
}

/// What is told of the program of a text.
fn told_of_text(rt: &impl Abort, alloc: Global, told: Told, text: &str) -> String {
    assert!(rt; text.len() <= 262_144);
    let checked = read_program(alloc, text.as_bytes()).expect(rt, text);
    told_of(rt, alloc, told, &checked)
}

/// The program of a case is accepted, and this is told of it.
fn is_told_so(rt: &impl Abort, alloc: Global, told: Told, case: &str) {
    let (text, wanted) = case
        .split_once("----\n")
        .expect(rt, "a program with what is told of it");
    let found = told_of_text(rt, alloc, told, text);
    assert!(rt; found.as_str() == wanted, "{found}");
}

/// Each program of a table is accepted, and what its case says is told of it.
pub(crate) fn are_told_so(rt: &impl Abort, alloc: Global, told: Told, cases: &str) {
    for case in cases.split("====\n") {
        is_told_so(rt, alloc, told, case);
    }
}
