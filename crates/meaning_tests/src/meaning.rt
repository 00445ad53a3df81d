//! Each table against what its programs mean.

mod large;

use crate::bodies::{BEFORE, BODIES};
use crate::case::{number, shown};
use crate::flows::FLOWS;
use crate::programs::PROGRAMS;
use crate::{unsigned_values, values};
use cddf_meaning_plain::{plain_body, plain_control};
use flow_core_laws::{Activation, Claim, Control, ControlEnd, TaskEnd};
use front_end::read_program;
use os_ast::Program;
use std::alloc::Global;
use std::process::Abort;
use window_check::Checked;

/// A program that violates no rule.
fn accepted(rt: &impl Abort, alloc: Global, text: &str) -> Checked {
    assert!(rt; text.len() <= 262_144);
    read_program(alloc, text.as_bytes()).expect(rt, text)
}

/// Writes a claim.
fn write_claim(rt: &impl Abort, text: &mut String, claim: &Claim) {
    let Claim {
        stream,
        write,
        horizon,
        burst,
        skip,
    } = *claim;
    if write {
        write!(text, " w {stream} {horizon}").expect(rt, "memory");
    } else {
        write!(text, " r {stream} {horizon} {burst} s {skip}").expect(rt, "memory");
    }
}

fn write_captured(rt: &impl Abort, text: &mut String, captured: &[i32]) {
    for (place, number) in captured.iter().enumerate() {
        let parted = if place == 0 { "" } else { " " };
        write!(text, "{parted}{number}").expect(rt, "memory");
    }
}

fn write_claims(rt: &impl Abort, text: &mut String, claims: &[Claim]) {
    for (place, claim) in claims.iter().enumerate() {
        text.push_str(if place == 0 { "" } else { "," })
            .expect(rt, "memory");
        write_claim(rt, text, claim);
    }
}

fn write_activation(rt: &impl Abort, text: &mut String, activation: &Activation) {
    write!(text, "{} [", activation.site).expect(rt, "memory");
    write_captured(rt, text, activation.captured.as_slice());
    text.push_str("]").expect(rt, "memory");
    write_claims(rt, text, activation.claims.as_slice());
    text.push_str("; ").expect(rt, "memory");
}

fn write_end(rt: &impl Abort, text: &mut String, end: ControlEnd) {
    match end {
        ControlEnd::Done => write!(text, "Done").expect(rt, "memory"),
        ControlEnd::Trapped { code, line } => write!(text, "trapped {code} line {line}").expect(
            rt, "memory",
        ),
        ControlEnd::OverBudget => write!(text, "over budget").expect(rt, "memory"),
        ControlEnd::Limit(limit) => write!(text, "limit {limit}").expect(rt, "memory"),
    }
}

fn write_control(rt: &impl Abort, text: &mut String, control: &Control) {
    for activation in control.activations.as_slice() {
        write_activation(rt, text, activation);
    }
    write_end(rt, text, control.end);
}

fn control_text(rt: &impl Abort, alloc: Global, control: &Control) -> String {
    let mut text = String::new(alloc);
    write_control(rt, &mut text, control);
    text
}

fn write_task_end(rt: &impl Abort, text: &mut String, end: TaskEnd) {
    match end {
        TaskEnd::Done => write!(text, "Done").expect(rt, "memory"),
        TaskEnd::Trapped { code, line } => write!(text, "trapped {code} line {line}").expect(
            rt, "memory",
        ),
        TaskEnd::OverBudget => write!(text, "over budget").expect(rt, "memory"),
        TaskEnd::Poisoned { root } => write!(text, "poisoned by {root}").expect(rt, "memory"),
    }
}

fn write_body(rt: &impl Abort, text: &mut String, end: TaskEnd, outputs: &[i32]) {
    write_task_end(rt, text, end);
    for number in outputs {
        write!(text, " {number}").expect(rt, "memory");
    }
}

fn body_text(rt: &impl Abort, alloc: Global, end: TaskEnd, outputs: &[i32]) -> String {
    let mut text = String::new(alloc);
    write_body(rt, &mut text, end, outputs);
    text
}

/// The end of an activation, and what it writes.
fn outcome(
    rt: &impl Abort,
    alloc: Global,
    program: &Program,
    activation: &Activation,
    inputs: &[i32],
    budget: u64,
) -> String {
    let (end, outputs) = plain_body(alloc, program, activation, inputs, budget).expect(
        rt, "memory",
    );
    body_text(rt, alloc, end, outputs.as_slice())
}

/// What the control program of a run's row makes.
fn control_of(rt: &impl Abort, alloc: Global, program: &Program, run: &str) -> Control {
    let budget = u64::from(number(run, 2));
    plain_control(alloc, program, number(run, 1), budget).expect(rt, "memory")
}

/// What a run comes to.
fn run_text(rt: &impl Abort, alloc: Global, program: &Program, run: &str) -> String {
    let control = control_of(rt, alloc, program, run);
    control_text(rt, alloc, &control)
}

/// A run comes to what its row shows.
fn run_holds(rt: &impl Abort, alloc: Global, program: &Program, run: &str) {
    let found = run_text(rt, alloc, program, run);
    assert!(rt; found.as_str() == shown(run), "{run}");
}

fn push_inputs(rt: &impl Abort, inputs: &mut Vec<i32>, body: &str) {
    for word in body.split_whitespace().skip(3) {
        if word == "=" {
            break;
        }
        let input = word.parse::<i32>().unwrap_or(0);
        inputs.push(input).expect(rt, "memory");
    }
}

/// The inputs of a body's row.
fn inputs_of(rt: &impl Abort, alloc: Global, body: &str) -> Vec<i32> {
    let mut inputs = Vec::new(alloc);
    push_inputs(rt, &mut inputs, body);
    inputs
}

/// What the body of a row comes to.
fn body_outcome(
    rt: &impl Abort,
    alloc: Global,
    program: &Program,
    control: &Control,
    body: &str,
) -> String {
    let place = number(body, 1) as usize;
    let activation = control.activations.as_slice().get(place);
    let activation = activation.expect(rt, "an activation");
    let inputs = inputs_of(rt, alloc, body);
    let budget = u64::from(number(body, 2));
    outcome(rt, alloc, program, activation, inputs.as_slice(), budget)
}

/// A body comes to what its row shows.
fn body_holds(rt: &impl Abort, alloc: Global, program: &Program, control: &Control, body: &str) {
    let found = body_outcome(rt, alloc, program, control, body);
    assert!(rt; found.as_str() == shown(body), "{body}");
}

/// A row of a program holds, whose first run comes to this.
fn row_holds(rt: &impl Abort, alloc: Global, program: &Program, control: &Control, row: &str) {
    if row.starts_with("run ") {
        run_holds(rt, alloc, program, row);
    } else {
        body_holds(rt, alloc, program, control, row);
    }
}

/// All these rows of a program hold.
fn all_hold(rt: &impl Abort, alloc: Global, program: &Program, control: &Control, rows: &str) {
    for row in rows.lines() {
        row_holds(rt, alloc, program, control, row);
    }
}

/// All rows of a program hold.
fn rows_hold(rt: &impl Abort, alloc: Global, program: &Program, rows: &str) {
    let control = control_of(rt, alloc, program, rows);
    all_hold(rt, alloc, program, &control, rows);
}

/// The program of a case does in each row what the row says.
fn holds(rt: &impl Abort, alloc: Global, case: &str) {
    let (text, rows) = case.split_once("----\n").expect(rt, "a program with rows");
    let checked = accepted(rt, alloc, text);
    rows_hold(rt, alloc, &checked.program, rows);
}

/// The outcome of the one activation of a program, which has no inputs.
fn alone(rt: &impl Abort, alloc: Global, program: &Program, budget: u64) -> String {
    let control = plain_control(alloc, program, 0, 0).expect(rt, "memory");
    let activation = control.activations.as_slice().first();
    outcome(
        rt,
        alloc,
        program,
        activation.expect(rt, "an activation"),
        &[],
        budget,
    )
}

/// The outcome of the one activation of the program of a text, which has no inputs.
fn outcome_of(rt: &impl Abort, alloc: Global, text: &str, budget: u64) -> String {
    let checked = accepted(rt, alloc, text);
    alone(rt, alloc, &checked.program, budget)
}

/// All cases of a table hold.
fn cases_hold(rt: &impl Abort, alloc: Global, table: &str) {
    for case in table.split("====\n") {
        holds(rt, alloc, case);
    }
}

#[test]
fn programs_mean_what_was_worked_out_by_hand(rt: HostRuntime) {
    cases_hold(&rt, rt.alloc(), PROGRAMS);
    cases_hold(&rt, rt.alloc(), FLOWS);
}

/// The outcome of a body that sets `y`.
fn body_of_row(rt: &impl Abort, alloc: Global, body: &str, budget: u64) -> String {
    let text = format!(in alloc; "{BEFORE}{body}\n}}\n").expect(rt, "memory");
    outcome_of(rt, alloc, text.as_str(), budget)
}

/// A body ends as its row shows.
fn body_ends(rt: &impl Abort, alloc: Global, row: &str) {
    let (head, body) = row.split_once("\n").expect(rt, "a row with a body");
    let found = body_of_row(rt, alloc, body, u64::from(number(head, 0)));
    let wanted = head.split_once(" ").map(|(_, wanted)| wanted);
    assert!(rt; Some(found.as_str()) == wanted, "{row}");
}

#[test]
fn bodies_end_as_was_worked_out_by_hand(rt: HostRuntime) {
    for row in BODIES.split("\n\n") {
        body_ends(&rt, rt.alloc(), row);
    }
}

/// The outcome of a row of expressions and bodies, which call these functions.
fn row_outcome(rt: &impl Abort, alloc: Global, functions: &str, row: &str) -> String {
    let text = values::row_text(alloc, functions, row).expect(rt, "memory");
    outcome_of(rt, alloc, text.as_str(), 5_000)
}

/// A row of a table of expressions and bodies, which call its functions, has its value.
fn has_value(rt: &impl Abort, alloc: Global, functions: &str, row: &str) {
    let found = row_outcome(rt, alloc, functions, row);
    let value = row.split_once(" => ").map(|(_, value)| value);
    assert!(rt; found.as_str().strip_prefix("Done ") == value, "{row}");
}

/// All rows of a table have their values.
fn have_values(rt: &impl Abort, alloc: Global, functions: &str, table: &str) {
    for row in table.lines() {
        if !row.starts_with("//") {
            has_value(rt, alloc, functions, row);
        }
    }
}

#[test]
fn expressions_and_bodies_have_the_values_of_c(rt: HostRuntime) {
    have_values(&rt, rt.alloc(), values::FUNCTIONS, values::TABLE);
}

#[test]
fn expressions_and_bodies_of_unsigned_have_the_values_of_c(rt: HostRuntime) {
    have_values(
        &rt,
        rt.alloc(),
        unsigned_values::FUNCTIONS,
        unsigned_values::TABLE,
    );
}
