//! Each control program of the tables beside what it means.

ghost use Rattle.std.specs.Prelude.{All};
ghost use Rattle.os_code.specs.Codes.{parts_of};
ghost use Rattle.os_code.specs.Tasks.{Fits};

use crate::beside::{bodies_beside, control_beside, runs_as_it_means, whole_beside};
use crate::compiled::{Compiled, compile};
use crate::programs::PROGRAMS;
use control_run::run_control;
use flow_core_laws::{Control, INPUT_LIMIT};
use meaning_tests::case::number;
use meaning_tests::counted::{COUNTED, Counted};
use meaning_tests::flows::FLOWS;
use meaning_tests::programs::PROGRAMS as WORKED;
use std::alloc::Global;
use std::process::Abort;

/// The most that a budget may be.
const MOST: u32 = 1_000_000_000;

/// What the control program of a run's row makes.
fn run_beside(rt: &impl Abort, alloc: Global, compiled: &Compiled, run: &str) -> Control
    ensures fit { All (Fits (parts_of compiled.now.code)) result.activations }
{
    let input_len = number(run, 1).min(INPUT_LIMIT);
    let budget = number(run, 2).min(MOST);
    control_beside(rt, alloc, compiled, input_len, u64::from(budget))
}

/// A run of `main` ends as it means, and so do the bodies of its activations.
fn bodies_of_run_beside(rt: &impl Abort, alloc: Global, compiled: &Compiled, run: &str) {
    let control = run_beside(rt, alloc, compiled, run);
    bodies_beside(rt, alloc, compiled, &control);
}

/// The runs of the rows end as they mean, and so do the bodies of the first one.
fn rows_beside(rt: &impl Abort, alloc: Global, compiled: &Compiled, rows: &str) {
    for row in rows.lines() {
        if row.starts_with("run ") {
            run_beside(rt, alloc, compiled, row);
        }
    }
    bodies_of_run_beside(rt, alloc, compiled, rows);
}

/// The runs of a case end as they mean, and so do the bodies of the first one.
fn case_beside(rt: &impl Abort, alloc: Global, case: &str) {
    let (text, rows) = case.split_once("----\n").expect(rt, "a program with rows");
    let compiled = compile(rt, alloc, text);
    rows_beside(rt, alloc, &compiled, rows);
}

/// Each case of a table runs as it means.
fn cases_beside(rt: &impl Abort, alloc: Global, table: &str) {
    for case in table.split("====\n") {
        case_beside(rt, alloc, case);
    }
}

#[test]
fn worked_programs_run_as_they_mean(rt: HostRuntime) {
    cases_beside(&rt, rt.alloc(), WORKED);
    cases_beside(&rt, rt.alloc(), FLOWS);
}

/// Control programs and their bodies end as they mean, round the budgets that just suffice; a budget of 0 is among them.
#[test]
fn control_programs_of_each_form_run_as_they_mean(rt: HostRuntime) {
    for text in PROGRAMS.split("====\n") {
        whole_beside(&rt, rt.alloc(), text, 5);
    }
}

/// A control program makes as many activations and ends as its case says; where the budget is 1,000,000, it also makes what it means. The numbers were
/// found by hand; `meaning_tests` holds what the program means against them too.
fn counts_so(rt: &impl Abort, alloc: Global, case: &Counted) {
    let (text, input_len, budget, count, end) = *case;
    let compiled = compile(rt, alloc, text);
    let input_len = input_len.min(INPUT_LIMIT);
    let budget = budget.min(u64::from(MOST));
    let control = run_control(alloc, &compiled.code, input_len, budget).expect(rt, "memory");
    assert!(rt;
        control.activations.len() == count && control.end == end,
        "{text}"
    );
    if budget == 1_000_000 {
        runs_as_it_means(rt, alloc, &compiled, input_len, budget);
    }
}

/// Each case of a table makes as many activations, and ends, as it says.
fn all_count_so(rt: &impl Abort, alloc: Global, cases: &[Counted]) {
    for case in cases {
        counts_so(rt, alloc, case);
    }
}

/// The program that makes 65,536 activations is among them, and they are those that are meant.
#[test]
fn limits_come_where_they_should(rt: HostRuntime) {
    all_count_so(&rt, rt.alloc(), &COUNTED);
}
