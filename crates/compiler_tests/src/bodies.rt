//! Each body of the tables beside what it means.

ghost use Rattle.std.specs.Prelude.{◌≤◌};
ghost use Rattle.flow_core_laws.specs.Limits.{input_limit};

use crate::beside::whole_beside;
use crate::statements::{BEFORE as ITEMS, STATEMENTS};
use crate::texts::push;
use meaning_tests::bodies::{BEFORE, BODIES};
use meaning_tests::values::row_text;
use meaning_tests::{unsigned_values, values};
use std::alloc::Global;
use std::process::Abort;

/// A body behind the lines before it ends as it means, round the budgets that just suffice.
fn body_beside(rt: &impl Abort, alloc: Global, before: &str, body: &str, input_len: u32)
    requires { input_len ≤ input_limit }
{
    let mut text = String::new(alloc);
    push(rt, &mut text, before, 1);
    push(rt, &mut text, body, 1);
    push(rt, &mut text, "\n}\n", 1);
    whole_beside(rt, alloc, text.as_str(), input_len);
}

/// The bodies end as they mean, round the budgets that just suffice.
#[test]
fn statements_of_each_form_end_as_they_mean(rt: HostRuntime) {
    for body in STATEMENTS.split("====\n") {
        body_beside(&rt, rt.alloc(), ITEMS, body, 9);
    }
}

/// The bodies of the table end as they mean. A row has the budget and the end of a body too, on a line before it.
#[test]
fn bodies_worked_out_by_hand_end_as_they_mean(rt: HostRuntime) {
    for row in BODIES.split("\n\n") {
        let body = row.split_once("\n").map_or("", |(_, body)| body);
        body_beside(&rt, rt.alloc(), BEFORE, body, 0);
    }
}

/// The expression or the body of a row ends as it means; the row has its value too.
fn value_beside(rt: &impl Abort, alloc: Global, functions: &str, row: &str) {
    let text = row_text(alloc, functions, row).expect(rt, "memory");
    whole_beside(rt, alloc, text.as_str(), 0);
}

/// The expressions and bodies of a table end as they mean.
fn values_beside(rt: &impl Abort, alloc: Global, functions: &str, table: &str) {
    for row in table.lines() {
        if !row.starts_with("//") {
            value_beside(rt, alloc, functions, row);
        }
    }
}

#[test]
fn expressions_have_the_values_of_their_meaning(rt: HostRuntime) {
    values_beside(&rt, rt.alloc(), values::FUNCTIONS, values::TABLE);
}

#[test]
fn expressions_of_unsigned_have_the_values_of_their_meaning(rt: HostRuntime) {
    values_beside(
        &rt,
        rt.alloc(),
        unsigned_values::FUNCTIONS,
        unsigned_values::TABLE,
    );
}
