//! What the machines make of a program beside what it means.

ghost use Rattle.std.specs.Prelude.{◌≤◌, All};
ghost use Rattle.flow_core_laws.specs.Limits.{budget_limit, input_limit};
ghost use Rattle.os_code.specs.Codes.{parts_of};
ghost use Rattle.os_code.specs.Tasks.{Fits};
ghost use Rattle.task_vm.specs.Space.{IsMadeFor};

use crate::compiled::{Compiled, compile};
use crate::elements::{inputs_of, outputs_of};
use cddf_meaning_plain::{plain_body, plain_control};
use control_run::run_control;
use flow_core_laws::{Activation, Control, ControlEnd, TaskEnd};
use os_ast::Program;
use std::alloc::Global;
use std::process::Abort;
use task_vm::{Scratch, run_task};

/// The budget within which the bodies of the tables end, but those without an end.
const AMPLE: u64 = 5_000;

/// The bits of a number that is as large as the ample budget.
static BITS: [u64; 13] = [4_096, 2_048, 1_024, 512, 256, 128, 64, 32, 16, 8, 4, 2, 1];

/// Whether two runs of a control program made the same.
fn is_same(one: &Control, other: &Control) -> bool {
    one.end == other.end
        && one.activations.len() == other.activations.len()
        && one
            .activations
            .as_slice()
            .iter()
            .zip(other.activations.as_slice())
            .all(|(one, other)| is_same_activation(one, other))
}

fn is_same_activation(one: &Activation, other: &Activation) -> bool {
    one.site == other.site
        && one.captured.as_slice() == other.captured.as_slice()
        && one.claims.as_slice() == other.claims.as_slice()
}

/// The activations and the end that a control program has by its meaning.
fn control_meant(
    rt: &impl Abort,
    alloc: Global,
    program: &Program,
    input_len: u32,
    budget: u64,
) -> Control {
    plain_control(alloc, program, input_len, budget).expect(rt, "memory")
}

/// What the control program makes on the machine, which is what it means.
pub(crate) fn control_beside(
    rt: &impl Abort,
    alloc: Global,
    compiled: &Compiled,
    input_len: u32,
    budget: u64,
) -> Control
    requires input { input_len ≤ input_limit }
    requires budget { budget ≤ budget_limit }
    ensures fit { All (Fits (parts_of compiled.now.code)) result.activations }
{
    let control = run_control(alloc, &compiled.code, input_len, budget).expect(rt, "memory");
    let meant = control_meant(rt, alloc, &compiled.checked.program, input_len, budget);
    assert!(rt; is_same(&control, &meant), "budget {budget}");
    control
}

/// Asks that the control program makes on the machine what it means.
pub(crate) fn runs_as_it_means(
    rt: &impl Abort,
    alloc: Global,
    compiled: &Compiled,
    input_len: u32,
    budget: u64,
)
    requires input { input_len ≤ input_limit }
    requires budget { budget ≤ budget_limit }
{
    control_beside(rt, alloc, compiled, input_len, budget);
}

/// The least budget within which a run ends, of at most the ample one; it is found by its bits, the highest first.
fn sufficing<F: FnMut(u64) -> bool>(mut is_too_small: F) -> u64
    requires { F.IsAlwaysCallable is_too_small }
    ensures { result ≤ 5000 }
{
    let mut least: u64 = 0;
    for bit in &BITS {
        let tried = least | *bit;
        if is_too_small(tried.saturating_sub(1)) {
            least = tried;
        }
    }
    least.min(AMPLE)
}

/// Whether a control program means a run that is over its budget.
fn is_over(rt: &impl Abort, alloc: Global, program: &Program, input_len: u32, budget: u64) -> bool {
    let control = control_meant(rt, alloc, program, input_len, budget);
    control.end == ControlEnd::OverBudget
}

/// Runs a control program round the budget that just suffices, and its bodies.
pub(crate) fn whole_beside(rt: &impl Abort, alloc: Global, text: &str, input_len: u32)
    requires { input_len ≤ input_limit }
{
    let compiled = compile(rt, alloc, text);
    round_beside(rt, alloc, &compiled, input_len);
}

fn round_beside(rt: &impl Abort, alloc: Global, compiled: &Compiled, input_len: u32)
    requires { input_len ≤ input_limit }
{
    let program = &compiled.checked.program;
    let least = sufficing(|budget| is_over(rt, alloc, program, input_len, budget));
    runs_as_it_means(rt, alloc, compiled, input_len, 0);
    runs_as_it_means(rt, alloc, compiled, input_len, least.saturating_sub(1));
    runs_as_it_means(rt, alloc, compiled, input_len, least);
    let control = control_beside(rt, alloc, compiled, input_len, least + 1);
    bodies_beside(rt, alloc, compiled, &control);
}

/// How a body ends on the machine, and what it writes where it is done.
fn body_made(
    rt: &impl Abort,
    alloc: Global,
    compiled: &Compiled,
    activation: &Activation,
    scratch: &mut Scratch,
    budget: u64,
) -> (TaskEnd, Vec<i32>)
    requires fits { Fits (parts_of compiled.now.code) activation.now }
    requires made { IsMadeFor (parts_of compiled.now.code) scratch.old }
    requires budget { budget ≤ budget_limit }
    ensures made_again { IsMadeFor (parts_of compiled.now.code) scratch.new }
{
    let inputs = inputs_of(rt, alloc, activation.claims.as_slice());
    let mut outputs = outputs_of(rt, alloc, activation.claims.as_slice());
    let end = run_task(
        &compiled.code,
        activation,
        inputs.as_slice(),
        outputs.as_mut_slice(),
        scratch,
        budget,
    );
    if end != TaskEnd::Done {
        outputs.clear();
    }
    (end, outputs)
}

/// How a body ends by its meaning, and what it writes where it is done.
fn body_meant(
    rt: &impl Abort,
    alloc: Global,
    program: &Program,
    activation: &Activation,
    budget: u64,
) -> (TaskEnd, Vec<i32>) {
    let inputs = inputs_of(rt, alloc, activation.claims.as_slice());
    plain_body(alloc, program, activation, inputs.as_slice(), budget).expect(rt, "memory")
}

/// Asks that a body ends on the machine as it means, and writes what it means.
fn body_beside(
    rt: &impl Abort,
    alloc: Global,
    compiled: &Compiled,
    activation: &Activation,
    scratch: &mut Scratch,
    budget: u64,
)
    requires fits { Fits (parts_of compiled.now.code) activation.now }
    requires made { IsMadeFor (parts_of compiled.now.code) scratch.old }
    requires budget { budget ≤ budget_limit }
    ensures made_again { IsMadeFor (parts_of compiled.now.code) scratch.new }
{
    let (end, outputs) = body_made(rt, alloc, compiled, activation, scratch, budget);
    let (meant, elements) = body_meant(rt, alloc, &compiled.checked.program, activation, budget);
    assert!(rt;
        end == meant && outputs.as_slice() == elements.as_slice(),
        "budget {budget}"
    );
}

/// Whether a body means a run that is over its budget.
fn is_body_over(
    rt: &impl Abort,
    alloc: Global,
    program: &Program,
    activation: &Activation,
    budget: u64,
) -> bool {
    let (end, _) = body_meant(rt, alloc, program, activation, budget);
    end == TaskEnd::OverBudget
}

/// Runs a body on the machine round the budget that just suffices.
fn budgets_beside(
    rt: &impl Abort,
    alloc: Global,
    compiled: &Compiled,
    activation: &Activation,
    scratch: &mut Scratch,
)
    requires fits { Fits (parts_of compiled.now.code) activation.now }
    requires made { IsMadeFor (parts_of compiled.now.code) scratch.old }
    ensures made_again { IsMadeFor (parts_of compiled.now.code) scratch.new }
{
    let program = &compiled.checked.program;
    let least = sufficing(|budget| is_body_over(rt, alloc, program, activation, budget));
    let below = least.saturating_sub(1);
    body_beside(rt, alloc, compiled, activation, scratch, below);
    body_beside(rt, alloc, compiled, activation, scratch, least);
    body_beside(rt, alloc, compiled, activation, scratch, least + 1);
}

/// Runs the bodies of activations on the machine, one after another in the same room.
pub(crate) fn bodies_beside(rt: &impl Abort, alloc: Global, compiled: &Compiled, control: &Control)
    requires fits { All (Fits (parts_of compiled.now.code)) control.now.activations }
{
    let mut scratch = Scratch::new(alloc, &compiled.code).expect(rt, "memory");
    for activation in control.activations.as_slice() {
        budgets_beside(rt, alloc, compiled, activation, &mut scratch);
    }
}

/// Runs the bodies of activations on the machine with one budget.
pub(crate) fn bodies_within(
    rt: &impl Abort,
    alloc: Global,
    compiled: &Compiled,
    control: &Control,
    budget: u64,
)
    requires fits { All (Fits (parts_of compiled.now.code)) control.now.activations }
    requires budget { budget ≤ budget_limit }
{
    let mut scratch = Scratch::new(alloc, &compiled.code).expect(rt, "memory");
    for activation in control.activations.as_slice() {
        body_beside(rt, alloc, compiled, activation, &mut scratch, budget);
    }
}
