ghost use Rattle.std.specs.Prelude.{◌≡◌, ◌<◌, IfOk, None, Some, if◌then◌else◌, length, nat_lt};
ghost use Rattle.osrun_core_answer.specs.Explained.{finding_status};
ghost use Rattle.osrun_core_jobs.specs.Status.{status_code};
ghost use Rattle.osview_answer.specs.Explanation.{IsExplanation, absent_text, explanation, root_in};
ghost use Rattle.osview_sentences.specs.Contexts.{IsToldRun};
ghost use Rattle.osview_sentences.specs.Whole.{member_lines};
ghost use Rattle.wait_certs.specs.Finding.{IsFinding};
ghost use Rattle.wait_certs.specs.declared.finding.Finding.TheVariants as findings;

use crate::telling::RunAnswer;
use flow_core_laws::TaskEnd;
use os_io::Memory;
use osrun_core_jobs::Status;
use osview_sentences::{ToldRun, chain_text};
use osview_text::{Text, activation_word};
use std::alloc::Global;
use wait_certs::{Finding, find};

/// Whether an activation is starved, as a status.
fn finding_status(finding: &Finding) -> Status
    ensures { status_code result ≡ finding_status finding.now }
{
    match finding {
        Finding::Absent => Status::NotAllDone,
        Finding::Ended => Status::NotAllDone,
        Finding::Starved { .. } => Status::AllDone,
    }
}

/// An activation, if it is one of `count` activations.
fn among(count: usize, activation: u32) -> Option<u32>
    ensures { result ≡ (if nat_lt activation count then Some activation else None) }
{
    if (activation as usize) < count {
        Some(activation)
    } else {
        None
    }
}

/// The activation whose failure poisoned one with this end, if it is one of `count` activations.
fn root_in(count: usize, end: Option<TaskEnd>) -> Option<u32>
    ensures { result ≡ root_in count end }
{
    match end {
        None => None,
        Some(TaskEnd::Done) => None,
        Some(TaskEnd::Trapped { .. }) => None,
        Some(TaskEnd::OverBudget) => None,
        Some(TaskEnd::Poisoned { root }) => among(count, root),
    }
}

/// The line that tells that there is no activation of a number, where `main` created `count`.
fn absent_text(alloc: Global, activation: u32, count: u64) -> Result<Vec<u8>, Memory>
    ensures { IfOk result (λ text. text.items ≡ absent_text activation count) }
{
    let mut told = Text::new(alloc);
    told.add(b"no activation ")?;
    told.number(activation as u64)?;
    told.add(b": main created ")?;
    told.number(count)?;
    told.add(activation_word(count))?;
    told.add(b"\n")?;
    Ok(told.into_bytes())
}

/// The lines of an activation that has an end, and of the one whose failure poisoned it.
fn ended_text(alloc: Global, run: &ToldRun<'_>, activation: u32) -> Result<Vec<u8>, Memory>
    requires is_run { IsToldRun run.now }
    requires exists { activation < length run.now.activations.now }
    ensures { IfOk result (λ told. told.items ≡ explanation run.now.text.now run.now.names.now run.now.lines.now run.now.activations.now
        run.now.layout.now.input_len run.now.ends.now.ends activation findings.Ended) }
{
    match root_in(run.activations.len(), run.ends.end_of(activation)) {
        Some(root) => chain_text(alloc, run, &[activation, root]),
        None => chain_text(alloc, run, &[activation]),
    }
}

/// The lines that explain an activation, by what was found of it.
fn explanation_text(
    alloc: Global,
    run: &ToldRun<'_>,
    activation: u32,
    finding: &Finding,
) -> Result<Vec<u8>, Memory>
    requires is_run { IsToldRun run.now }
    requires found { IsFinding run.now.activations.now run.now.layout.now.input_len run.now.ends.now.ends activation finding.now }
    ensures { IfOk result (λ told. told.items ≡ explanation run.now.text.now run.now.names.now run.now.lines.now run.now.activations.now
        run.now.layout.now.input_len run.now.ends.now.ends activation finding.now) }
{
    match finding {
        Finding::Absent => absent_text(alloc, activation, run.activations.len() as u64),
        Finding::Ended => ended_text(alloc, run, activation),
        Finding::Starved { members, .. } => chain_text(alloc, run, members.as_slice()),
    }
}

/// Explains an activation of a run.
pub(crate) fn explain(
    alloc: Global,
    run: &ToldRun<'_>,
    activation: u32,
) -> Result<RunAnswer, Memory>
    requires { IsToldRun run.now }
    ensures { IfOk result (λ told. IsExplanation run.now.text.now run.now.names.now run.now.lines.now run.now.activations.now
        run.now.layout.now.input_len run.now.ends.now.ends activation told.text.items (status_code told.status)) }
{
    let finding = find(alloc, run.layout, run.ends, activation)?;
    let text = explanation_text(alloc, run, activation, &finding)?;
    let status = finding_status(&finding);
    Ok(RunAnswer { text, status })
}
