ghost use Rattle.std.specs.Prelude.{◌≡◌, IfOk, List, string_bytes};
ghost use Rattle.flow_core_laws.specs.declared.activation.Activation.{Activation};
ghost use Rattle.osrun_core_answer.specs.Explained.{Explains, finding_status};
ghost use Rattle.osrun_core_answer.specs.Made.{MakesExplanation};
ghost use Rattle.osrun_core_jobs.specs.Files.{MayOpen, files_of};
ghost use Rattle.osrun_core_jobs.specs.Jobs.{Explain as ExplainRequest, IsExplainWithin, explain_of};
ghost use Rattle.osrun_core_jobs.specs.Status.{status_code};
ghost use Rattle.stream_match_layouts.specs.Layout.{IsLayout, IsLayoutOf};

use crate::make_run::make_run;
use os_io::{Files, Memory};
use osrun_core_jobs::{ExplainJob, Job, Refusal, Status};
use osrun_core_run::MadeRun;
use std::alloc::Global;
use std::thread::Threads;
use task_workers::Gate;
use wait_certs::{Finding, find, finding_line};

/// What is told of an activation, and the status with which it is.
#[derive(Debug, Drop)]
pub struct Explanation {
    /// One line, with its line feed.
    pub text: String,
    /// The status of the answer, which says whether the activation is starved.
    pub status: Status,
}

/// Whether an activation is starved, as a status.
fn finding_status(finding: &Finding) -> Status
    ensures { status_code result ≡ finding_status finding.now }
{
    match finding {
        Finding::Absent => Status::NotAllDone,
        Finding::Ended => Status::NotAllDone,
        Finding::Starved { .. } => Status::AllDone,
    }
}

/// Tells of an activation of a run.
fn explain(alloc: Global, run: &MadeRun, activation: u32) -> Result<Explanation, Memory>
    requires { IsLayout run.now.layout }
    ensures { IfOk result (λ told. (activations : List Activation) → IsLayoutOf run.now.layout activations
        → Explains activations run.now.layout.input_len run.now.ends.ends activation (string_bytes told.text) (status_code told.status)) }
{
    let finding = find(alloc, &run.layout, &run.ends, activation)?;
    let text = finding_line(alloc, activation, &finding)?;
    let status = finding_status(&finding);
    Ok(Explanation { text, status })
}

/// Makes the run of a program, from its files on, and tells of one of its activations. Nothing is written.
pub fn make_explanation<R: Threads + Sync, F: Files, G: Gate>(
    rt: &R,
    alloc: Global,
    job: &ExplainJob<'_>,
    files: &mut F,
    gate: &G,
) -> Result<Explanation, Refusal>
    requires may { MayOpen (F.may files.old) (F.opens files.old) (files_of (ExplainRequest (explain_of job.now))) }
    requires within { IsExplainWithin (explain_of job.now) }
    ensures { MakesExplanation F.Files files.old files.new (explain_of job.now) result }
{
    let of_program = Job {
        program: job.program,
        input: job.input,
        terms: job.terms,
    };
    let run = make_run(rt, alloc, &of_program, files, gate)?;
    let told = explain(alloc, &run, job.activation)?;
    Ok(told)
}
