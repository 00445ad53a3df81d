//! Laws of what requests are meant to give. Each is a call that does nothing and ensures its law.

ghost use Rattle.std.specs.Prelude.{◌≡◌, All, Some};
ghost use Rattle.osrun_core_answer.specs.Answers.{IsMade};
ghost use Rattle.osrun_core_answer.specs.Laws.{IsTold, ObjectsRunAsTexts, SameButForWorkers, TracesReportAsRuns, TracesReportTheSame, WorkersChangeNothing};
ghost use Rattle.osrun_core_jobs.specs.Files.{files_of};
ghost use Rattle.osrun_core_jobs.specs.Jobs.{Request};

use epoch_run_bodies::laws::agreeing_bodies_mean_one;
use front_end::one_answer;
use os_io::Files;
use os_object::laws::one_reading;
use wait_certs_laws::laws::one_walk;

/// What is given doesn't depend on the number of workers: over the same bytes, requests that differ in that number alone are
/// meant to give the same output, report and status. So do two calls on files that tell the same, each before its call.
pub fn workers_change_nothing<F: Files>(files: &F, files_after: &F, others: &F, others_after: &F)
    requires { F.holds others.now ≡ F.holds files.now }
    ensures meant { WorkersChangeNothing }
    ensures made { (request other : Request) → SameButForWorkers request other → All (IsTold (F.holds files.now)) (files_of request)
        → (one : IsMade F.Files files.now files_after.now (Some request)) → (two : IsMade F.Files others.now others_after.now (Some other))
        → one.outcome ≡ two.outcome }
{
    one_answer();
    one_reading();
    one_walk();
}

/// `trace` is meant to give the report and the status of `run` over the same bytes, whatever the numbers of workers; so two calls of
/// `trace` that differ in that number alone are meant to give the same report and status. Their traces may differ, also where the
/// numbers don't.
pub fn traces_report_as_runs()
    ensures as_runs { TracesReportAsRuns }
    ensures alike { TracesReportTheSame }
{
    one_answer();
    one_reading();
    one_walk();
}

/// What `compile` gives of a text is an object of which `exec` gives what `run` gives of the text, over every input and with the same
/// budgets, whatever the numbers of workers.
pub fn objects_run_as_texts()
    ensures { ObjectsRunAsTexts }
{
    one_answer();
    one_reading();
    agreeing_bodies_mean_one();
}
