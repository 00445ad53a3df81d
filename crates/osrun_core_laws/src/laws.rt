//! Laws of the runs of jobs, and of what a call of the command leaves of them. Each is a call that does nothing and ensures its law.

ghost use Rattle.std.specs.Prelude.{◌≡◌, ◌≢◌, IfSome, List, ℕ};
ghost use Rattle.std.specs.Io.KnownBytes.{append_known};
ghost use Rattle.osrun_core.specs.Codes.{IsRunOfObject};
ghost use Rattle.osrun_core.specs.Traces.{replayed_run};
ghost use Rattle.osrun_core_answer.specs.Answers.{AnswersRequest};
ghost use Rattle.osrun_core_jobs.specs.Status.{all_done, bad_words, no_memory};
ghost use Rattle.osrun_core_laws.specs.Chains.{IsChainOfJob, LinesTellChains, OfObjectRunsWithin, OfRunsWithin, StarvesByChains};
ghost use Rattle.osrun_core_run.specs.Run.{IsRunOfJob, ProgramRun};
ghost use Rattle.osrun_core_words.specs.Command.{command, named_exec, named_explain, named_replay, named_run, named_trace, texts};

use os_io::{Files, Sink};
use wait_certs_runs::laws::runs_starve_by_chains;

/// Each activation that starves in the run of a job, or of an object, has a chain of no more members than there are activations. It
/// begins with the activation and is its walk, and each walk is such a chain. In the report it has its line, and the producer that this
/// names starves too. A line that `explain` tells with the status 0 is that chain.
pub fn jobs_starve_by_chains()
    ensures programs { OfRunsWithin StarvesByChains }
    ensures objects { OfObjectRunsWithin StarvesByChains }
    ensures lines { LinesTellChains }
{
    runs_starve_by_chains();
}

/// Why activations starve in the run that a call of the command is of: of the files and the two sinks before and after the call with
/// these words, where it answered this status. `answers_say` of `osrun_core` says that there is such a run, and how much is told of it.
pub fn answers_tell_chains<F: Files, O: Sink, E: Sink>(
    words: &[String],
    files: &F,
    files_after: &F,
    out: &O,
    out_after: &O,
    report: &E,
    report_after: &E,
    status: u8,
)
    requires { AnswersRequest F.Files files.now files_after.now O.Sink out.now out_after.now E.Sink report.now report_after.now
        (command (texts words.now)) status }

    // All but 2 and 7, of the requests whose report tells of activations: whatever run of the request this is, its activations starve
    // by chains. So it is for the run of which the report took the lines, all of them or a front.
    ensures run { status ≢ bad_words → status ≢ no_memory → IfSome (named_run (texts words.now)) (λ job. (run : ProgramRun)
        → IsRunOfJob (F.holds files.now) job run → StarvesByChains run) }
    ensures exec { status ≢ bad_words → status ≢ no_memory → IfSome (named_exec (texts words.now)) (λ job. (run : ProgramRun)
        → IsRunOfObject (F.holds files.now) job run → StarvesByChains run) }
    ensures trace { status ≢ bad_words → status ≢ no_memory → IfSome (named_trace (texts words.now)) (λ job. (run : ProgramRun)
        → IsRunOfJob (F.holds files.now) job run → StarvesByChains run) }
    ensures replay { status ≢ bad_words → status ≢ no_memory → IfSome (named_replay (texts words.now)) (λ job. (run : ProgramRun)
        → IsRunOfJob (F.holds files.now) (replayed_run job) run → StarvesByChains run) }

    // `explain`, 0: `out` took the line of a chain, in which the activation of the job begins and all members starve, with the element
    // that the last one misses.
    ensures explain { status ≡ all_done → IfSome (named_explain (texts words.now)) (λ job. (line : List ℕ)
        × IsChainOfJob (F.holds files.now) job (F.given files_after.now) line
        × (O.taken out_after.now ≡ append_known (O.taken out.now) line) × (report_after.now ≡ report.now)) }
{
    jobs_starve_by_chains();
}
