//! Laws of what the server leaves. Each is a call that does nothing and ensures its law.

ghost use Rattle.std.specs.Prelude.{◌≡◌, ◌≢◌, ◌<◌, ◌≤◌, ◌⊎◌, IfSome, length};
ghost use Rattle.os_io.specs.Counts.{HasRisen};
ghost use Rattle.os_serve.specs.Commands.{IsReplyTo};
ghost use Rattle.os_serve_answers.specs.Said.{AnswersJobs, HaveReplies};
ghost use Rattle.os_serve_answers.specs.Serving.{IsBroken, IsCutIn, IsCutOff, IsServed, IsStopped, Serves};
ghost use Rattle.os_serve_jobs.specs.Lines.{jobs_limit};
ghost use Rattle.osrun_core_jobs.specs.Status.{all_done, no_memory, read_fault, too_long, write_fault};
ghost use Rattle.osrun_core_jobs.specs.Telling.{HasTrouble};

use os_io::{Files, Sink};

/// What the record of a server's call comes to, status by status: of the file of jobs, the files of the jobs and the two sinks before and
/// after a call of `serve_words` for `serve` and this name, where the call answered this status.
pub fn serves_say<J: Files, F: Files, O: Sink, E: Sink>(
    name: &str,
    jobs: &J,
    jobs_after: &J,
    files: &F,
    files_after: &F,
    out: &O,
    out_after: &O,
    report: &E,
    report_after: &E,
    status: u8,
)
    requires { Serves J.Files jobs.now jobs_after.now (IsReplyTo F.Files) files.now files_after.now O.Sink out.now out_after.now E.Sink report.now
        report_after.now name.now status }

    // With each status: each job that was answered has its own reply, in the order of the lines, and the output took the answers to the
    // first jobs of the file and nothing else, or with 6 a front of that. With 0 and 4 these are all jobs.
    ensures answers { HaveReplies (IsReplyTo F.Files) files.now files_after.now (AnswersJobs J.Files jobs.now O.Sink out.now out_after.now name.now status) }

    // 2: never, since the words are `serve` and a name. For all others that begin with `serve`, `serve_words` says that it is 2.
    ensures statuses { (status ≡ all_done) ⊎ ((too_long ≤ status) × (status ≤ no_memory)) }

    // 0: the file was read to its end, within its limit, and all its jobs were answered.
    ensures all_done { status ≡ all_done → HaveReplies (IsReplyTo F.Files) files.now files_after.now
        (IsServed J.Files jobs.now jobs_after.now O.Sink out.now out_after.now report.now report_after.now name.now) }

    // 4: one byte more than the limit was given; always there where the output took every answer, but for 7.
    ensures too_long { status ≡ too_long → HaveReplies (IsReplyTo F.Files) files.now files_after.now
        (IsCutOff J.Files jobs.now jobs_after.now O.Sink out.now out_after.now E.Sink report.now report_after.now name.now) }
    ensures too_long_always { jobs_limit < J.given jobs_after.now → (HasTrouble O.Sink out.now out_after.now → ⊥)
        → (status ≡ too_long) ⊎ (status ≡ no_memory) }
    ensures too_long_held { IfSome (J.holds jobs.now name.now) (λ held. jobs_limit < length held
        → (HasRisen (J.faults jobs.now) (J.faults jobs_after.now) → ⊥)
        → (HasTrouble O.Sink out.now out_after.now → ⊥)
        → (status ≡ too_long) ⊎ (status ≡ no_memory)) }

    // 5: the count of faults of the file of jobs rose; the jobs whose line feed was given before were answered, and no other.
    ensures read_fault { status ≡ read_fault → HaveReplies (IsReplyTo F.Files) files.now files_after.now
        (IsBroken J.Files jobs.now jobs_after.now O.Sink out.now out_after.now E.Sink report.now report_after.now name.now) }

    // 6: the output took a front of the answers, and a count of it rose.
    ensures write_fault { status ≡ write_fault → HaveReplies (IsReplyTo F.Files) files.now files_after.now
        (IsCutIn J.Files jobs.now jobs_after.now O.Sink out.now out_after.now report.now report_after.now name.now) }

    // 7: want of memory; the output took the answers to the first jobs.
    ensures memory { status ≡ no_memory → HaveReplies (IsReplyTo F.Files) files.now files_after.now
        (IsStopped J.Files jobs.now jobs_after.now O.Sink out.now out_after.now report.now report_after.now name.now) }

    // Completeness: where the file holds at most the limit, or no more was given, and nothing fails, the status is 0, unless memory
    // runs out.
    ensures complete { IfSome (J.holds jobs.now name.now) (λ held. length held ≤ jobs_limit
        → (HasRisen (J.faults jobs.now) (J.faults jobs_after.now) → ⊥)
        → (HasTrouble O.Sink out.now out_after.now → ⊥)
        → (status ≡ all_done) ⊎ (status ≡ no_memory)) }
    ensures complete_given { J.given jobs_after.now ≤ jobs_limit
        → (HasRisen (J.faults jobs.now) (J.faults jobs_after.now) → ⊥)
        → (HasTrouble O.Sink out.now out_after.now → ⊥)
        → (status ≡ all_done) ⊎ (status ≡ no_memory) }
{}
