//! Laws of what the command leaves. Each is a call that does nothing and ensures its law.

ghost use Rattle.std.specs.Prelude.{◌≡◌, ◌<◌, ◌≤◌, ◌+◌, ◌⊎◌, ◌≢◌, ℕ, List, All, None, Some, IfSome, IsSome, IsSomeAnd, length, slice_get, take};
ghost use Rattle.std.specs.Io.KnownBytes.{append_known};
ghost use Rattle.os_io.specs.Counts.{HasRisen, last_count, raised};
ghost use Rattle.collector.specs.Report.{report as report_of};
ghost use Rattle.collector.specs.Status.{status as status_of};
ghost use Rattle.collector.specs.Written.{written};
ghost use Rattle.osrun_core.specs.Codes.{IsObjectOfJob, IsRunOfObject};
ghost use Rattle.osrun_core.specs.Given.{GivesOutcome};
ghost use Rattle.osrun_core.specs.Lines.{IsLineOfJob};
ghost use Rattle.osrun_core.specs.Read.{IsRead};
ghost use Rattle.osrun_core.specs.Traces.{IsLineOfReplay, IsRunByTrace, IsTraceOfJob};
ghost use Rattle.osrun_core_answer.specs.Answers.{AnswersRequest};
ghost use Rattle.osrun_core_answer.specs.Gen.{IsRunOfGen, gen_lines};
ghost use Rattle.osrun_core_answer.specs.JobOutcome.{JobOutcome};
ghost use Rattle.osrun_core_answer.specs.Laws.{IsTold, SameButForWorkers};
ghost use Rattle.osrun_core_jobs.specs.Files.{JobFile, files_of, limit_of};
ghost use Rattle.osrun_core_jobs.specs.Jobs.{IsRequestWithin, Run as RunRequest, replay_in};
ghost use Rattle.osrun_core_jobs.specs.Reading.{IsCauseOf, IsFailed, IsReadable, IsRejected, ReadsInOrder};
ghost use Rattle.osrun_core_jobs.specs.Refusal.{refusal_line, refusal_status, usage_line};
ghost use Rattle.osrun_core_jobs.specs.Status.{IsDelivered, all_done, bad_words, status_code, no_memory};
ghost use Rattle.osrun_core_jobs.specs.Status.{not_replayed, read_fault, refused, too_long, write_fault};
ghost use Rattle.osrun_core_jobs.specs.Telling.{HasTrouble, IsCutShort, IsUndelivered, Tells};
ghost use Rattle.osrun_core_jobs.specs.declared.refusal.Refusal.{Refusal as Cause};
ghost use Rattle.osrun_core_jobs.specs.declared.subject.Subject.TheVariants.{Input as InputFile, Object as ObjectFile};
ghost use Rattle.osrun_core_jobs.specs.declared.subject.Subject.TheVariants.{Program as ProgramFile, Trace as TraceFile};
ghost use Rattle.osrun_core_run.specs.Refusal.{IsUnusable, IsUsable};
ghost use Rattle.osrun_core_run.specs.Run.{ProgramRun, IsRunOfJob};
ghost use Rattle.osrun_core_words.specs.Command.{command, named_compile, named_exec, named_explain, named_gen, named_replay, named_run, named_trace, texts};

use front_end::one_answer;
use os_io::{Files, Sink};
use osrun_core_answer::laws::workers_change_nothing;
use osrun_core_run::laws::never_usable_and_refused;

/// What the record of an answer comes to, status by status: of the files and the two sinks before and after a call of the
/// command with these words, where the call answered this status.
pub fn answers_say<F: Files, O: Sink, E: Sink>(
    words: &[String],
    files: &F,
    files_after: &F,
    out: &O,
    out_after: &O,
    report: &E,
    report_after: &E,
    status: u8,
)
    requires { AnswersRequest F.Files files.now files_after.now O.Sink out.now out_after.now E.Sink report.now report_after.now
        (command (texts words.now)) status }

    // 0 and 1 of `run`, the headline: there is a run of the job, of which `out` took what is written, `report` took the
    // report, and the status is its status. Of the file opened last as many bytes were given as the run's input has. Files
    // that don't tell what they hold leave open which text and input the run was of.
    ensures headline { IsDelivered status → IfSome (named_run (texts words.now)) (λ job. (run : ProgramRun)
        × IsRunOfJob (F.holds files.now) job run
        × (F.given files_after.now ≡ length run.input)
        × (O.taken out_after.now ≡ append_known (O.taken out.now) (written run.ends.output))
        × (E.taken report_after.now ≡ append_known (E.taken report.now) (report_of run.control.activations (length run.input) run.ends run.control.end))
        × (status ≡ status_of run.ends.ends run.control.end)) }

    // 0, 1 and 6: a run was made, so all files were opened, the input last.
    ensures all_opened { IsDelivered status ⊎ (status ≡ write_fault) → IfSome (named_run (texts words.now))
        (λ job. F.opens files_after.now ≡ raised (F.opens files.now) (length (files_of (RunRequest job)))) }

    // All but 2 and 7: the words name a job whose numbers are within their bounds.
    ensures within { status ≢ bad_words → status ≢ no_memory → IsSomeAnd (command (texts words.now)) IsRequestWithin }

    // 2: the words. Nothing is read where they name no job.
    ensures bad_words { status ≡ bad_words → command (texts words.now) ≡ None }
    ensures bad_words_always { command (texts words.now) ≡ None → (status ≡ bad_words) ⊎ (status ≡ no_memory) }
    ensures nothing_read { command (texts words.now) ≡ None → files_after.now ≡ files.now }
    ensures usage { status ≡ bad_words → Tells E.Sink report.now report_after.now usage_line }

    // 3, 4 and 5: a refusal, whose cause is one of the files of what is asked for, and whose line is told.
    ensures refused { refused ≤ status → status ≤ read_fault → IsSomeAnd (command (texts words.now)) (λ request. (refusal : Cause)
        × (status ≡ status_code (refusal_status refusal))
        × IsCauseOf IsUsable IsUnusable F.Files files.now files_after.now (files_of request) refusal
        × Tells E.Sink report.now report_after.now (refusal_line refusal)) }

    // 3, 4 and 5, of which file: of the one that was opened last, and what was given of it since shows the cause. Those
    // before it were read. The line of 4 and 5 names that file.
    ensures opened_last { refused ≤ status → status ≤ read_fault → IfSome (named_run (texts words.now)) (λ job. (place : ℕ) × (file : JobFile)
        × (refusal : Cause) × (slice_get (files_of (RunRequest job)) place ≡ Some file)
        × (F.opens files_after.now ≡ raised (F.opens files.now) (place + 1))
        × All (IsRead (F.holds files.now)) (take place (files_of (RunRequest job)))
        × IsFailed IsUnusable F.Files files.now files_after.now file refusal
        × (status ≡ status_code (refusal_status refusal))
        × Tells E.Sink report.now report_after.now (refusal_line refusal)) }

    // 3: where the program is told and within its limit, and its text is refused, the status is 3, unless a
    // read failed (5) or memory ran out (7).
    ensures refused_always { IfSome (named_run (texts words.now)) (λ job.
        IsRejected IsUnusable (F.holds files.now) (record { subject = ProgramFile; name = job.program })
        → (status ≡ refused) ⊎ ((status ≡ read_fault) ⊎ (status ≡ no_memory))) }

    // 4, whatever the words ask for: where more than the limit of the file that was opened last was given, the status is 4,
    // unless memory ran out (7).
    ensures too_long_always { IfSome (command (texts words.now)) (λ request. (place : ℕ) (file : JobFile)
        → slice_get (files_of request) place ≡ Some file
        → F.opens files.now + length (files_of request) ≤ last_count
        → F.opens files_after.now ≡ raised (F.opens files.now) (place + 1)
        → limit_of file.subject < F.given files_after.now → (status ≡ too_long) ⊎ (status ≡ no_memory)) }

    // 6 of `run`: a sink did not take all of a run.
    ensures undelivered { status ≡ write_fault → IfSome (named_run (texts words.now)) (λ job. (run : ProgramRun)
        × IsRunOfJob (F.holds files.now) job run
        × (F.given files_after.now ≡ length run.input)
        × IsUndelivered O.Sink out.now out_after.now (written run.ends.output)
        E.Sink report.now report_after.now (report_of run.control.activations (length run.input) run.ends run.control.end)) }

    // 7: want of memory, before anything is written.
    ensures memory { status ≡ no_memory → report_after.now ≡ report.now }
    ensures nothing_written { bad_words ≤ status → status ≢ write_fault → out_after.now ≡ out.now }
    ensures statuses { status ≤ not_replayed }
    ensures not_replayed_alone { status ≡ not_replayed → IsSome (named_replay (texts words.now)) }

    // With any status: a file is opened only after those before it were read, which the openings and the bytes that were given
    // show, and what the files hold where they tell it.
    ensures in_order { IfSome (command (texts words.now)) (λ request.
        ReadsInOrder IsUsable F.Files files.now files_after.now (files_of request)) }
    ensures read_before { IfSome (named_run (texts words.now)) (λ job. (k : ℕ) → F.opens files.now + k < F.opens files_after.now
        → All (IsRead (F.holds files.now)) (take k (files_of (RunRequest job)))) }

    // Completeness: where all files of what is asked for are told, within their limits, and usable, and nothing fails, it is made
    // and delivered, unless memory runs out; a replay may also have told what the lists of its trace come to (8).
    ensures complete { IfSome (command (texts words.now)) (λ request. All (IsReadable IsUsable (F.holds files.now)) (files_of request)
        → (HasRisen (F.faults files.now) (F.faults files_after.now) → ⊥)
        → (HasTrouble O.Sink out.now out_after.now → ⊥)
        → (HasTrouble E.Sink report.now report_after.now → ⊥)
        → IsDelivered status ⊎ ((status ≡ no_memory) ⊎ ((status ≡ not_replayed) × IsSome (replay_in request)))) }

    // The counts where nothing failed: with 0 to 4, 6 and 8 no read failed, with 0 and 1 no write did.
    ensures no_read_fault { status ≢ read_fault → status ≢ no_memory → F.faults files_after.now ≡ F.faults files.now }
    ensures no_write_fault { IsDelivered status → (O.faults out_after.now ≡ O.faults out.now) × (O.empty_takes out_after.now ≡ O.empty_takes out.now)
        × (E.faults report_after.now ≡ E.faults report.now) × (E.empty_takes report_after.now ≡ E.empty_takes report.now) }

    // `gen`: with the status 0 `out` took the four lines of the run over the bytes that were made, with 6 a front of
    // them, for a cause of its own, and 7 is want of memory. Files and report stay as they are.
    ensures gen_written { status ≡ all_done → IfSome (named_gen (texts words.now)) (λ job. (run : ProgramRun) × IsRunOfGen job run
        × (O.taken out_after.now ≡ append_known (O.taken out.now) (gen_lines job run))) }
    ensures gen_cut_short { status ≡ write_fault → IfSome (named_gen (texts words.now)) (λ job. (run : ProgramRun) × IsRunOfGen job run
        × IsCutShort O.Sink out.now out_after.now (gen_lines job run)) }
    ensures gen_statuses { IfSome (named_gen (texts words.now)) (λ _. (status ≡ all_done) ⊎ ((status ≡ write_fault) ⊎ (status ≡ no_memory))) }
    ensures gen_files { IfSome (named_gen (texts words.now)) (λ _. files_after.now ≡ files.now) }
    ensures gen_report { IfSome (named_gen (texts words.now)) (λ _. report_after.now ≡ report.now) }

    // Completeness of `gen`: where `out` has no trouble, the four lines are written, unless memory runs out.
    ensures gen_complete { IfSome (named_gen (texts words.now)) (λ _.
        (HasTrouble O.Sink out.now out_after.now → ⊥)
        → (status ≡ all_done) ⊎ (status ≡ no_memory)) }

    // `compile`: with the status 0 `out` took the object of a code of the program, with 6 a front of it, for a cause of its own.
    // The report stays as it is, and it is never answered 1.
    ensures compiled { IsDelivered status → IfSome (named_compile (texts words.now)) (λ job. (object : List ℕ) × IsObjectOfJob (F.holds files.now) job object
        × (O.taken out_after.now ≡ append_known (O.taken out.now) object) × (report_after.now ≡ report.now) × (status ≡ all_done)) }
    ensures compile_cut_short { status ≡ write_fault → IfSome (named_compile (texts words.now)) (λ job. (object : List ℕ)
        × IsObjectOfJob (F.holds files.now) job object × IsCutShort O.Sink out.now out_after.now object × (report_after.now ≡ report.now)) }

    // `exec`, 0 and 1: there is a run of the object's code, of which `out` took what is written, `report` took the report, and the
    // status is its status. 6: a sink did not take all of it.
    ensures executed { IsDelivered status → IfSome (named_exec (texts words.now)) (λ job. (run : ProgramRun)
        × IsRunOfObject (F.holds files.now) job run
        × (F.given files_after.now ≡ length run.input)
        × (O.taken out_after.now ≡ append_known (O.taken out.now) (written run.ends.output))
        × (E.taken report_after.now ≡ append_known (E.taken report.now) (report_of run.control.activations (length run.input) run.ends run.control.end))
        × (status ≡ status_of run.ends.ends run.control.end)) }
    ensures exec_undelivered { status ≡ write_fault → IfSome (named_exec (texts words.now)) (λ job. (run : ProgramRun)
        × IsRunOfObject (F.holds files.now) job run
        × (F.given files_after.now ≡ length run.input)
        × IsUndelivered O.Sink out.now out_after.now (written run.ends.output)
        E.Sink report.now report_after.now (report_of run.control.activations (length run.input) run.ends run.control.end)) }

    // 3 of both: where the first file is told and within its limit, and its bytes are refused, the status is 3, unless a read failed
    // (5) or memory ran out (7).
    ensures compile_refused_always { IfSome (named_compile (texts words.now)) (λ job.
        IsRejected IsUnusable (F.holds files.now) (record { subject = ProgramFile; name = job.program })
        → (status ≡ refused) ⊎ ((status ≡ read_fault) ⊎ (status ≡ no_memory))) }
    ensures exec_refused_always { IfSome (named_exec (texts words.now)) (λ job.
        IsRejected IsUnusable (F.holds files.now) (record { subject = ObjectFile; name = job.object })
        → (status ≡ refused) ⊎ ((status ≡ read_fault) ⊎ (status ≡ no_memory))) }

    // `explain`, 0 and 1: `out` took the line that tells of the activation of a run of the program, and the status is the one with
    // which it is told. 6: a front of it, for a cause of its own. The report stays as it is.
    ensures explained { IsDelivered status → IfSome (named_explain (texts words.now)) (λ job. (line : List ℕ)
        × IsLineOfJob (F.holds files.now) job (F.given files_after.now) line status
        × (O.taken out_after.now ≡ append_known (O.taken out.now) line) × (report_after.now ≡ report.now)) }
    ensures explain_cut_short { status ≡ write_fault → IfSome (named_explain (texts words.now)) (λ job. (line : List ℕ) × (own : ℕ)
        × IsLineOfJob (F.holds files.now) job (F.given files_after.now) line own
        × IsCutShort O.Sink out.now out_after.now line × (report_after.now ≡ report.now)) }

    // 3 of `explain`: where the program is told and within its limit, and its text is refused, the status is 3, unless a read failed
    // (5) or memory ran out (7).
    ensures explain_refused_always { IfSome (named_explain (texts words.now)) (λ job.
        IsRejected IsUnusable (F.holds files.now) (record { subject = ProgramFile; name = job.program })
        → (status ≡ refused) ⊎ ((status ≡ read_fault) ⊎ (status ≡ no_memory))) }

    // `trace`, 0 and 1: there is a run of the program, of which `out` took a trace, `report` took the report, and the status is its status.
    // 6: a sink did not take all of it.
    ensures traced { IsDelivered status → IfSome (named_trace (texts words.now)) (λ job. (run : ProgramRun) × (text : List ℕ)
        × IsTraceOfJob (F.holds files.now) job (F.given files_after.now) run text
        × (O.taken out_after.now ≡ append_known (O.taken out.now) text)
        × (E.taken report_after.now ≡ append_known (E.taken report.now) (report_of run.control.activations (length run.input) run.ends run.control.end))
        × (status ≡ status_of run.ends.ends run.control.end)) }
    ensures trace_undelivered { status ≡ write_fault → IfSome (named_trace (texts words.now)) (λ job. (run : ProgramRun) × (text : List ℕ)
        × IsTraceOfJob (F.holds files.now) job (F.given files_after.now) run text
        × IsUndelivered O.Sink out.now out_after.now text
        E.Sink report.now report_after.now (report_of run.control.activations (length run.input) run.ends run.control.end)) }

    // `replay`, 0 and 1: the lists of the trace are whole, `out` took what the run writes, `report` took the report, and the status is the
    // run's. 6: a sink did not take all of it. 8: they aren't whole; the line that says how is told, and `out` stays as it is.
    ensures replayed { IsDelivered status → IfSome (named_replay (texts words.now)) (λ job. (run : ProgramRun)
        × IsRunByTrace (F.holds files.now) job (F.given files_after.now) run
        × (O.taken out_after.now ≡ append_known (O.taken out.now) (written run.ends.output))
        × (E.taken report_after.now ≡ append_known (E.taken report.now) (report_of run.control.activations (length run.input) run.ends run.control.end))
        × (status ≡ status_of run.ends.ends run.control.end)) }
    ensures replay_undelivered { status ≡ write_fault → IfSome (named_replay (texts words.now)) (λ job. (run : ProgramRun)
        × IsRunByTrace (F.holds files.now) job (F.given files_after.now) run
        × IsUndelivered O.Sink out.now out_after.now (written run.ends.output)
        E.Sink report.now report_after.now (report_of run.control.activations (length run.input) run.ends run.control.end)) }
    ensures not_replayed { status ≡ not_replayed → IfSome (named_replay (texts words.now)) (λ job. (line : List ℕ)
        × IsLineOfReplay (F.holds files.now) job (F.given files_after.now) line
        × (out_after.now ≡ out.now) × Tells E.Sink report.now report_after.now line) }

    // 3 of both: where the program is told and within its limit, and its text is refused, the status is 3, unless a read failed (5) or
    // memory ran out (7). So it is where the program and the input can be used, and the trace is told, within its limit, and is none.
    ensures trace_refused_always { IfSome (named_trace (texts words.now)) (λ job.
        IsRejected IsUnusable (F.holds files.now) (record { subject = ProgramFile; name = job.program })
        → (status ≡ refused) ⊎ ((status ≡ read_fault) ⊎ (status ≡ no_memory))) }
    ensures replay_refused_always { IfSome (named_replay (texts words.now)) (λ job.
        IsRejected IsUnusable (F.holds files.now) (record { subject = ProgramFile; name = job.program })
        → (status ≡ refused) ⊎ ((status ≡ read_fault) ⊎ (status ≡ no_memory))) }
    ensures trace_rejected_always { IfSome (named_replay (texts words.now)) (λ job.
        IsReadable IsUsable (F.holds files.now) (record { subject = ProgramFile; name = job.program })
        → IsReadable IsUsable (F.holds files.now) (record { subject = InputFile; name = job.input })
        → IsRejected IsUnusable (F.holds files.now) (record { subject = TraceFile; name = job.trace })
        → (status ≡ refused) ⊎ ((status ≡ read_fault) ⊎ (status ≡ no_memory))) }

    // What stays.
    ensures faults_kept { F.faults files.now ≤ F.faults files_after.now }
    ensures holds { F.holds files_after.now ≡ F.holds files.now }
    ensures may { F.may files_after.now ≡ F.may files.now }
{
    never_usable_and_refused();
}

/// The answer of a call doesn't depend on the number of workers. Two calls whose words name requests that differ in that number alone, on
/// files that tell the same, give one outcome: output, report and status, also where a file is refused. It is whole where no read
/// failed, the sinks took all of it, and memory was there. `trace` is left out: its output tells which worker ran what.
pub fn workers_change_no_answer<F: Files, O: Sink, E: Sink>(
    words: &[String],
    files: &F,
    files_after: &F,
    out: &O,
    out_after: &O,
    report: &E,
    report_after: &E,
    status: u8,
    other_words: &[String],
    others: &F,
    others_after: &F,
    other_out: &O,
    other_out_after: &O,
    other_report: &E,
    other_report_after: &E,
    other_status: u8,
)
    requires one { AnswersRequest F.Files files.now files_after.now O.Sink out.now out_after.now E.Sink report.now report_after.now
        (command (texts words.now)) status }
    requires other { AnswersRequest F.Files others.now others_after.now O.Sink other_out.now other_out_after.now
        E.Sink other_report.now other_report_after.now (command (texts other_words.now)) other_status }
    requires same_words { IsSomeAnd (command (texts words.now)) (λ request.
        IsSomeAnd (command (texts other_words.now)) (SameButForWorkers request)) }
    requires same_files { F.holds others.now ≡ F.holds files.now }
    requires told { IfSome (command (texts words.now)) (λ request. All (IsTold (F.holds files.now)) (files_of request)) }
    ensures status { status < read_fault → other_status < read_fault → status ≡ other_status }
    ensures outcome { (outcome : JobOutcome)
        × GivesOutcome O.Sink out.now out_after.now E.Sink report.now report_after.now status outcome
        × GivesOutcome O.Sink other_out.now other_out_after.now E.Sink other_report.now other_report_after.now other_status outcome }
{
    workers_change_nothing(files, files_after, others, others_after);
    never_usable_and_refused();
    one_answer();
}
