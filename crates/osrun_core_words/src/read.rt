ghost use Rattle.std.specs.Prelude.{◌≡◌, IfOk, Err, None, Some};
ghost use Rattle.clap.specs.Words.{found_of, rows_of};
ghost use Rattle.osrun_core_words.specs.Arguments.{argument_of, id_of, name_in, argument_number};
ghost use Rattle.osrun_core_jobs.specs.Jobs.{IsRequestWithin, IsWithin, Run, Trace, job_of, request_of};
ghost use Rattle.osrun_core_words.specs.Command.{command, compile_form, exec_form, explain_form, gen_form};
ghost use Rattle.osrun_core_words.specs.Command.{replay_form, request_by, run_form, texts, trace_form};
ghost use Rattle.osrun_core_words.specs.Command as commands;
ghost use Rattle.osrun_core_words.specs.Parsed.{IsNumberFor, IsNumberGiven};
ghost use Rattle.osrun_core_words.specs.declared.words_error.WordsError.TheVariants as errors;

use crate::argument::Argument;
use crate::parse::parse;
use crate::table::{
    ACTIVATION, BLOCKS, COMPILE, CONTROL_BUDGET, EXEC, EXPLAIN, GEN, INPUT, OBJECT, PROGRAM,
    REPLAY, RUN, SEED, TASK_BUDGET, TRACE, TRACE_FILE, WORKERS,
};
use crate::words_error::WordsError;
use clap::ArgMatches;
use osrun_core_jobs::{CompileJob, ExecJob, ExplainJob, GenJob, Job, ReplayJob, Request, Terms};
use std::alloc::Global;

/// The name that an argument was given.
fn name_of<'w>(matches: &ArgMatches<'w>, argument: Argument<'_>) -> &'w str
    ensures { result.now ≡ name_in (rows_of (found_of matches.now)) (id_of (argument_of argument.entry)) }
{
    matches.get_str(argument.id()).unwrap_or("")
}

/// The number that an argument was given.
fn number_of(matches: &ArgMatches<'_>, argument: Argument<'_>) -> u64
    requires { IsNumberGiven matches.now (argument_of argument) }
    ensures value { result ≡ argument_number (rows_of (found_of matches.now)) (id_of (argument_of argument.entry)) }
    ensures within { IsNumberFor (argument_of argument.entry) result }
{
    matches.get_one::<u64>(argument.id()).unwrap_or(0)
}

/// On which terms a run was asked for.
fn terms_of(matches: &ArgMatches<'_>) -> Terms
    requires workers { IsNumberGiven matches.now commands.workers }
    requires task_budget { IsNumberGiven matches.now commands.task_budget }
    requires control_budget { IsNumberGiven matches.now commands.control_budget }
    ensures workers { result.workers ≡ argument_number (rows_of (found_of matches.now)) (id_of commands.workers) }
    ensures task_budget { result.task_budget ≡ argument_number (rows_of (found_of matches.now)) (id_of commands.task_budget) }
    ensures control_budget { result.control_budget ≡ argument_number (rows_of (found_of matches.now)) (id_of commands.control_budget) }
    ensures workers_within { IsNumberFor commands.workers result.workers }
    ensures task_budget_within { IsNumberFor commands.task_budget result.task_budget }
    ensures control_budget_within { IsNumberFor commands.control_budget result.control_budget }
{
    Terms {
        workers: number_of(matches, WORKERS) as u32,
        task_budget: number_of(matches, TASK_BUDGET),
        control_budget: number_of(matches, CONTROL_BUDGET),
    }
}

/// The run that `run` and `trace` ask for.
fn run_of<'w>(matches: &ArgMatches<'w>) -> Job<'w>
    requires workers { IsNumberGiven matches.now commands.workers }
    requires task_budget { IsNumberGiven matches.now commands.task_budget }
    requires control_budget { IsNumberGiven matches.now commands.control_budget }
    ensures run { run_form.request (rows_of (found_of matches.now)) ≡ Run (job_of result) }
    ensures trace { trace_form.request (rows_of (found_of matches.now)) ≡ Trace (job_of result) }
    ensures within { IsWithin (job_of result) }
{
    Job {
        program: name_of(matches, PROGRAM),
        input: name_of(matches, INPUT),
        terms: terms_of(matches),
    }
}

/// The job of `run`.
fn read_run<'w>(alloc: Global, words: &'w [String]) -> Result<Request<'w>, WordsError>
    ensures request { IfOk result (λ request. request_by run_form (texts words.entry.now) ≡ Some (request_of request)) }
    ensures within { IfOk result (λ request. IsRequestWithin (request_of request)) }
    ensures refused { result ≡ Err errors.Refused → request_by run_form (texts words.entry.now) ≡ None }
{
    let matches = parse(alloc, RUN, words)?;
    Ok(Request::Run(run_of(&matches)))
}

/// The job of `gen`.
fn read_gen<'w>(alloc: Global, words: &'w [String]) -> Result<Request<'w>, WordsError>
    ensures request { IfOk result (λ request. request_by gen_form (texts words.entry.now) ≡ Some (request_of request)) }
    ensures within { IfOk result (λ request. IsRequestWithin (request_of request)) }
    ensures refused { result ≡ Err errors.Refused → request_by gen_form (texts words.entry.now) ≡ None }
{
    let matches = parse(alloc, GEN, words)?;
    Ok(Request::Gen(GenJob {
        seed: number_of(&matches, SEED) as u32,
        blocks: number_of(&matches, BLOCKS) as u32,
        workers: number_of(&matches, WORKERS) as u32,
    }))
}

/// The job of `compile`.
fn read_compile<'w>(alloc: Global, words: &'w [String]) -> Result<Request<'w>, WordsError>
    ensures request { IfOk result (λ request. request_by compile_form (texts words.entry.now) ≡ Some (request_of request)) }
    ensures within { IfOk result (λ request. IsRequestWithin (request_of request)) }
    ensures refused { result ≡ Err errors.Refused → request_by compile_form (texts words.entry.now) ≡ None }
{
    let matches = parse(alloc, COMPILE, words)?;
    let program = name_of(&matches, PROGRAM);
    Ok(Request::Compile(CompileJob { program }))
}

/// The job of `exec`.
fn read_exec<'w>(alloc: Global, words: &'w [String]) -> Result<Request<'w>, WordsError>
    ensures request { IfOk result (λ request. request_by exec_form (texts words.entry.now) ≡ Some (request_of request)) }
    ensures within { IfOk result (λ request. IsRequestWithin (request_of request)) }
    ensures refused { result ≡ Err errors.Refused → request_by exec_form (texts words.entry.now) ≡ None }
{
    let matches = parse(alloc, EXEC, words)?;
    Ok(Request::Exec(ExecJob {
        object: name_of(&matches, OBJECT),
        input: name_of(&matches, INPUT),
        terms: terms_of(&matches),
    }))
}

/// The job of `explain`.
fn read_explain<'w>(alloc: Global, words: &'w [String]) -> Result<Request<'w>, WordsError>
    ensures request { IfOk result (λ request. request_by explain_form (texts words.entry.now) ≡ Some (request_of request)) }
    ensures within { IfOk result (λ request. IsRequestWithin (request_of request)) }
    ensures refused { result ≡ Err errors.Refused → request_by explain_form (texts words.entry.now) ≡ None }
{
    let matches = parse(alloc, EXPLAIN, words)?;
    Ok(Request::Explain(ExplainJob {
        program: name_of(&matches, PROGRAM),
        input: name_of(&matches, INPUT),
        activation: number_of(&matches, ACTIVATION) as u32,
        terms: terms_of(&matches),
    }))
}

/// The job of `trace`.
fn read_trace<'w>(alloc: Global, words: &'w [String]) -> Result<Request<'w>, WordsError>
    ensures request { IfOk result (λ request. request_by trace_form (texts words.entry.now) ≡ Some (request_of request)) }
    ensures within { IfOk result (λ request. IsRequestWithin (request_of request)) }
    ensures refused { result ≡ Err errors.Refused → request_by trace_form (texts words.entry.now) ≡ None }
{
    let matches = parse(alloc, TRACE, words)?;
    Ok(Request::Trace(run_of(&matches)))
}

/// The job of `replay`.
fn read_replay<'w>(alloc: Global, words: &'w [String]) -> Result<Request<'w>, WordsError>
    ensures request { IfOk result (λ request. request_by replay_form (texts words.entry.now) ≡ Some (request_of request)) }
    ensures within { IfOk result (λ request. IsRequestWithin (request_of request)) }
    ensures refused { result ≡ Err errors.Refused → request_by replay_form (texts words.entry.now) ≡ None }
{
    let matches = parse(alloc, REPLAY, words)?;
    Ok(Request::Replay(ReplayJob {
        program: name_of(&matches, PROGRAM),
        input: name_of(&matches, INPUT),
        trace: name_of(&matches, TRACE_FILE),
        task_budget: number_of(&matches, TASK_BUDGET),
        control_budget: number_of(&matches, CONTROL_BUDGET),
    }))
}

/// What the words ask for.
pub fn command<'w>(alloc: Global, words: &'w [String]) -> Result<Request<'w>, WordsError>
    ensures request { IfOk result (λ request. command (texts words.entry.now) ≡ Some (request_of request)) }
    ensures within { IfOk result (λ request. IsRequestWithin (request_of request)) }
    ensures refused { result ≡ Err errors.Refused → command (texts words.entry.now) ≡ None }
{
    let Some(first) = words.first() else {
        return Err(WordsError::Refused);
    };
    match first.as_str() {
        "run" => read_run(alloc, words),
        "gen" => read_gen(alloc, words),
        "compile" => read_compile(alloc, words),
        "exec" => read_exec(alloc, words),
        "explain" => read_explain(alloc, words),
        "trace" => read_trace(alloc, words),
        "replay" => read_replay(alloc, words),
        _ => Err(WordsError::Refused),
    }
}
