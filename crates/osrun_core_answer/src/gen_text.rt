ghost use Rattle.std.specs.Prelude.{◌≡◌, ◌≤◌, ◌⊎◌, length, string_bytes, sum, IfErr, IfOk};
ghost use Rattle.flow_core_laws.specs.Limits.{input_limit, positions_limit};
ghost use Rattle.collector.specs.Status.{status as status_of};
ghost use Rattle.osrun_core_jobs.specs.Jobs.{IsGenWithin, gen_of};
ghost use Rattle.osrun_core_answer.specs.Gen.{IsRunOfGen, counted_line, four_lines, gen_lines};
ghost use Rattle.osrun_core_run.specs.Refusal.{IsRefusalOf};
ghost use Rattle.osrun_core_run.specs.Run.{ProgramRun};

use kernels::{LIFT, generate};
use os_io::Memory;
use osrun_core_jobs::{GenJob, Refusal, Terms};
use osrun_core_run::{MadeRun, accept, run_program};
use std::alloc::Global;
use std::thread::Threads;
use task_workers::Gate;

/// The turns that each task of the kernel may take, and those that its control program may take.
const BUDGET: u64 = 1_000_000;

/// The sum of the values of bytes.
fn byte_sum(bytes: &[u8]) -> u64
    requires { length bytes.now ≤ input_limit }
    ensures { result ≡ sum bytes.now }
{
    let mut total: u64 = 0;
    for byte in bytes {
        total += u64::from(*byte);
    }
    total
}

/// The line that counts bytes, of which there are as many as an input may have.
fn counted_line(alloc: Global, name: &str, bytes: &[u8]) -> Result<String, Memory>
    requires { length bytes.now ≤ input_limit }
    ensures { IfOk result (λ text. string_bytes text ≡ counted_line name.now bytes.now) }
{
    let text = format!(in alloc; "{name} {} sum {}\n", bytes.len(), byte_sum(bytes))?;
    Ok(text)
}

/// The four lines of a run over bytes that were made.
fn lines(alloc: Global, job: &GenJob, input: &[u8], run: &MadeRun) -> Result<String, Memory>
    requires few_read { length input.now ≤ input_limit }
    requires few_written { length run.now.output.items ≤ positions_limit }
    ensures { IfOk result (λ text. string_bytes text
        ≡ four_lines (gen_of job.now) input.now run.now.output.items (status_of run.now.ends.ends run.now.control)) }
{
    let read = counted_line(alloc, "input", input)?;
    let written = counted_line(alloc, "output", &run.output)?;
    let status = run.status().code();
    let text = format!(in alloc;
        "seed {} blocks {}\n{read}{written}status {status}\n",
        job.seed, job.blocks
    )?;
    Ok(text)
}

/// Makes bytes from a seed, runs the kernel over them, and tells in four lines what came of it. An error is want of memory,
/// or says why the text of the kernel is refused.
pub fn gen_text<R: Threads + Sync, G: Gate>(
    rt: &R,
    alloc: Global,
    job: &GenJob,
    gate: &G,
) -> Result<String, Refusal>
    requires { IsGenWithin (gen_of job.now) }
    ensures run { IfOk result (λ text. (run : ProgramRun) × IsRunOfGen (gen_of job.now) run
        × (string_bytes text ≡ gen_lines (gen_of job.now) run)) }
    ensures refused { IfErr result (λ refusal. (refusal ≡ Refusal.Memory) ⊎ IsRefusalOf LIFT.now refusal) }
{
    let input = generate(alloc, job.seed, 4 * job.blocks)?;
    let kernel = accept(alloc, LIFT.as_bytes())?;
    let terms = Terms {
        workers: job.workers,
        task_budget: BUDGET,
        control_budget: BUDGET,
    };
    let run = run_program(rt, alloc, terms, &kernel, &input, gate)?;
    let text = lines(alloc, job, &input, &run)?;
    Ok(text)
}
