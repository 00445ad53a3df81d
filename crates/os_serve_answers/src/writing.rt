ghost use Rattle.osrun_core_jobs.specs.Telling.{IsWritten};
ghost use Rattle.os_serve_answers.specs.Replies.{reply_of};
ghost use Rattle.os_serve_jobs.specs.Answers.{answer as answer_text};

use crate::heading::heading_line;
use crate::job_answer::JobAnswer;
use os_io::{Sink, WriteError, write_whole};

/// Writes all these bytes to the output.
fn write<O: Sink>(out: &mut O, bytes: &[u8]) -> Result<(), WriteError>
    ensures { IsWritten O.Sink out.old out.new bytes.now result }
{
    write_whole(out, bytes)?;
    Ok(())
}

/// Writes the answer to the job with a number: a heading, then the output, then the report. It takes no memory.
pub fn write_answer<O: Sink>(out: &mut O, number: u32, answer: &JobAnswer) -> Result<(), WriteError>
    ensures { IsWritten O.Sink out.old out.new (answer_text number (reply_of answer.now)) result }
{
    let output = answer.output();
    let told = answer.told();
    let heading = heading_line(
        number,
        answer.status(),
        output.len() as u32,
        told.len() as u32,
    );
    let first = write(out, heading.as_bytes());
    if first.is_err() {
        return first;
    }
    let second = write(out, output);
    if second.is_err() {
        return second;
    }
    write(out, told)
}
