ghost use Rattle.std.specs.Prelude.{◌≡◌, ◌≤◌, ◌++◌, codes, length};
ghost use Rattle.std.specs.Fmt.{decimal};
ghost use Rattle.os_serve_jobs.specs.Answers.{heading};

use osrun_core_jobs::Line;

/// Which job it is, and its status.
fn job_line(number: u32, status: u8) -> Line
    ensures line { result ≡ codes "job " ++ decimal number ++ codes " status " ++ decimal status }
    ensures short { length result ≤ 25 }
{
    let mut told = Line::new();
    told.text(b"job ");
    told.number(number as u64);
    told.text(b" status ");
    told.number(status as u64);
    told
}

/// The line before the answer to the job with a number: its status, and how many bytes of output and of report follow.
pub(crate) fn heading_line(number: u32, status: u8, output: u32, told: u32) -> Line
    ensures { result ≡ heading number status output told }
{
    let mut line = job_line(number, status);
    line.text(b" out ");
    line.number(output as u64);
    line.text(b" report ");
    line.number(told as u64);
    line.text(b"\n");
    line
}
