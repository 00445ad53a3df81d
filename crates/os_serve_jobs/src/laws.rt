//! Laws of the jobs of a file. Each is a call that does nothing and ensures its law.

ghost use Rattle.std.specs.Prelude.{◌≡◌, ℕ, List, Option, IfSome};
ghost use Rattle.os_serve_jobs.specs.Lines.{AreFirstJobs, AreJobs};
ghost use Rattle.os_serve_jobs.specs.Reading.{HasRead};

use crate::reading::Reading;
use os_io::Files;

/// Each file has a list of jobs, and one alone.
pub fn one_list_of_jobs()
    ensures some { (held : List ℕ) → (jobs : List (List ℕ)) × AreJobs held jobs }
    ensures one { (held : List ℕ) (jobs others : List (List ℕ)) → AreJobs held jobs → AreJobs held others → jobs ≡ others }
{}

/// What was read of a file and cut into lines so far are its first jobs, where it tells what it holds.
pub fn lines_are_first_jobs<J: Files>(jobs: &J, reading: &Reading)
    ensures { (told : Option (List ℕ)) (faults : ℕ) (lines : List (List ℕ)) → HasRead J.Files told faults jobs.now reading.now lines
        → IfSome told (λ held. AreFirstJobs held lines) }
{}
