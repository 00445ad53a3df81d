//! Cases for programs, as lines of a file, and what is reported of them.
//!
//! A line has the names of a program and of an input, the output that is wanted, by the name of its file or by its SHA-256 sum, and
//! the options of the run; empty lines and lines that begin with `#` say nothing. `read_cases` gives the cases of a file with the
//! numbers of their lines, or the first line that is none. `judge` says of a run whether it passes its case, and where it doesn't,
//! from which byte on. `tap_text` and `junit_text` are the reports of several cases, for programs that read the Test Anything Protocol
//! or the XML of JUnit.
//!
//! Nothing is run here, and no file is opened. `specs/Cases.antt` says what a line is, `specs/Verdicts.antt` which run passes.
#![tactic(auto)]

mod case;
mod cases;
mod escaping;
mod junit;
mod row;
mod tap;
mod verdict;
mod wanted;

pub use case::{Case, CaseLine, case_in_line};
pub use cases::{CasesError, NumberedCase, read_cases};
pub use junit::junit_text;
pub use row::{Outcome, Row};
pub use tap::tap_text;
pub use verdict::{Expected, Verdict, judge};
pub use wanted::Wanted;
