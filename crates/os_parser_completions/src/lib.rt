//! How the tokens before a refusal go on to a program.
//!
//! Where a production refuses, `proofs/` writes a whole tree of it whose spelling begins with all tokens that were taken,
//! and that is no deeper than it may be: for each state in which a reader can be refused a completion of what is open,
//! with `0` for an expression, `;` for a statement and `taskwait` for a pragma. The law says it of whole programs.
//! Nothing runs.
#![tactic(auto)]

ghost use Rattle.os_parser_completions.specs.Completions.{RefusedHasFront};

/// Where the production of a program refuses, the tokens before are the front of a program. This is a law: it takes
/// nothing and does nothing.
pub fn refusals_have_a_front()
    ensures { RefusedHasFront }
{}
