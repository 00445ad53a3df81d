//! The names of checks, and a short sentence on each.

ghost use Rattle.std.specs.Prelude.{◌≡◌};
ghost use Rattle.oscheck_reports.specs.Checks.{all_checks, name_of, summary_of};

use crate::check::Check;
use crate::warning::Warning;
use os_ast::Rule;
use os_lexer::Fault;

/// All checks, in the order of their numbers and of the page on the language.
pub(crate) fn all_checks() -> &'static [Check]
    ensures { result.now ≡ all_checks }
{
    &[
        Check::Fault(Fault::BadByte),
        Check::Fault(Fault::OpenComment),
        Check::Fault(Fault::BigNumber),
        Check::NoProgram,
        Check::TooLong,
        Check::Rule(Rule::Unknown),
        Check::Rule(Rule::WrongKind),
        Check::Rule(Rule::DeclaredTwice),
        Check::Rule(Rule::ArgumentCount),
        Check::Rule(Rule::FixedChanged),
        Check::Rule(Rule::WrongSize),
        Check::Rule(Rule::OutsideLoop),
        Check::Rule(Rule::Misplaced),
        Check::Rule(Rule::ReturnInTask),
        Check::Rule(Rule::MisplacedStream),
        Check::Rule(Rule::WrongEnd),
        Check::Rule(Rule::ListedTwice),
        Check::Rule(Rule::TaskLimit),
        Check::Rule(Rule::NoMain),
        Check::Rule(Rule::MisplacedWindow),
        Check::Warning(Warning::BareTask),
        Check::Warning(Warning::LoneName),
        Check::Warning(Warning::IdleStream),
        Check::Warning(Warning::DeadStore),
        Check::Warning(Warning::WrongBurst),
        Check::Warning(Warning::WrongSize),
        Check::Warning(Warning::OpenEnd),
        Check::Warning(Warning::EmptyBody),
        Check::Warning(Warning::Octal),
    ]
}

impl Check {
    /// By what name editors and other programs know it.
    pub fn name(self) -> &'static str
        ensures { result.now ≡ name_of self }
    {
        match self {
            Check::Fault(Fault::BadByte) => "error-1",
            Check::Fault(Fault::OpenComment) => "error-2",
            Check::Fault(Fault::BigNumber) => "error-3",
            Check::NoProgram => "error-4",
            Check::TooLong => "too-long",
            Check::Rule(Rule::Unknown) => "error-10",
            Check::Rule(Rule::WrongKind) => "error-11",
            Check::Rule(Rule::DeclaredTwice) => "error-12",
            Check::Rule(Rule::ArgumentCount) => "error-13",
            Check::Rule(Rule::FixedChanged) => "error-14",
            Check::Rule(Rule::WrongSize) => "error-15",
            Check::Rule(Rule::OutsideLoop) => "error-16",
            Check::Rule(Rule::Misplaced) => "error-17",
            Check::Rule(Rule::ReturnInTask) => "error-18",
            Check::Rule(Rule::MisplacedStream) => "error-19",
            Check::Rule(Rule::WrongEnd) => "error-20",
            Check::Rule(Rule::ListedTwice) => "error-21",
            Check::Rule(Rule::TaskLimit) => "error-22",
            Check::Rule(Rule::NoMain) => "error-23",
            Check::Rule(Rule::MisplacedWindow) => "error-24",
            Check::Warning(Warning::BareTask) => "bare-task",
            Check::Warning(Warning::LoneName) => "unused-name",
            Check::Warning(Warning::IdleStream) => "idle-stream",
            Check::Warning(Warning::DeadStore) => "dead-store",
            Check::Warning(Warning::WrongBurst) => "wrong-burst",
            Check::Warning(Warning::WrongSize) => "wrong-size",
            Check::Warning(Warning::OpenEnd) => "open-end",
            Check::Warning(Warning::EmptyBody) => "empty-body",
            Check::Warning(Warning::Octal) => "octal",
        }
    }

    /// What it is, in a few words.
    pub fn summary(self) -> &'static str
        ensures { result.now ≡ summary_of self }
    {
        match self {
            Check::Fault(Fault::BadByte) => "bytes that begin no token",
            Check::Fault(Fault::OpenComment) => "a comment that is never closed",
            Check::Fault(Fault::BigNumber) => "a number above the largest one of its type",
            Check::NoProgram => "the tokens are those of no program",
            Check::TooLong => "a text with more than 262144 bytes",
            Check::Rule(Rule::Unknown) => "a name that is used has no declaration in scope",
            Check::Rule(Rule::WrongKind) => "a name of the wrong kind",
            Check::Rule(Rule::DeclaredTwice) => "a name is declared a second time in one scope",
            Check::Rule(Rule::ArgumentCount) =>
                "a call has another number of arguments than the function has parameters",
            Check::Rule(Rule::FixedChanged) => "a change of what may not be changed",
            Check::Rule(Rule::WrongSize) => "a size that is no constant, or that passes a limit",
            Check::Rule(Rule::OutsideLoop) => "break or continue outside a loop",
            Check::Rule(Rule::Misplaced) =>
                "a pragma or the declaration of a stream where none may stand",
            Check::Rule(Rule::ReturnInTask) => "return in a task",
            Check::Rule(Rule::MisplacedStream) => "a stream is named where none may stand",
            Check::Rule(Rule::WrongEnd) => "osin is written, or osout is read",
            Check::Rule(Rule::ListedTwice) =>
                "a name stands a second time in the clauses of a task",
            Check::Rule(Rule::TaskLimit) =>
                "a task has too many items, or captures too many scalars",
            Check::Rule(Rule::NoMain) => "there is no function main of type int without parameters",
            Check::Rule(Rule::MisplacedWindow) => "a window is named where none may stand",
            Check::Warning(Warning::BareTask) => "a task without clauses",
            Check::Warning(Warning::LoneName) => "a name that nothing uses",
            Check::Warning(Warning::IdleStream) =>
                "a stream that no task reads, or that none writes",
            Check::Warning(Warning::DeadStore) =>
                "a change of a scalar in a task that nothing there reads",
            Check::Warning(Warning::WrongBurst) =>
                "a burst that isn't the size of its output window",
            Check::Warning(Warning::WrongSize) => "a window with a size that isn't from 1 to 65536",
            Check::Warning(Warning::OpenEnd) => "a function that can end without return",
            Check::Warning(Warning::EmptyBody) =>
                "a statement whose body is the ; behind its parentheses",
            Check::Warning(Warning::Octal) => "a number whose digits are octal",
        }
    }
}
