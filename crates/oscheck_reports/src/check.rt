ghost use Rattle.std.specs.Prelude.{◌≡◌};
ghost use Rattle.oscheck_reports.specs.Checks.{code_of, severity_of};

use crate::warning::Warning;
use os_ast::Rule;
use os_lexer::Fault;

/// How bad a finding is.
#[derive(Clone, Copy, Debug, PartialEq, Eq)]
pub enum Severity {
    /// The file is refused for it.
    Error,
    /// It says nothing against the program.
    Warning,
}

/// What a finding is an instance of.
#[derive(Clone, Copy, Debug, PartialEq, Eq)]
pub enum Check {
    /// The text has no tokens.
    Fault(Fault),
    /// Its tokens mean no program.
    NoProgram,
    /// It has more bytes than a text may have.
    TooLong,
    /// The program violates a rule.
    Rule(Rule),
    /// The program is accepted, and is warned of something.
    Warning(Warning),
}

impl Check {
    /// Whether it is an error or a warning.
    pub fn severity(self) -> Severity
        ensures { result ≡ severity_of self }
    {
        match self {
            Check::Warning(_) => Severity::Warning,
            _ => Severity::Error,
        }
    }

    /// The number of the error, where it has one.
    pub fn code(self) -> Option<u8>
        ensures { result ≡ code_of self }
    {
        match self {
            Check::Fault(fault) => Some(fault.code()),
            Check::NoProgram => Some(4),
            Check::Rule(rule) => Some(rule.code()),
            Check::TooLong | Check::Warning(_) => None,
        }
    }
}
