ghost use Rattle.std.specs.Prelude.{◌≡◌};
ghost use Rattle.front_end.specs.Codes.{refusal_code};

use os_ast::Rule;
use os_lexer::Fault;

/// What a text is refused for.
#[derive(Clone, Copy, Debug, PartialEq, Eq)]
pub enum TextRefusal {
    /// Its first fault.
    Fault(Fault),
    /// Its tokens stop being the front of any program.
    NoProgram,
    /// The rule of its least violation.
    Violated(Rule),
}

impl TextRefusal {
    /// The code that a refusal shows: 1 to 3 for a fault, 4 for no program, 10 to 24 for a violation.
    pub fn code(self) -> u8
        ensures { result ≡ refusal_code self }
    {
        match self {
            TextRefusal::Fault(fault) => fault.code(),
            TextRefusal::NoProgram => 4,
            TextRefusal::Violated(rule) => rule.code(),
        }
    }
}
