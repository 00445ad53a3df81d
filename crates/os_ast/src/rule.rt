ghost use Rattle.std.specs.Prelude.{◌≡◌, ◌≢◌, IfNone, IfSome};
ghost use Rattle.os_ast.specs.Codes.{code as rule_code};
ghost use Rattle.os_ast.specs.declared.rule.Rule.{Rule as AnyRule};

/// The rules for names and declarations, in the order of their codes.
#[derive(Clone, Copy, Debug, PartialEq, Eq, PartialOrd, Ord)]
pub enum Rule {
    /// A name that is used has no declaration in scope.
    Unknown,
    /// A name of the wrong kind.
    WrongKind,
    /// A name is declared a second time in one scope.
    DeclaredTwice,
    /// A call has another number of arguments than the function has parameters.
    ArgumentCount,
    /// A change of what may not be changed.
    FixedChanged,
    /// A size that is none, or passes a limit.
    WrongSize,
    /// `break` or `continue` outside a loop.
    OutsideLoop,
    /// A pragma or a stream declaration where none may stand.
    Misplaced,
    /// `return` in a task.
    ReturnInTask,
    /// A stream is named where none may stand.
    MisplacedStream,
    /// `osin` is written, or `osout` is read.
    WrongEnd,
    /// A name stands a second time in the clauses of a task.
    ListedTwice,
    /// A task has too many items, or captures too many scalars.
    TaskLimit,
    /// There is no function `main` of type `int` without parameters.
    NoMain,
    /// A window is named where none may stand.
    MisplacedWindow,
}

impl Rule {
    /// The code that a refusal shows: 10 to 24.
    pub fn code(self) -> u8
        ensures { result ≡ rule_code self }
    {
        match self {
            Rule::Unknown => 10,
            Rule::WrongKind => 11,
            Rule::DeclaredTwice => 12,
            Rule::ArgumentCount => 13,
            Rule::FixedChanged => 14,
            Rule::WrongSize => 15,
            Rule::OutsideLoop => 16,
            Rule::Misplaced => 17,
            Rule::ReturnInTask => 18,
            Rule::MisplacedStream => 19,
            Rule::WrongEnd => 20,
            Rule::ListedTwice => 21,
            Rule::TaskLimit => 22,
            Rule::NoMain => 23,
            Rule::MisplacedWindow => 24,
        }
    }

    /// The rule of a code; none where no rule has it.
    pub fn of_code(code: u8) -> Option<Rule>
        ensures some { IfSome result (λ rule. rule_code rule ≡ code) }
        ensures none { IfNone result ((rule : AnyRule) → rule_code rule ≢ code) }
    {
        match code {
            10 => Some(Rule::Unknown),
            11 => Some(Rule::WrongKind),
            12 => Some(Rule::DeclaredTwice),
            13 => Some(Rule::ArgumentCount),
            14 => Some(Rule::FixedChanged),
            15 => Some(Rule::WrongSize),
            16 => Some(Rule::OutsideLoop),
            17 => Some(Rule::Misplaced),
            18 => Some(Rule::ReturnInTask),
            19 => Some(Rule::MisplacedStream),
            20 => Some(Rule::WrongEnd),
            21 => Some(Rule::ListedTwice),
            22 => Some(Rule::TaskLimit),
            23 => Some(Rule::NoMain),
            24 => Some(Rule::MisplacedWindow),
            _ => None,
        }
    }
}
