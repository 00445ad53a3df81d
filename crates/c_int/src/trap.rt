ghost use Rattle.std.specs.Prelude.{◌≡◌, IfSome, Some};
ghost use Rattle.c_int.specs.Traps.{trap_code};

/// Why an operator has no result.
#[derive(Clone, Copy, Debug, PartialEq, Eq)]
pub enum OperatorTrap {
    /// The result is no `int`; for `%`, the quotient isn't.
    Overflow,
    /// The divisor is 0.
    DivisorZero,
    /// The amount of a shift isn't 0 to 31, or `<<` has a negative left operand or a result that is no `int`.
    Shift,
}

/// Why a run of a program traps.
#[derive(Clone, Copy, Debug, PartialEq, Eq)]
pub enum Trap {
    /// An operator has no result.
    Operator(OperatorTrap),
    /// An index is out of range, that of a stream too.
    Index,
    /// An activation that ended normally gives `osout` an element that is no byte.
    NoByte,
    /// The size of a window isn't 1 to 65,536.
    WindowSize,
    /// The burst of an input item, or the amount of a tick, isn't 0 to 65,536.
    Move,
    /// The burst of an output window isn't its horizon.
    OutputBurst,
}

impl Trap {
    /// The code that a report shows: 1 to 8.
    pub fn code(self) -> u8
        ensures { result ≡ trap_code self }
    {
        match self {
            Trap::Operator(OperatorTrap::Overflow) => 1,
            Trap::Operator(OperatorTrap::DivisorZero) => 2,
            Trap::Operator(OperatorTrap::Shift) => 3,
            Trap::Index => 4,
            Trap::NoByte => 5,
            Trap::WindowSize => 6,
            Trap::Move => 7,
            Trap::OutputBurst => 8,
        }
    }

    /// The trap with a code; none where no trap has it.
    pub fn of_code(code: u8) -> Option<Trap>
        ensures has_it { IfSome result (λ trap. trap_code trap ≡ code) }
        ensures finds_it { (trap : Trap) → trap_code trap ≡ code → result ≡ Some trap }
    {
        match code {
            1 => Some(Trap::Operator(OperatorTrap::Overflow)),
            2 => Some(Trap::Operator(OperatorTrap::DivisorZero)),
            3 => Some(Trap::Operator(OperatorTrap::Shift)),
            4 => Some(Trap::Index),
            5 => Some(Trap::NoByte),
            6 => Some(Trap::WindowSize),
            7 => Some(Trap::Move),
            8 => Some(Trap::OutputBurst),
            _ => None,
        }
    }
}
