use crate::draft::Label;
use os_code::Instr;

/// Where a statement is left.
#[derive(Clone, Copy, Debug, PartialEq, Eq)]
pub struct Exits {
    /// Where `break` goes.
    pub broke: Label,
    /// Where `continue` goes.
    pub continued: Label,
    /// What `return` does with its value on the stack.
    pub leaves: Instr,
}

impl Exits {
    ghost use Rattle.std.specs.Prelude.{◌≡◌};
    ghost use Rattle.lowering_draft.specs.Emission.Statements.{in_loop};

    /// Where the statements of a loop's body are left: `break` and `continue` go to labels of this loop.
    pub fn in_loop(self, broke: Label, continued: Label) -> Exits
        ensures { result ≡ in_loop self broke continued }
    {
        Exits {
            broke,
            continued,
            leaves: self.leaves,
        }
    }
}
