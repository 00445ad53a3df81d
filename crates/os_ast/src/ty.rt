ghost use Rattle.std.specs.Prelude.{◌≡◌};
ghost use Rattle.os_ast.specs.Unsigned.{is_unsigned};

/// The type of what is declared, by its words: `int`, `unsigned`, or `unsigned int`, which is the same as `unsigned`.
#[derive(Clone, Copy, Debug, PartialEq, Eq)]
pub enum Ty {
    Int,
    Unsigned,
    UnsignedInt,
}

impl Ty {
    /// Whether it is the type `unsigned`.
    pub fn is_unsigned(self) -> bool
        ensures { result ≡ is_unsigned self }
    {
        match self {
            Ty::Int => false,
            Ty::Unsigned | Ty::UnsignedInt => true,
        }
    }
}
