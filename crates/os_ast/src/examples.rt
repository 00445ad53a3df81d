//! Programs whose tokens and trees are written down by hand in specs/Examples. They take nothing and do nothing.

ghost use Rattle.std.specs.Prelude.{◌≡◌};
ghost use Rattle.os_ast.specs.Depth.{program_depth};
ghost use Rattle.os_ast.specs.Examples.Branches as branches;
ghost use Rattle.os_ast.specs.Examples.Invert as invert;
ghost use Rattle.os_ast.specs.Examples.Parentheses as parentheses;
ghost use Rattle.os_ast.specs.Examples.Productions as productions;
ghost use Rattle.os_ast.specs.Examples.Smooth as smooth;
ghost use Rattle.os_ast.specs.Examples.Subtractions as subtractions;
ghost use Rattle.os_ast.specs.Examples.Unsigned as unsigned;
ghost use Rattle.os_ast.specs.Leveled.{IsLeveled};
ghost use Rattle.os_ast.specs.Means.{Means};
ghost use Rattle.os_ast.specs.Spelling.{spell};

/// `return 1-2-3;` is one chain of two links.
pub fn two_subtractions()
    ensures { Means subtractions.tokens subtractions.program }
{}

/// 197 pairs of parentheses in a `return` are as deep as a program may be, and 198 are too deep.
pub fn parentheses_at_the_limit()
    ensures within { program_depth (parentheses.program 197) ≡ 200 }
    ensures leveled { IsLeveled (parentheses.program 197) }
    ensures beyond { program_depth (parentheses.program 198) ≡ 201 }
    ensures refused { IsLeveled (parentheses.program 198) → ⊥ }
{}

/// The `else` behind two `if`s belongs to the inner one. The other tree has the same tokens, and isn't leveled.
pub fn else_of_two_ifs()
    ensures inner { Means branches.tokens branches.inner }
    ensures same_tokens { spell branches.outer ≡ spell branches.inner }
    ensures outer { IsLeveled branches.outer → ⊥ }
{}

/// A program with a window of three elements that moves by one.
pub fn smoothing()
    ensures { Means smooth.tokens smooth.program }
{}

/// A program whose windows have the size that is left.
pub fn inverting()
    ensures { Means invert.tokens invert.program }
{}

/// A program with the productions that the others leave out.
pub fn other_productions()
    ensures { Means productions.tokens productions.program }
{}

/// A program with a constant, a function, a parameter and a variable of the type `unsigned`, and with a wide number.
pub fn unsigned_declarations()
    ensures { Means unsigned.tokens unsigned.program }
{}
