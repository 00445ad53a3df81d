//! Laws of the token cover and the first fault. These functions do nothing: their contracts are the laws.
ghost use Rattle.os_lexer.specs.Laws.{OneCover, OneFault, CoverOrFault, NeverBoth, CoverCuts, FaultPoints};
ghost use Rattle.os_lexer.specs.Laws.{CoverBeforeFault, FewTokens, NumbersFit, FixedNamesAreNumbered};

/// Each text has one outcome.
pub fn one_cover()
    ensures one_cover { OneCover }
    ensures one_fault { OneFault }
    ensures some { CoverOrFault }
    ensures never_both { NeverBoth }
{}

/// The token cover is the cut of the whole text into lexemes, each the longest form at its point, with the kinds and
/// lines of the tokens. It has at most as many tokens as the text has bytes, and a value of its type for each number.
pub fn cover_cuts()
    ensures cuts { CoverCuts }
    ensures few { FewTokens }
    ensures fit { NumbersFit }
{}

/// The first fault stands at the point that the text is cut to. The text before it has a cover, and no fault stands at an
/// earlier point that the text is cut to.
pub fn cover_before_fault()
    ensures points { FaultPoints }
    ensures before { CoverBeforeFault }
{}

/// Each fixed name has the number that is named for it.
pub fn fixed_names_are_numbered()
    ensures numbered { FixedNamesAreNumbered }
{}
