//! Laws of what the productions give. They take nothing and do nothing.

ghost use Rattle.os_parser_grammar.specs.Laws.{GivesWhatIsMeant, GivenWhereMeant, RefusedWhereNoneIsMeant};

/// The production of a program gives the program that the tokens mean, takes all of them, and refuses only tokens that
/// mean none.
pub fn programs_are_what_tokens_mean()
    ensures given { GivesWhatIsMeant }
    ensures taken { GivenWhereMeant }
    ensures refused { RefusedWhereNoneIsMeant }
{}
