//! Laws of orders and of what is answered about lists. Each is a call that does nothing and ensures its law.

ghost use Rattle.std.specs.Prelude.{List, Option};
ghost use Rattle.flow_core_laws.specs.Laws.{IsKept};
ghost use Rattle.trace_replay_laws.specs.Laws.{LawfulIsReached, ChoicesAgree, FindsOrders, OfLists, HasOneAnswer};

/// The state behind a lawful order is one that is reached where activations that are enabled get their outcomes one at a time.
pub fn lawful_is_reached<S, V, O>()
    ensures { (element : List (Option O) → S → Option V) → OfLists element (LawfulIsReached element) }
{}

/// Where no number stands twice in the lists, it doesn't matter which of the enabled heads is run next: as soon as none is enabled, the
/// state is the same, and as many numbers are taken from each list.
pub fn choices_agree<S, V, O>()
    ensures { (element : List (Option O) → S → Option V) → IsKept element → OfLists element (ChoicesAgree element) }
{}

/// Heads that are run as long as one is enabled use all lists up where any lawful order of the lists does.
pub fn finds_orders<S, V, O>()
    ensures { (element : List (Option O) → S → Option V) → IsKept element → OfLists element (FindsOrders element) }
{}

/// Only one answer about lists is right.
pub fn one_answer()
    ensures { HasOneAnswer }
{}
