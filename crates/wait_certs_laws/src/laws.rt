//! Laws of chains and walks. Each is a call that does nothing and ensures its law.

ghost use Rattle.wait_certs_laws.specs.Laws.{HasChain, MembersStarve, OfStarved, OneWalk, WalksAreChains};

/// Each member of a chain is starved, whatever the bodies do and whatever bytes the input has.
pub fn members_starve()
    ensures { MembersStarve }
{}

/// An activation has one walk at most, by any ends.
pub fn one_walk()
    ensures { OneWalk }
{}

/// Each walk of a starved activation is a chain of at most as many members as there are activations.
pub fn walks_are_chains()
    ensures { OfStarved WalksAreChains }
{}

/// Each starved activation has such a chain, which is its walk.
pub fn starved_have_chains()
    ensures { OfStarved HasChain }
{}
