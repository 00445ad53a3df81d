//! Steps that would break a state, each at a state that steps reach from opening. Each call does nothing
//! and ensures that what the wrong step leaves isn't good.

ghost use Rattle.flow_core_concurrent.specs.Laws.{IsMeant};
ghost use Rattle.flow_core_concurrent.specs.WrongSteps.{
  SubsBeforeItStores,
  FinishesBeforeItGives,
  ClaimsByALoadAndAStore,
  CountsProducers,
  OpensAtTheFirstPiece,
  StoresOfTrapped,
  FinishesWithoutPoison,
  CountsAnOpenFrame,
  pairs,
  pairs_outcome,
  trapped,
  trapped_outcome,
};

/// A SUB before the elements of its piece are stored: a cell counts that is empty.
pub fn sub_before_store()
    ensures { SubsBeforeItStores }
{}

/// A FINISH before all pieces are given: cells count that are empty.
pub fn finish_before_sub()
    ensures { FinishesBeforeItGives }
{}

/// A claim that loads the word and then stores it, where another seat claims the frame between the two: two seats run one frame.
pub fn claim_in_two_steps()
    ensures { ClaimsByALoadAndAStore }
{}

/// A counter of producers, and a frame that opens at the first piece of each: the word isn't the number
/// of elements that the frame misses.
pub fn counter_of_producers()
    ensures meaning { IsMeant pairs pairs_outcome }
    ensures counts { CountsProducers }
    ensures opens { OpensAtTheFirstPiece }
{}

/// A value of a trapped frame: a cell holds it where the meaning has poison.
pub fn outputs_of_a_trapped_frame()
    ensures meaning { IsMeant trapped trapped_outcome }
    ensures stores { StoresOfTrapped }
{}

/// A FINISH of a trapped frame before it gave its poison: a cell counts that is empty.
pub fn finish_before_poison()
    ensures { FinishesWithoutPoison }
{}

/// A look that counts where the frame is Open: the last seat would leave it behind.
pub fn look_that_counts_an_open_frame()
    ensures { CountsAnOpenFrame }
{}
