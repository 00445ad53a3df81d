//! Three plans step by step, as tables. Each call does nothing and ensures that its table is right.

ghost use Rattle.std.specs.Prelude.{◌≡◌, [], ◌∷◌, Some, map, take, drop, slice_index_or};
ghost use Rattle.flow_core_concurrent.specs.Choices.{to_split, to_join, to_claim, to_read, to_store, to_sub, to_finish, to_look, states_along, allowed_after};
ghost use Rattle.flow_core_concurrent.specs.States.{opening};
ghost use Rattle.flow_core_concurrent.specs.Laws.{IsFit, IsMeant, IsComplete};
ghost use Rattle.flow_core_concurrent.specs.ReaderFirst as reader;
ghost use Rattle.flow_core_concurrent.specs.TwoProducers as two;
ghost use Rattle.flow_core_concurrent.specs.MixedEnds as mixed;

/// A reader that was created before the frame that gives to it, with one seat: every state from opening
/// to the last look, and what isn't allowed on the way.
pub fn reader_first()
    ensures fit { IsFit reader.known }
    ensures meaning { IsMeant reader.known reader.outcome }
    ensures states { states_along reader.known reader.choices ≡ map Some reader.states }
    ensures no_sink_no_second_seat_no_run { allowed_after reader.known []
        (to_claim 0 2 ∷ to_claim 1 1 ∷ to_split 0 ∷ to_join 0 0 ∷ to_read 0 0 ∷ to_store 0 ∷ to_sub 0 ∷ to_finish 0
        ∷ []) ≡ 0 }
    ensures first_store_then_sub_then_finish { allowed_after reader.known (take 3 reader.choices)
        (to_claim 0 0 ∷ to_look 0 ∷ to_read 0 0 ∷ to_sub 0 ∷ to_finish 0 ∷ []) ≡ 0 }
    ensures stores_each_once { allowed_after reader.known (take 4 reader.choices) (to_store 0 ∷ to_finish 0 ∷ []) ≡ 0 }
    ensures counts_each_once { allowed_after reader.known (take 5 reader.choices) (to_store 0 ∷ to_sub 0 ∷ []) ≡ 0 }
    ensures reads_its_own_before_it_gives { allowed_after reader.known (take 7 reader.choices) (to_read 0 1 ∷ []) ≡ 0 }
    ensures reads_no_more { allowed_after reader.known (take 9 reader.choices) (to_read 0 0 ∷ []) ≡ 0 }
{}

/// Two producers and a consumer with two seats, in two orders. They meet: the states after both seats
/// delivered and joined are the same.
pub fn two_producers()
    ensures fit { IsFit two.known }
    ensures meaning { IsMeant two.known two.outcome }
    ensures first_order { states_along two.known two.first_before_second ≡ map Some two.states }
    ensures other_order { drop 2 (states_along two.known two.second_before_first) ≡ map Some two.other_states }
    ensures no_join_while_one_runs { allowed_after two.known (take 8 two.first_before_second) (to_join 0 1 ∷ to_join 1 1 ∷ []) ≡ 0 }
{}

/// Frames that are Done, over budget, trapped, poisoned and starved, with two seats: a piece of two elements, claims
/// that miss in turn and out of turn, a frame that a claim loses, seats that are cut and joined with looks and lists,
/// and poison that is handed on under the number of its root. At the end nothing is left out.
pub fn mixed_ends()
    ensures fit { IsFit mixed.known }
    ensures meaning { IsMeant mixed.known mixed.outcome }
    ensures states { states_along mixed.known mixed.choices ≡ map Some mixed.states }
    ensures counts_only_a_whole_piece { allowed_after mixed.known (take 4 mixed.choices) (to_sub 0 ∷ to_finish 0 ∷ []) ≡ 0 }
    ensures gives_poison_over_budget { allowed_after mixed.known (take 17 mixed.choices) (to_sub 1 ∷ to_finish 1 ∷ to_join 0 1 ∷ []) ≡ 0 }
    ensures gives_poison_of_a_trap { allowed_after mixed.known (take 23 mixed.choices) (to_sub 0 ∷ to_finish 0 ∷ to_look 0 ∷ []) ≡ 0 }
    ensures leaves_nothing { IsComplete mixed.known (slice_index_or mixed.states 37 (opening mixed.known)) }
{}
