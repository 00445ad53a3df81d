//! Laws of the code that is drafted. Each is a call that does nothing and ensures its law.

ghost use Rattle.lowering_draft.specs.Few.{FunctionsAreFew, StatementsAreFew, UnitsAreFew};
ghost use Rattle.lowering_draft.specs.Laws.{BlocksAreSpawned, BlocksStand, ChangesStand, ConditionsStand, DeclaratorsStand};
ghost use Rattle.lowering_draft.specs.Laws.{ExpressionsStand, ItemsStand, StatementsStand, TasksAreSpawned};

/// The code of an expression stands for it, and that of a condition and of a change.
#[tactic(auto, using(crate::proofs::Lawful::expressions_law, crate::proofs::Lawful::conditions_law, crate::proofs::Lawful::changes_law))]
pub fn expressions_stand()
    ensures expressions { ExpressionsStand }
    ensures conditions { ConditionsStand }
    ensures changes { ChangesStand }
{}

/// The code of declarators stands for them, and that of the items of a task.
#[tactic(auto, using(crate::proofs::Lawful::declarators_law, crate::proofs::Lawful::items_law))]
pub fn declarators_stand()
    ensures declarators { DeclaratorsStand }
    ensures items { ItemsStand }
{}

/// The code of a statement stands for it, and that of a block.
#[tactic(auto, using(crate::proofs::Lawful::statements_law, crate::proofs::Lawful::blocks_law))]
pub fn statements_stand()
    ensures statements { StatementsStand }
    ensures blocks { BlocksStand }
{}

/// A draft spawns the tasks of a statement, one by one.
#[tactic(auto, using(crate::proofs::Lawful::spawned_law, crate::proofs::Lawful::spawned_blocks_law))]
pub fn statements_spawn_their_tasks()
    ensures statements { TasksAreSpawned }
    ensures blocks { BlocksAreSpawned }
{}

/// The tokens of a statement pay for its code, 8 instructions each, and those of a function.
#[tactic(auto, using(crate::proofs::Lawful::few_law, crate::proofs::Lawful::few_functions_law, crate::proofs::FewUnits::program_few))]
pub fn statements_are_few()
    ensures statements { StatementsAreFew }
    ensures functions { FunctionsAreFew }
    ensures units { UnitsAreFew }
{}
