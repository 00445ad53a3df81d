//! Laws of code that stands for a program. They take nothing and do nothing.

ghost use Rattle.lowering_relation.specs.FoundNames.{MainFindsItsNames, TasksFindTheirNames, FunctionsFindTheirNames};
ghost use Rattle.lowering_relation.specs.Laws.{BodiesFill, TasksEndSo, TasksEndOnlySo, MainEndsSo, MainEndsOnlySo, StandingIsValid};

/// The code of a lawful program runs each activation that fits it as the body of its task says: it is done with the
/// same outputs, traps with the same code and line, or is over budget, and it ends in no other way.
pub fn tasks_end_as_their_bodies()
    ensures so { TasksEndSo }
    ensures only_so { TasksEndOnlySo }
{}

/// The code of a lawful program makes of `main` what the control program is: it creates the same activations in the
/// same order, and ends in the same way, and in no other.
pub fn main_ends_as_its_control()
    ensures so { MainEndsSo }
    ensures only_so { MainEndsOnlySo }
{}

/// Code that stands for a lawful program is valid where its units lie one behind another.
pub fn standing_is_valid()
    ensures { StandingIsValid }
{}

/// A run of a lawful program asks for no name that isn't there: whatever else is in scope round `main`, a task or a
/// function, under names that the file doesn't have, it comes to the same.
pub fn lawful_programs_find_their_names()
    ensures in_main { MainFindsItsNames }
    ensures in_tasks { TasksFindTheirNames }
    ensures in_functions { FunctionsFindTheirNames }
{}

/// Each activation of the control program that is done wrote as many elements as its output windows have horizons
/// together, for every program, lawful or not.
pub fn bodies_fill_their_outputs()
    ensures { BodiesFill }
{}
