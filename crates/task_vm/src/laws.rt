//! Laws of what a run takes of its budget. Each is a call that does nothing and ensures its law.

ghost use Rattle.task_vm.specs.Turns.{RunTakesOne, TaskTakesOne};

/// A run takes one number of turns, and so does a task.
pub fn turns_are_one()
    ensures run { RunTakesOne }
    ensures task { TaskTakesOne }
{}
