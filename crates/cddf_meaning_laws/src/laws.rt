//! Laws of expressions and of first states. Each is a call that does nothing and ensures its law.

ghost use Rattle.cddf_meaning_laws.specs.Beginning.{BodiesGiveInts, MainBeginsWithInts, TasksBeginWithInts, TasksCaptureInts};
ghost use Rattle.cddf_meaning_laws.specs.Expressions.{ExpressionsHaveTheirNumbers};
ghost use Rattle.cddf_meaning_laws.specs.Reading.{ReadsInts};

use cddf_meaning::laws::numbers_stay_ints;

/// Every expression of a leveled program has the numbers of tokens: so do the stream indices and the bursts in the clauses of tasks.
pub fn expressions_have_their_numbers()
    ensures { ExpressionsHaveTheirNumbers }
{}

/// What stands for 32 bits in the state in which `main` begins is an `int`.
pub fn main_begins_with_ints()
    ensures { MainBeginsWithInts }
{}

/// So it is in the state in which a task begins, where it captures and reads `int`s.
pub fn tasks_begin_with_ints()
    ensures { TasksBeginWithInts }
{}

/// What the activations of the control program capture are `int`s.
pub fn captured_stay_ints()
    ensures { TasksCaptureInts }
{
    numbers_stay_ints();
    main_begins_with_ints();
}

/// What the body of a task writes are `int`s, where it captures and reads `int`s.
pub fn bodies_give_ints()
    ensures { BodiesGiveInts }
{
    numbers_stay_ints();
    tasks_begin_with_ints();
}

/// What activations read in the meaning are `int`s, where their bodies give `int`s for `int`s.
pub fn activations_read_ints()
    ensures { ReadsInts }
{}
