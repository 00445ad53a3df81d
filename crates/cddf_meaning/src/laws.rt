//! Laws that show what the definitions of `specs/` mean. They take nothing and do nothing.
//!
//! That an expression changes no name, and that the claims of the control program don't depend on what bodies do, is
//! seen in the types: `value` gives no state, and `control` takes no body.

ghost use Rattle.std.specs.Prelude.{◌≡◌, ◌<◌, ◌≤◌, ◌^◌, ℕ, ℤ, List, get_or, length, true};
ghost use Rattle.cddf_meaning.specs.Answers.{Answer, Left, and_then};
ghost use Rattle.cddf_meaning.specs.Body.{task_outcome};
ghost use Rattle.cddf_meaning.specs.Claims.{since_read};
ghost use Rattle.cddf_meaning.specs.Exact.{IsExact, RunsExactly};
ghost use Rattle.cddf_meaning.specs.File.{File, type_in};
ghost use Rattle.cddf_meaning.specs.Fitting.{FileFits, GivesInt, RanFits, StateFits, items_fit, numbers_fit, stmt_fits};
ghost use Rattle.cddf_meaning.specs.Flow.{Runs};
ghost use Rattle.cddf_meaning.specs.Functions.{file_of};
ghost use Rattle.cddf_meaning.specs.Judged.{JudgedByBits};
ghost use Rattle.cddf_meaning.specs.Moves.{Falls, Keeps, read_horizons, written_horizons};
ghost use Rattle.cddf_meaning.specs.Scoped.{FindTheSame};
ghost use Rattle.cddf_meaning.specs.Run.{Around, array_size, loop, run, window_size};
ghost use Rattle.cddf_meaning.specs.Skips.{skips_of};
ghost use Rattle.cddf_meaning.specs.BodyState.{BodyState};
ghost use Rattle.cddf_meaning.specs.Streams.{cursor_move, output_burst};
ghost use Rattle.cddf_meaning.specs.Tasks.{Task};
ghost use Rattle.cddf_meaning.specs.TypedValue.{typed_value, with_type};
ghost use Rattle.cddf_meaning.specs.Value.{checked, value};
ghost use Rattle.cddf_meaning.specs.declared.cursor_move.Move.{Move};
ghost use Rattle.flow_core_laws.specs.declared.activation.Activation.{Activation};
ghost use Rattle.flow_core_laws.specs.declared.task_end.TaskEnd.TheVariants as ends;
ghost use Rattle.os_ast.specs.Leveled.{IsLeveled};
ghost use Rattle.os_ast.specs.Trees as tree;

/// Turns never grow: not in an expression, and not in a statement, which also keeps the length of each item's list.
pub fn turns_never_grow()
    ensures expressions { (items : List tree.ItemTree) (e : tree.ExprTree) (s : BodyState) (turns : ℕ) →
        Falls turns (value (file_of items) e s turns) }
    ensures statements { (items : List tree.ItemTree) (u : Around) (a : tree.StmtTree) (s : BodyState) (turns : ℕ) →
        u.file ≡ file_of items → Keeps s turns (run u a s turns) }
{}

/// A loop is over budget where its turns are used up, and nowhere else: it is the same for every count that is at
/// least its turns.
pub fn loops_end_by_turns_alone()
    ensures { (most other : ℕ) (test : BodyState → ℕ → Answer (Left ℤ)) (body step : Runs) (s : BodyState) (turns : ℕ) →
        ((s : BodyState) (turns : ℕ) → Falls turns (test s turns)) →
        ((s : BodyState) (turns : ℕ) → Keeps s turns (body s turns)) →
        ((s : BodyState) (turns : ℕ) → Keeps s turns (step s turns)) →
        turns ≤ most → turns ≤ other →
        loop most test body step s turns ≡ loop other test body step s turns }
{}

/// The tasks of a program, which are defined by names alone, are those that a walk over scopes finds: the one which gives a slot to
/// each scalar of the control program.
pub fn tasks_are_scoped()
    ensures { (program : tree.ProgramTree) → FindTheSame program }
{}

/// The sum of the ticks on a stream since the last read claim on it is what a counter for each stream holds, which a tick raises and
/// a read claim sets to 0.
pub fn skips_are_sums()
    ensures { (streams stream : ℕ) (moves : List Move) → stream < streams →
        get_or (skips_of streams moves) stream 0 ≡ since_read stream moves }
{}

/// A task that is done wrote as many elements as its write claims have horizons.
pub fn outputs_have_their_horizons()
    ensures { (items : List tree.ItemTree) (t : Task) (a : Activation) (inputs : List ℤ) (budget : ℕ) →
        read_horizons a.claims ≤ length inputs →
        (task_outcome (file_of items) t a inputs budget).end ≡ ends.Done →
        length (task_outcome (file_of items) t a inputs budget).outputs ≡ written_horizons a.claims }
{}

/// Budgets are exact: an evaluation that gives a value spends some of its turns. With as many, and any more, it gives the same
/// value and leaves the rest, and with fewer it is over budget. Where it traps, or the control program meets a limit, it does so with
/// any more turns too. The same holds of statements.
pub fn budgets_are_exact()
    ensures expressions { (items : List tree.ItemTree) (e : tree.ExprTree) (s : BodyState) (turns : ℕ) →
        IsExact ℤ (value (file_of items) e s) turns (value (file_of items) e s turns) }
    ensures statements { (items : List tree.ItemTree) (u : Around) (a : tree.StmtTree) (s : BodyState) (turns : ℕ) →
        u.file ≡ file_of items → RunsExactly (run u a s) turns (run u a s turns) }
{}

/// The value of an expression with its type is the number of its type that has the bits of its value, or the same trap, wherever
/// numbers stand for 32 bits. These bits are an `int`.
pub fn values_have_types()
    ensures values { (file : File) (e : tree.ExprTree) (s : BodyState) (turns : ℕ) → FileFits file → StateFits s → numbers_fit e ≡ true →
        typed_value file e s turns ≡ and_then (value file e s turns) (with_type (type_in file s e)) }
    ensures bits { (file : File) (e : tree.ExprTree) (s : BodyState) (turns : ℕ) → FileFits file → StateFits s → numbers_fit e ≡ true →
        GivesInt (value file e s turns) }
{}

/// An index, a size, a burst and an amount are judged by their bits: as the numbers of their types that have these.
pub fn judged_by_bits()
    ensures index { (size line : ℕ) → size ≤ 2 ^ 31 → JudgedByBits (checked size line) }
    ensures window { (line : ℕ) → JudgedByBits (window_size line) }
    ensures array { JudgedByBits array_size }
    ensures amount { (line : ℕ) → JudgedByBits (cursor_move line) }
    ensures burst { (line horizon : ℕ) → horizon < 2 ^ 31 → JudgedByBits (output_burst line horizon) }
{}

/// Numbers that stand for 32 bits are `int`s behind each statement, and what functions return is too, where the numbers of the text
/// are those of tokens, as they are in each leveled program. So the law on values speaks of every expression that a program comes to.
pub fn numbers_stay_ints()
    ensures programs { (p : tree.ProgramTree) → IsLeveled p → items_fit p ≡ true }
    ensures files { (items : List tree.ItemTree) → items_fit items ≡ true → FileFits (file_of items) }
    ensures statements { (u : Around) (a : tree.StmtTree) (s : BodyState) (turns : ℕ) →
        FileFits u.file → stmt_fits a ≡ true → StateFits s → RanFits (run u a s turns) }
{}
