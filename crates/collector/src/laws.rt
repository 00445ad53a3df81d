//! Laws of what is written and missing. Each is a call that does nothing and ensures its law.

ghost use Rattle.std.specs.Prelude.{◌≡◌, ℕ, ◌∷◌, ◌++◌, [], List, Option, Some, None, codes};
ghost use Rattle.flow_core_laws.specs.declared.activation.Activation.{Activation};
ghost use Rattle.flow_core_laws.specs.declared.elem.Elem.{Elem};
ghost use Rattle.flow_core_laws.specs.declared.ends.Ends.{Ends};
ghost use Rattle.flow_core_laws.specs.declared.task_end.TaskEnd.{TaskEnd};
ghost use Rattle.flow_core_laws.specs.declared.task_end.TaskEnd.TheVariants.{Trapped, OverBudget};
ghost use Rattle.os_io.specs.Lines.{ended_line};
ghost use Rattle.collector.specs.Laws.{
  AllIsWritten,
  HasItsLines,
  IsFirstMissing,
  IsLongestPrefix,
  IsWrittenOf,
  OfFilled,
  ProducersAreStarved,
};
ghost use Rattle.collector.specs.Reported.{AreOfState};
ghost use Rattle.collector.specs.Runs.{ends_of_run, told, handed_on, two_roots, stops_at_poison};
ghost use Rattle.collector.specs.Written.{written};

/// What is written is the longest prefix of the output that has values alone.
pub fn longest_prefix()
    ensures { (elements : List (Option Elem)) → IsLongestPrefix elements (written elements) }
{}

/// Where the output is that of a state, what is written ends at the first position that isn't there or is poison.
pub fn written_is_there()
    ensures { (activations : List Activation) (input_len : ℕ) (ends : Ends)
        → AreOfState activations input_len ends → IsWrittenOf activations input_len ends }
{}

/// The missing element of an activation is the first one, and there is none where all are there.
pub fn missing_is_first()
    ensures { (activations : List Activation) (input_len : ℕ) (ends : List (Option TaskEnd)) (a : ℕ)
        → IsFirstMissing activations input_len ends a }
{}

/// Where the output is that of a state and the status is 0, as many bytes are written as positions of the
/// output are claimed.
pub fn all_is_written()
    ensures { AllIsWritten }
{}

/// What the meaning of activations comes to is of one state, as the laws above ask, where those that are done filled
/// their outputs.
pub fn meanings_are_states()
    ensures { OfFilled AreOfState }
{}

/// Where those that are done filled their outputs, each activation that isn't done has a line in the report, and no other has: one without an end misses an
/// element. The producer that such a line names has no end either, unless the element is one of the input, which no lawful
/// claim writes.
pub fn all_but_done_have_lines()
    ensures lines { OfFilled HasItsLines }
    ensures producers { ProducersAreStarved }
{}

/// The reports of three small runs: a root that is handed on, with an activation that starves beside poison; the least of
/// two roots, though its element is read second; and an output that stops at poison, though a value stands behind it.
pub fn small_runs()
    ensures handed_on { told handed_on (Some (Trapped 2 5) ∷ [])
        ≡ ended_line (codes "trapped 0 code 2 line 5") ++ ended_line (codes "poisoned 1 by 0")
        ++ ended_line (codes "starved 2 stream 2 position 2 producer none") ++ ended_line (codes "control done") ++ ended_line (codes "output 0 of 1") }
    ensures two_roots { told two_roots (Some (Trapped 2 5) ∷ Some (Trapped 2 7) ∷ [])
        ≡ ended_line (codes "trapped 0 code 2 line 5") ++ ended_line (codes "trapped 1 code 2 line 7") ++ ended_line (codes "poisoned 2 by 0")
        ++ ended_line (codes "control done") ++ ended_line (codes "output 0 of 1") }
    ensures stops_at_poison { told stops_at_poison (None ∷ Some OverBudget ∷ [])
        ≡ ended_line (codes "over-budget 1") ++ ended_line (codes "control done") ++ ended_line (codes "output 1 of 3") }
    ensures writes_before_poison { written (ends_of_run stops_at_poison (None ∷ Some OverBudget ∷ [])).output ≡ 7 ∷ [] }
{}
