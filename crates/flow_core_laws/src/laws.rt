//! Laws of the meaning, for the proofs of other runtimes. Each is a call that does nothing and
//! ensures its law.

ghost use Rattle.std.specs.Prelude.{List, Option};
ghost use Rattle.flow_core_laws.specs.declared.activation.Activation.{Activation};
ghost use Rattle.flow_core_laws.specs.Laws.{IsSettled, KeepsOutcomes, IsFixed, OfStreams, OfPlans, LeastRootsAreLeast, OthersAreValues, RootsFailed};
ghost use Rattle.flow_core_laws.specs.Laws.{MeansTheStreams, SinkIsTheOutput, HasOneWriter, WritersAreInOrder, WritersAreProducers, ProducersHaveNumbers};
ghost use Rattle.flow_core_laws.specs.Laws.{EndsSayWhatIsThere, WindowsAreInOrder, RoundsFire, IsConfluent, IsKept, OfAll, HasFewPieces};

/// A round runs what is enabled, and nothing else.
pub fn one_round()
    ensures streams { OfStreams (λ element. RoundsFire element) }
    ensures plans { OfPlans (λ element. RoundsFire element) }
{}

/// One more round changes nothing in a meaning.
pub fn settled()
    ensures streams { OfStreams (λ element. IsSettled element) }
    ensures plans { OfPlans (λ element. IsSettled element) }
{}

/// An outcome never changes from the round on in which it came.
pub fn outcomes_stay()
    ensures streams { OfStreams (λ element. KeepsOutcomes element) }
    ensures plans { OfPlans (λ element. KeepsOutcomes element) }
{}

/// In a meaning an activation has an outcome exactly where all its inputs are there: poisoned, where one of
/// them is poison, and else that of its body.
pub fn fixed_point()
    ensures streams { OfStreams (λ element. IsFixed element) }
    ensures plans { OfPlans (λ element. IsFixed element) }
{}

/// The order in which enabled activations run doesn't matter.
pub fn confluence()
    ensures streams { OfStreams (λ element. IsConfluent element) }
    ensures plans { OfPlans (λ element. IsConfluent element) }
{}

/// The laws of rounds hold of every kind of elements and outcomes. `S` has the sources of elements, `V`
/// their values and `O` the outcomes.
pub fn any_elements<S, V, O>()
    ensures one_round { (element : List (Option O) → S → Option V) → OfAll element (RoundsFire element) }
    ensures settled { (element : List (Option O) → S → Option V) → OfAll element (IsSettled element) }
    ensures outcomes_stay { (element : List (Option O) → S → Option V) → OfAll element (KeepsOutcomes element) }
    ensures fixed_point { (element : List (Option O) → S → Option V) → IsKept element
        → OfAll element (IsFixed element) }
    ensures confluence { (element : List (Option O) → S → Option V) → IsKept element
        → OfAll element (IsConfluent element) }
{}

/// By which root an activation is poisoned, and when it runs its body.
pub fn least_roots()
    ensures least { LeastRootsAreLeast }
    ensures values { OthersAreValues }
{}

/// Each root of poison is an activation that trapped or used up its turns, where no body says of itself that it is poisoned.
pub fn roots_failed()
    ensures { RootsFailed }
{}

/// A plan means what the activations mean for which it stands, and its sink holds their output.
pub fn plan_meaning()
    ensures meaning { MeansTheStreams }
    ensures sink { SinkIsTheOutput }
{}

/// Claims take their positions in order: by activation, and within one by clause.
pub fn windows_in_order()
    ensures { (activations : List Activation) → WindowsAreInOrder activations }
{}

/// The write claims on a stream stand behind one another, so that an element has one producer at most.
pub fn one_writer()
    ensures in_order { WritersAreInOrder }
    ensures one { HasOneWriter }
    ensures is_producer { WritersAreProducers }
    ensures numbered { ProducersHaveNumbers }
{}

/// The ends and the length of the input say which elements are there.
pub fn ends_say_what_is_there()
    ensures { EndsSayWhatIsThere }
{}

/// A sound plan has at most as many pieces as cells, since each piece fills at least one and no two fill the same.
pub fn few_pieces()
    ensures { HasFewPieces }
{}
