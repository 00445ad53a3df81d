//! The laws. Each is a call that does nothing and ensures its law.

ghost use Rattle.std.specs.Prelude.{◌≡◌, [], ◌∷◌, Some, pos};
ghost use Rattle.flow_core_epochs.specs.Epoch.{put_over, IsEpoch, epoch_meaning};
ghost use Rattle.flow_core_laws.specs.declared.elem.Elem.TheVariants.{Value, Poison};
ghost use Rattle.flow_core_laws.specs.declared.task_end.TaskEnd.TheVariants.{Done, Trapped, OverBudget, Poisoned};
ghost use Rattle.flow_core_laws.specs.Outcome.{outcome_of};
ghost use Rattle.flow_core_laws.specs.Streams.{stream_meaning};
ghost use Rattle.flow_core_laws.specs.IsSound.{IsSound};
ghost use Rattle.flow_core_epochs.specs.Example as example;
ghost use Rattle.flow_core_epochs.specs.Laws.{KeepsPrefixes, AddsUp, FramesEnd, SinkIsWhatLeaves, ReadsLieBehind, NothingAtFirst, ServesNext, CarriesOver};
ghost use Rattle.flow_core_epochs.specs.Laws.{AllIsAPart, EndedIsAll, OutputStays, HeldAtFirst, BeginsEpoch, EndsEpoch, ServesFrames, WaitingGetsNone, AllLeaveOutNothing};

use flow_core_laws::Bodies;

/// An outcome stays the same as more activations come.
pub fn prefix_law()
    ensures { KeepsPrefixes }
{}

/// The plan of an epoch goes on where the activations before it stopped.
pub fn epoch_law()
    ensures adds_up { AddsUp }
    ensures frames_end { FramesEnd }
    ensures sink { SinkIsWhatLeaves }
{}

/// No element that a carried or a later activation reads lies before `read_from`.
pub fn reads_lie_behind()
    ensures { ReadsLieBehind }
{}

/// What an epoch carries over is what every next one needs.
pub fn carrying()
    ensures first { NothingAtFirst }
    ensures next { ServesNext }
    ensures over { CarriesOver }
    ensures output { OutputStays }
{}

/// What an epoch may leave out: activations that wait for an element that can't come yet, and nothing else. Leaving out
/// nothing is lawful too.
pub fn leaving_out()
    ensures waiting { WaitingGetsNone }
    ensures nothing { AllLeaveOutNothing }
{}

/// What is held between epochs: a run in parts comes to what all its activations mean, whatever part of that an epoch goes on from.
pub fn run_in_epochs()
    ensures first { HeldAtFirst }
    ensures part { AllIsAPart }
    ensures all { EndedIsAll }
    ensures begins { BeginsEpoch }
    ensures ends { EndsEpoch }
{}

/// What the bodies of an epoch's frames need to be run.
pub fn serving<B: Bodies>(bodies: &B)
    ensures { ServesFrames (B.outcome bodies.now) (B.takes bodies.now) }
{}

/// Two runs in two epochs that are written out. In one the first writer traps: its plan is sound and stands for the second
/// epoch, into which its poison is kept, and the reader there is poisoned by it. In the other one the second writer uses up
/// its turns, and the reader is poisoned by its number, which is 2, and not by that of its frame, which is 1.
pub fn example()
    ensures is_epoch { IsEpoch example.before example.new [] (example.body (Trapped 2 5) Done)
        (stream_meaning example.before [] (example.body (Trapped 2 5) Done)) (1 ∷ 2 ∷ []) (1 ∷ 2 ∷ [])
        (example.kept (Poison 0)) (example.plan (Poison 0)) example.places }
    ensures sound { IsSound (example.plan (Poison 0)) }
    ensures kept_poison { put_over (stream_meaning example.before [] (example.body (Trapped 2 5) Done)) (1 ∷ 2 ∷ [])
        (epoch_meaning (example.plan (Poison 0)) (1 ∷ 2 ∷ []) (example.body (Trapped 2 5) Done)) 3
        ≡ Some (outcome_of (Trapped 2 5) []) ∷ Some (outcome_of (Poisoned 0) []) ∷ Some (outcome_of Done (pos 9 ∷ [])) ∷ [] }
    ensures new_poison { put_over (stream_meaning example.before [] (example.body Done OverBudget)) (1 ∷ 2 ∷ [])
        (epoch_meaning (example.plan (Value (pos 8))) (1 ∷ 2 ∷ []) (example.body Done OverBudget)) 3
        ≡ Some (outcome_of Done (pos 7 ∷ pos 8 ∷ [])) ∷ Some (outcome_of (Poisoned 2) []) ∷ Some (outcome_of OverBudget []) ∷ [] }
{}
