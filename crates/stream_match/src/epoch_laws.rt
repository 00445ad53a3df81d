//! Laws of the plans of epochs.

ghost use Rattle.stream_match.specs.EpochPlan.{EpochPlansAreSound, EpochPlansStand, EpochPlansGoOn};
ghost use Rattle.stream_match.specs.Whole.{WholePlansAreSound, WholePlansStand};

/// The plan of an epoch is sound.
pub fn epoch_plans_are_sound()
    ensures { EpochPlansAreSound }
{}

/// The plan of an epoch stands for it, and goes on where the activations before it stopped.
pub fn epoch_plans_stand()
    ensures stand { EpochPlansStand }
    ensures go_on { EpochPlansGoOn }
{}

/// The plan of a whole run is an instance of the same plan.
pub fn whole_plans()
    ensures sound { WholePlansAreSound }
    ensures stand { WholePlansStand }
{}
