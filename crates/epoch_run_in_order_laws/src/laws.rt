//! The laws. Each is a call that does nothing and ensures its law.

ghost use Rattle.epoch_run_in_order_laws.specs.Laws.{ElementsGrow, GoesOn, GoesOnApart, IsHeldInOrder, Join, RunsOnFromHeld, WrittenGrow};

/// One more activation whose inputs are there leaves the others as they are.
pub fn one_more_in_order()
    ensures goes_on { GoesOn }
    ensures elements { ElementsGrow }
{}

/// A run in control order stands where one in epochs would.
pub fn in_order_and_in_epochs()
    ensures held { IsHeldInOrder }
    ensures from_held { RunsOnFromHeld }
{}

/// Activations that run apart from those before them end as they do among all, and are put behind those once these have ended.
pub fn apart_and_joined()
    ensures goes_on { GoesOnApart }
    ensures written { WrittenGrow }
    ensures join { Join }
{}
