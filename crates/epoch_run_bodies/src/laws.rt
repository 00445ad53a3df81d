//! Laws of the bodies of tasks. Each is a call that does nothing and ensures its law.

ghost use Rattle.epoch_run_bodies.specs.Laws.{AgreeingBodiesMeanOne, BodiesServe, BodiesServeAll, LaterActivationsChangeNothing};

use os_code::laws::tasks_end;

/// The bodies of activations that fit a valid code serve each plan that stands for the activations, and all
/// activations of a run in parts.
pub fn bodies_serve()
    ensures plans { BodiesServe }
    ensures parts { BodiesServeAll }
{
    tasks_end();
}

/// A run means the same with bodies that make the same of all inputs that the activations can have.
pub fn agreeing_bodies_mean_one()
    ensures { AgreeingBodiesMeanOne }
{}

/// Activations mean the same with the bodies of more activations as with their own.
pub fn later_activations_change_nothing()
    ensures { LaterActivationsChangeNothing }
{}
