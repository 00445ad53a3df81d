//! Laws of the bodies of tasks. Each is a call that does nothing and ensures its law.

ghost use Rattle.osrun_core_run.specs.BodyLaws.{CodesGiveBytes, FilledBodiesFill, OutputsAreBytes};

use os_code::laws::tasks_end;

/// Where no activation writes anything but bytes to the output, the output has nothing but bytes.
pub fn outputs_are_bytes()
    ensures { OutputsAreBytes }
{}

/// The task of an activation writes nothing but bytes to the output, for every valid code that the activation fits.
pub fn codes_give_bytes()
    ensures { CodesGiveBytes }
{
    tasks_end();
}

/// Where each activation that is done writes as many elements as its output windows have horizons, so it is in the
/// meaning: then the ends alone say which elements are there.
pub fn filled_bodies_fill()
    ensures { FilledBodiesFill }
{}
