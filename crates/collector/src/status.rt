ghost use Rattle.std.specs.Prelude.{◌≡◌, if◌then◌else◌};
ghost use Rattle.std.specs.List.{list_all};
ghost use Rattle.collector.specs.Status.{done_status, has_done, is_done_control, not_done_status, run_status_code, status};

use flow_core_laws::{ControlEnd, Ends, TaskEnd};

/// The status of a run.
#[derive(Clone, Copy, Debug)]
pub enum RunStatus {
    /// Every activation and the control program are Done.
    AllDone,
    /// An activation isn't Done, or the control program ended in another way.
    NotAllDone,
}

/// The status of a run that came to this.
pub fn run_status(ends: &Ends, control: ControlEnd) -> RunStatus
    ensures { run_status_code result ≡ status ends.now.ends control }
{
    if is_all_done(ends, control) {
        RunStatus::AllDone
    } else {
        RunStatus::NotAllDone
    }
}

/// Whether every activation and the control program are Done.
fn is_all_done(ends: &Ends, control: ControlEnd) -> bool
    ensures { (if result then done_status else not_done_status) ≡ status ends.now.ends control }
{
    have_done(ends.ends.as_slice()) && is_done_control(control)
}

/// Whether each activation is Done.
fn have_done(ends: &[Option<TaskEnd>]) -> bool
    ensures { result ≡ list_all has_done ends.now }
{
    ends.iter().all(has_done)
}

/// Whether an activation with this end, or none, is Done.
pub fn has_done(end: &Option<TaskEnd>) -> bool
    ensures { result ≡ has_done end.now }
{
    matches!(end, Some(TaskEnd::Done))
}

/// Whether the control program ran to its end.
fn is_done_control(control: ControlEnd) -> bool
    ensures { result ≡ is_done_control control }
{
    matches!(control, ControlEnd::Done)
}
