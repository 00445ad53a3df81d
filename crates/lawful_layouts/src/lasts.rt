ghost use Rattle.std.specs.Prelude.{◌≡◌, ⊤, length};
ghost use Rattle.flow_core_laws.specs.Plans.{frame_at};
ghost use Rattle.lawful_layouts.specs.Lasts.{end_of, last_of, last_outcome};

use flow_core::{Bodies, Plan, TaskEnd};
use os_io::Memory;
use std::alloc::Global;

/// Bodies that write their last input, or 41 where they have none, to each output. Where some fail,
/// each fifth traps and each fifth runs over its budget.
#[derive(Clone, Copy, Drop)]
pub struct Lasts<'a> {
    pub plan: &'a Plan,
    pub some_fail: bool,
}

impl<'a> Bodies for Lasts<'a> {
    type Scratch = ();

    ghost outcome = { λ s f inputs. last_outcome s.plan.now s.some_fail f inputs };

    ghost takes = { λ s f i o. o ≡ (frame_at s.plan.now f).outputs };

    ghost fits = { λ s t. ⊤ };

    fn scratch(&self, _alloc: Global) -> Result<(), Memory> {
        Ok(())
    }

    fn run(&self, frame: u32, inputs: &[i32], outputs: &mut [i32], _scratch: &mut ()) -> TaskEnd {
        outputs.fill(last_in(inputs));
        end_in(self.some_fail, frame)
    }
}

/// The last of the inputs, or 41.
fn last_in(inputs: &[i32]) -> i32
    ensures { result ≡ last_of inputs.now }
{
    match inputs.last() {
        Some(value) => *value,
        None => 41,
    }
}

/// How a frame ends.
fn end_in(some_fail: bool, frame: u32) -> TaskEnd
    ensures { result ≡ end_of some_fail frame }
{
    if some_fail && frame % 5 == 1 {
        return TaskEnd::Trapped {
            code: 3,
            line: frame,
        };
    }
    if some_fail && frame % 5 == 2 {
        return TaskEnd::OverBudget;
    }
    TaskEnd::Done
}
