ghost use Rattle.std.specs.Prelude.{◌≡◌, ◌++◌, IfOk, OnOk};
ghost use Rattle.osview_graph.specs.Arrows.{use_of, uses, uses_of};

use flow_core_laws::{Activation, Claim};
use os_io::Memory;
use std::alloc::Global;

/// An item of a task's clauses as one activation has it.
#[derive(Clone, Copy, Debug, PartialEq, Eq)]
pub(crate) struct Use {
    pub(crate) task: u32,
    /// Its number among the items of the task.
    pub(crate) item: u64,
    pub(crate) stream: u32,
    /// Whether it is an output item.
    pub(crate) write: bool,
    pub(crate) horizon: u32,
    pub(crate) burst: u32,
}

/// An item as a claim has it.
fn use_of(task: u32, item: u64, claim: &Claim) -> Use
    ensures { result ≡ use_of task item claim.now }
{
    Use {
        task,
        item,
        stream: claim.stream,
        write: claim.write,
        horizon: claim.horizon,
        burst: claim.burst,
    }
}

/// Adds the items of an activation.
fn add_uses(all: &mut Vec<Use>, activation: &Activation) -> Result<(), Memory>
    ensures { OnOk result (all.new.items ≡ all.old.items ++ uses_of activation.now) }
{
    for (item, claim) in activation.claims.as_slice().iter().enumerate() {
        all.push(use_of(activation.site, item as u64, claim))?;
    }
    Ok(())
}

/// The items of all activations.
pub(crate) fn uses(alloc: Global, activations: &[Activation]) -> Result<Vec<Use>, Memory>
    ensures { IfOk result (λ all. all.items ≡ uses activations.now) }
{
    let mut all = Vec::new(alloc);
    for activation in activations {
        add_uses(&mut all, activation)?;
    }
    Ok(all)
}
