//! Plans of activations that are nothing but their claims, without input, and replays over them.
ghost use Rattle.std.specs.Prelude.{◌≡◌, ◌≤◌, ◌<◌, ◌^◌, All, IfOk, length, true};
ghost use Rattle.flow_core_laws.specs.IsSound.{IsSound};
ghost use Rattle.flow_core_laws.specs.Limits.{workers_limit};
ghost use Rattle.stream_match_layouts.specs.Layout.{IsLayout};

use flow_core::{Activation, Claim, Plan};
use flow_core_laws::WORKERS_LIMIT;
use lawful_layouts::{Lasts, lawful_layout};
use os_io::{List, Memory};
use std::alloc::Global;
use std::test::Fail;
use stream_match::{Layout, build};
use trace_replay::{Replayed, replay};

/// An activation with these claims.
pub(crate) fn activation(alloc: Global, claims: &[Claim]) -> Result<Activation, Memory> {
    Ok(Activation {
        site: 0,
        captured: List::new(alloc),
        claims: List::from_slice(alloc, claims)?,
    })
}

/// The plan of activations over three declared streams.
pub(crate) fn plan_of(alloc: Global, activations: Vec<Activation>) -> Result<Plan, Fail>
    ensures { IfOk result IsSound }
{
    match lawful_layout(alloc, 5, 0, activations.as_slice())? {
        Some(layout) => Ok(built(alloc, layout)?),
        None => Err(Fail::from("the activations aren't lawful")),
    }
}

/// The plan of a layout.
fn built(alloc: Global, layout: Layout) -> Result<Plan, Memory>
    requires layout { IsLayout layout }
    requires input { layout.input_len ≡ 0 }
    ensures { IfOk result IsSound }
{
    build(alloc, &layout, &[])
}

/// What lists come to over a plan, or none where they are too many or too long. Where some fail, each fifth frame traps and
/// each fifth runs over its budget.
pub(crate) fn replayed(
    alloc: Global,
    plan: &Plan,
    lists: &[List<u32>],
    some_fail: bool,
) -> Result<Option<Replayed>, Memory>
    requires { IsSound plan.now }
{
    if !may_replay(lists) {
        return Ok(None);
    }
    let bodies = Lasts { plan, some_fail };
    Ok(Some(replay(alloc, plan, &bodies, lists)?))
}

/// Whether lists are as many and as short as they may be.
fn may_replay(lists: &[List<u32>]) -> bool
    ensures count { result ≡ true → (1 ≤ length lists.now) × (length lists.now ≤ workers_limit) }
    ensures short { result ≡ true → All (λ list. length list < 2 ^ 32) lists.now }
{
    if lists.is_empty() || lists.len() > WORKERS_LIMIT as usize {
        return false;
    }
    for list in lists {
        if list.len() as u64 >= 1 << 32 {
            return false;
        }
    }
    true
}
