//! Activations that are nothing but their claims, where they stand, and their plans.

ghost use Rattle.std.specs.Prelude.{◌≡◌, [], IfOk};
ghost use Rattle.flow_core_laws.specs.IsSound.{IsSound};
ghost use Rattle.stream_match_layouts.specs.Layout.{IsLayout};

use flow_core::{Activation, Claim, Plan};
use lawful_layouts::lawful_layout;
use os_io::{List, Memory};
use std::alloc::Global;
use std::test::Fail;
use stream_match::{Layout, build};

/// The layout of activations with these claims, over `streams` streams and an input of `input_len` elements.
pub(crate) fn layout_of(
    alloc: Global,
    streams: u32,
    input_len: u32,
    tasks: &[&[Claim]],
) -> Result<Layout, Fail>
    ensures { IfOk result IsLayout }
{
    let activations = activations_of(alloc, tasks)?;
    laid_out(alloc, streams, input_len, activations)
}

/// The layout of activations, which are lawful.
pub(crate) fn laid_out(
    alloc: Global,
    streams: u32,
    input_len: u32,
    activations: Vec<Activation>,
) -> Result<Layout, Fail>
    ensures { IfOk result IsLayout }
{
    match lawful_layout(alloc, streams, input_len, activations.as_slice())? {
        Some(layout) => Ok(layout),
        None => Err(Fail::from("the activations aren't lawful")),
    }
}

/// The plan of a layout over its input.
pub(crate) fn plan_over(alloc: Global, layout: &Layout, input: &[u8]) -> Result<Plan, Fail>
    requires { IsLayout layout.now }
    ensures { IfOk result IsSound }
{
    if input.len() != layout.input_len as usize {
        return Err(Fail::from("the input has another length"));
    }
    Ok(build(alloc, layout, input)?)
}

/// Activations with these claims.
fn activations_of(alloc: Global, tasks: &[&[Claim]]) -> Result<Vec<Activation>, Memory> {
    let mut activations = Vec::new(alloc);
    for task in tasks {
        activations.push(activation_of(alloc, *task)?)?;
    }
    Ok(activations)
}

/// An activation with these claims.
pub(crate) fn activation_of(alloc: Global, claims: &[Claim]) -> Result<Activation, Memory>
    ensures { IfOk result (λ a. a ≡ record { site = 0; captured = []; claims = claims.now }) }
{
    Ok(Activation {
        site: 0,
        captured: List::new(alloc),
        claims: List::from_slice(alloc, claims)?,
    })
}
