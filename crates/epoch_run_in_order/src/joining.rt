//! Putting a run apart behind one of the activations before it.

ghost use Rattle.std.specs.Prelude.{◌≡◌, ◌+◌, ◌-◌, ◌<◌, ◌≤◌, ◌++◌, ℕ, [], List, OnOk, drop, length, min, slice_index, slice_index_or, take};
ghost use Rattle.flow_core_laws.specs.declared.activation.Activation.{Activation};
ghost use Rattle.os_code.specs.declared.code.Code.{Code};
ghost use Rattle.os_code.specs.declared.parts.Parts.{Parts};
ghost use Rattle.epoch_run_in_order.specs.Joining.{AreJoinedTo, with_joined};
ghost use Rattle.epoch_run_in_order.specs.Standing.{IsReady, StandsApart, StandsBehind};

use crate::apart::Apart;
use crate::in_order::InOrder;
use crate::streams::Streams;
use epoch_run_carrying::cursor_of;
use epoch_run_in_order_laws::laws::apart_and_joined;
use flow_core_laws::Elem;
use os_io::{List, Memory};

impl InOrder {
    /// Puts those that ran apart behind those that ran so far, where these reach the first one of them or beyond; what ran in both is taken once.
    /// After `Memory` the run is to be given up.
    pub fn join(&mut self, apart: &Apart) -> Result<(), Memory>
        requires reaches { apart.now.first ≤ length self.old.ends }
        requires goes_on { length self.old.ends ≤ apart.now.first + length apart.now.order.ends }
        ensures ready { OnOk result ((code : Code) → IsReady code self.old → IsReady code self.new) }
        ensures count { OnOk result (length self.new.ends ≡ apart.now.first + length apart.now.order.ends) }
        ensures stands { OnOk result ((code : Parts) (all before : List Activation) (input : List ℕ) (budget : ℕ)
            → length apart.now.order.streams.elements ≡ length self.old.streams.elements
            → StandsBehind code all (take (length self.old.ends) before) input budget self.old
            → StandsApart code all apart.now.first before input budget apart.now.order
            → StandsBehind code all before input budget self.new) }
    {
        apart_and_joined();
        let past = self.ends.len() - apart.first as usize;
        self.ends
            .extend_from_slice(&apart.order.ends.as_slice()[past..])?;
        self.streams.join(&apart.order.streams)?;
        Ok(())
    }
}

impl Streams {
    /// Puts behind the elements of each stream but the input those that another one holds beyond them.
    fn join(&mut self, other: &Streams) -> Result<(), Memory>
        ensures { OnOk result (AreJoinedTo self.old other.now self.new) }
    {
        for stream in 1..self.elements.len() {
            self.join_on(other, stream)?;
        }
        Ok(())
    }

    /// Puts behind the elements of one stream those that another one holds beyond them.
    fn join_on(&mut self, other: &Streams, stream: usize) -> Result<(), Memory>
        requires { stream < length self.old.elements }
        ensures { OnOk result (self.new ≡ with_joined self.old other.now stream) }
    {
        if stream >= other.elements.len() {
            return Ok(());
        }
        let held = &mut self.elements.as_mut_slice()[stream];
        let others = other.elements.as_slice()[stream].as_slice();
        let past = overlap(
            cursor_of(self.firsts.as_slice(), stream),
            held.len(),
            cursor_of(other.firsts.as_slice(), stream),
            others.len(),
        );
        add_from(held, others, past)?;
        Ok(())
    }
}

/// How many of `other_held` elements from the position `other_first` on stand before the end of `held` elements from `first` on.
fn overlap(first: u64, held: usize, other_first: u64, other_held: usize) -> usize
    ensures { result ≡ min (first + held - other_first) other_held }
{
    let held = held as u64;
    let past = if other_first >= first {
        held.saturating_sub(other_first - first)
    } else {
        (first - other_first).saturating_add(held)
    };
    past.min(other_held as u64) as usize
}

/// Adds the elements of a slice but for the first `past`.
fn add_from(
    elements: &mut List<Option<Elem>>,
    more: &[Option<Elem>],
    past: usize,
) -> Result<(), Memory>
    requires { past ≤ length more.now }
    ensures { OnOk result (elements.new ≡ elements.old ++ drop past more.now) }
{
    let (_, beyond) = more.split_at(past);
    elements.extend_from_slice(beyond)
}
