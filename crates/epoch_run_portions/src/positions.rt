//! The positions behind activations that were passed.

ghost use Rattle.std.specs.Prelude.{◌≡◌, ◌∷◌, ◌++◌, ℕ, [], IfOk, List, OnOk, length, map};
ghost use Rattle.flow_core_laws.specs.Window.{windows_of};
ghost use Rattle.flow_core_laws.specs.declared.activation.Activation.{Activation};
ghost use Rattle.stream_match_layouts.specs.Cursors.{HasCursors};
ghost use Rattle.stream_match_layouts.specs.Layout.{span_of};
ghost use Rattle.epoch_run_portions.specs.Positions.{HasTaken, HavePassed, PassMore};

use flow_core_laws::{Activation, Claim};
use os_io::Memory;
use std::alloc::Global;
use stream_match_layouts::{Cursors, Offsets, Span};

/// Where the streams stand behind activations that were passed, and the windows of the last of these. It holds nothing of the ones before.
#[derive(Drop)]
pub(crate) struct Positions {
    /// A span for each claim of the activation that was passed last.
    pub spans: Vec<Span>,
    /// Where the streams stand behind the activations.
    pub cursors: Cursors,
    /// How many activations were passed.
    pub count: u32,
}

impl Positions {
    /// Before the first activation, over `streams` streams.
    pub(crate) fn new(alloc: Global, streams: u32) -> Result<Positions, Memory>
        ensures { IfOk result (HavePassed streams []) }
    {
        Ok(Positions {
            spans: Vec::new(alloc),
            cursors: Cursors::new(alloc, streams)?,
            count: 0,
        })
    }

    /// Passes the next activations, one by one. After `Memory` it may hold anything, and is to be given up.
    pub(crate) fn pass_all(&mut self, activations: &[Activation]) -> Result<(), Memory>
        requires { PassMore self.old activations.now }
        ensures { OnOk result ((streams : ℕ) (passed : List Activation) → HavePassed streams passed self.old
            → HavePassed streams (passed ++ activations.now) self.new) }
    {
        for activation in activations {
            self.pass(activation)?;
        }
        Ok(())
    }

    /// Passes the next activation: the cursors move behind it, and its spans are there. After `Memory` it may hold anything, and is to be
    /// given up.
    pub(crate) fn pass(&mut self, activation: &Activation) -> Result<(), Memory>
        requires { PassMore self.old (activation.now ∷ []) }
        ensures passed { OnOk result ((streams : ℕ) (passed : List Activation) → HavePassed streams passed self.old
            → HavePassed streams (passed ++ activation.now ∷ []) self.new) }
        ensures spans { OnOk result ((streams : ℕ) (passed : List Activation) → HavePassed streams passed self.old
            → self.new.spans.items ≡ map span_of (windows_of (passed ++ activation.now ∷ []) (length passed))) }
    {
        let frame = self.count as u16;
        let mut offsets = Offsets::new();
        self.spans.clear();
        for claim in activation.claims.as_slice() {
            let offset = offsets.next(claim);
            self.take(frame, claim, offset)?;
        }
        self.count += 1;
        Ok(())
    }

    /// Adds a claim of an activation, where its windows before this one take `offset` inputs or outputs.
    fn take(&mut self, frame: u16, claim: &Claim, offset: u32) -> Result<(), Memory>
        requires { HasCursors self.old.cursors claim.now }
        ensures { OnOk result (HasTaken self.old frame claim.now offset self.new) }
    {
        let span = self.cursors.take(frame, claim, offset);
        self.spans.push(span)?;
        Ok(())
    }
}
