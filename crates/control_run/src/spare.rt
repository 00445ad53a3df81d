//! Activations that are run no more, and those that are made in their places.

ghost use Rattle.std.specs.Prelude.{◌≡◌, ◌+◌, ◌++◌, ◌*◌, ◌<◌, ◌≤◌, [], All, IfOk, IfSome, OnErr, OnOk, length, map, pos, slice_index_or, take};
ghost use Rattle.flow_core_laws.specs.Limits.{activations_limit, positions_limit};
ghost use Rattle.os_ast.specs.Limits.{items_limit};
ghost use Rattle.os_code.specs.Machine.{spawned_claims};
ghost use Rattle.control_run.specs.Spawning.{HasWindow, spawn_end, spawn_list, spawn_made};

use crate::made::Made;
use crate::places::{make_place, move_some};
use crate::spawning::set_activation;
use flow_core_laws::{Activation, ControlEnd};
use os_code::Site;
use os_io::{List, Memory};
use std::alloc::Global;
use std::marker::Model;
use std::mem;

/// Activations that are run no more, and those that are made in their places, from the first on, since `main` mostly creates the
/// next ones in the same order. It is seen as the list of those that are made and not handed over.
#[derive(Drop)]
pub(crate) struct Spare {
    activations: List<Activation>,
    /// Activations `first` to `made` - 1 are made and not handed over yet.
    first: usize,
    made: usize,
}

impl Model for Spare {
    ghost use Rattle.std.specs.Prelude.{List};
    ghost use Rattle.flow_core_laws.specs.declared.activation.Activation.{Activation};
    ghost use Rattle.control_run.specs.Sparing.{HasMade, made_in};

    ghost Value = { List Activation };

    ghost view = { made_in };

    ghost invariant = { HasMade };
}

impl Spare {
    /// Takes a list of activations that are run no more. None of them is made anew yet.
    pub fn of(activations: List<Activation>) -> Spare
        ensures { result ≡ [] }
    {
        Spare {
            activations,
            first: 0,
            made: 0,
        }
    }

    /// Gives up the activations that are made and not handed over yet: they won't be handed over.
    pub fn forget(&mut self)
        ensures { self.new ≡ [] }
    {
        self.first = self.made;
    }

    /// Creates the activation of a site in the place of a spare one, where one fits, and adds it; or answers how `main` ends
    /// there. The slots are those of `main`; the operands are an index and a burst for each item. Only a new one takes memory.
    #[inline(always)]
    pub fn spawn(
        &mut self,
        alloc: Global,
        streams: u32,
        number: u32,
        site: &Site,
        slots: &[i32],
        operands: &[i32],
        made: &mut Made,
    ) -> Result<Option<ControlEnd>, Memory>
        requires windows { All (HasWindow (length slots.now)) site.now.items }
        requires captured { All (λ slot. slot < length slots.now) site.now.captured }
        requires pairs { length operands.now ≡ 2 * length site.now.items }
        requires few { length site.now.items ≤ items_limit }
        requires streams { length made.old.skips ≡ streams }
        requires positions { made.old.horizons ≤ positions_limit }
        requires activations { made.old.created ≤ activations_limit }
        ensures end { IfOk result (λ end. end ≡ spawn_end made.old site.now.line (spawned_claims streams slots.now site.now.items operands.now)) }
        ensures made { OnOk result (made.new ≡ spawn_made made.old (spawned_claims streams slots.now site.now.items operands.now)) }
        ensures list { OnOk result (self.new ≡ spawn_list self.old made.old number (map (λ slot. slice_index_or slots.now slot (pos 0)) site.now.captured)
            (spawned_claims streams slots.now site.now.items operands.now)) }
        ensures count_kept { OnErr result (made.new.created ≡ made.old.created) }
        ensures list_kept { OnErr result (self.new ≡ self.old) }
    {
        let place = self.made;
        make_place(
            alloc,
            &mut self.activations,
            place,
            site.captured.len(),
            site.items.len(),
        )?;
        match set_activation(
            streams,
            number,
            site,
            slots,
            operands,
            made,
            &mut self.activations.as_mut_slice()[place],
        ) {
            Some(end) => Ok(Some(end)),
            None => {
                self.made += 1;
                Ok(None)
            }
        }
    }

    /// Puts those that are made behind the activations of a list, and answers how many: fewer than all where memory was wanting.
    /// Where the list has none, and all that stand here are made, it takes no memory: the one list becomes the other. Otherwise it
    /// takes memory for all that stand here at once, since the others mostly follow.
    pub fn hand_over(&mut self, alloc: Global, into: &mut List<Activation>) -> usize
        ensures few { result ≤ length self.old }
        ensures list { into.new ≡ into.old ++ take result self.old }
    {
        if into.len() == 0 && self.first == 0 && self.made == self.activations.len() {
            let count = self.made;
            self.made = 0;
            mem::swap(into, &mut self.activations);
            return count;
        }
        if into.reserve(self.activations.len() - self.first).is_err() {
            return 0;
        }
        let count = move_some(alloc, &mut self.activations, self.first, self.made, into);
        self.first = self.made;
        count
    }
}
