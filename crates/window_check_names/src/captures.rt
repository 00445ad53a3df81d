//! The scalars that a task captures, by their slots in the control program.

ghost use Rattle.std.specs.Prelude.{◌≡◌, ◌<◌, ◌≤◌, ◌^◌, [], All, OnOk, IfOk, length};
ghost use Rattle.std.specs.List.Sorted.{IsStrictlySortedBy};
ghost use Rattle.std.specs.Ordering.{nat_cmp};
ghost use Rattle.os_ast.specs.Meanings.{meaning_in_task, place_in};
ghost use Rattle.window_check_laws.specs.Slots.{with_slot, with_slots, control_slots};

use crate::meanings::meaning;
use os_ast::{Entity, What};
use os_io::{List, Memory};
use std::alloc::Global;
use std::collections::BTreeSet;
use std::marker::Model;

/// The scalars that a task captures.
#[derive(Drop)]
pub struct Captured {
    slots: BTreeSet<u32>,
}

impl Model for Captured {
    ghost use Rattle.std.specs.Prelude.{ℕ, ◌<◌, ◌^◌, List, All};

    ghost Value = { List ℕ };

    ghost view = { λ c. c.slots.keys };

    ghost invariant = { λ c. All (λ s. s < 2 ^ 32) c.slots.keys };
}

impl Captured {
    /// The scalars before any is captured.
    pub fn new(alloc: Global) -> Captured
        ensures { result ≡ [] }
    {
        Captured {
            slots: BTreeSet::new(alloc),
        }
    }

    /// How many scalars are captured.
    pub fn len(&self) -> usize
        ensures { result ≡ length self.now }
    {
        self.slots.len()
    }

    fn insert(&mut self, slot: u32) -> Result<(), Memory>
        ensures { OnOk result (self.new ≡ with_slot slot self.old) }
    {
        self.slots.insert(slot)?;
        Ok(())
    }

    /// Adds what a name is declared as, where that is a scalar of the control program.
    pub(crate) fn add(&mut self, entity: Option<Entity>) -> Result<(), Memory>
        ensures { OnOk result (self.new ≡ with_slots (control_slots entity) self.old) }
    {
        match entity {
            Some(Entity::Control(slot)) => self.insert(slot),
            Some(Entity::InputLength) => self.insert(0),
            _ => Ok(()),
        }
    }

    /// The slots of the captured scalars, ascending.
    pub fn in_order(&self, alloc: Global) -> Result<List<u32>, Memory>
        ensures same { IfOk result (λ ordered. ordered ≡ self.now) }
        ensures ascending { IfOk result (λ ordered. IsStrictlySortedBy nat_cmp ordered) }
        ensures few { IfOk result (λ ordered. length ordered ≤ 2 ^ 32) }
    {
        let slots = self.collected(alloc)?;
        List::from_slice(alloc, slots.as_slice())
    }

    fn collected(&self, alloc: Global) -> Result<Vec<u32>, Memory>
        ensures same { IfOk result (λ slots. slots.items ≡ self.now) }
        ensures ascending { IfOk result (λ slots. IsStrictlySortedBy nat_cmp slots.items) }
        ensures small { IfOk result (λ slots. All (λ s. s < 2 ^ 32) slots.items) }
    {
        Ok(self.slots.iter().copied().collect(alloc)?)
    }
}

/// The slots of a task's captured scalars, ascending.
#[derive(Drop)]
pub struct Slots {
    slots: List<u32>,
}

impl Model for Slots {
    ghost use Rattle.std.specs.Prelude.{ℕ, ◌≤◌, ◌^◌, List, length};
    ghost use Rattle.std.specs.List.Sorted.{IsStrictlySortedBy};
    ghost use Rattle.std.specs.Ordering.{nat_cmp};

    ghost Value = { List ℕ };

    ghost view = { λ s. s.slots };

    ghost invariant = { λ s. IsStrictlySortedBy nat_cmp s.slots × (length s.slots ≤ 2 ^ 32) };
}

impl Slots {
    /// The slots of a task that captures nothing.
    pub fn none(alloc: Global) -> Slots
        ensures { result ≡ [] }
    {
        Slots {
            slots: List::new(alloc),
        }
    }

    /// The slots of a list that ascends.
    pub fn new(slots: List<u32>) -> Slots
        requires ascending { IsStrictlySortedBy nat_cmp slots }
        requires few { length slots ≤ 2 ^ 32 }
        ensures { result ≡ slots }
    {
        Slots { slots }
    }

    /// How many scalars are captured.
    pub fn len(&self) -> usize
        ensures { result ≡ length self.now }
    {
        self.slots.len()
    }

    /// What a name means in the task, by what it is declared as.
    pub fn meaning(&self, entity: Entity) -> What
        ensures { result ≡ meaning_in_task self.now entity }
    {
        match entity {
            Entity::Control(slot) => What::Scalar(self.place_of(slot)),
            Entity::InputLength => What::Scalar(self.place_of(0)),
            other => meaning(other),
        }
    }

    /// How many of the slots come before this one; 0 where it isn't among them.
    fn place_of(&self, slot: u32) -> u32
        ensures { result ≡ place_in self.now slot }
    {
        match self.slots.as_slice().binary_search(&slot) {
            Ok(place) => place as u32,
            Err(_) => 0,
        }
    }
}
