ghost use Rattle.std.specs.Prelude.{◌≡◌, ◌≤◌, ◌+◌, [], ◌∷◌, ◌++◌, length, IfOk};

use crate::errors::Memory;
use crate::list::List;
use std::alloc::Global;
use std::marker::Model;

/// A vector that took its memory before: contracts see it as the list of its items, and as how many
/// more it can take with no memory. Adding to it can't be refused.
#[derive(Drop)]
pub struct Room<T> {
    items: Vec<T>,
}

impl<T> Model for Room<T> {
    ghost use Rattle.std.specs.Prelude.{◌-◌, vec_capacity, vec_len};
    ghost use Rattle.os_io.specs.RoomStates.{RoomState, coded_room};

    ghost Value = { RoomState T };

    ghost coded = { coded_room T.code };

    ghost view = { λ room. record { items = room.items.items; spare = vec_capacity room.items - vec_len room.items } };
}

impl<T> Room<T> {
    ghost use Rattle.std.specs.Borrow.{sem};
    ghost use Rattle.os_io.specs.Rooms.{LendsRoom};

    /// An empty one with memory for `room` items.
    pub fn new(alloc: Global, room: u32) -> Result<Room<T>, Memory>
        ensures items { IfOk result (λ r. r.items ≡ []) }
        ensures spare { IfOk result (λ r. room ≤ r.spare) }
    {
        Ok(Room {
            items: Vec::with_capacity(alloc, room as usize)?,
        })
    }

    /// Adds an item at the end.
    pub fn push_spare(&mut self, item: T)
        requires has_room { 1 ≤ self.old.spare }
        ensures items { self.new.items ≡ self.old.items ++ item ∷ [] }
        ensures spare { self.new.spare + 1 ≡ self.old.spare }
    {
        self.items.push_reserved(item);
    }

    /// The items, for reading.
    pub fn as_slice(&self) -> &[T]
        ensures { result.now ≡ self.now.items }
    {
        self.items.as_slice()
    }

    /// The items, for writing: what stands there when the loan ends is what the room then holds, and
    /// it is as spare as before.
    pub fn as_mut_slice(&mut self) -> &mut [T]
        ensures* writes_back { sem 𝓛 (LendsRoom T.row self.entry result) }
        ensures value { result.now ≡ self.old.items }
    {
        self.items.as_mut_slice()
    }

    /// The number of items.
    pub fn len(&self) -> usize
        ensures { result ≡ length self.now.items }
    {
        self.items.len()
    }

    /// The items as a list. It takes no memory.
    pub fn into_list(self) -> List<T>
        ensures { result ≡ self.items }
    {
        List::of(self.items)
    }
}

impl<T: Drop> Room<T> {
    /// Takes all items out: there is room for as many more.
    pub fn clear(&mut self)
        ensures items { self.new.items ≡ [] }
        ensures spare { self.new.spare ≡ self.old.spare + length self.old.items }
    {
        self.items.clear();
    }
}
