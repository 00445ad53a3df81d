//! Putting what an activation reads into the places of its inputs.

ghost use Rattle.std.specs.Prelude.{◌≡◌, ◌∷◌, ◌++◌, ◌+◌, ◌≤◌, [], List, OnOk, IfOk, Option, Some, length, map, take, vec_len};
ghost use Rattle.flow_core_laws.specs.declared.elem.Elem.{Elem};
ghost use Rattle.epoch_run_batches.specs.Reads.{ArePut, AreRead, byte_element, values_in};

use crate::inputs::Inputs;
use flow_core_laws::{Elem, lesser};
use os_io::Memory;
use std::alloc::Global;

impl Inputs {
    /// Inputs before anything is read.
    pub fn new(alloc: Global) -> Inputs
        ensures { AreRead [] result }
    {
        Inputs {
            places: Vec::new(alloc),
            count: 0,
            root: None,
        }
    }

    /// The values that were read.
    pub(crate) fn values(&self) -> &[i32]
        ensures { result.now ≡ values_in self.now }
    {
        &self.places.as_slice()[..self.count]
    }

    /// Forgets what was read.
    pub(crate) fn clear(&mut self)
        ensures { AreRead [] self.new }
    {
        self.count = 0;
        self.root = None;
    }

    /// Adds an element.
    pub(crate) fn add(&mut self, element: Elem) -> Result<(), Memory>
        ensures { OnOk result ((cells : List (Option Elem)) → AreRead cells self.old
            → AreRead (cells ++ Some element ∷ []) self.new) }
    {
        match element {
            Elem::Value(value) => {
                self.add_value(value)?;
            }
            Elem::Poison(root) => {
                self.root = Some(lesser(self.root, root));
            }
        }
        Ok(())
    }

    /// Adds a value.
    fn add_value(&mut self, value: i32) -> Result<(), Memory>
        ensures values { OnOk result (values_in self.new ≡ values_in self.old ++ value ∷ []) }
        ensures root { OnOk result (self.new.root ≡ self.old.root) }
    {
        self.make_room(1)?;
        self.places[self.count] = value;
        self.count += 1;
        Ok(())
    }

    /// Adds the first of these elements, as long as they are values. It answers how many it added.
    pub(crate) fn add_values(&mut self, elements: &[Option<Elem>]) -> Result<usize, Memory>
        ensures few { IfOk result (λ count. count ≤ length elements.now) }
        ensures read { IfOk result (λ count. (cells : List (Option Elem)) → AreRead cells self.old
            → AreRead (cells ++ take count elements.now) self.new) }
    {
        self.make_room(elements.len())?;
        let added = put_values(self.places.as_mut_slice(), self.count, elements);
        self.count += added;
        Ok(added)
    }

    /// Adds bytes of the input.
    pub(crate) fn add_bytes(&mut self, bytes: &[u8]) -> Result<(), Memory>
        ensures { OnOk result ((cells : List (Option Elem)) → AreRead cells self.old
            → AreRead (cells ++ map byte_element bytes.now) self.new) }
    {
        self.make_room(bytes.len())?;
        let end = self.count + bytes.len();
        put_bytes(self.places.as_mut_slice(), self.count, bytes);
        self.count = end;
        Ok(())
    }

    /// Makes room for `more` more values.
    fn make_room(&mut self, more: usize) -> Result<(), Memory>
        ensures room { OnOk result (self.new.count + more ≤ vec_len self.new.places) }
        ensures values { OnOk result (values_in self.new ≡ values_in self.old) }
        ensures root { OnOk result (self.new.root ≡ self.old.root) }
        ensures count { self.new.count ≡ self.old.count }
    {
        if self.places.len() - self.count >= more {
            return Ok(());
        }
        let Some(end) = self.count.checked_add(more) else {
            return Err(Memory);
        };
        self.places.resize(end, 0)?;
        Ok(())
    }
}

/// Puts the values of elements into places from a first one on, as long as they are values. It answers how many it put.
fn put_values(places: &mut [i32], first: usize, elements: &[Option<Elem>]) -> usize
    requires { first + length elements.now ≤ length places.old }
    ensures length { length places.new ≡ length places.old }
    ensures few { result ≤ length elements.now }
    ensures put { ArePut first places.old (take result elements.now) (first + result) places.new }
{
    for number in 0..elements.len() {
        let Some(Elem::Value(value)) = elements[number] else {
            return number;
        };
        places[first + number] = value;
    }
    elements.len()
}

/// Puts bytes into places from a first one on.
fn put_bytes(places: &mut [i32], first: usize, bytes: &[u8])
    requires { first + length bytes.now ≤ length places.old }
    ensures length { length places.new ≡ length places.old }
    ensures put { ArePut first places.old (map byte_element bytes.now) (first + length bytes.now) places.new }
{
    for number in 0..bytes.len() {
        places[first + number] = i32::from(bytes[number]);
    }
}
