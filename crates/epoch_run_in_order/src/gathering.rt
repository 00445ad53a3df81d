//! Gathering what the next activation reads.

ghost use Rattle.std.specs.Prelude.{◌≡◌, ◌∷◌, ◌++◌, ◌+◌, ◌^◌, ◌<◌, ◌≤◌, [], ℕ, All, IfOk, IfSome, List, OnOk, Option};
ghost use Rattle.std.specs.Prelude.{length, map, pos, sum_by, take, true, vec_len};
ghost use Rattle.flow_core_laws.specs.declared.elem.Elem.{Elem};
ghost use Rattle.stream_match_layouts.specs.Spans.{write_count};
ghost use Rattle.stream_match_layouts.specs.declared.span.Span.{Span};
ghost use Rattle.epoch_run_in_order.specs.Reading.{AreRead, covered, covered_by, values_in};
ghost use Rattle.epoch_run_in_order.specs.Streams.{byte_element};
ghost use Rattle.epoch_run_in_order.specs.declared.streams.Streams.{Streams};

use crate::inputs::Inputs;
use crate::streams::Streams;
use flow_core_laws::{Elem, lesser};
use os_io::Memory;
use stream_match_layouts::Span;

impl Inputs {
    /// The values that were read.
    pub fn values(&self) -> &[i32]
        ensures { result.now ≡ values_in self.now }
    {
        &self.places.as_slice()[..self.count]
    }

    /// Reads what spans of an activation read, in place of what was read before. It answers how many elements the others write; none, where
    /// not all that these read is there.
    pub fn read_all(
        &mut self,
        streams: &Streams,
        input: &[u8],
        spans: &[Span],
    ) -> Result<Option<usize>, Memory>
        requires exist { All (λ (s : Span). s.stream < length streams.now.elements) spans.now }
        requires as_many { length streams.now.firsts ≡ length streams.now.elements }
        requires few { sum_by (λ (s : Span). s.count) spans.now < 2 ^ 32 }
        ensures read { IfOk result (λ written. IfSome written (λ _. AreRead (covered_by streams.now input.now spans.now) self.new)) }
        ensures written { IfOk result (λ written. IfSome written (λ count. count ≡ sum_by write_count spans.now)) }
    {
        self.count = 0;
        self.root = None;
        let mut written = 0;
        for span in spans {
            if span.write {
                written += span.count;
            } else {
                let there = self.read(streams, input, span)?;
                if !there {
                    return Ok(None);
                }
            }
        }
        Ok(Some(written as usize))
    }

    /// Reads what a span covers, if all of it is there.
    fn read(&mut self, streams: &Streams, input: &[u8], span: &Span) -> Result<bool, Memory>
        requires exists { span.now.stream < length streams.now.elements }
        requires as_many { length streams.now.firsts ≡ length streams.now.elements }
        ensures { IfOk result (λ there. there ≡ true → (cells : List (Option Elem)) → AreRead cells self.old
            → AreRead (cells ++ covered streams.now input.now span.now) self.new) }
    {
        if span.stream == 0 {
            self.read_input(input, span)
        } else {
            self.read_stream(streams, span)
        }
    }

    /// Reads what a span of the input covers, if all of it is there.
    fn read_input(&mut self, input: &[u8], span: &Span) -> Result<bool, Memory>
        requires { span.now.stream ≡ 0 }
        ensures { IfOk result (λ there. there ≡ true → (streams : Streams) (cells : List (Option Elem)) → AreRead cells self.old
            → AreRead (cells ++ covered streams input.now span.now) self.new) }
    {
        let held = input.len() as u64;
        if span.first > held || u64::from(span.count) > held - span.first {
            return Ok(false);
        }
        let first = span.first as usize;
        self.add_bytes(&input[first..first + span.count as usize])?;
        Ok(true)
    }

    /// Reads what a span of another stream covers, if all of it is there.
    fn read_stream(&mut self, streams: &Streams, span: &Span) -> Result<bool, Memory>
        requires other { 0 < span.now.stream }
        requires exists { span.now.stream < length streams.now.elements }
        requires as_many { length streams.now.firsts ≡ length streams.now.elements }
        ensures { IfOk result (λ there. there ≡ true → (input : List ℕ) (cells : List (Option Elem)) → AreRead cells self.old
            → AreRead (cells ++ covered streams.now input span.now) self.new) }
    {
        let Some(at) = streams.place_of(span) else {
            return Ok(false);
        };
        let elements = streams.elements.as_slice()[span.stream as usize].as_slice();
        self.add_all(&elements[at..at + span.count as usize])
    }

    /// Adds bytes of the input.
    fn add_bytes(&mut self, bytes: &[u8]) -> Result<(), Memory>
        ensures { OnOk result ((cells : List (Option Elem)) → AreRead cells self.old
            → AreRead (cells ++ map byte_element bytes.now) self.new) }
    {
        self.make_room(bytes.len())?;
        let end = self.count + bytes.len();
        put_bytes(self.places.as_mut_slice(), self.count, bytes);
        self.count = end;
        Ok(())
    }

    /// Makes room for `more` more values.
    #[inline(always)]
    fn make_room(&mut self, more: usize) -> Result<(), Memory>
        ensures room { OnOk result (self.new.count + more ≤ vec_len self.new.places) }
        ensures values { OnOk result (values_in self.new ≡ values_in self.old) }
        ensures root { OnOk result (self.new.root ≡ self.old.root) }
        ensures count { self.new.count ≡ self.old.count }
    {
        if self.places.len() - self.count >= more {
            return Ok(());
        }
        self.grow(more)
    }

    /// Makes room for more values where there is too little.
    fn grow(&mut self, more: usize) -> Result<(), Memory>
        requires { vec_len self.old.places < self.old.count + more }
        ensures room { OnOk result (self.new.count + more ≤ vec_len self.new.places) }
        ensures values { OnOk result (values_in self.new ≡ values_in self.old) }
        ensures root { OnOk result (self.new.root ≡ self.old.root) }
        ensures count { self.new.count ≡ self.old.count }
    {
        let Some(end) = self.count.checked_add(more) else {
            return Err(Memory);
        };
        self.places.resize(end, 0)?;
        Ok(())
    }

    /// Adds elements, as long as they are there. It answers whether all are.
    fn add_all(&mut self, elements: &[Option<Elem>]) -> Result<bool, Memory>
        ensures { IfOk result (λ there. there ≡ true → (cells : List (Option Elem)) → AreRead cells self.old
            → AreRead (cells ++ elements.now) self.new) }
    {
        for element in elements {
            let there = self.add(*element)?;
            if !there {
                return Ok(false);
            }
        }
        Ok(true)
    }

    /// Adds an element, if it is there.
    fn add(&mut self, element: Option<Elem>) -> Result<bool, Memory>
        ensures { IfOk result (λ there. there ≡ true → (cells : List (Option Elem)) → AreRead cells self.old
            → AreRead (cells ++ element ∷ []) self.new) }
    {
        match element {
            Some(Elem::Value(value)) => {
                self.add_value(value)?;
                Ok(true)
            }
            Some(Elem::Poison(root)) => {
                self.root = Some(lesser(self.root, root));
                Ok(true)
            }
            None => Ok(false),
        }
    }

    /// Adds a value.
    fn add_value(&mut self, value: i32) -> Result<(), Memory>
        ensures values { OnOk result (values_in self.new ≡ values_in self.old ++ value ∷ []) }
        ensures root { OnOk result (self.new.root ≡ self.old.root) }
    {
        self.make_room(1)?;
        self.places[self.count] = value;
        self.count += 1;
        Ok(())
    }
}

/// Puts bytes into places from a first one on.
fn put_bytes(places: &mut [i32], first: usize, bytes: &[u8])
    requires { first + length bytes.now ≤ length places.old }
    ensures length { length places.new ≡ length places.old }
    ensures values { take (first + length bytes.now) places.new ≡ take first places.old ++ map pos bytes.now }
{
    for number in 0..bytes.len() {
        places[first + number] = i32::from(bytes[number]);
    }
}
