ghost use Rattle.std.specs.Prelude.{◌≡◌, ◌+◌, ◌-◌, ◌<◌, ◌↔◌, ℕ, List, [], ◌++◌, length, min, take, drop};
ghost use Rattle.std.specs.Prelude.{option_to_list, option_map, vec_len, IfOk, OnErr, None};
ghost use Rattle.osparts_parts.specs.Terms.{AreLawful, overlap_in};
ghost use Rattle.osparts_parts.specs.Parts.{parts_of};
ghost use Rattle.osparts_parts.specs.Progress.{HasGiven};

use crate::place::PartPlace;
use crate::terms::Terms;
use os_io::Memory;
use std::alloc::Global;
use std::mem;

/// Cuts bytes into parts as they come. It holds the part that has begun, behind its overlap, and no more.
#[derive(Drop)]
pub struct PartBuffer {
    pub(crate) terms: Terms,
    pub(crate) bytes: Vec<u8>,
    pub(crate) place: PartPlace,
}

impl PartBuffer {
    /// A buffer to which nothing was pushed yet. It takes memory for a part.
    pub fn new(alloc: Global, terms: Terms) -> Result<PartBuffer, Memory>
        requires { AreLawful terms }
        ensures given { IfOk result (λ buffer. HasGiven buffer [] []) }
        ensures terms { IfOk result (λ buffer. buffer.terms ≡ terms) }
    {
        Ok(PartBuffer {
            terms,
            bytes: Vec::with_capacity(alloc, terms.part as usize)?,
            place: PartPlace::First,
        })
    }

    /// How many more bytes the part that has begun has room for.
    pub fn room(&self) -> usize
        ensures { result ≡ self.now.terms.part + overlap_in self.now.place self.now.terms - vec_len self.now.bytes }
    {
        let whole = self.terms.part as usize + self.terms.overlap_in(self.place);
        whole.saturating_sub(self.bytes.len())
    }

    /// Takes a front of a piece of the input, as far as there is room, and says how long it is. `Memory` leaves the buffer as it was.
    pub fn push(&mut self, piece: &[u8]) -> Result<usize, Memory>
        // What was pushed is part of the input.
        ensures pushes { (pushed : List ℕ) (parts : List (List ℕ)) → HasGiven self.old pushed parts → IfOk result (λ count.
            HasGiven self.new (pushed ++ take count piece.now) parts) }
        ensures count { IfOk result (λ count. count ≡ min (length piece.now)
            (self.old.terms.part + overlap_in self.old.place self.old.terms - vec_len self.old.bytes)) }
        ensures terms { self.new.terms ≡ self.old.terms }
        ensures err { OnErr result ((self.new.bytes.items ≡ self.old.bytes.items) × (self.new.place ≡ self.old.place)) }
    {
        let count = piece.len().min(self.room());
        self.bytes.extend_from_slice(&piece[..count])?;
        Ok(count)
    }

    /// Gives the part that has begun, once there is no room in it, and begins the next one. `Memory` leaves the buffer as it was.
    pub fn next_part(&mut self, alloc: Global) -> Result<Option<Vec<u8>>, Memory>
        ensures gives { (pushed : List ℕ) (parts : List (List ℕ)) → HasGiven self.old pushed parts → IfOk result (λ part.
            HasGiven self.new pushed (parts ++ option_to_list (option_map (λ bytes. bytes.items) part))) }
        ensures when { IfOk result (λ part. (part ≡ None) ↔ (vec_len self.old.bytes < self.old.terms.part + overlap_in self.old.place self.old.terms)) }
        ensures terms { self.new.terms ≡ self.old.terms }
        ensures err { OnErr result ((self.new.bytes.items ≡ self.old.bytes.items) × (self.new.place ≡ self.old.place)) }
    {
        if self.room() > 0 {
            return Ok(None);
        }
        let next = self.overlap_of_next(alloc)?;
        self.place = PartPlace::Later;
        Ok(Some(mem::replace(&mut self.bytes, next)))
    }

    /// A part that begins with the last bytes of this one, as its overlap, and has memory for all others.
    fn overlap_of_next(&self, alloc: Global) -> Result<Vec<u8>, Memory>
        ensures { IfOk result (λ next. next.items ≡ drop (vec_len self.now.bytes - self.now.terms.overlap) self.now.bytes.items) }
    {
        let overlap = self.terms.overlap as usize;
        let from = self.bytes.len().saturating_sub(overlap);
        let mut next = Vec::with_capacity(alloc, overlap + self.terms.part as usize)?;
        next.extend_from_slice(&self.bytes[from..])?;
        Ok(next)
    }

    /// Gives the last part, at the end of the input. It may be shorter than the others. There is none where the one before ended with
    /// the input; an input without bytes has one part without bytes.
    pub fn last_part(self) -> Option<Vec<u8>>
        // All parts that were given are those of the input.
        ensures { (pushed : List ℕ) (parts : List (List ℕ)) → HasGiven self pushed parts →
            parts ++ option_to_list (option_map (λ bytes. bytes.items) result) ≡ parts_of pushed self.terms }
    {
        match self.place {
            PartPlace::First => Some(self.bytes),
            PartPlace::Later => {
                if self.bytes.len() > self.terms.overlap as usize {
                    Some(self.bytes)
                } else {
                    None
                }
            }
        }
    }
}
