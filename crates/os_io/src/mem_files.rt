ghost use Rattle.std.specs.Prelude.{◌≡◌, ◌^◌, ◌<◌, ◌≤◌, ℕ, List, [], ◌∷◌, ◌++◌, map, length, take, drop};
ghost use Rattle.std.specs.Prelude.{is_err, is_none, min, if◌then◌else◌, OnOk, OnErr, IfOk, MatchOption};
ghost use Rattle.std.specs.Str.{bytes_eq};
ghost use Rattle.std.specs.Map.{lookup};
ghost use Rattle.os_io.specs.Counts.{HasRisen};
ghost use Rattle.os_io.specs.Views.{file, bytes_at, rest_at, IsPlaceIn};
ghost use Rattle.os_io.specs.StoredFiles.{no_files, held, found, fails_next, read_count, after_open, after_read};

use crate::calls::Calls;
use crate::errors::{Failed, Memory};
use crate::files::Files;
use std::alloc::Global;
use std::marker::Model;

/// A file in memory.
#[derive(Debug, Drop)]
struct Entry {
    name: String,
    bytes: Vec<u8>,
}

/// Where the next byte of the current file stands.
#[derive(Clone, Copy, Debug)]
struct Place {
    entry: usize,
    position: usize,
}

/// Files in memory, for tests. The calls of `open` and `read` are counted together from 0, and
/// those whose number was named fail.
#[derive(Debug, Drop)]
pub struct MemFiles {
    entries: Vec<Entry>,
    place: Option<Place>,
    calls: Calls,
    opens: u64,
    given: u64,
    most: u32,
}

impl Model for MemFiles {
    ghost use Rattle.os_io.specs.StoredFiles.{StoredFiles};

    ghost Value = { StoredFiles };

    ghost use Rattle.std.specs.Prelude.{◌≤◌};
    ghost use Rattle.os_io.specs.Views.{stored_files, IsPlaceIn};

    ghost view = { stored_files };

    ghost invariant = { λ s. IsPlaceIn s.entries.items s.place × (1 ≤ s.most) };
}

impl MemFiles {
    /// No files, none of them current. It takes no memory.
    pub fn new(alloc: Global) -> MemFiles
        ensures { result ≡ no_files }
    {
        MemFiles {
            entries: Vec::new(alloc),
            place: None,
            calls: Calls::new(alloc),
            opens: 0,
            given: 0,
            most: u32::MAX,
        }
    }

    /// Adds a file under a name that isn't there yet. `Memory` leaves the files as they were.
    pub fn add(&mut self, name: &str, bytes: &[u8]) -> Result<(), Memory>
        requires { held self.old name.now ≡ None }
        ensures ok { OnOk result
            (self.new ≡ record self.old { files = self.old.files ++ (name.now, bytes.now) ∷ [] }) }
        ensures held { OnOk result ((other : List ℕ) →
            held self.new other
            ≡ (if bytes_eq other name.now then Some bytes.now else held self.old other)) }
        ensures err { OnErr result (self.new ≡ self.old) }
    {
        let alloc = *self.entries.allocator();
        let name = String::from_str(alloc, name)?;
        let bytes = Vec::from_slice(alloc, bytes)?;
        self.entries.push(Entry { name, bytes })?;
        Ok(())
    }

    /// Names a call that is to fail.
    pub fn fail_at(&mut self, call: u64) -> Result<(), Memory>
        ensures ok { OnOk result
            (self.new ≡ record self.old { failing = self.old.failing ++ call ∷ [] }) }
        ensures err { OnErr result (self.new ≡ self.old) }
    {
        self.calls.fail_at(call)
    }

    /// Lets each `read` give at most `most` bytes, as a pipe or a terminal does. It takes no memory.
    pub fn most(&mut self, most: u32)
        requires { 1 ≤ most }
        ensures { self.new ≡ record self.old { most = most } }
    {
        self.most = most;
    }
}

impl Files for MemFiles {
    ghost use Rattle.std.specs.Prelude.{Some, true, refl};
    ghost use Rattle.os_io.specs.StoredFiles as stored;

    ghost faults = { λ s. s.faults };

    ghost given = { λ s. s.given };

    ghost holds = { stored.held };

    ghost rest = { λ s. Some s.rest };

    ghost opens = { λ s. s.opens };

    ghost may = { λ _ _ _. true };

    ghost may_at_last = { λ _ _ _ _. refl };

    /// Fails exactly where its number was named or no file has the name.
    fn open(&mut self, name: &str) -> Result<(), Failed>
        ensures failed { OnErr result (HasRisen self.old.faults self.new.faults) }
        ensures no_fault { OnOk result (self.new.faults ≡ self.old.faults) }
        ensures faults_kept { self.old.faults ≤ self.new.faults }
        ensures fails { is_err result ≡ is_none (found self.old name.now) }
        ensures after { self.new ≡ after_open self.old name.now }
    {
        self.opens = self.opens.saturating_add(1);
        self.given = 0;
        self.calls.count()?;
        let Some(entry) = index_of(&self.entries, name) else {
            return Err(self.calls.fault());
        };
        self.place = Some(Place { entry, position: 0 });
        Ok(())
    }

    /// Fails exactly where its number was named. Gives as many bytes as there are, as fit, and as one `read` may give.
    fn read(&mut self, buf: &mut [u8]) -> Result<usize, Failed>
        ensures failed { OnErr result (HasRisen self.old.faults self.new.faults) }
        ensures no_fault { OnOk result (self.new.faults ≡ self.old.faults) }
        ensures faults_kept { self.old.faults ≤ self.new.faults }
        ensures fails { is_err result ≡ fails_next self.old }
        ensures count { IfOk result (λ n. n ≡ read_count self.old (length buf.old)) }
        ensures end { IfOk result (λ n. n ≡ 0 → 0 < length buf.old → self.new.rest ≡ []) }
        ensures bytes { IfOk result (λ n. buf.new ≡ take n self.old.rest ++ drop n buf.old) }
        ensures after { self.new ≡ after_read self.old (length buf.old) }
    {
        self.calls.count()?;
        let count = copy_front(rest_of(&self.entries, self.place), buf, self.most);
        self.given = self.given.saturating_add(count as u64);
        self.place = place_after(&self.entries, self.place, count);
        Ok(count)
    }
}

/// The index of the file with a name.
fn index_of(entries: &[Entry], name: &str) -> Option<usize>
    ensures { MatchOption result
        (lookup (bytes_eq name.now) (map file entries.now) ≡ None)
        (λ i. (i < length entries.now)
        × (lookup (bytes_eq name.now) (map file entries.now) ≡ Some (bytes_at entries.now i))) }
{
    for (i, entry) in entries.iter().enumerate() {
        if name == entry.name.as_str() {
            return Some(i);
        }
    }
    None
}

/// The bytes of the file at an index.
fn bytes_of(entries: &[Entry], index: usize) -> &[u8]
    requires { index < length entries.now }
    ensures { result.now ≡ bytes_at entries.now index }
{
    entries[index].bytes.as_slice()
}

/// The bytes from a place on.
fn rest_of(entries: &[Entry], place: Option<Place>) -> &[u8]
    requires { IsPlaceIn entries.now place }
    ensures { result.now ≡ rest_at entries.now place }
{
    match place {
        None => &[],
        Some(place) => &bytes_of(entries, place.entry)[place.position..],
    }
}

/// The place behind as many bytes.
fn place_after(entries: &[Entry], place: Option<Place>, count: usize) -> Option<Place>
    requires place { IsPlaceIn entries.now place }
    requires count { count ≤ length (rest_at entries.now place) }
    ensures place { IsPlaceIn entries.now result }
    ensures rest { rest_at entries.now result ≡ drop count (rest_at entries.now place) }
{
    let Place { entry, position } = place?;
    // The length of a slice bounds the sum.
    let _bound = bytes_of(entries, entry).len();
    let position = position + count;
    Some(Place { entry, position })
}

/// Copies as many bytes as there are and as fit, but at most `most`, and says how many.
fn copy_front(from: &[u8], to: &mut [u8], most: u32) -> usize
    ensures count { result ≡ min (min (length to.old) (length from.now)) most }
    ensures bytes { to.new ≡ take result from.now ++ drop result to.old }
{
    let count = to.len().min(from.len()).min(most as usize);
    to[..count].copy_from_slice(&from[..count]);
    count
}
