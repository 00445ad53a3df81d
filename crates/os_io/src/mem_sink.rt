ghost use Rattle.std.specs.Prelude.{◌≡◌, ◌≤◌, [], ◌∷◌, ◌++◌, length, is_err, OnOk, OnErr, IfOk};
ghost use Rattle.os_io.specs.Counts.{HasRisen};
ghost use Rattle.os_io.specs.BoundedSink.{fresh_sink, fails_next, write_count, after_write};

use crate::calls::Calls;
use crate::errors::{Failed, Memory};
use crate::sink::Sink;
use std::alloc::Global;
use std::marker::Model;

/// A sink in memory, for tests, with room for `room` bytes, of which one call takes `most` at
/// most. The calls of `write` are counted from 0, and those whose number was named fail.
#[derive(Debug, Drop)]
pub struct MemSink {
    bytes: Vec<u8>,
    room: usize,
    most: usize,
    calls: Calls,
    empty_takes: u64,
}

impl Model for MemSink {
    ghost use Rattle.os_io.specs.BoundedSink.{BoundedSink};
    ghost use Rattle.std.specs.Prelude.{◌+◌, ◌≤◌, vec_len, vec_capacity};

    ghost Value = { BoundedSink };

    ghost view = { λ s. record {
      taken = s.bytes.items;
      room = s.room;
      most = s.most;
      failing = s.calls.failing.items;
      calls = s.calls.made;
      faults = s.calls.faults;
      empty_takes = s.empty_takes;
    } };

    ghost invariant = { λ s. vec_len s.bytes + s.room ≤ vec_capacity s.bytes };
}

impl MemSink {
    /// An empty sink. All its memory is taken here, so a write needs none.
    pub fn new(alloc: Global, room: u32, most: u32) -> Result<MemSink, Memory>
        ensures { IfOk result (λ sink. sink ≡ fresh_sink room most) }
    {
        Ok(MemSink {
            bytes: Vec::with_capacity(alloc, room as usize)?,
            room: room as usize,
            most: most as usize,
            calls: Calls::new(alloc),
            empty_takes: 0,
        })
    }

    /// Names a call that is to fail.
    pub fn fail_at(&mut self, call: u64) -> Result<(), Memory>
        ensures ok { OnOk result
            (self.new ≡ record self.old { failing = self.old.failing ++ call ∷ [] }) }
        ensures err { OnErr result (self.new ≡ self.old) }
    {
        self.calls.fail_at(call)
    }

    /// The bytes taken so far.
    pub fn bytes(&self) -> &[u8]
        ensures { result.now ≡ self.now.taken }
    {
        self.bytes.as_slice()
    }
}

impl Sink for MemSink {
    ghost use Rattle.std.specs.Prelude.{Some};

    ghost faults = { λ s. s.faults };

    ghost empty_takes = { λ s. s.empty_takes };

    ghost taken = { λ s. Some s.taken };

    /// Fails exactly where its number was named. Takes as many bytes as the piece has, as one call
    /// takes and as there is room for.
    fn write(&mut self, piece: &[u8]) -> Result<usize, Failed>
        ensures failed { OnErr result (HasRisen self.old.faults self.new.faults) }
        ensures no_fault { OnOk result (self.new.faults ≡ self.old.faults) }
        ensures faults_kept { self.old.faults ≤ self.new.faults }
        ensures empty_takes_kept { self.old.empty_takes ≤ self.new.empty_takes }
        ensures fails { is_err result ≡ fails_next self.old }
        ensures count { IfOk result (λ n. n ≡ write_count self.old (length piece.now)) }
        ensures after { self.new ≡ after_write self.old piece.now }
    {
        self.calls.count()?;
        let count = piece.len().min(self.most).min(self.room);
        self.bytes.extend_from_slice(&piece[..count]).unwrap();
        self.room -= count;
        if count == 0 && !piece.is_empty() {
            self.empty_takes = self.empty_takes.saturating_add(1);
        }
        Ok(count)
    }
}
