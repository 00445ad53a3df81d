ghost use Rattle.std.specs.Prelude.{◌≡◌, ◌==◌, ◌≤◌, ◌++◌, length, not, IfOk, OnOk, OnErr};
ghost use Rattle.os_io.specs.Counts.{HasRisen, raised};
ghost use Rattle.os_serve_jobs.specs.MemorySinkStates.{fresh_kept, output_room};

use os_io::{Failed, Sink};
use std::alloc::Global;
use std::marker::Model;

/// How many bytes the output of a job may have. No sink in memory has room for more.
pub const OUTPUT_ROOM: u32 = 67_108_864;

/// A sink in memory that grows as it is written to, and takes at most `room` bytes. A write fails where there is no memory or
/// no room for the whole piece.
#[derive(Drop)]
pub struct MemorySink {
    bytes: Vec<u8>,
    room: usize,
    faults: u64,
}

impl Model for MemorySink {
    ghost use Rattle.os_serve_jobs.specs.MemorySinkStates.{MemorySinkState, output_room};
    ghost use Rattle.std.specs.Prelude.{◌≤◌, vec_len};

    ghost Value = { MemorySinkState };

    ghost view = { λ s. record { taken = s.bytes.items; room = s.room; faults = s.faults } };

    ghost invariant = { λ s. (vec_len s.bytes ≤ s.room) × (s.room ≤ output_room) };
}

impl MemorySink {
    /// An empty one, with room for `room` bytes, at most `OUTPUT_ROOM`. It takes no memory.
    pub fn new(alloc: Global, room: u32) -> MemorySink
        requires { room ≤ output_room }
        ensures { result ≡ fresh_kept room }
    {
        MemorySink {
            bytes: Vec::new(alloc),
            room: room as usize,
            faults: 0,
        }
    }

    /// The bytes taken so far.
    pub fn bytes(&self) -> &[u8]
        ensures bytes { result.now ≡ self.now.taken }
        ensures within { length result.now ≤ output_room }
    {
        self.bytes.as_slice()
    }

    /// Whether a write has failed.
    pub fn has_failed(&self) -> bool
        ensures { result ≡ not (self.now.faults == 0) }
    {
        self.faults != 0
    }
}

impl Sink for MemorySink {
    ghost use Rattle.std.specs.Prelude.{Some};

    ghost faults = { λ s. s.faults };

    ghost empty_takes = { λ _. 0 };

    ghost taken = { λ s. Some s.taken };

    /// Takes the whole piece, or fails.
    fn write(&mut self, piece: &[u8]) -> Result<usize, Failed>
        ensures failed { OnErr result (HasRisen self.old.faults self.new.faults) }
        ensures no_fault { OnOk result (self.new.faults ≡ self.old.faults) }
        ensures faults_kept { self.old.faults ≤ self.new.faults }
        ensures ok { IfOk result (λ n. (n ≡ length piece.now) × (self.new ≡ record self.old { taken = self.old.taken ++ piece.now })) }
        ensures err { OnErr result (self.new ≡ record self.old { faults = raised self.old.faults 1 }) }
    {
        if piece.len() <= self.room - self.bytes.len()
            && self.bytes.extend_from_slice(piece).is_ok()
        {
            return Ok(piece.len());
        }
        self.faults = self.faults.saturating_add(1);
        Err(Failed)
    }
}
