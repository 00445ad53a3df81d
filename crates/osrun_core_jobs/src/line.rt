ghost use Rattle.std.specs.Prelude.{◌≡◌, ◌++◌, [], take};
ghost use Rattle.std.specs.Fmt.{decimal};
ghost use Rattle.osrun_core_jobs.specs.LineRoom.{line_room};

use itoa::Buffer;
use std::marker::Model;

/// How many bytes a line may have.
const ROOM: usize = 64;

/// A line that is put together in room of its own, and takes no memory. Contracts see its bytes. What there is no room for is left out,
/// from the first byte on that doesn't fit.
#[derive(Drop)]
pub struct Line {
    bytes: [u8; ROOM],
    /// How many of them are the line's.
    kept: usize,
}

impl Model for Line {
    ghost use Rattle.std.specs.Prelude.{ℕ, ◌≤◌, List, take};
    ghost use Rattle.osrun_core_jobs.specs.LineRoom.{line_room};

    ghost Value = { List ℕ };

    ghost view = { λ line. take line.kept line.bytes };

    ghost invariant = { λ line. line.kept ≤ line_room };
}

impl Line {
    /// An empty line.
    pub fn new() -> Line
        ensures { result ≡ [] }
    {
        Line {
            bytes: [0; ROOM],
            kept: 0,
        }
    }

    /// Adds a text, as far as there is room.
    pub fn text(&mut self, text: &[u8])
        ensures { self.new ≡ take line_room (self.old ++ text.now) }
    {
        let more = text.len().min(ROOM - self.kept);
        self.bytes[self.kept..self.kept + more].copy_from_slice(&text[..more]);
        self.kept += more;
    }

    /// Adds a number in decimal, as far as there is room.
    pub fn number(&mut self, number: u64)
        ensures { self.new ≡ take line_room (self.old ++ decimal number) }
    {
        self.text(Buffer::new().format(number).as_bytes());
    }

    /// The bytes of the line.
    pub fn as_bytes(&self) -> &[u8]
        ensures { result.now ≡ self.now }
    {
        &self.bytes[..self.kept]
    }
}
