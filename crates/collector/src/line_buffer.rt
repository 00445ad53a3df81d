ghost use Rattle.std.specs.Prelude.{◌≡◌, ◌<◌, ◌++◌, ◌∷◌, [], OnOk, length};
ghost use Rattle.std.specs.Fmt.{decimal};
ghost use Rattle.collector.specs.Buffering.{GoesOn};

use itoa::Buffer;
use os_io::{Sink, WriteError, write_whole};
use std::marker::Model;

/// How many bytes are kept before they are written. A line has at most 100.
const ROOM: usize = 128;

/// Bytes on their way to a sink. Contracts see those that are kept.
#[derive(Drop)]
pub(crate) struct LineBuffer {
    bytes: [u8; ROOM],
    /// How many of them are kept.
    kept: usize,
}

impl Model for LineBuffer {
    ghost use Rattle.std.specs.Prelude.{ℕ, ◌≤◌, List, take};

    ghost Value = { List ℕ };

    ghost view = { λ b. take b.kept b.bytes };

    ghost invariant = { λ b. b.kept ≤ 128 };
}

impl LineBuffer {
    /// A buffer that keeps nothing yet.
    pub(crate) fn new() -> LineBuffer
        ensures { result ≡ [] }
    {
        LineBuffer {
            bytes: [0; ROOM],
            kept: 0,
        }
    }

    /// Writes the bytes that are kept to the sink.
    pub(crate) fn flush<S: Sink>(&mut self, sink: &mut S) -> Result<(), WriteError>
        ensures goes_on { GoesOn S.Sink sink.old sink.new self.old self.new [] result }
        ensures empty { OnOk result (self.new ≡ []) }
    {
        write_whole(sink, &self.bytes[..self.kept])?;
        self.kept = 0;
        Ok(())
    }

    /// Adds a byte, behind what had to be written for it.
    fn push<S: Sink>(&mut self, sink: &mut S, byte: u8) -> Result<(), WriteError>
        ensures { GoesOn S.Sink sink.old sink.new self.old self.new (byte ∷ []) result }
    {
        if self.kept == ROOM {
            self.flush(sink)?;
        }
        self.keep(byte);
        Ok(())
    }

    /// Adds a byte where there is room.
    fn keep(&mut self, byte: u8)
        requires { length self.old < 128 }
        ensures { self.new ≡ self.old ++ byte ∷ [] }
    {
        self.bytes[self.kept] = byte;
        self.kept += 1;
    }

    /// Adds a text.
    pub(crate) fn text<S: Sink>(&mut self, sink: &mut S, text: &[u8]) -> Result<(), WriteError>
        ensures { GoesOn S.Sink sink.old sink.new self.old self.new text.now result }
    {
        for byte in text {
            self.push(sink, *byte)?;
        }
        Ok(())
    }

    /// Adds a number in decimal.
    pub(crate) fn number<S: Sink>(&mut self, sink: &mut S, number: u64) -> Result<(), WriteError>
        ensures { GoesOn S.Sink sink.old sink.new self.old self.new (decimal number) result }
    {
        self.text(sink, Buffer::new().format(number).as_bytes())
    }

    /// Adds a text and a number behind it.
    pub(crate) fn field<S: Sink>(
        &mut self,
        sink: &mut S,
        text: &[u8],
        number: u64,
    ) -> Result<(), WriteError>
        ensures { GoesOn S.Sink sink.old sink.new self.old self.new (text.now ++ decimal number) result }
    {
        self.text(sink, text)?;
        self.number(sink, number)
    }
}
