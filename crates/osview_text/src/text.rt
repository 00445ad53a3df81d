ghost use Rattle.std.specs.Prelude.{◌≡◌, ◌++◌, [], OnOk};
ghost use Rattle.std.specs.Fmt.{decimal, signed_decimal};

use itoa::Buffer;
use os_io::Memory;
use std::alloc::Global;
use std::marker::Model;

/// A text that is put together. Contracts see its bytes.
#[derive(Drop)]
pub struct Text {
    bytes: Vec<u8>,
}

impl Model for Text {
    ghost use Rattle.std.specs.Prelude.{ℕ, List};

    ghost Value = { List ℕ };

    ghost view = { λ text. text.bytes.items };
}

impl Text {
    /// A text without bytes. It takes no memory.
    pub fn new(alloc: Global) -> Text
        ensures { result ≡ [] }
    {
        Text {
            bytes: Vec::new(alloc),
        }
    }

    /// Adds bytes.
    pub fn add(&mut self, bytes: &[u8]) -> Result<(), Memory>
        ensures { OnOk result (self.new ≡ self.old ++ bytes.now) }
    {
        self.bytes.extend_from_slice(bytes)?;
        Ok(())
    }

    /// Adds a number in decimals.
    pub fn number(&mut self, number: u64) -> Result<(), Memory>
        ensures { OnOk result (self.new ≡ self.old ++ decimal number) }
    {
        self.add(Buffer::new().format(number).as_bytes())
    }

    /// Adds bytes and a number behind them.
    pub fn field(&mut self, bytes: &[u8], number: u64) -> Result<(), Memory>
        ensures { OnOk result (self.new ≡ self.old ++ (bytes.now ++ decimal number)) }
    {
        self.add(bytes)?;
        self.number(number)
    }

    /// Adds a number that may be negative, in decimals.
    pub fn signed(&mut self, number: i32) -> Result<(), Memory>
        ensures { OnOk result (self.new ≡ self.old ++ signed_decimal number) }
    {
        if number < 0 {
            self.add(b"-")?;
        }
        self.number(u64::from(number.unsigned_abs()))
    }

    /// The bytes of the text.
    pub fn into_bytes(self) -> Vec<u8>
        ensures { result.items ≡ self }
    {
        self.bytes
    }
}
