//! Calls of files, and what they answer.

ghost use Rattle.std.specs.Prelude.{◌≡◌, ℕ, List, true};

use os_io::{Failed, Files};
use std::process::Abort;

/// A call of files.
#[derive(Clone, Copy)]
pub(crate) enum Call<'a> {
    Open(&'a str),
    /// Reads into the whole piece.
    Read,
}

/// A call, how many bytes it gives or that it fails, and what the piece holds then.
pub(crate) type Step<'a> = (Call<'a>, Result<usize, Failed>, &'a [u8]);

/// Calls files; an `open` gives no bytes.
fn answer<F: Files>(files: &mut F, call: Call<'_>, piece: &mut [u8]) -> Result<usize, Failed>
    requires { (number : ℕ) (name : List ℕ) → F.may files.old number name ≡ true }
    ensures { F.may files.new ≡ F.may files.old }
{
    match call {
        Call::Open(name) => match files.open(name) {
            Ok(()) => Ok(0),
            Err(failed) => Err(failed),
        },
        Call::Read => files.read(piece),
    }
}

/// Asks that each call gives what it is to, one after another.
pub(crate) fn gives<F: Files>(rt: &impl Abort, files: &mut F, piece: &mut [u8], steps: &[Step<'_>])
    requires { (number : ℕ) (name : List ℕ) → F.may files.old number name ≡ true }
{
    for (call, wanted, held) in steps {
        assert!(rt; answer(files, *call, piece) == *wanted);
        assert!(rt; &*piece == *held);
    }
}
