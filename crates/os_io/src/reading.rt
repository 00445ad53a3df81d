ghost use Rattle.std.specs.Prelude.{◌≡◌, ◌+◌, ◌<◌, ◌≤◌, ◌↔◌, ◌≢◌, ◌⊎◌, length, take, vec_len, IsTrue, IfSome, IfOk, IsErrOf, OnOk, OnErr, MatchResult};
ghost use Rattle.std.specs.Io.KnownBytes.{prepend_known, IsAtEnd};
ghost use Rattle.os_io.specs.Counts.{HasRisen, raised};
ghost use Rattle.os_io.specs.Limits.{read_limit};
ghost use Rattle.os_io.specs.Reading.{IfWhole, IsReadUpTo};

use crate::errors::{Failed, Memory};
use crate::files::Files;
use std::alloc::{AllocError, Global};
use thiserror::Error;

/// What a file was found to be.
#[derive(Debug, Drop)]
pub enum Loaded {
    /// All bytes of the file.
    Whole(Vec<u8>),
    /// More bytes than the limit were given.
    TooLong,
}

/// Why a file could not be read.
#[derive(Debug, Drop, Error)]
pub enum ReadError {
    /// The files refused a call.
    #[error("the file cannot be read")]
    Failed,
    /// Memory could not be had.
    #[error("out of memory")]
    Memory,
}

impl From<Failed> for ReadError {
    ghost use Rattle.std.specs.Prelude.{◌≡◌};
    ghost use Rattle.os_io.specs.declared.reading.ReadError.TheVariants as read_error;

    ghost from_gives = { λ _ error. error ≡ read_error.Failed };

    fn from(_failed: Failed) -> ReadError {
        ReadError::Failed
    }
}

impl From<Memory> for ReadError {
    ghost use Rattle.std.specs.Prelude.{◌≡◌};
    ghost use Rattle.os_io.specs.declared.reading.ReadError.TheVariants as read_error;

    ghost from_gives = { λ _ error. error ≡ read_error.Memory };

    fn from(_memory: Memory) -> ReadError {
        ReadError::Memory
    }
}

impl From<AllocError> for ReadError {
    ghost use Rattle.std.specs.Prelude.{◌≡◌};
    ghost use Rattle.os_io.specs.declared.reading.ReadError.TheVariants as read_error;

    ghost from_gives = { λ _ error. error ≡ read_error.Memory };

    fn from(_error: AllocError) -> ReadError {
        ReadError::Memory
    }
}

/// How many bytes are asked for first. Later requests are as large as what was read before them.
const FIRST_PIECE: usize = 8192;

/// Reads the named file to its end, or to one byte past `limit`.
/// What it costs grows with the bytes that it reads, however few of them a call gives.
pub fn read_whole<F: Files>(
    alloc: Global,
    files: &mut F,
    name: &str,
    limit: u64,
) -> Result<Loaded, ReadError>
    requires limit { limit ≤ read_limit }
    requires may { IsTrue (F.may files.old (F.opens files.old) name.now) }

    // A whole file: its bytes, where they are told, and how many were given.
    ensures whole { IfWhole result
        (λ bytes. IfSome (F.holds files.old name.now) (λ held. bytes ≡ held)) }
    ensures whole_given { IfWhole result (λ bytes. F.given files.new ≡ length bytes) }

    // A file that is too long, of which exactly one byte past the limit was taken. No `Files`, also none that fills every
    // buffer, gives more: so no read is asked for more than that, less what was given before.
    ensures too_long { (result ≡ Ok Loaded.TooLong) ↔ (limit < F.given files.new) }
    ensures too_long_told { result ≡ Ok Loaded.TooLong →
        IfSome (F.holds files.old name.now) (λ held. limit < length held) }
    ensures one_past { result ≡ Ok Loaded.TooLong → F.given files.new ≡ limit + 1 }
    ensures stops { F.given files.new ≤ limit + 1 }

    // What is left of the file, or of the one before it where the file could not be opened.
    ensures end { IfWhole result (λ _. IsAtEnd (F.rest files.new)) }
    ensures left { OnOk result
        (IsReadUpTo (F.holds files.old name.now) (F.given files.new) (F.rest files.new)) }
    ensures left_by_error { OnErr result
        (IsReadUpTo (F.holds files.old name.now) (F.given files.new) (F.rest files.new)
        ⊎ ((F.given files.new ≡ 0) × (F.rest files.new ≡ F.rest files.old))) }

    // A failure, and what stays.
    ensures failed { IsErrOf result ReadError.Failed →
        HasRisen (F.faults files.old) (F.faults files.new) }
    ensures no_fault { result ≢ Err ReadError.Failed → F.faults files.new ≡ F.faults files.old }
    ensures faults_kept { F.faults files.old ≤ F.faults files.new }
    ensures opens { F.opens files.new ≡ raised (F.opens files.old) 1 }
    ensures holds { F.holds files.new ≡ F.holds files.old }
    ensures may { F.may files.new ≡ F.may files.old }
{
    files.open(name)?;
    read_rest(alloc, files, limit as usize)
}

/// Reads what is left of a file that was just opened.
fn read_rest<F: Files>(alloc: Global, files: &mut F, limit: usize) -> Result<Loaded, ReadError>
    requires limit { limit ≤ read_limit }
    requires fresh { F.given files.old ≡ 0 }
    ensures whole { IfWhole result (λ bytes. IfSome (F.rest files.old) (λ rest. bytes ≡ rest)) }
    ensures whole_given { IfWhole result (λ bytes. F.given files.new ≡ length bytes) }
    ensures too_long { (result ≡ Ok Loaded.TooLong) ↔ (limit < F.given files.new) }
    ensures too_long_told { result ≡ Ok Loaded.TooLong →
        IfSome (F.rest files.old) (λ rest. limit < length rest) }
    ensures stops { F.given files.new ≤ limit + 1 }
    ensures end { IfWhole result (λ _. IsAtEnd (F.rest files.new)) }
    ensures left { IsReadUpTo (F.rest files.old) (F.given files.new) (F.rest files.new) }
    ensures failed { IsErrOf result ReadError.Failed →
        HasRisen (F.faults files.old) (F.faults files.new) }
    ensures no_fault { result ≢ Err ReadError.Failed → F.faults files.new ≡ F.faults files.old }
    ensures faults_kept { F.faults files.old ≤ F.faults files.new }
    ensures opens { F.opens files.new ≡ F.opens files.old }
    ensures holds { F.holds files.new ≡ F.holds files.old }
    ensures may { F.may files.new ≡ F.may files.old }
{
    let mut buffer = Vec::new(alloc);
    let mut filled = 0;
    loop {
        make_room(&mut buffer, filled, limit + 1)?;
        let count = read_behind(files, &mut buffer, filled)?;
        filled += count;
        if filled > limit {
            return Ok(Loaded::TooLong);
        }
        if count == 0 {
            buffer.truncate(filled);
            return Ok(Loaded::Whole(buffer));
        }
    }
}

/// Makes a full buffer longer, as far as `most` allows. What it holds stays in front.
/// One byte more than twice the length spares a step where the limit is a power of two.
fn make_room(buffer: &mut Vec<u8>, filled: usize, most: usize) -> Result<(), AllocError>
    requires filled { filled ≤ vec_len buffer.old }
    requires room { filled < most }
    requires most { most ≤ read_limit + 1 }
    requires within { vec_len buffer.old ≤ most }
    ensures room { OnOk result (filled < vec_len buffer.new) }
    ensures within { vec_len buffer.new ≤ most }
    ensures front { take filled buffer.new.items ≡ take filled buffer.old.items }
{
    if filled < buffer.len() {
        return Ok(());
    }
    let longer = (2 * filled + 1).max(FIRST_PIECE);
    buffer.resize(longer.min(most), 0)
}

/// Reads into the part of a buffer that begins at `filled`.
fn read_behind<F: Files>(files: &mut F, buffer: &mut [u8], filled: usize) -> Result<usize, Failed>
    requires { filled < length buffer.old }
    ensures within { IfOk result (λ n. filled + n ≤ length buffer.old) }
    ensures bytes { MatchResult result
        (λ n. prepend_known (take filled buffer.old) (F.rest files.old)
        ≡ prepend_known (take (filled + n) buffer.new) (F.rest files.new))
        (λ _. F.rest files.new ≡ F.rest files.old) }
    ensures end { IfOk result (λ n. n ≡ 0 → IsAtEnd (F.rest files.new)) }
    ensures given { MatchResult result
        (λ n. F.given files.new ≡ raised (F.given files.old) n)
        (λ _. F.given files.new ≡ F.given files.old) }
    ensures failed { OnErr result (HasRisen (F.faults files.old) (F.faults files.new)) }
    ensures no_fault { OnOk result (F.faults files.new ≡ F.faults files.old) }
    ensures faults_kept { F.faults files.old ≤ F.faults files.new }
    ensures opens { F.opens files.new ≡ F.opens files.old }
    ensures holds { F.holds files.new ≡ F.holds files.old }
    ensures may { F.may files.new ≡ F.may files.old }
{
    files.read(&mut buffer[filled..])
}
