ghost use Rattle.std.specs.Prelude.{◌≡◌, ◌+◌, ◌-◌, ◌<◌, ◌≤◌, List, ℕ, length, take, drop, IfOk, OnOk, OnErr, MatchResult};
ghost use Rattle.std.specs.Io.KnownBytes.{prepend_known, IsAtEnd};
ghost use Rattle.os_io.specs.Counts.{HasRisen, raised};

use os_io::{Failed, Files};

/// Reads once into the part of a buffer that begins at `from` and ends before `to`.
fn read_part<F: Files>(
    files: &mut F,
    buffer: &mut [u8],
    from: usize,
    to: usize,
) -> Result<usize, Failed>
    requires from { from < to }
    requires to { to ≤ length buffer.old }
    ensures within { IfOk result (λ n. from + n ≤ to) }
    ensures front { take from buffer.new ≡ take from buffer.old }
    ensures bytes { MatchResult result
        (λ n. F.rest files.old ≡ prepend_known (take n (drop from buffer.new)) (F.rest files.new))
        (λ _. F.rest files.new ≡ F.rest files.old) }
    ensures end { IfOk result (λ n. n ≡ 0 → IsAtEnd (F.rest files.new)) }
    ensures given { MatchResult result
        (λ n. F.given files.new ≡ raised (F.given files.old) n)
        (λ _. F.given files.new ≡ F.given files.old) }
    ensures failed { OnErr result (HasRisen (F.faults files.old) (F.faults files.new)) }
    ensures no_fault { OnOk result (F.faults files.new ≡ F.faults files.old) }
    ensures opens { F.opens files.new ≡ F.opens files.old }
    ensures holds { F.holds files.new ≡ F.holds files.old }
    ensures may { F.may files.new ≡ F.may files.old }
{
    files.read(&mut buffer[from..to])
}

/// Fills the part of a buffer that begins at `from` and ends before `to`, in as many reads as that takes, and says up to where:
/// less than `to` at the end of the file. Where a read fails, the bytes that were read before it stay unused.
pub(crate) fn fill_part<F: Files>(
    files: &mut F,
    buffer: &mut [u8],
    from: usize,
    to: usize,
) -> Result<usize, Failed>
    requires from { from ≤ to }
    requires to { to ≤ length buffer.old }
    ensures low { IfOk result (λ past. from ≤ past) }
    ensures high { IfOk result (λ past. past ≤ to) }
    ensures front { take from buffer.new ≡ take from buffer.old }
    ensures bytes { IfOk result (λ past. F.rest files.old ≡ prepend_known (drop from (take past buffer.new)) (F.rest files.new)) }
    ensures end { IfOk result (λ past. past < to → IsAtEnd (F.rest files.new)) }
    ensures given { IfOk result (λ past. raised (F.given files.new) 0 ≡ raised (F.given files.old) (past - from)) }
    ensures lost { OnErr result ((read : List ℕ) × (length read < to - from) × (F.rest files.old ≡ prepend_known read (F.rest files.new))
        × (raised (F.given files.new) 0 ≡ raised (F.given files.old) (length read))) }
    ensures failed { OnErr result (HasRisen (F.faults files.old) (F.faults files.new)) }
    ensures no_fault { OnOk result (F.faults files.new ≡ F.faults files.old) }
    ensures opens { F.opens files.new ≡ F.opens files.old }
    ensures holds { F.holds files.new ≡ F.holds files.old }
    ensures may { F.may files.new ≡ F.may files.old }
{
    let mut past = from;
    while past < to {
        let count = read_part(files, buffer, past, to)?;
        if count == 0 {
            return Ok(past);
        }
        past += count;
    }
    Ok(past)
}
