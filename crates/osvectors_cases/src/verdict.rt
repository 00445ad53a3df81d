ghost use Rattle.std.specs.Prelude.{◌≡◌, ◌↔◌, ◌≤◌, IfSome, IsTrue, MatchOption, length, take};
ghost use Rattle.sha2.specs.Sha256.{sha256};
ghost use Rattle.osvectors_cases.specs.Verdicts.{DifferFirst, IsVerdict, Passes};

use sha2::{Digest, Sha256};

/// The output that a run should have.
#[derive(Debug, Drop)]
pub enum Expected {
    /// These bytes.
    Bytes(Vec<u8>),
    /// Bytes with this SHA-256 sum.
    Sum([u8; 32]),
}

/// What is judged of a run.
#[derive(Clone, Copy, Debug, PartialEq, Eq)]
pub enum Verdict {
    /// The status is 0, and the output is wanted.
    Passed,
    /// The run ended with this status, which isn't 0.
    Ended(u8),
    /// The status is 0, and the output isn't wanted from this byte on, counted from 0.
    Differs(usize),
    /// The status is 0, and the output has another sum.
    OtherSum,
}

/// The first place where bytes aren't those of others.
fn first_difference(one: &[u8], other: &[u8]) -> Option<usize>
    ensures { MatchOption result (one.now ≡ other.now) (DifferFirst one.now other.now) }
{
    for (place, byte) in one.iter().enumerate() {
        if other.get(place) != Some(byte) {
            return Some(place);
        }
    }
    if one.len() < other.len() {
        return Some(one.len());
    }
    None
}

/// Whether bytes have a sum.
fn has_sum(bytes: &[u8], sum: &[u8; 32]) -> bool
    ensures { IsTrue result ↔ (sha256 bytes.now ≡ sum.now) }
{
    let digest = Sha256::digest(bytes);
    digest.as_slice() == sum.as_slice()
}

/// Judges a run by its status and its output.
pub fn judge(status: u8, output: &[u8], wanted: &Expected) -> Verdict
    ensures verdict { IsVerdict status output.now wanted.now result }
    ensures passed { (result ≡ Verdict.Passed) ↔ Passes status output.now wanted.now }
{
    if status != 0 {
        return Verdict::Ended(status);
    }
    match wanted {
        Expected::Bytes(bytes) => match first_difference(output, bytes.as_slice()) {
            Some(place) => Verdict::Differs(place),
            None => Verdict::Passed,
        },
        Expected::Sum(sum) => {
            if has_sum(output, sum) {
                Verdict::Passed
            } else {
                Verdict::OtherSum
            }
        }
    }
}
