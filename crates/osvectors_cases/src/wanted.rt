ghost use Rattle.std.specs.Prelude.{◌≡◌, MatchOption, drop, false, length, string_bytes, true};
ghost use Rattle.std.specs.Option.{option_map};
ghost use Rattle.hex.specs.Hex.{decode_sized};
ghost use Rattle.osvectors_cases.specs.Wanted.{has_mark, sum as sum_output, sum_mark, sum_of_digits, sum_size, wanted_in, wanted_of};

use hex::FromHex;

/// What stands before a sum.
const SUM_MARK: &[u8] = b"sha256:";

/// How many bytes a sum has.
const SUM_SIZE: usize = 32;

/// The output that a case wants.
#[derive(Debug, Drop)]
pub enum Wanted {
    /// The bytes of the file with this name.
    File(String),
    /// Bytes with this SHA-256 sum.
    Sum([u8; SUM_SIZE]),
}

/// The digits of a sum, if a word has the mark of one.
fn digits_in(word: &[u8]) -> Option<&[u8]>
    ensures { MatchOption result (has_mark word.now ≡ false) (λ digits. (has_mark word.now ≡ true) × (digits.now ≡ drop (length sum_mark) word.now)) }
{
    word.strip_prefix(SUM_MARK)
}

/// The sum that digits are.
fn sum_in(digits: &[u8]) -> Option<[u8; SUM_SIZE]>
    ensures { sum_of_digits (decode_sized digits.now sum_size) ≡ option_map sum_output result }
{
    <[u8; SUM_SIZE] as FromHex>::from_hex(digits).ok()
}

/// The output that a word wants, if it is a name or a sum.
pub(crate) fn wanted_in(word: String) -> Option<Wanted>
    ensures { wanted_in (string_bytes word) ≡ option_map wanted_of result }
{
    match digits_in(word.as_bytes()) {
        Some(digits) => sum_in(digits).map(Wanted::Sum),
        None => Some(Wanted::File(word)),
    }
}
