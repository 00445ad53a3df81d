ghost use Rattle.std.specs.Prelude.{◌≡◌, ◌^◌, ◌<◌, IfSome, IfNone, ℕ};
ghost use Rattle.std.specs.Fmt.{decimal};

/// Reads a number below 2 ^ 32 that stands in decimals as programs write them: digits alone, without leading zeros and without a sign. None for all
/// other bytes. It takes no memory.
pub fn parse_decimal(digits: &[u8]) -> Option<u32>
    ensures some { IfSome result (λ number. (number < 2 ^ 32) × (digits.now ≡ decimal number)) }
    ensures none { IfNone result ((number : ℕ) → number < 2 ^ 32 → digits.now ≡ decimal number → ⊥) }
{
    let [first, others @ ..] = digits else {
        return None;
    };
    // what is read below may have a plus in front
    if *first == b'+' {
        return None;
    }
    // and zeros
    if *first == b'0' && !others.is_empty() {
        return None;
    }
    let Ok(text) = str::from_utf8(digits) else {
        return None;
    };
    let Ok(number) = u32::from_str_radix(text, 10) else {
        return None;
    };
    Some(number)
}
