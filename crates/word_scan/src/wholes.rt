//! Whole numbers, and what digits write.

ghost use Rattle.std.specs.Prelude.{◌≡◌, ◌+◌, ◌*◌, ◌^◌, ◌≤◌, length, true, IfSome, Some};
ghost use Rattle.std.specs.Str.{all_ascii_digits};
ghost use Rattle.std.specs.Str.Parse.{digits_value_after};
ghost use Rattle.word_scan.specs.Numerals.{IsWhole, value_of, whole_of};

/// Whether each byte is a digit.
pub fn are_digits(bytes: &[u8]) -> bool
    ensures { result ≡ all_ascii_digits bytes.now }
{
    for byte in bytes {
        if !byte.is_ascii_digit() {
            return false;
        }
    }
    true
}

/// The number that the digits write when they follow those of `start`.
pub fn value_after(start: u128, digits: &[u8]) -> u128
    requires digits { all_ascii_digits digits.now ≡ true }
    requires room { (start + 1) * 10 ^ length digits.now ≤ 10 ^ 30 }
    ensures value { result ≡ digits_value_after 10 start digits.now }
    ensures room { (result + 1) ≤ (start + 1) * 10 ^ length digits.now }
{
    let mut value = start;
    for digit in digits {
        value = value * 10 + u128::from(*digit - b'0');
    }
    value
}

/// The whole number that a word writes: one to thirteen digits, at most `greatest`.
pub fn whole(bytes: &[u8], greatest: u64) -> Option<u64>
    ensures some { IfSome result
        (λ n. IsWhole bytes.now × (n ≡ value_of bytes.now) × (n ≤ greatest)) }
    ensures only { IsWhole bytes.now → value_of bytes.now ≤ greatest →
        result ≡ Some (value_of bytes.now) }
    ensures value { result ≡ whole_of bytes.now greatest }
{
    if bytes.is_empty() || bytes.len() > 13 || !are_digits(bytes) {
        return None;
    }
    let value = value_after(0, bytes);
    if value <= u128::from(greatest) {
        Some(value as u64)
    } else {
        None
    }
}
