//! The numbers of a rule.

ghost use Rattle.std.specs.Prelude.{◌≡◌, ◌≤◌, ◌<◌, ◌^◌, IfSome, unsigned_abs};
ghost use Rattle.rule_reader.specs.Numbers.{digit_count, rounded, places_of, number_of, with_sign};

use word_scan::{Dec, decimal};

/// The greatest size of a coordinate or a coefficient, in units of 1/10,000.
pub const GREATEST: u64 = 160_000;
/// The greatest size of a weight of a tolerance, in units of 1/10,000.
pub const GREATEST_WEIGHT: u64 = 10_000_000;

/// How many digits there are.
fn digit_count(bytes: &[u8]) -> usize
    ensures { result ≡ digit_count bytes.now }
{
    bytes.iter().filter(|byte| byte.is_ascii_digit()).count()
}

/// The number of units of 1/10,000 nearest to size / 10^places, halves upwards.
fn rounded(size: u128, places: u32) -> u128
    requires small { size < 10 ^ 30 }
    requires few { places ≤ 20 }
    ensures { result ≡ rounded size places }
{
    let unit = 10u128.pow(places);
    (2 * size * 10_000 + unit) / (2 * unit)
}

/// How many decimals there are, where it is none to twenty.
fn places(dec: Dec) -> Option<u32>
    ensures value { result ≡ places_of dec.scale }
    ensures few { IfSome result (λ places. places ≤ 20) }
{
    if dec.scale > 0 || dec.scale < -20 {
        return None;
    }
    Some(dec.scale.unsigned_abs())
}

/// A decimal's digits without its sign.
fn size(dec: Dec) -> u128
    ensures { result ≡ unsigned_abs dec.digits }
{
    dec.digits.unsigned_abs()
}

/// A number of this size with the sign of a decimal.
fn with_sign(dec: Dec, size: u32) -> i32
    requires { size ≤ 10000000 }
    ensures { result ≡ with_sign dec.digits size }
{
    let size = size as i32;
    if dec.digits < 0 { -size } else { size }
}

/// The number that is written, in units of 1/10,000, where it has at most 20 digits and its size is
/// at most the greatest. It is rounded to four decimals, halves away from zero.
#[tactic(auto, unfolding(crate::specs::Numbers::number_of))]
pub fn rule_number(bytes: &[u8], greatest: u64) -> Option<i32>
    requires { greatest ≤ 10000000 }
    ensures { result ≡ number_of greatest bytes.now }
{
    if digit_count(bytes) > 20 {
        return None;
    }
    let dec = decimal(bytes)?;
    let places = places(dec)?;
    let size = rounded(size(dec), places);
    if size > u128::from(greatest) {
        return None;
    }
    Some(with_sign(dec, size as u32))
}
