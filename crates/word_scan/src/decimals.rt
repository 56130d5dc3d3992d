//! Decimals.

ghost use Rattle.std.specs.Prelude.{◌≡◌, ◌+◌, ◌*◌, ◌^◌, ◌≤◌, ◌<◌, ◌++◌, true, ℤ, pos, neg_ℤ, length, take, drop, IfSome, IfNone, Some, None, unsigned_abs, option_map};
ghost use Rattle.std.specs.Str.{all_ascii_digits};
ghost use Rattle.word_scan.specs.Numerals.{value_of};
ghost use Rattle.word_scan.specs.Decimals.{DecimalParts, IsDecimal, spelling, value, decimal_of, sign_at, digits_at, fraction_at, exponent_at, made_of, signed};

use crate::wholes::{are_digits, value_after};

/// The number `digits` * 10 ^ `scale`.
#[derive(Clone, Copy, Debug, PartialEq, Eq)]
pub struct Dec {
    pub digits: i128,
    pub scale: i32,
}

/// Whether a minus stands at the front, and what follows the sign, if there is one.
pub fn sign(bytes: &[u8]) -> (bool, &[u8])
    ensures { (result.0, result.1.now) ≡ sign_at bytes.now }
{
    match bytes {
        [b'-', rest @ ..] => (true, rest),
        [b'+', rest @ ..] => (false, rest),
        _ => (false, bytes),
    }
}

/// The digits at the front, and what follows them.
pub fn digits(bytes: &[u8]) -> (&[u8], &[u8])
    ensures value { (result.0.now, result.1.now) ≡ digits_at bytes.now }
    ensures digits { all_ascii_digits result.0.now ≡ true }
    ensures length { length result.0.now ≤ length bytes.now }
{
    let mut end = 0;
    while end < bytes.len() && bytes[end].is_ascii_digit() {
        end += 1;
    }
    bytes.split_at(end)
}

/// The digits behind the point, if one stands at the front, and what follows them.
pub fn fraction(bytes: &[u8]) -> (&[u8], &[u8])
    ensures value { (result.0.now, result.1.now) ≡ fraction_at bytes.now }
    ensures digits { all_ascii_digits result.0.now ≡ true }
{
    match bytes {
        [b'.', rest @ ..] => digits(rest),
        _ => (&[], bytes),
    }
}

/// The exponent that these bytes write, nought where there are none.
fn exponent(bytes: &[u8]) -> Option<i32>
    ensures value { result ≡ exponent_at bytes.now }
    ensures small { IfSome result (λ e. unsigned_abs e < 100) }
{
    match bytes {
        [] => Some(0),
        [b'e' | b'E', rest @ ..] => {
            let (negative, power) = sign(rest);
            if power.is_empty() || power.len() > 2 || !are_digits(power) {
                return None;
            }
            let power = value_after(0, power) as i32;
            Some(if negative { -power } else { power })
        }
        _ => None,
    }
}

/// The decimal that a word writes: an optional sign, 1 to 30 digits with at most one point, and an
/// optional exponent of one or two digits, in at most 40 bytes, with a scale from -99 to 99.
pub fn decimal(bytes: &[u8]) -> Option<Dec>
    ensures found { IfSome result
        (λ dec. (parts : DecimalParts) × IsDecimal parts × (bytes.now ≡ spelling parts) ×
        (dec ≡ value parts)) }
    ensures only { (parts : DecimalParts) → IsDecimal parts → bytes.now ≡ spelling parts →
        result ≡ Some (value parts) }
    ensures value { result ≡ decimal_of bytes.now }
{
    read(bytes)
}

#[tactic(auto, unfolding(crate::specs::Decimals::decimal_of))]
fn read(bytes: &[u8]) -> Option<Dec>
    ensures { result ≡ decimal_of bytes.now }
{
    if bytes.len() > 40 {
        return None;
    }
    let (negative, rest) = sign(bytes);
    let (front, rest) = digits(rest);
    let (behind, rest) = fraction(rest);
    let power = exponent(rest)?;
    made(negative, front, behind, power)
}

/// The decimal of a sign, digits before and behind the point, and an exponent.
fn made(negative: bool, front: &[u8], behind: &[u8], power: i32) -> Option<Dec>
    requires front { all_ascii_digits front.now ≡ true }
    requires behind { all_ascii_digits behind.now ≡ true }
    requires power { unsigned_abs power < 100 }
    ensures { result ≡ made_of negative front.now behind.now (Some power) }
{
    if front.len() > 30 || behind.len() > 30 {
        return None;
    }
    let count = front.len() + behind.len();
    let scale = power - behind.len() as i32;
    if count == 0 || count > 30 || scale.unsigned_abs() > 99 {
        return None;
    }
    Some(Dec {
        digits: with_sign(negative, joined(front, behind)),
        scale,
    })
}

/// The number that both runs of digits write, one after the other.
fn joined(front: &[u8], behind: &[u8]) -> u128
    requires front { all_ascii_digits front.now ≡ true }
    requires behind { all_ascii_digits behind.now ≡ true }
    requires few { length front.now + length behind.now ≤ 30 }
    ensures value { result ≡ value_of (front.now ++ behind.now) }
    ensures small { result < 10 ^ 30 }
{
    value_after(value_after(0, front), behind)
}

fn with_sign(negative: bool, size: u128) -> i128
    requires { size < 10 ^ 30 }
    ensures { result ≡ signed negative size }
{
    let size = size as i128;
    if negative { -size } else { size }
}
