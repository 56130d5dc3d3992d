//! Places of the grid in the lengths of a file.

ghost use Rattle.std.specs.Prelude.{◌≤◌};

use crate::rows::{Walk, is_flag};
use std::alloc::AllocError;
use std::fmt::Write;
use text_rows::write_fixed;
use word_scan::{Dec, Scanner, Style, decimal};

/// The place (x/k, y/k) in grid steps.
#[derive(Clone, Copy, Debug)]
pub(crate) struct Place {
    pub x: i128,
    pub y: i128,
    pub k: i128,
}

/// Whether a coordinate fits the grid at a shift: times 10^shift and rounded it is at most 16,384.
fn fits(number: &Dec, shift: i32) -> bool {
    let size = number.digits.unsigned_abs();
    let exponent = number.scale.saturating_add(shift);
    let Some(power) = 10u128.checked_pow(exponent.unsigned_abs()) else {
        return exponent < 0 || size == 0;
    };
    if exponent >= 0 {
        return size.checked_mul(power).is_some_and(|n| n <= 16_384);
    }
    match (size.checked_div(power), size.checked_rem(power)) {
        (Some(whole), Some(rest)) => whole < 16_384 || whole == 16_384 && rest < power / 2,
        _ => false,
    }
}

/// The finest shift, from 8 down to -6, at which each coordinate of a point fits.
fn shift_of(text: &[u8]) -> i32 {
    let mut shift = 8;
    let mut walk = Walk::new();
    let mut scanner = Scanner::new(text, Style::Spaced);
    while let Ok(word) = scanner.next() {
        let bytes = scanner.bytes(word);
        if !is_flag(bytes) {
            walk = walk.after(bytes);
            if walk.is_coordinate() {
                shift = decimal(bytes).map_or(shift, |number| fitting(&number, shift));
            }
        }
    }
    shift
}

/// The finest shift, from this one down to -6, at which a coordinate fits.
fn fitting(number: &Dec, from: i32) -> i32 {
    for less in 0..14 {
        let shift = from.saturating_sub(less);
        if shift <= -6 || fits(number, shift) {
            return shift;
        }
    }
    from
}

/// Writes a place in the lengths of the file: 64 grid steps are 10^-shift of them.
pub(crate) fn write_place(text: &mut String, file: &[u8], place: &Place) -> Result<(), AllocError> {
    let places = shift_of(file).saturating_add(6).unsigned_abs().min(14);
    text.push_str("(")?;
    write_length(text, place.x, place.k, places)?;
    text.push_str(", ")?;
    write_length(text, place.y, place.k, places)?;
    text.push_str(")")
}

/// Writes x/k grid steps with so many decimals, rounded towards zero.
fn write_length(text: &mut String, x: i128, k: i128, places: u32) -> Result<(), AllocError>
    requires { places ≤ 38 }
{
    match x
        .checked_mul(15_625)
        .and_then(|product| product.checked_div(k))
    {
        Some(length) => write_fixed(text, &length, places),
        None => write!(text, "{x}/{k} grid steps"),
    }
}
