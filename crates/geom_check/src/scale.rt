// Numbers of a file moved to the grid.
ghost use Rattle.std.specs.Prelude.{◌≡◌, ◌+◌, ◌*◌, ◌/◌, ◌^◌, ◌≤◌, ◌<◌, min, max, IfSome, IfNone};
ghost use Rattle.geom_check.specs.Shift.{IsScale, magnitude_at, nearest, grid_at, length_at, size_at, FitsAt, FitsRow};
ghost use Rattle.geom_check.specs.Placed.{IsReadableNumber, IsReadableIfAny, IsReadablePoint, place_of};

use crate::limits::MOST_UNITS;
use grid_geom::{LONGEST, Point};
use in2d_reader::PointRow;
use word_scan::Dec;

/// A unit is 10 ^ -`shift` of a file's lengths, and has 64 grid steps.
#[derive(Clone, Copy, Debug, PartialEq, Eq)]
pub struct Scale {
    pub shift: i32,
}

/// `size` * 10 ^ `exponent`, where that is at most `MOST_UNITS`.
fn units_up(size: u128, exponent: u32) -> Option<u64>
    requires { size < 10 ^ 30 }
    ensures fits { IfSome result (λ n. n ≡ size * 10 ^ exponent) }
    ensures small { IfSome result (λ n. n ≤ MOST_UNITS) }
    ensures too_large { IfNone result (MOST_UNITS < size * 10 ^ exponent) }
{
    if size == 0 {
        return Some(0);
    }
    // A size of at least 1 is past 2^14 from 10^5 on.
    if exponent > 4 {
        return None;
    }
    let units = size * 10u128.pow(exponent);
    if units > MOST_UNITS as u128 {
        None
    } else {
        Some(units as u64)
    }
}

/// `size` / 10 ^ `exponent`, rounded to the nearest whole number, halves upwards, where that is at
/// most `MOST_UNITS`.
fn units_down(size: u128, exponent: u32) -> Option<u64>
    requires { size < 10 ^ 30 }
    ensures fits { IfSome result (λ n. n ≡ nearest size (10 ^ exponent)) }
    ensures small { IfSome result (λ n. n ≤ MOST_UNITS) }
    ensures too_large { IfNone result (MOST_UNITS < nearest size (10 ^ exponent)) }
{
    // A size is below 10^30, so that less than half a unit is left from 10^32 on.
    if exponent > 31 {
        return Some(0);
    }
    let divisor = 10u128.pow(exponent);
    let rounded = (2 * size + divisor) / (2 * divisor);
    if rounded > MOST_UNITS as u128 {
        None
    } else {
        Some(rounded as u64)
    }
}

/// 64 * `size` * 10 ^ `exponent`, at least 1 and at most `LONGEST`.
fn length_up(size: u128, exponent: u32) -> u64
    requires { size < 10 ^ 30 }
    ensures { result ≡ max 1 (min LONGEST (64 * size * 10 ^ exponent)) }
{
    if size == 0 {
        return 1;
    }
    // 64 * 10^6 is past the greatest length.
    if exponent > 5 {
        return LONGEST;
    }
    (64 * size * 10u128.pow(exponent)).clamp(1, LONGEST as u128) as u64
}

/// 64 * `size` / 10 ^ `exponent`, rounded downwards, at least 1 and at most `LONGEST`.
fn length_down(size: u128, exponent: u32) -> u64
    requires { size < 10 ^ 30 }
    ensures { result ≡ max 1 (min LONGEST (64 * size / 10 ^ exponent)) }
{
    // A size is below 10^30, so that no grid step is left from 10^32 on.
    if exponent > 31 {
        return 1;
    }
    (64 * size / 10u128.pow(exponent)).clamp(1, LONGEST as u128) as u64
}

impl Scale {
    /// The absolute value of a number in units, rounded half away from zero, where that is at most
    /// `MOST_UNITS`.
    fn magnitude(&self, v: &Dec) -> Option<u64>
        requires number { IsReadableNumber v.now }
        requires scale { IsScale self.now }
        ensures fits { IfSome result (λ n. n ≡ magnitude_at self.now.shift v.now) }
        ensures small { IfSome result (λ n. n ≤ MOST_UNITS) }
        ensures too_large { IfNone result (MOST_UNITS < magnitude_at self.now.shift v.now) }
    {
        let size = v.digits.unsigned_abs();
        let exponent = v.scale + self.shift;
        if exponent >= 0 {
            units_up(size, exponent as u32)
        } else {
            units_down(size, exponent.unsigned_abs())
        }
    }

    /// A coordinate in grid steps, where it fits.
    pub fn coordinate(&self, v: &Dec) -> Option<i64>
        requires number { IsReadableNumber v.now }
        requires scale { IsScale self.now }
        ensures value { IfSome result (λ z. z ≡ grid_at self.now.shift v.now) }
        ensures fits { IfSome result (λ z. FitsAt self.now.shift v.now) }
        ensures too_large { IfNone result (MOST_UNITS < magnitude_at self.now.shift v.now) }
    {
        let steps = 64 * self.magnitude(v)? as i64;
        Some(if v.digits < 0 { -steps } else { steps })
    }

    /// A point on the grid, where both coordinates fit.
    pub fn place(&self, row: &PointRow) -> Option<Point>
        requires point { IsReadablePoint row.now }
        requires scale { IsScale self.now }
        ensures value { IfSome result (λ p. p ≡ place_of self.now.shift row.now) }
        ensures fits { IfSome result (λ p. FitsRow self.now.shift row.now) }
        ensures too_large { IfNone result (¬ FitsRow self.now.shift row.now) }
    {
        let x = self.coordinate(&row.x)?;
        let y = self.coordinate(&row.y)?;
        Some(Point { x, y })
    }

    /// A length in grid steps, rounded downwards: at least 1, and at most `LONGEST`.
    pub fn length(&self, v: &Dec) -> u64
        requires number { IsReadableNumber v.now }
        requires scale { IsScale self.now }
        ensures { result ≡ length_at self.now.shift v.now }
    {
        let size = v.digits.unsigned_abs();
        let exponent = v.scale + self.shift;
        if exponent >= 0 {
            length_up(size, exponent as u32)
        } else {
            length_down(size, exponent.unsigned_abs())
        }
    }

    /// A greatest size in grid steps. One of zero or below has no effect.
    pub fn size(&self, maxh: Option<Dec>) -> Option<u64>
        requires number { IsReadableIfAny maxh }
        requires scale { IsScale self.now }
        ensures { result ≡ size_at self.now.shift maxh }
    {
        let v = maxh?;
        if v.digits > 0 {
            Some(self.length(&v))
        } else {
            None
        }
    }
}
