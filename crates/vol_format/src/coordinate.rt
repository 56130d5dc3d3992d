//! The coordinate that a decimal is.

ghost use Rattle.std.specs.Prelude.{◌≡◌, ◌*◌, ◌^◌, ◌≤◌, ◌<◌, IfSome, pos, ◌+ℤ◌, unsigned_abs};
ghost use Rattle.word_scan.specs.Decimals.{signed};
ghost use Rattle.grid_geom.specs.declared.TheConstants.{GRID};
ghost use Rattle.vol_format.specs.Reading.{divided, steps_of, place_of};

use word_scan::Dec;

/// A grid step in units of the last decimal of a coordinate.
const STEP: u128 = 15_625;

/// `up` / `down`, where that is whole and at most the greatest.
fn divided(up: u128, down: u128, greatest: u64) -> Option<u64>
    requires { 0 < down }
    ensures value { result ≡ divided greatest up down }
    ensures small { IfSome result (λ steps. steps ≤ greatest) }
{
    let steps = up / down;
    if up % down == 0 && steps <= greatest as u128 {
        Some(steps as u64)
    } else {
        None
    }
}

/// The grid steps of so many units of the last decimal, times ten to the power.
fn raised(size: u128, power: u64, greatest: u64) -> Option<u64>
    requires { greatest ≤ unsigned_abs GRID }
    ensures value { result ≡ divided greatest (size * 10 ^ power) 15625 }
    ensures small { IfSome result (λ steps. steps ≤ greatest) }
{
    if size == 0 {
        return divided(0, STEP, greatest);
    }
    // Ten to the power of 12 units are more than the grid has.
    if power > 11 || size >= 1_000_000_000_000 {
        return None;
    }
    divided(size * 10u128.pow(power as u32), STEP, greatest)
}

/// The grid steps of so many units of the last decimal, divided by ten to the power.
fn lowered(size: u128, power: u64, greatest: u64) -> Option<u64>
    ensures value { result ≡ divided greatest size (15625 * 10 ^ power) }
    ensures small { IfSome result (λ steps. steps ≤ greatest) }
{
    if size == 0 {
        return divided(0, STEP, greatest);
    }
    // No number of 128 bits has that many noughts at its end.
    if power > 34 {
        return None;
    }
    divided(size, STEP * 10u128.pow(power as u32), greatest)
}

/// The power of ten that a decimal has in units of the last decimal of a coordinate.
fn power_of(d: &Dec, places: u32) -> i64
    requires { places ≤ 14 }
    ensures value { result ≡ d.now.scale +ℤ pos places }
    ensures small { unsigned_abs result ≤ 2 ^ 32 }
{
    d.scale as i64 + places as i64
}

fn size_of(d: &Dec) -> u128
    ensures { result ≡ unsigned_abs d.now.digits }
{
    d.digits.unsigned_abs()
}

/// The grid steps of a decimal without its sign, where coordinates have so many decimals.
fn steps(d: &Dec, places: u32, greatest: u64) -> Option<u64>
    requires few { places ≤ 14 }
    requires small { greatest ≤ unsigned_abs GRID }
    ensures value { result ≡ steps_of places greatest d.now }
    ensures small { IfSome result (λ steps. steps ≤ greatest) }
{
    let power = power_of(d, places);
    if power >= 0 {
        raised(size_of(d), power.unsigned_abs(), greatest)
    } else {
        lowered(size_of(d), power.unsigned_abs(), greatest)
    }
}

fn with_sign(negative: bool, steps: u64) -> i64
    requires { steps ≤ unsigned_abs GRID }
    ensures { result ≡ signed negative steps }
{
    let steps = steps as i64;
    if negative { -steps } else { steps }
}

/// The coordinate that a decimal is, up to the greatest, where coordinates have so many decimals.
pub fn place(d: &Dec, places: u32, greatest: u64) -> Option<i64>
    requires few { places ≤ 14 }
    requires small { greatest ≤ unsigned_abs GRID }
    ensures { result ≡ place_of places greatest d.now }
{
    let steps = steps(d, places, greatest)?;
    Some(with_sign(d.digits < 0, steps))
}
