// The grid place of a local place.
ghost use Rattle.std.specs.Prelude.{◌≡◌, ◌≤◌, ◌≤ℤ◌, ◌<ℤ◌, ◌+ℤ◌, ◌-ℤ◌, ◌*ℤ◌, pos, IfSome, IfNone};
ghost use Rattle.grid_geom.specs.Bounds.{IsOnGrid, IsWithin};
ghost use Rattle.rule_maps.specs.Fractions.{nearest};
ghost use Rattle.rule_maps.specs.Frame.{IsWay, IsFrame, dot};
ghost use Rattle.rule_maps.specs.Sums.{put_at};

use crate::frame::{Frame, OFFSET, TURN};
use crate::sums::{NUMERATOR, PlaceNumerators};
use grid_geom::{GRID, Point, round_div};

/// The greatest class of quality.
pub(crate) const CLASSES: u32 = 16;

// Bounds of the numbers on the way: how much a local place at the greatest class weighs, its numerator, that of a
// grid coordinate, and their denominator.
pub(crate) const WEIGHT: u32 = 2 * CLASSES - 1;

pub(crate) const MIXED: i128 = WEIGHT as i128 * NUMERATOR;

pub(crate) const TOP: i128 = 2 * OFFSET as i128 * MIXED;

pub(crate) const BOTTOM: i128 = 100_000_000 * WEIGHT as i128 * TURN as i128;

/// A quotient that is to be rounded.
#[derive(Clone, Copy, Debug, PartialEq, Eq)]
struct Quotient {
    top: i128,
    bottom: i128,
}

/// A quotient, rounded to the nearest whole number, halves upwards.
#[tactic(auto, using(crate::proofs::Putting::rounded_value, crate::proofs::Putting::rounded_small))]
fn rounded(offset: &Quotient) -> i128
    requires top { IsWithin TOP offset.now.top }
    requires positive { pos 0 <ℤ offset.now.bottom }
    requires bottom { offset.now.bottom ≤ℤ BOTTOM }
    ensures value { result ≡
        nearest (record { top = offset.now.top; bottom = offset.now.bottom }) }
    ensures small { IsWithin TOP result }
{
    round_div(offset.top, offset.bottom)
}

/// A coordinate and a rounded quotient, where their sum is on the grid.
fn coordinate(from: &i64, offset: &Quotient) -> Option<i64>
    requires from_on { IsWithin GRID from.now }
    requires top { IsWithin TOP offset.now.top }
    requires positive { pos 0 <ℤ offset.now.bottom }
    requires bottom { offset.now.bottom ≤ℤ BOTTOM }
    ensures some { IfSome result (λ z. z ≡ from.now +ℤ
        nearest (record { top = offset.now.top; bottom = offset.now.bottom })) }
    ensures on { IfSome result (IsWithin GRID) }
    ensures none { IfNone result (¬ IsWithin GRID (from.now +ℤ
        nearest (record { top = offset.now.top; bottom = offset.now.bottom }))) }
{
    let z = *from as i128 + rounded(offset);
    if -(GRID as i128) <= z && z <= GRID as i128 {
        Some(z as i64)
    } else {
        None
    }
}

/// How far a local place is from the line's start in x, times its denominator.
fn across(at: &PlaceNumerators, e: &Point) -> i128
    requires u { IsWithin MIXED at.now.u }
    requires v { IsWithin MIXED at.now.v }
    requires e { IsWay e.now }
    ensures value { result ≡ at.now.u *ℤ e.now.x -ℤ at.now.v *ℤ e.now.y }
    ensures small { IsWithin TOP result }
{
    at.u * e.x as i128 - at.v * e.y as i128
}

/// How far it is in y.
fn upward(at: &PlaceNumerators, e: &Point) -> i128
    requires u { IsWithin MIXED at.now.u }
    requires v { IsWithin MIXED at.now.v }
    requires e { IsWay e.now }
    ensures value { result ≡ at.now.u *ℤ e.now.y +ℤ at.now.v *ℤ e.now.x }
    ensures small { IsWithin TOP result }
{
    at.u * e.y as i128 + at.v * e.x as i128
}

/// The denominator of a coordinate.
fn denominator(f: &Frame, weight: u32) -> i128
    requires least { 1 ≤ weight }
    requires greatest { weight ≤ WEIGHT }
    ensures value { result ≡ pos 100000000 *ℤ pos weight *ℤ dot f.now.e f.now.e }
    ensures positive { pos 0 <ℤ result }
    ensures small { result ≤ℤ BOTTOM }
{
    100_000_000 * weight as i128 * f.square() as i128
}

/// The grid place of a local place over 10^8 `weight` q, where it is on the grid.
pub(crate) fn put(f: &Frame, at: &PlaceNumerators, weight: u32) -> Option<Point>
    requires u { IsWithin MIXED at.now.u }
    requires v { IsWithin MIXED at.now.v }
    requires least { 1 ≤ weight }
    requires greatest { weight ≤ WEIGHT }
    ensures some { IfSome result (λ p. p ≡
        put_at f.now at.now.u at.now.v (pos 100000000 *ℤ pos weight)) }
    ensures on { IfSome result IsOnGrid }
    ensures none { IfNone result (¬ IsOnGrid
        (put_at f.now at.now.u at.now.v (pos 100000000 *ℤ pos weight))) }
    ensures frame { IsFrame f.now }
{
    let (p1, e) = (f.p1(), f.e());
    let bottom = denominator(f, weight);
    let x = coordinate(
        &p1.x,
        &Quotient {
            top: across(at, &e),
            bottom,
        },
    )?;
    let y = coordinate(
        &p1.y,
        &Quotient {
            top: upward(at, &e),
            bottom,
        },
    )?;
    Some(Point { x, y })
}
