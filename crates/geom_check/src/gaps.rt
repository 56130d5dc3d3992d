// The gaps of the strips: the middle of the first one with a fault.
ghost use Rattle.std.specs.Prelude.{◌≡◌, ℕ, ℤ, ◌<◌, ◌≤◌, true, false, All, AllPairs, Contains, Option, length, IfOk, IfSome, IfNone, MatchOption, pos, ◌+ℤ◌, ◌-ℤ◌, ◌*ℤ◌, ◌^◌};
ghost use Rattle.std.specs.List.Sorted.{IsStrictlyIncreasing};
ghost use Rattle.geom_check.specs.Accepted.{IsZeroOrOne};
ghost use Rattle.geom_check.specs.Gaps.{IsDivisor, IsLeastAt, HasEnd, IsGapEnd, IsGapAfter, from_corner, middle};
ghost use Rattle.geom_check.specs.Risers.{is_chosen, winding_of, AreRisersOf};
ghost use Rattle.geom_check.specs.RiserOrder.{IsRiserOnGrid, IsStripOnGrid, IsPassing, IsKey, IsFree, IsSoundAll, HasLevels, IsLevelsOf, far};
ghost use Rattle.geom_check.specs.Strips.{IsWitness};

use crate::limits::{MOST_ACROSS, MOST_COMMON, MOST_UNDER, WIDTH};
use crate::risers::{Passing, Riser};
use crate::strips::{Strip, borders, does_pass, lowest_fault, passing_at, place_in};
use grid_geom::{Edge, GRID, RatPoint};
use std::alloc::{AllocError as OutOfMemory, Global};

/// The greatest common divisor of two numbers.
fn divisor(a: u128, b: u128) -> u128
    ensures { IsDivisor a b result }
{
    if b == 0 { a } else { divisor(b, a % b) }
}

/// A coordinate counted from the middle of the grid: that of a place `n` / `k` grid steps from its
/// end.
fn from_middle(n: u128, k: u128) -> i128
    requires n_small { n ≤ MOST_ACROSS }
    requires k_small { k ≤ MOST_COMMON }
    ensures { result ≡ pos n -ℤ GRID *ℤ pos k }
{
    n as i128 - GRID as i128 * k as i128
}

/// The place x / k grid steps to the right of the lower left corner of the grid and y / k above it,
/// with the least denominator.
fn reduced(x: u128, y: u128, k: u128) -> RatPoint
    requires positive { 0 < k }
    requires x_small { x ≤ MOST_ACROSS }
    requires y_small { y ≤ MOST_ACROSS }
    requires k_small { k ≤ MOST_COMMON }
    ensures { IsLeastAt (from_corner x y k) result }
{
    let common = divisor(divisor(x, y), k);
    let k = k / common;
    RatPoint {
        x: from_middle(x / common, k),
        y: from_middle(y / common, k),
        k: k as i128,
    }
}

/// Twice how far the middle height of a strip is above the bottom of the grid.
fn height(strip: &Strip) -> u64
    requires { IsStripOnGrid strip.now }
    ensures value { pos result ≡ strip.now.low +ℤ strip.now.high +ℤ pos WIDTH }
    ensures small { result ≤ MOST_UNDER }
{
    (strip.low + strip.high + 2 * GRID) as u64
}

/// The middle between two risers at the middle height of a strip, with the least denominator.
fn middle_between(strip: &Strip, left: &Riser, right: &Riser) -> RatPoint
    requires strip { IsStripOnGrid strip.now }
    requires left { IsRiserOnGrid left.now }
    requires right { IsRiserOnGrid right.now }
    requires left_passing { IsPassing strip.now.low strip.now.high left.now }
    requires right_passing { IsPassing strip.now.low strip.now.high right.now }
    ensures { IsLeastAt (middle (strip.now.low +ℤ strip.now.high) left.now right.now) result }
{
    let (left, right) = (place_in(strip, left), place_in(strip, right));
    let parts = left.under as u128 * right.under as u128;
    let across = left.over as u128 * right.under as u128 + right.over as u128 * left.under as u128;
    reduced(across, height(strip) as u128 * parts, 2 * parts)
}

/// Whether a riser that passes a strip is nearer from the left than the nearest so far.
fn is_nearer(p: &Passing, nearest: &Option<Passing>) -> bool
    ensures nearer { result ≡ true → IfSome nearest.now (λ n. p.now.key ≤ n.key) }
    ensures farther { result ≡ false → MatchOption nearest.now ⊥ (λ n. n.key ≤ p.now.key) }
{
    match nearest {
        Some(n) => p.key < n.key,
        None => true,
    }
}

/// The nearest riser that passes a strip to the right of another: among all risers, since gaps end
/// at each, while a fault is found at those alone where a winding number changes.
fn gap_end(strip: &Strip, risers: &[Riser], left: &Passing) -> Option<Passing>
    requires strip { IsStripOnGrid strip.now }
    requires risers { All IsRiserOnGrid risers.now }
    ensures { IsGapEnd strip.now.low strip.now.high risers.now (length risers.now) left.now result }
{
    let mut nearest = None;
    for riser in risers {
        if does_pass(strip, riser) {
            let p = passing_at(strip, riser);
            if left.key < p.key && is_nearer(&p, &nearest) {
                nearest = Some(p);
            }
        }
    }
    nearest
}

/// The middle of the gap to the right of a riser that passes a strip, where one passes it further
/// right.
fn gap_middle(strip: &Strip, risers: &[Riser], left: &Passing) -> RatPoint
    requires strip { IsStripOnGrid strip.now }
    requires risers { All IsRiserOnGrid risers.now }
    requires left { IsRiserOnGrid left.now.riser }
    requires passing { IsPassing strip.now.low strip.now.high left.now.riser }
    requires end { HasEnd strip.now.low strip.now.high risers.now left.now }
    ensures { IsGapAfter strip.now.low strip.now.high risers.now left.now result }
{
    match gap_end(strip, risers, left) {
        Some(right) => middle_between(strip, &left.riser, &right.riser),
        None => unreachable!(),
    }
}

/// The middle of the leftmost gap of the lowest strip in which the winding number of the chosen
/// domains is neither 0 nor 1, with the least denominator.
pub fn first_fault(
    alloc: Global,
    edges: &[Edge],
    levels: &[u64],
    risers: &[Riser],
    chosen: Option<u32>,
) -> Result<Option<RatPoint>, OutOfMemory>
    requires increasing { IsStrictlyIncreasing levels.now }
    requires heights { IsLevelsOf edges.now (length edges.now) levels.now }
    requires levels { All (HasLevels levels.now) risers.now }
    requires risers { All IsRiserOnGrid risers.now }
    requires free { AllPairs IsFree risers.now }
    requires of_edges { AreRisersOf edges.now risers.now }
    requires balanced { (y : ℤ) → winding_of (is_chosen chosen) (far y) risers.now ≡ pos 0 }
    ensures found { IfOk result (λ found. IfSome found (IsWitness
        (λ q. ¬ IsZeroOrOne (winding_of (is_chosen chosen) q risers.now)) edges.now)) }
    ensures none { IfOk result (λ found. IfNone found (IsSoundAll (is_chosen chosen) risers.now)) }
{
    let borders = borders(alloc, risers, chosen)?;
    match lowest_fault(alloc, levels, &borders, chosen)? {
        Some((strip, left)) => Ok(Some(gap_middle(&strip, risers, &left))),
        None => Ok(None),
    }
}
