// Winding numbers in the gaps of the strips between the heights of points.
//
// In a strip no segment begins, ends or crosses another. So the segments that pass it have one
// order from left to right at all its heights, and a winding number is the same all over a gap
// between two of them.
ghost use Rattle.std.specs.Prelude.{◌≡◌, ℕ, ℤ, ◌-◌, ◌+◌, ◌<◌, ◌≤◌, IsTrue, All, AllPairs, map, filter, length, take, IfOk, IfSome, IfNone, pos, ◌+ℤ◌, ◌-ℤ◌, ◌*ℤ◌};
ghost use Rattle.geom_check.specs.Risers.{passes, is_chosen, one_if, winding_of};
ghost use Rattle.geom_check.specs.RiserOrder.{over, under, IsRiserOnGrid, IsStripOnGrid, IsPassing, IsKey, IsFree, IsOrder, IsFaultyAfter, IsClear, IsSound, IsStripFault, IsSoundAll, IsLowestFault, HasLevels, IsLevelsOf, height_of, is_border, far, rises};
ghost use Rattle.geom_check.specs.Accepted.{IsZeroOrOne};
ghost use Rattle.grid_geom.specs.Bounds.{IsOnGrid};
ghost use Rattle.wind_law.specs.Grid.{IsEdgeOnGrid};
ghost use Rattle.std.specs.List.Sorted.{IsStrictlyIncreasing};

use crate::limits::{MOST_OVER, MOST_ROWS, MOST_UNDER, PARTS, WIDTH};
use crate::risers::{Passing, Riser};
use grid_geom::{Edge, GRID, Point, RatPoint};
use std::alloc::{AllocError as OutOfMemory, Global};

/// The heights between `low` and `high`.
#[derive(Clone, Copy, Debug, PartialEq, Eq)]
pub struct Strip {
    pub low: i64,
    pub high: i64,
}

/// A riser's place at the middle height of a strip: `over` / `under` grid steps from the left end
/// of the grid.
#[derive(Clone, Copy)]
pub struct Fraction {
    pub over: u64,
    pub under: u64,
}

/// How far a point is from the left end of the grid.
pub fn from_left(p: &Point) -> u64
    requires { IsOnGrid p.now }
    ensures value { pos result ≡ p.now.x +ℤ GRID }
    ensures small { result ≤ WIDTH }
{
    (p.x + GRID) as u64
}

/// Twice how far a riser's upper end is above the middle height of a strip.
fn above(strip: &Strip, riser: &Riser) -> u64
    requires strip { IsStripOnGrid strip.now }
    requires riser { IsRiserOnGrid riser.now }
    requires passing { IsPassing strip.now.low strip.now.high riser.now }
    ensures value { pos result ≡ pos 2 *ℤ riser.now.b.y -ℤ (strip.now.low +ℤ strip.now.high) }
    ensures positive { 0 < result }
    ensures small { result ≤ MOST_UNDER }
{
    (2 * riser.b.y - (strip.low + strip.high)) as u64
}

/// Twice how far a riser's lower end is below the middle height of a strip.
fn below(strip: &Strip, riser: &Riser) -> u64
    requires strip { IsStripOnGrid strip.now }
    requires riser { IsRiserOnGrid riser.now }
    requires passing { IsPassing strip.now.low strip.now.high riser.now }
    ensures value { pos result ≡ (strip.now.low +ℤ strip.now.high) -ℤ pos 2 *ℤ riser.now.a.y }
    ensures positive { 0 < result }
    ensures small { result ≤ MOST_UNDER }
{
    (strip.low + strip.high - 2 * riser.a.y) as u64
}

/// Where a riser crosses the middle height of a strip.
pub fn place_in(strip: &Strip, riser: &Riser) -> Fraction
    requires strip { IsStripOnGrid strip.now }
    requires riser { IsRiserOnGrid riser.now }
    requires passing { IsPassing strip.now.low strip.now.high riser.now }
    ensures over { pos result.over ≡ over (strip.now.low +ℤ strip.now.high) riser.now }
    ensures under { pos result.under ≡ under riser.now }
    ensures over_small { result.over ≤ MOST_OVER }
    ensures under_small { result.under ≤ MOST_UNDER }
    ensures positive { 0 < result.under }
{
    let (above, below) = (above(strip, riser), below(strip, riser));
    Fraction {
        over: from_left(&riser.a) * above + from_left(&riser.b) * below,
        under: above + below,
    }
}

/// A riser that passes a strip, with the key of its place.
pub fn passing_at(strip: &Strip, riser: &Riser) -> Passing
    requires strip { IsStripOnGrid strip.now }
    requires riser { IsRiserOnGrid riser.now }
    requires passing { IsPassing strip.now.low strip.now.high riser.now }
    ensures riser { result.riser ≡ riser.now }
    ensures key { IsKey (strip.now.low +ℤ strip.now.high) riser.now result.key }
{
    let place = place_in(strip, riser);
    Passing {
        key: place.over as u128 * PARTS / place.under as u128,
        riser: *riser,
    }
}

/// Whether a riser goes from one side of a strip to the other.
pub fn does_pass(strip: &Strip, riser: &Riser) -> bool
    ensures { result ≡ passes strip.now.low strip.now.high riser.now }
{
    riser.a.y <= strip.low && strip.high <= riser.b.y
}

/// The risers that pass a strip, in the order of the list.
fn gathered(alloc: Global, risers: &[Riser], strip: &Strip) -> Result<Vec<Passing>, OutOfMemory>
    requires strip { IsStripOnGrid strip.now }
    requires risers { All IsRiserOnGrid risers.now }
    ensures passing { IfOk result (λ v. All
        (λ p. IsPassing strip.now.low strip.now.high p.riser) v.items) }
    ensures keys { IfOk result (λ v. All
        (λ p. IsKey (strip.now.low +ℤ strip.now.high) p.riser p.key) v.items) }
    ensures risers { IfOk result (λ v. map
        (λ p. p.riser) v.items ≡ filter (passes strip.now.low strip.now.high) risers.now) }
{
    let mut gathered = Vec::new(alloc);
    for riser in risers {
        if does_pass(strip, riser) {
            gathered.push(passing_at(strip, riser))?;
        }
    }
    Ok(gathered)
}

/// The risers that pass a strip, from left to right.
fn passing(alloc: Global, risers: &[Riser], strip: &Strip) -> Result<Vec<Passing>, OutOfMemory>
    requires strip { IsStripOnGrid strip.now }
    requires risers { All IsRiserOnGrid risers.now }
    requires free { AllPairs IsFree risers.now }
    ensures { IfOk result (λ v. IsOrder strip.now.low strip.now.high risers.now v.items) }
{
    let mut passing = gathered(alloc, risers, strip)?;
    passing.sort_unstable_by_key(|p| p.key);
    Ok(passing)
}

/// Whether a domain is the chosen one; where none is chosen, whether it is one at all.
fn chooses(chosen: Option<u32>, domain: u32) -> bool
    ensures { result ≡ is_chosen chosen domain }
{
    match chosen {
        Some(number) => domain == number,
        None => domain > 0,
    }
}

/// 1 for a chosen domain, else 0.
fn counts(chosen: Option<u32>, domain: u32) -> usize
    ensures value { result ≡ one_if (is_chosen chosen domain) }
    ensures small { result ≤ 1 }
{
    chooses(chosen, domain) as usize
}

/// The first of the risers, from left to right, on whose right the winding number of the chosen
/// domains is neither 0 nor 1.
fn faulty(passing: &[Passing], chosen: Option<u32>) -> Option<usize>
    ensures found { IfSome result (λ j. IsFaultyAfter (is_chosen chosen) passing.now j) }
    ensures none { IfNone result ((i : ℕ) → i ≤ length passing.now →
        IsZeroOrOne (rises (is_chosen chosen) (take i passing.now))) }
{
    let (mut easts, mut wests) = (0, 0);
    for (j, p) in passing.iter().enumerate() {
        easts += counts(chosen, p.riser.east);
        wests += counts(chosen, p.riser.west);
        if easts != wests && easts != wests + 1 {
            return Some(j);
        }
    }
    None
}

/// The first riser of a strip, from left to right, on whose right the winding number of the chosen
/// domains is neither 0 nor 1.
fn strip_fault(
    alloc: Global,
    risers: &[Riser],
    strip: &Strip,
    chosen: Option<u32>,
) -> Result<Option<Passing>, OutOfMemory>
    requires strip { IsStripOnGrid strip.now }
    requires risers { All IsRiserOnGrid risers.now }
    requires free { AllPairs IsFree risers.now }
    requires clear { All (IsClear strip.now.low strip.now.high) risers.now }
    requires balanced { winding_of (is_chosen chosen)
        (far (strip.now.low +ℤ strip.now.high)) risers.now ≡ pos 0 }
    ensures found { IfOk result
        (λ found. IfSome found (IsStripFault strip.now.low strip.now.high
        (is_chosen chosen) risers.now)) }
    ensures none { IfOk result
        (λ found. IfNone found (IsSound strip.now.low strip.now.high
        (is_chosen chosen) risers.now)) }
{
    let order = passing(alloc, risers, strip)?;
    match faulty(&order, chosen) {
        Some(j) => Ok(Some(order[j])),
        None => Ok(None),
    }
}

/// The risers at which the winding number of the chosen domains changes.
pub fn borders(
    alloc: Global,
    risers: &[Riser],
    chosen: Option<u32>,
) -> Result<Vec<Riser>, OutOfMemory>
    ensures { IfOk result (λ v. v.items ≡ filter (is_border (is_chosen chosen)) risers.now) }
{
    let mut borders = Vec::new(alloc);
    for riser in risers {
        if counts(chosen, riser.west) != counts(chosen, riser.east) {
            borders.push(*riser)?;
        }
    }
    Ok(borders)
}

/// The strip between two successive levels.
pub fn strip_at(levels: &[u64], i: usize) -> Strip
    requires in_list { i < length levels.now }
    requires first { 0 < i }
    requires small { All (λ n. n ≤ WIDTH) levels.now }
    ensures low { result.low ≡ height_of levels.now (i - 1) }
    ensures high { result.high ≡ height_of levels.now i }
{
    Strip {
        low: levels[i - 1] as i64 - GRID,
        high: levels[i] as i64 - GRID,
    }
}

/// The lowest strip with a fault, and the first riser of it with one on its right.
pub fn lowest_fault(
    alloc: Global,
    levels: &[u64],
    risers: &[Riser],
    chosen: Option<u32>,
) -> Result<Option<(Strip, Passing)>, OutOfMemory>
    requires increasing { IsStrictlyIncreasing levels.now }
    requires small { All (λ n. n ≤ WIDTH) levels.now }
    requires levels { All (HasLevels levels.now) risers.now }
    requires risers { All IsRiserOnGrid risers.now }
    requires free { AllPairs IsFree risers.now }
    requires balanced { (y : ℤ) → winding_of (is_chosen chosen) (far y) risers.now ≡ pos 0 }
    ensures found { IfOk result (λ found. IfSome found
        (λ fault. IsLowestFault levels.now (is_chosen chosen) risers.now fault.0 fault.1)) }
    ensures none { IfOk result (λ found. IfNone found (IsSoundAll (is_chosen chosen) risers.now)) }
{
    for i in 1..levels.len() {
        let strip = strip_at(levels, i);
        if let Some(left) = strip_fault(alloc, risers, &strip, chosen)? {
            return Ok(Some((strip, left)));
        }
    }
    Ok(None)
}

/// The height of a point above the bottom of the grid.
pub fn level(p: &Point) -> u64
    requires { IsOnGrid p.now }
    ensures value { pos result ≡ p.now.y +ℤ GRID }
    ensures small { result ≤ WIDTH }
{
    (p.y + GRID) as u64
}

/// The heights of the ends of edges, in their order.
fn all_levels(alloc: Global, edges: &[Edge]) -> Result<Vec<u64>, OutOfMemory>
    requires on_grid { All IsEdgeOnGrid edges.now }
    requires few { length edges.now ≤ MOST_ROWS }
    ensures { IfOk result (λ v. IsLevelsOf edges.now (length edges.now) v.items) }
{
    let mut levels = Vec::with_capacity(alloc, 2 * edges.len())?;
    for edge in edges {
        levels.push(level(&edge.a))?;
        levels.push(level(&edge.b))?;
    }
    Ok(levels)
}

/// The different heights of the ends of edges above the bottom of the grid, rising.
pub fn levels(alloc: Global, edges: &[Edge]) -> Result<Vec<u64>, OutOfMemory>
    requires on_grid { All IsEdgeOnGrid edges.now }
    requires few { length edges.now ≤ MOST_ROWS }
    ensures increasing { IfOk result (λ v. IsStrictlyIncreasing v.items) }
    ensures levels { IfOk result (λ v. IsLevelsOf edges.now (length edges.now) v.items) }
{
    let mut levels = all_levels(alloc, edges)?;
    levels.sort_unstable();
    levels.dedup();
    Ok(levels)
}
