//! How far rules reach up to a class, and the box of all that they use on a front line.

ghost use Rattle.std.specs.Prelude.{ℕ, ◌≡◌, ◌≤◌, Some, is_some, true, ◌+ℤ◌, ◌-ℤ◌, IfOk};
ghost use Rattle.std.specs.Int.{int_max, int_min};
ghost use Rattle.std.specs.List.{AllByRecursion};
ghost use Rattle.grid_geom.specs.Bounds.{IsOnGrid, IsWithin};
ghost use Rattle.front_chain.specs.Front.{line_at};
ghost use Rattle.rule_maps.specs.Inert.{IsLive};
ghost use Rattle.rule_match.specs.Near.{widening, IsCoveredAt, IsCoveredBy, IsReachBox, whole_grid};

use super::OutOfMemory;
use super::base::frame_of;
use super::leeways::leeways_at;
use front_chain::Front;
use grid_geom::{Bounds, GRID, Point};
use rule_maps::{Compiled, Frame, RuleSet};
use size_field::Sizes;
use std::alloc::Global;

/// The least number that covers a live rule with the leeways of the class.
fn reach_of_live(alloc: Global, compiled: &Compiled<'_>, class: u32) -> Result<u64, OutOfMemory>
    requires { IsLive compiled.now }
    ensures covers { IfOk result (λ n. IsCoveredAt class n compiled.now) }
    ensures no_greater { IfOk result (λ n. (m : ℕ) → IsCoveredBy m compiled.now → n ≤ m) }
{
    let rule = compiled.rule();
    let leeways = leeways_at(alloc, class, rule.points.as_slice())?;
    Ok(compiled.reach_by(&leeways))
}

/// A number that covers the rule up to the class: any where it never applies, or is of a quality above the
/// class, since it has no candidate then.
fn reach_at(alloc: Global, compiled: &Compiled<'_>, class: u32) -> Result<u64, OutOfMemory>
    ensures covers { IfOk result (λ n. IsCoveredAt class n compiled.now) }
    ensures no_greater { IfOk result (λ n. (m : ℕ) → IsCoveredBy m compiled.now → n ≤ m) }
{
    let rule = compiled.rule();
    if class < rule.quality {
        return Ok(0);
    }
    match compiled.inert() {
        Some(_) => Ok(0),
        None => reach_of_live(alloc, compiled, class),
    }
}

/// How far the rules reach up to a class: each of them is covered there by the answer, which is no greater than
/// a number that covers them at all classes. It takes memory for the leeways of one rule.
pub fn greatest_reach_at(alloc: Global, rules: &RuleSet<'_>, class: u32) -> Result<u64, OutOfMemory>
    ensures covers { IfOk result (λ n. AllByRecursion (IsCoveredAt class n) rules.now) }
    ensures no_greater { IfOk result (λ n. (m : ℕ) →
        AllByRecursion (IsCoveredBy m) rules.now → n ≤ m) }
{
    let mut greatest = 0;
    for k in 0..rules.count() {
        greatest = reach_at(alloc, rules.get(k + 1), class)?.max(greatest);
    }
    Ok(greatest)
}

/// The grid's width, in grid steps: no place on the grid is farther from another.
pub const WIDTH: i64 = 2 * GRID;

/// How far the reach of a line goes beyond its start, but at most the grid's width, in grid steps.
#[derive(Clone, Copy)]
struct Widening {
    steps: i64,
}

/// How far the reach of a line with this frame goes beyond its start, but at most the grid's width. A height is
/// at least 1, so a number above `GRID` goes beyond all of the grid as `GRID` does.
fn widening_on_grid(frame: &Frame, reach: u64) -> Widening
    ensures value { result.steps ≡ int_min (widening reach frame.now) WIDTH }
    ensures within { IsWithin WIDTH result.steps }
{
    let reach = reach.min(GRID as u64) as i64;
    let high = frame.h() as i64;
    Widening {
        steps: (2 * reach * high + 1).min(WIDTH),
    }
}

/// The least coordinate on the grid that is so far from a place on it at most.
fn least_within(at: &i64, far: &Widening) -> i64
    requires at { IsWithin GRID at.now }
    requires far { IsWithin WIDTH far.now.steps }
    ensures { result ≡ int_max (at.now -ℤ far.now.steps) whole_grid.lo.x }
{
    (at - far.steps).max(-GRID)
}

/// The greatest coordinate on the grid that is so far from a place on it at most.
fn greatest_within(at: &i64, far: &Widening) -> i64
    requires at { IsWithin GRID at.now }
    requires far { IsWithin WIDTH far.now.steps }
    ensures { result ≡ int_min (at.now +ℤ far.now.steps) whole_grid.hi.x }
{
    (at + far.steps).min(GRID)
}

/// The box of the reach of the front line with this number, cut off at the grid. `reach` covers the rules.
pub fn reach_box(front: &Front, sizes: &Sizes, line: u64, reach: u64) -> Bounds
    requires on_front { is_some (line_at front.now.lines line) ≡ true }
    ensures { (ends : ℕ × ℕ) → line_at front.now.lines line ≡ Some ends →
        IsReachBox sizes.now front.now.points reach ends.0 ends.1 result }
{
    let (from, to) = front.line(line).unwrap();
    let frame = frame_of(front, sizes, from, to);
    let start = frame.p1();
    let far = widening_on_grid(&frame, reach);
    Bounds {
        lo: Point {
            x: least_within(&start.x, &far),
            y: least_within(&start.y, &far),
        },
        hi: Point {
            x: greatest_within(&start.x, &far),
            y: greatest_within(&start.y, &far),
        },
    }
}
