//! The surroundings of a base line on a front: the front points in range, and the front lines that begin
//! at them.
//!
//! 1. Only lines whose boxes meet the box of all points in range are looked at. Where a few points alone
//!    are asked for, only those whose boxes hold one of these.
//! 2. Each front point is the start of a line, and of several where parts of the front touch. So the
//!    starts are sorted, and each is taken once.

ghost use Rattle.std.specs.Prelude.{◌≡◌, ◌↔◌, ℕ, ◌≤◌, ◌^◌, ◌+ℤ◌, ◌-ℤ◌, ◌*ℤ◌, pos, true, nat_eq, map, length, IfOk, OnOk, Contains, is_some};
ghost use Rattle.std.specs.Int.RustNames.{unsigned_abs};
ghost use Rattle.std.specs.List.{All};
ghost use Rattle.std.specs.List.Sorted.{IsStrictlyIncreasing};
ghost use Rattle.grid_geom.specs.declared.Point.{Point as AnyPoint};
ghost use Rattle.grid_geom.specs.Bounds.{IsOnGrid};
ghost use Rattle.rule_maps.specs.Frame.{IsInRange};
ghost use Rattle.state_law.specs.State.{IsListed, point_at};
ghost use Rattle.front_chain.specs.Front.{line_at, state_of};
ghost use Rattle.admission.specs.Around.{IsInBounds};
ghost use Rattle.rule_match.specs.Around.{IsSurrounding, near_of, IsStartNear, HasStartsNear, HasLinesOf, IsMore, IsAdded};

use super::near::NearPoint;
use front_chain::Front;
use grid_geom::{Bounds, LONGEST, Point};
use rule_maps::Frame;
use std::alloc::{AllocError, Global};

/// How far a point in range may be from the line's middle, in each coordinate, at most: four heights, none above the
/// greatest length.
const FARTHEST: u64 = 4 * LONGEST;

/// The points that are looked at: all, or these alone.
#[derive(Debug, Drop)]
pub struct Scope {
    pub whole: bool,
    pub these: Vec<u64>,
}

/// Front points in range of a base line, and front lines that begin at them; of the points of the scope
/// none is left out.
#[derive(Debug, Drop)]
pub(crate) struct Surroundings {
    pub scope: Scope,
    pub near: Vec<NearPoint>,
    pub lines: Vec<(u64, u64)>,
}

/// How far points in range may be from the line's middle, in each coordinate.
fn range_of(frame: &Frame) -> i64
    ensures value { result ≡ pos 4 *ℤ frame.now.h }
    ensures small { unsigned_abs result ≤ FARTHEST }
{
    4 * frame.h() as i64
}

fn less(a: &i64, b: &i64) -> i64
    requires a { unsigned_abs a.now ≤ FARTHEST }
    requires b { unsigned_abs b.now ≤ FARTHEST }
    ensures { result ≡ a.now -ℤ b.now }
{
    a - b
}

fn plus(a: &i64, b: &i64) -> i64
    requires a { unsigned_abs a.now ≤ FARTHEST }
    requires b { unsigned_abs b.now ≤ FARTHEST }
    ensures { result ≡ a.now +ℤ b.now }
{
    a + b
}

/// The box of all points in range.
fn range_box(frame: &Frame) -> Bounds
    ensures { (p : AnyPoint) → IsInRange frame.now p → IsInBounds result p }
{
    let (middle, far) = (frame.middle(), range_of(frame));
    Bounds {
        lo: Point {
            x: less(&middle.x, &far),
            y: less(&middle.y, &far),
        },
        hi: Point {
            x: plus(&middle.x, &far),
            y: plus(&middle.y, &far),
        },
    }
}

/// Adds the front line with the number, if its start is in range.
fn add_line(
    lines: &mut Vec<(u64, u64)>,
    front: &Front,
    frame: &Frame,
    number: u64,
) -> Result<(), AllocError>
    requires { is_some (line_at front.now.lines number) ≡ true }
    ensures { OnOk result
        (IsAdded front.now frame.now number lines.old.items lines.new.items) }
{
    let _points = front.points();
    let ends = front.line(number).unwrap();
    if frame.is_in_range(front.point(ends.0)) {
        lines.push(ends)?;
    }
    Ok(())
}

/// Adds the front lines that begin in range, of those whose boxes meet the box.
fn add_lines(
    alloc: Global,
    lines: &mut Vec<(u64, u64)>,
    front: &Front,
    frame: &Frame,
    near: &Bounds,
) -> Result<(), AllocError>
    ensures more { OnOk result (IsMore front.now frame.now lines.old.items lines.new.items) }
    ensures all { OnOk result ((n : ℕ) → IsInBounds near.now (point_at front.now.points n) →
        HasLinesOf front.now frame.now lines.new.items n) }
{
    let _lines = front.lines();
    let numbers = front.near_lines(alloc, near)?;
    for number in &numbers {
        add_line(lines, front, frame, *number)?;
    }
    Ok(())
}

/// Adds the front lines that begin at the point with the number, if it is a front point in range.
fn add_lines_of(
    alloc: Global,
    lines: &mut Vec<(u64, u64)>,
    front: &Front,
    frame: &Frame,
    number: u64,
) -> Result<(), AllocError>
    ensures more { OnOk result (IsMore front.now frame.now lines.old.items lines.new.items) }
    ensures all { OnOk result (HasLinesOf front.now frame.now lines.new.items number) }
{
    let _points = front.points();
    if !front.is_front_point(number) {
        return Ok(());
    }
    let at = front.point(number);
    if !frame.is_in_range(at) {
        return Ok(());
    }
    add_lines(alloc, lines, front, frame, &Bounds { lo: at, hi: at })?;
    Ok(())
}

/// The front lines that begin in range.
fn lines_in_range(
    alloc: Global,
    front: &Front,
    frame: &Frame,
) -> Result<Vec<(u64, u64)>, AllocError>
    ensures only { IfOk result
        (λ v. All (IsStartNear (state_of front.now) frame.now) v.items) }
    ensures all { IfOk result (λ v. (n : ℕ) → HasLinesOf front.now frame.now v.items n) }
{
    let mut lines = Vec::new(alloc);
    add_lines(alloc, &mut lines, front, frame, &range_box(frame))?;
    Ok(lines)
}

/// The front lines that begin at these points and in range; and others that begin in range.
fn lines_of_these(
    alloc: Global,
    front: &Front,
    frame: &Frame,
    these: &[u64],
) -> Result<Vec<(u64, u64)>, AllocError>
    ensures only { IfOk result
        (λ v. All (IsStartNear (state_of front.now) frame.now) v.items) }
    ensures all { IfOk result (λ v. (n : ℕ) → Contains these.now n →
        HasLinesOf front.now frame.now v.items n) }
{
    let mut lines = Vec::new(alloc);
    for number in these {
        add_lines_of(alloc, &mut lines, front, frame, *number)?;
    }
    Ok(lines)
}

/// The front lines that begin in range, at points of the scope; and others that begin in range.
fn lines_around(
    alloc: Global,
    front: &Front,
    frame: &Frame,
    scope: &Scope,
) -> Result<Vec<(u64, u64)>, AllocError>
    ensures only { IfOk result
        (λ v. All (IsStartNear (state_of front.now) frame.now) v.items) }
    ensures all { IfOk result (λ v. HasStartsNear (state_of front.now) frame.now scope.now v.items) }
{
    if scope.whole {
        return lines_in_range(alloc, front, frame);
    }
    lines_of_these(alloc, front, frame, &scope.these)
}

/// The starts of the lines, each once, rising.
fn starts_of(alloc: Global, lines: &[(u64, u64)]) -> Result<Vec<u64>, AllocError>
    ensures rising { IfOk result (λ v. IsStrictlyIncreasing v.items) }
    ensures starts { IfOk result
        (λ v. (n : ℕ) → Contains v.items n ↔ Contains (map (λ line. line.0) lines.now) n) }
{
    let mut numbers = Vec::with_capacity(alloc, lines.len())?;
    for line in lines {
        numbers.push(line.0)?;
    }
    numbers.sort_unstable();
    numbers.dedup();
    Ok(numbers)
}

/// The near point with the number.
fn near_point(front: &Front, frame: &Frame, number: u64) -> NearPoint
    requires listed { IsListed (length front.now.points) number }
    requires range { IsInRange frame.now (point_at front.now.points number) }
    ensures value { result ≡ near_of front.now.points frame.now number }
    ensures on_grid { IsOnGrid result.at }
{
    let _start = frame.p1();
    let at = front.point(number);
    let (x, y) = frame.local4(at);
    NearPoint {
        number,
        at,
        x: x as i32,
        y: y as i32,
    }
}

/// The near points with these numbers.
fn near_points(
    alloc: Global,
    front: &Front,
    frame: &Frame,
    numbers: &[u64],
) -> Result<Vec<NearPoint>, AllocError>
    requires listed { All (IsListed (length front.now.points)) numbers.now }
    requires range { All (λ n. IsInRange frame.now (point_at front.now.points n)) numbers.now }
    ensures value { IfOk result
        (λ v. v.items ≡ map (near_of front.now.points frame.now) numbers.now) }
{
    let mut near = Vec::with_capacity(alloc, numbers.len())?;
    for number in numbers {
        near.push(near_point(front, frame, *number))?;
    }
    Ok(near)
}

/// The surroundings of a base line, as far as they are of the scope.
pub(crate) fn surroundings_of(
    alloc: Global,
    front: &Front,
    frame: &Frame,
    scope: Scope,
) -> Result<Surroundings, AllocError>
    ensures surrounding { IfOk result
        (λ a. IsSurrounding (state_of front.now) frame.now a.scope a.near.items a.lines.items) }
    ensures scope { IfOk result (λ a. a.scope ≡ scope) }
{
    let _points = front.points();
    let lines = lines_around(alloc, front, frame, &scope)?;
    let starts = starts_of(alloc, &lines)?;
    let near = near_points(alloc, front, frame, &starts)?;
    Ok(Surroundings { scope, near, lines })
}
