// The local frame of a base line.
ghost use Rattle.std.specs.Prelude.{◌≡◌, ◌≢◌, ◌↔◌, IsTrue, ◌≤◌, ◌≤ℤ◌, ◌<ℤ◌, ◌*ℤ◌, ◌+ℤ◌, ◌-ℤ◌, pos};
ghost use Rattle.std.specs.Int.{int_max, int_min};
ghost use Rattle.grid_geom.specs.Bounds.{IsOnGrid, IsWithin};
ghost use Rattle.rule_maps.specs.Frame.{LocalFrame, IsRoot, IsFrameOf, IsFrame, IsInRange, IsWay, IsHeight, way, dot, cross, half, height, local_x, local_y, in_units, local4_x, local4_y};

use grid_geom::{GRID, LONGEST, Point, isqrt, on_grid, round_div};
use std::marker::Model;

// Bounds of the numbers on the way, all from `GRID` and `LONGEST`: a difference of coordinates, a sum of two products
// of differences, the length, the height, and the square unit.
pub(crate) const OFFSET: i64 = 2 * GRID;

pub(crate) const TURN: i64 = 2 * OFFSET * OFFSET;

pub(crate) const LONG: i64 = 3 * GRID;

pub(crate) const HIGH: i64 = LONGEST as i64;

pub(crate) const UNIT: i64 = LONG * HIGH;

/// The local frame of a base line from `p1`, in grid steps (after Schöberl 1997; the rounding is this
/// project's own). A place p is seen from it at (dot(e, p - p1), cross(e, p - p1)) / q.
#[derive(Debug, Drop)]
pub struct Frame {
    p1: Point,
    e: Point,
    len: i64,
    h: i64,
    q: i64,
    middle: Point,
}

impl Model for Frame {
    ghost use Rattle.rule_maps.specs.Frame.{LocalFrame, IsFrame};

    ghost Value = { LocalFrame };

    ghost view = { λ f.
        record { p1 = f.p1; e = f.e; len = f.len; h = f.h; q = f.q; middle = f.middle } };

    ghost invariant = { λ f. IsFrame
        (record { p1 = f.p1; e = f.e; len = f.len; h = f.h; q = f.q; middle = f.middle }) };
}

/// Where a point is seen from a line: the scalar and the vector product of the line's direction and the way to it.
#[derive(Clone, Copy, Debug, PartialEq, Eq)]
pub(crate) struct Seen {
    pub along: i64,
    pub left: i64,
}

/// The way from one grid point to another.
fn way_to(from: Point, to: Point) -> Point
    requires from_on { IsOnGrid from }
    requires to_on { IsOnGrid to }
    ensures value { result ≡ way from to }
    ensures small { IsWay result }
{
    Point {
        x: to.x - from.x,
        y: to.y - from.y,
    }
}

/// The scalar product of two ways.
fn dot_of(a: Point, b: Point) -> i64
    requires a_small { IsWay a }
    requires b_small { IsWay b }
    ensures value { result ≡ dot a b }
    ensures small { IsWithin TURN result }
{
    a.x * b.x + a.y * b.y
}

/// The vector product of two ways: positive where b points to the left of a.
fn cross_of(a: Point, b: Point) -> i64
    requires a_small { IsWay a }
    requires b_small { IsWay b }
    ensures value { result ≡ cross a b }
    ensures small { IsWithin TURN result }
{
    a.x * b.y - a.y * b.x
}

/// The length of a way, rounded down.
fn length_of(e: Point) -> i64
    requires small { IsWay e }
    ensures root { IsRoot (dot e e) result }
    ensures small { result ≤ℤ LONG }
{
    isqrt(dot_of(e, e) as i128) as i64
}

/// A middle coordinate, rounded down.
fn middle_of(a: i64, b: i64) -> i64
    requires a_on { IsWithin GRID a }
    requires b_on { IsWithin GRID b }
    ensures value { result ≡ half (a +ℤ b) }
    ensures on { IsWithin GRID result }
{
    (a + b).div_euclid(2)
}

/// The size, raised to the half of the length rounded up, then lowered to three lengths.
fn height_of(len: i64, size: u64) -> i64
    requires long { pos 1 ≤ℤ len }
    requires not_longer { len ≤ℤ LONG }
    requires positive { 1 ≤ size }
    requires small { size ≤ LONGEST }
    ensures value { result ≡ height len (pos size) }
    ensures least { pos 1 ≤ℤ result }
    ensures greatest { result ≤ℤ HIGH }
{
    (size as i64).max((len + 1).div_euclid(2)).min(3 * len)
}

/// Whether a coordinate is within four heights of another.
fn is_near(a: &i64, b: &i64, h: &i64) -> bool
    requires a_on { IsWithin GRID a.now }
    requires b_on { IsWithin GRID b.now }
    requires high { IsHeight h.now }
    ensures { IsTrue result ↔ IsWithin (pos 4 *ℤ h.now) (a.now -ℤ b.now) }
{
    let (offset, far) = (a - b, 4 * h);
    -far <= offset && offset <= far
}

impl Frame {
    /// The frame of the line from `p1` to `p2`, where the size at its middle is `size`, in grid steps.
    pub fn new(p1: Point, p2: Point, size: u64) -> Frame
        requires start_on { IsOnGrid p1 }
        requires end_on { IsOnGrid p2 }
        requires different { p1 ≢ p2 }
        requires positive { 1 ≤ size }
        requires small { size ≤ LONGEST }
        ensures { IsFrameOf p1 p2 size result }
    {
        let e = way_to(p1, p2);
        let len = length_of(e);
        let h = height_of(len, size);
        let middle = Point {
            x: middle_of(p1.x, p2.x),
            y: middle_of(p1.y, p2.y),
        };
        Frame {
            p1,
            e,
            len,
            h,
            q: len * h,
            middle,
        }
    }

    /// The start of the line.
    pub fn p1(&self) -> Point
        ensures value { result ≡ self.now.p1 }
        ensures frame { IsFrame self.now }
    {
        self.p1
    }

    /// The way from the line's start to its end. It need not be on the grid.
    pub fn e(&self) -> Point
        ensures value { result ≡ self.now.e }
        ensures frame { IsFrame self.now }
    {
        self.e
    }

    /// The length of the line, rounded down.
    pub fn len(&self) -> i128
        ensures value { result ≡ self.now.len }
        ensures frame { IsFrame self.now }
    {
        self.len as i128
    }

    /// The height: the size, but at least half the length and at most three lengths.
    pub fn h(&self) -> i128
        ensures value { result ≡ self.now.h }
        ensures frame { IsFrame self.now }
    {
        self.h as i128
    }

    /// The square unit: length times height.
    pub fn q(&self) -> i128
        ensures value { result ≡ self.now.q }
        ensures frame { IsFrame self.now }
    {
        self.q as i128
    }

    /// The middle of the line, each coordinate rounded down.
    pub fn middle(&self) -> Point
        ensures value { result ≡ self.now.middle }
        ensures frame { IsFrame self.now }
    {
        self.middle
    }

    /// Whether a rule may map p on this line: whether p is on the grid, and within four heights of the middle in each
    /// coordinate.
    pub fn is_in_range(&self, p: Point) -> bool
        ensures { IsTrue result ↔ IsInRange self.now p }
    {
        on_grid(p)
            && is_near(&p.x, &self.middle.x, &self.h)
            && is_near(&p.y, &self.middle.y, &self.h)
    }

    /// The square of the line's length.
    pub(crate) fn square(&self) -> i64
        ensures value { result ≡ dot self.now.e self.now.e }
        ensures positive { pos 0 <ℤ result }
        ensures small { result ≤ℤ TURN }
    {
        dot_of(self.e, self.e)
    }

    /// Where p is seen from the line: q times how far along it, and q times how far to its left.
    pub(crate) fn seen(&self, p: Point) -> Seen
        requires { IsOnGrid p }
        ensures along { result.along ≡ dot self.now.e (way self.now.p1 p) }
        ensures left { result.left ≡ cross self.now.e (way self.now.p1 p) }
        ensures along_small { IsWithin TURN result.along }
        ensures left_small { IsWithin TURN result.left }
        ensures frame { IsFrame self.now }
    {
        let to = way_to(self.p1, p);
        Seen {
            along: dot_of(self.e, to),
            left: cross_of(self.e, to),
        }
    }

    /// The local place of p, as two numerators over q.
    pub fn local(&self, p: Point) -> (i128, i128)
        requires { IsOnGrid p }
        ensures along { result.0 ≡ (local_x self.now p).top }
        ensures left { result.1 ≡ (local_y self.now p).top }
    {
        let seen = self.seen(p);
        (seen.along as i128, seen.left as i128)
    }

    /// The local place of p in units of 1/10,000, rounded to the nearest, halves upwards.
    pub fn local4(&self, p: Point) -> (i64, i64)
        requires { IsInRange self.now p }
        ensures along { result.0 ≡ local4_x self.now p }
        ensures left { result.1 ≡ local4_y self.now p }
    {
        let seen = self.seen(p);
        (self.in_units(&seen.along), self.in_units(&seen.left))
    }

    /// A numerator over q, in units of 1/10,000, rounded to the nearest, halves upwards.
    fn in_units(&self, top: &i64) -> i64
        requires small { IsWithin (pos 13 *ℤ self.now.q) top.now }
        requires fits { IsWithin TURN top.now }
        ensures { result ≡ in_units (record { top = top.now; bottom = self.now.q }) }
    {
        round_div(10_000 * *top as i128, self.q as i128) as i64
    }
}
