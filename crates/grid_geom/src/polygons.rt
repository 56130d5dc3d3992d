// Segments and points beside polygons, which are given by their corners.
ghost use Rattle.std.specs.Prelude.{◌≡◌, ◌≢◌, ◌↔◌, ◌⊎◌, ◌<◌, ◌≤◌, ◌≤ℤ◌, pos, length, IsTrue, IsFalse};
ghost use Rattle.std.specs.List.{All, list_any, list_all};
ghost use Rattle.grid_geom.specs.Bounds.{IsOnGrid, IsWithin};
ghost use Rattle.grid_geom.specs.Calls.{orient_of};
ghost use Rattle.grid_geom.specs.Line.{whole};
ghost use Rattle.grid_geom.specs.Polygon.{sides, is_outside, is_left, IsLeftOfRest, IsStrictlyConvex, IsInPolygon, IsApart, DoesEnter};
ghost use Rattle.grid_geom.specs.Area.{sweep_of, shoelace};

use super::orientation::{TURN, product, turn};
use super::{MOST_CORNERS, Point};

/// Whether each corner that is no end of the side from the corner at `i` is strictly left of it.
fn rest_left(corners: &[Point], i: usize) -> bool
    requires corners_on { All IsOnGrid corners.now }
    requires within { i < length corners.now }
    ensures { IsTrue result ↔ IsLeftOfRest corners.now i }
{
    let next = (i + 1) % corners.len();
    for j in 0..corners.len() {
        if j != i && j != next && turn(corners[i], corners[next], corners[j]) <= 0 {
            return false;
        }
    }
    true
}

/// Whether the corners are strictly convex: at least three, and each that is no end of a side is strictly left of it. So they go round their
/// polygon counterclockwise.
pub fn strictly_convex(corners: &[Point]) -> bool
    requires { All IsOnGrid corners.now }
    ensures { IsTrue result ↔ IsStrictlyConvex corners.now }
{
    if corners.len() < 3 {
        return false;
    }
    for i in 0..corners.len() {
        if !rest_left(corners, i) {
            return false;
        }
    }
    true
}

/// Whether each corner is on the closed left of the line from a to b.
fn all_left(a: Point, b: Point, corners: &[Point]) -> bool
    requires a_on { IsOnGrid a }
    requires b_on { IsOnGrid b }
    requires corners_on { All IsOnGrid corners.now }
    ensures { IsTrue result ↔ All (λ c. pos 0 ≤ℤ orient_of a b c) corners.now }
{
    corners.iter().all(|c| turn(a, b, *c) >= 0)
}

/// Whether both a and b are on the closed right of the side from `from` to `to`.
fn outside(a: Point, b: Point, from: Point, to: Point) -> bool
    requires a_on { IsOnGrid a }
    requires b_on { IsOnGrid b }
    requires from_on { IsOnGrid from }
    requires to_on { IsOnGrid to }
    ensures { result ≡ is_outside a b (record { a = from; b = to }) }
{
    turn(from, to, a) <= 0 && turn(from, to, b) <= 0
}

/// Whether both a and b are on the closed outer side of some side.
fn outside_a_side(a: Point, b: Point, corners: &[Point]) -> bool
    requires a_on { IsOnGrid a }
    requires b_on { IsOnGrid b }
    requires corners_on { All IsOnGrid corners.now }
    ensures { result ≡ list_any (is_outside a b) (sides corners.now) }
{
    match corners {
        [] => false,
        [first, rest @ ..] => {
            let mut from = *first;
            for to in rest {
                if outside(a, b, from, *to) {
                    return true;
                }
                from = *to;
            }
            outside(a, b, from, *first)
        }
    }
}

/// Whether the closed segment a-b is apart from the open polygon of the corners: whether all corners are on one closed side of its line,
/// or both its ends are on the closed outer side of some side of the polygon.
fn is_apart(a: Point, b: Point, corners: &[Point]) -> bool
    requires a_on { IsOnGrid a }
    requires b_on { IsOnGrid b }
    requires corners_on { All IsOnGrid corners.now }
    ensures { IsTrue result ↔ IsApart a b corners.now }
{
    all_left(a, b, corners) || (all_left(b, a, corners) || outside_a_side(a, b, corners))
}

/// Whether the closed segment a-b and the open polygon of the corners have no rational point in common. The corners go round the polygon
/// counterclockwise.
pub fn apart(a: Point, b: Point, corners: &[Point]) -> bool
    requires a_on { IsOnGrid a }
    requires b_on { IsOnGrid b }
    requires corners_on { All IsOnGrid corners.now }
    requires different { a ≢ b }
    requires convex { IsStrictlyConvex corners.now }
    ensures apart { IsTrue result ↔ IsApart a b corners.now }
    ensures none { IsTrue result → ¬ DoesEnter a b corners.now }
    ensures enters { IsFalse result → DoesEnter a b corners.now }
{
    is_apart(a, b, corners)
}

/// Whether q is strictly left of the side from `from` to `to`.
fn inside(q: Point, from: Point, to: Point) -> bool
    requires q_on { IsOnGrid q }
    requires from_on { IsOnGrid from }
    requires to_on { IsOnGrid to }
    ensures { result ≡ is_left q (record { a = from; b = to }) }
{
    0 < turn(from, to, q)
}

/// Whether q is strictly left of each side.
fn inside_each_side(q: Point, corners: &[Point]) -> bool
    requires q_on { IsOnGrid q }
    requires corners_on { All IsOnGrid corners.now }
    ensures { result ≡ list_all (is_left q) (sides corners.now) }
{
    match corners {
        [] => true,
        [first, rest @ ..] => {
            let mut from = *first;
            for to in rest {
                if !inside(q, from, *to) {
                    return false;
                }
                from = *to;
            }
            inside(q, from, *first)
        }
    }
}

/// Whether q is in the open polygon of the corners, which go round it counterclockwise: strictly left of each side.
pub fn in_open(q: Point, corners: &[Point]) -> bool
    requires q_on { IsOnGrid q }
    requires corners_on { All IsOnGrid corners.now }
    ensures { IsTrue result ↔ IsInPolygon (whole q) corners.now }
{
    inside_each_side(q, corners)
}

/// Twice the signed area of the triangle of the origin and the edge from a to b.
fn swept(a: Point, b: Point) -> i64
    requires a_on { IsOnGrid a }
    requires b_on { IsOnGrid b }
    ensures value { result ≡ sweep_of (record { a = a; b = b }) }
    ensures small { IsWithin TURN result }
{
    product(a.x, b.y) - product(a.y, b.x)
}

/// Twice the signed area that the corners go round, by the shoelace rule, in square grid steps: positive where they go counterclockwise.
pub fn double_area(corners: &[Point]) -> i128
    requires corners_on { All IsOnGrid corners.now }
    requires few { length corners.now ≤ MOST_CORNERS }
    ensures { result ≡ shoelace (sides corners.now) }
{
    match corners {
        [] => 0,
        [first, rest @ ..] => {
            let mut sum: i128 = 0;
            let mut from = *first;
            for to in rest {
                sum += swept(from, *to) as i128;
                from = *to;
            }
            sum + swept(from, *first) as i128
        }
    }
}
