//! How bad one element is.

ghost use Rattle.std.specs.Prelude.{◌≡◌, ◌≤◌, ◌<◌, ◌+◌, ◌*◌, ◌^◌, ◌-ℤ◌, length};
ghost use Rattle.std.specs.Int.RustNames.{unsigned_abs};
ghost use Rattle.std.specs.List.{All};
ghost use Rattle.grid_geom.specs.Bounds.{IsOnGrid, IsWithin};
ghost use Rattle.grid_geom.specs.Area.{shoelace};
ghost use Rattle.grid_geom.specs.Polygon.{sides, way_round};
ghost use Rattle.rule_match.specs.Least.{square, squares, badness_of};

use super::badness::Badness;
use grid_geom::{GRID, Point, double_area};

/// How far two coordinates of the grid are apart at most.
const WIDTH: u64 = 2 * GRID as u64;

const GREATEST_SQUARE: u64 = WIDTH * WIDTH;

/// The greatest squared length of a side.
const GREATEST_SIDE: u64 = 2 * GREATEST_SQUARE;

/// The squared lengths of so many sides add up to at most 2^63.
pub const MOST_SIDES: u64 = (1 << 63) / GREATEST_SIDE;

/// How far two coordinates of the grid are apart.
fn apart(a: i64, b: i64) -> u64
    requires a_on { IsWithin GRID a }
    requires b_on { IsWithin GRID b }
    ensures value { result ≡ unsigned_abs (b -ℤ a) }
    ensures small { result ≤ WIDTH }
{
    (b - a).unsigned_abs()
}

fn squared(n: u64) -> u64
    requires { n ≤ WIDTH }
    ensures value { result ≡ n * n }
    ensures small { result ≤ GREATEST_SQUARE }
{
    n * n
}

/// The squared length of a side.
fn squared_side(a: &Point, b: &Point) -> u64
    requires a_on { IsOnGrid a.now }
    requires b_on { IsOnGrid b.now }
    ensures value { result ≡ square (b.now.x -ℤ a.now.x) + square (b.now.y -ℤ a.now.y) }
    ensures small { result ≤ GREATEST_SIDE }
{
    squared(apart(a.x, b.x)) + squared(apart(a.y, b.y))
}

/// The sum of the squared sides from one corner by the others to the first.
fn squares_round(first: &Point, from: &Point, rest: &[Point]) -> u64
    requires first_on { IsOnGrid first.now }
    requires from_on { IsOnGrid from.now }
    requires rest_on { All IsOnGrid rest.now }
    requires few { length rest.now < MOST_SIDES }
    ensures value { result ≡ squares (way_round first.now from.now rest.now) }
    ensures small { result ≤ GREATEST_SIDE * (length rest.now + 1) }
{
    match rest {
        [] => squared_side(from, first),
        [to, more @ ..] => squared_side(from, to) + squares_round(first, to, more),
    }
}

/// The sum of an element's squared sides over its doubled area, for corners on the grid.
pub fn element_badness(corners: &[Point]) -> Badness
    requires corners_on { All IsOnGrid corners.now }
    requires few { length corners.now < MOST_SIDES }
    requires area { unsigned_abs (shoelace (sides corners.now)) < 2 ^ 64 }
    ensures { result ≡ badness_of corners.now }
{
    let squares = match corners {
        [] => 0,
        [first, rest @ ..] => squares_round(first, first, rest),
    };
    Badness {
        squares,
        area: double_area(corners).unsigned_abs() as u64,
    }
}
