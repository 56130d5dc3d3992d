//! Whether a deviation, in units of 1/10,000, is within a tolerance, exactly.

ghost use Rattle.std.specs.Prelude.{◌≡◌, ◌≤◌, ◌+◌, ◌*◌, ◌^◌, ◌+ℤ◌, ◌-ℤ◌, ◌*ℤ◌};
ghost use Rattle.std.specs.Int.RustNames.{unsigned_abs};
ghost use Rattle.rule_match.specs.Candidate.{measure};
ghost use Rattle.rule_match.specs.Trying.{is_tolerated};

use grid_geom::Point;
use rule_reader::Triple;

/// How far the second is from the first.
pub(crate) fn way(from: &Point, to: &Point) -> Point
    requires from_x { unsigned_abs from.now.x ≤ 2 ^ 33 }
    requires from_y { unsigned_abs from.now.y ≤ 2 ^ 33 }
    requires to_x { unsigned_abs to.now.x ≤ 2 ^ 33 }
    requires to_y { unsigned_abs to.now.y ≤ 2 ^ 33 }
    ensures x { result.x ≡ to.now.x -ℤ from.now.x }
    ensures y { result.y ≡ to.now.y -ℤ from.now.y }
    ensures x_small { unsigned_abs result.x ≤ unsigned_abs to.now.x + unsigned_abs from.now.x }
    ensures y_small { unsigned_abs result.y ≤ unsigned_abs to.now.y + unsigned_abs from.now.y }
{
    Point {
        x: to.x - from.x,
        y: to.y - from.y,
    }
}

/// A weight times a coordinate.
fn weighed(weight: &i32, z: &i64) -> i128
    requires z { unsigned_abs z.now ≤ 2 ^ 35 }
    ensures value { result ≡ weight.now *ℤ z.now }
    ensures small { unsigned_abs result ≤ 2 ^ 66 }
{
    *weight as i128 * *z as i128
}

/// A weighed coordinate times a coordinate.
fn weighed_twice(once: &i128, z: &i64) -> i128
    requires once { unsigned_abs once.now ≤ 2 ^ 66 }
    requires z { unsigned_abs z.now ≤ 2 ^ 35 }
    ensures value { result ≡ once.now *ℤ z.now }
    ensures small { unsigned_abs result ≤ 2 ^ 101 }
{
    *once * *z as i128
}

/// One summand of a measure.
fn summand(weight: &i32, a: &i64, b: &i64) -> i128
    requires a { unsigned_abs a.now ≤ 2 ^ 35 }
    requires b { unsigned_abs b.now ≤ 2 ^ 35 }
    ensures value { result ≡ weight.now *ℤ a.now *ℤ b.now }
    ensures small { unsigned_abs result ≤ 2 ^ 101 }
{
    weighed_twice(&weighed(weight, a), b)
}

fn sum(a: &i128, b: &i128) -> i128
    requires a { unsigned_abs a.now ≤ 2 ^ 102 }
    requires b { unsigned_abs b.now ≤ 2 ^ 101 }
    ensures value { result ≡ a.now +ℤ b.now }
    ensures small { unsigned_abs result ≤ unsigned_abs a.now + unsigned_abs b.now }
{
    *a + *b
}

/// f1 dx^2 + f2 dx dy + f3 dy^2.
fn measured(tol: &Triple, d: &Point) -> i128
    requires x { unsigned_abs d.now.x ≤ 2 ^ 35 }
    requires y { unsigned_abs d.now.y ≤ 2 ^ 35 }
    ensures { result ≡ measure tol.now d.now.x d.now.y }
{
    let first_two = sum(&summand(&tol.f1, &d.x, &d.x), &summand(&tol.f2, &d.x, &d.y));
    sum(&first_two, &summand(&tol.f3, &d.y, &d.y))
}

/// Whether the measure is at most (5 + 3 class) / 10.
pub(crate) fn is_tolerated(class: u32, tol: &Triple, d: &Point) -> bool
    requires x { unsigned_abs d.now.x ≤ 2 ^ 35 }
    requires y { unsigned_abs d.now.y ≤ 2 ^ 35 }
    ensures { result ≡ is_tolerated class tol.now d.now.x d.now.y }
{
    measured(tol, d) <= (5 + 3 * class as i128) * 100_000_000_000
}
