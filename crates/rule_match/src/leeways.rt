//! How far mapped points are from their places in a rule at most, by the tolerances of a class.

ghost use Rattle.std.specs.Prelude.{◌≡◌, ◌⊎◌, ◌<◌, ◌≤◌, ◌+◌, ◌*◌, ◌^◌, ℕ, ◌-ℤ◌, ◌*ℤ◌, pos, IfOk, IfSome};
ghost use Rattle.std.specs.Int.RustNames.{unsigned_abs};
ghost use Rattle.std.specs.List.{All};
ghost use Rattle.rule_reader.specs.Normal.{IsMapPoint};
ghost use Rattle.rule_match.specs.Leeways.{IsEllipse, IsLeewayAt, AreLeewaysAt};

use super::OutOfMemory;
use rule_maps::{Leeway, leeway_in_range};
use rule_reader::{MapPoint, Triple};
use std::alloc::Global;

/// No leeway of a point in range is greater, in units of 1/10,000.
const FARTHEST: u64 = 290_000;

/// The weights and the determinant of a tolerance that bounds an ellipse.
#[derive(Clone, Copy, Debug, PartialEq, Eq)]
struct Ellipse {
    f1: u64,
    f3: u64,
    determinant: u128,
}

fn product(a: &i32, b: &i32) -> i128
    ensures value { result ≡ a.now *ℤ b.now }
    ensures small { unsigned_abs result ≤ 2 ^ 62 }
{
    *a as i128 * *b as i128
}

/// 4 f1 f3 - f2^2.
fn determinant(tol: &Triple) -> i128
    ensures { result ≡ pos 4 *ℤ (tol.now.f1 *ℤ tol.now.f3) -ℤ tol.now.f2 *ℤ tol.now.f2 }
{
    4 * product(&tol.f1, &tol.f3) - product(&tol.f2, &tol.f2)
}

/// The ellipse that the deviations fill which a tolerance allows, if they do.
fn ellipse_of(tol: &Triple) -> Option<Ellipse>
    ensures { IfSome result (IsEllipse tol.now) }
{
    let determinant = determinant(tol);
    if tol.f1 > 0 && tol.f3 > 0 && determinant > 0 {
        Some(Ellipse {
            f1: tol.f1.unsigned_abs() as u64,
            f3: tol.f3.unsigned_abs() as u64,
            determinant: determinant.unsigned_abs(),
        })
    } else {
        None
    }
}

/// (5 + 3 class) / 10, three factors in units of 1/10,000.
fn greatest_measure(class: u32) -> u128
    ensures value { result ≡ (5 + 3 * class) * 100000000000 }
    ensures small { result ≤ 2 ^ 72 }
{
    (5 + 3 * class as u128) * 100_000_000_000
}

fn four_times(weight: u64, measure: u128) -> u128
    requires weight { weight ≤ 2 ^ 32 }
    requires measure { measure ≤ 2 ^ 72 }
    ensures { result ≡ 4 * weight * measure }
{
    4 * weight as u128 * measure
}

/// The greatest number whose square is at most this one, and one more.
fn above_root(square: u64) -> u64
    ensures above { square < result * result }
    ensures positive { 1 ≤ result }
{
    square.isqrt() + 1
}

/// How far an ellipse goes in a coordinate, the weight being that of the other one, and a step more, since
/// local places are rounded; but no more than a point in range is away. No d is as great where d^2 times the
/// determinant is at most 4 weight (5 + 3 class) / 10.
fn extent_of(weight: u64, class: u32, determinant: u128, ranged: u64) -> u64
    requires weight { weight ≤ 2 ^ 32 }
    requires positive { 1 ≤ determinant }
    ensures no_greater { result ≤ ranged }
    ensures beyond { (d : ℕ) →
        d * d * determinant ≤ 4 * weight * ((5 + 3 * class) * 100000000000) →
        d < result ⊎ result ≡ ranged }
{
    let square = four_times(weight, greatest_measure(class)) / determinant;
    if square < FARTHEST as u128 * FARTHEST as u128 {
        above_root(square as u64).min(ranged)
    } else {
        ranged
    }
}

/// The leeway of a mapped point at a class, and at each class below.
fn leeway_at(class: u32, point: &MapPoint) -> Leeway
    requires { IsMapPoint point.now }
    ensures { IsLeewayAt class point.now result }
{
    let ranged = leeway_in_range(point);
    match ellipse_of(&point.tol) {
        None => ranged,
        Some(e) => Leeway {
            along: extent_of(e.f3, class, e.determinant, ranged.along),
            left: extent_of(e.f1, class, e.determinant, ranged.left),
        },
    }
}

/// The leeways of a rule's points at a class. It takes memory for them.
pub(crate) fn leeways_at(
    alloc: Global,
    class: u32,
    points: &[MapPoint],
) -> Result<Vec<Leeway>, OutOfMemory>
    requires { All IsMapPoint points.now }
    ensures { IfOk result (λ v. AreLeewaysAt class points.now v.items) }
{
    let mut all = Vec::new(alloc);
    for point in points {
        all.push(leeway_at(class, point))?;
    }
    Ok(all)
}
