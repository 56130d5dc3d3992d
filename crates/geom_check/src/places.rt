// Whether points have different places, by the order of their places.
ghost use Rattle.std.specs.Prelude.{◌≡◌, ◌≢◌, ◌<◌, ℕ, map, true, All, AllPairs, IfOk, IfSome, IfNone};
ghost use Rattle.std.specs.List.Sorted.{IsNonDecreasingBy};
ghost use Rattle.grid_geom.specs.Bounds.{IsOnGrid};
ghost use Rattle.geom_check.specs.Accepted.{AreTogether, ArePlacesDifferent};
ghost use Rattle.geom_check.specs.Refused.{IsLeastPair};
ghost use Rattle.geom_check.specs.Places.{key_of};

use crate::limits::WIDTH;
use crate::pairs::together;
use crate::strips::{from_left, level};
use grid_geom::Point;
use std::alloc::{AllocError as OutOfMemory, Global};

/// The number of a place, column by column from the left and upwards in each.
fn key_of(p: &Point) -> u64
    requires { IsOnGrid p.now }
    ensures { result ≡ key_of p.now }
{
    from_left(p) * (WIDTH + 1) + level(p)
}

/// The numbers of the points' places.
fn keys(alloc: Global, points: &[Point]) -> Result<Vec<u64>, OutOfMemory>
    requires { All IsOnGrid points.now }
    ensures { IfOk result (λ v. v.items ≡ map key_of points.now) }
{
    let mut keys = Vec::with_capacity(alloc, points.len())?;
    for point in points {
        keys.push(key_of(point))?;
    }
    Ok(keys)
}

/// Whether no two of the rising numbers are equal.
fn are_different(keys: &[u64]) -> bool
    requires { IsNonDecreasingBy (λ n. n) keys.now }
    ensures { result ≡ true → AllPairs (λ m n. m ≢ n) keys.now }
{
    for i in 1..keys.len() {
        if keys[i - 1] == keys[i] {
            return false;
        }
    }
    true
}

/// The numbers, from 1, of the least pair of points at one place. Where there is none that is found by sorting.
pub fn first_together(alloc: Global, points: &[Point]) -> Result<Option<(u64, u64)>, OutOfMemory>
    requires { All IsOnGrid points.now }
    ensures found { IfOk result (λ found. IfSome found
        (λ pair. IsLeastPair (AreTogether points.now) pair.0 pair.1)) }
    ensures none { IfOk result (λ found. IfNone found (ArePlacesDifferent points.now)) }
{
    let mut keys = keys(alloc, points)?;
    keys.sort_unstable();
    if are_different(&keys) {
        return Ok(None);
    }
    Ok(together(points))
}
