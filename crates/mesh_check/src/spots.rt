// The points of a mesh in the order of their places.
ghost use Rattle.std.specs.Prelude.{◌≡◌, ◌↔◌, ◌⊎◌, ◌≤◌, length, IsTrue, IfOk, IfSome, IfNone};
ghost use Rattle.geom_check.specs.Accepted.{AreTogether, ArePlacesDifferent};
ghost use Rattle.geom_check.specs.Refused.{IsLeastPair};
ghost use Rattle.mesh_check.specs.Spots.{AreSpots, spot_place};
ghost use Rattle.mesh_check.specs.Least.{IsLeast, IsLesser, least_of};

use grid_geom::Point;
use std::alloc::{AllocError as OutOfMemory, Global};

/// A point's place, and its position in the list of points. They are ordered from the left, upwards
/// in each column, and at one place by position.
#[derive(Clone, Copy, Debug, PartialEq, Eq, PartialOrd, Ord)]
pub struct Spot {
    pub x: i64,
    pub y: i64,
    pub index: usize,
}

/// The points in the order of their places.
pub fn sorted_spots(alloc: Global, points: &[Point]) -> Result<Vec<Spot>, OutOfMemory>
    ensures { IfOk result (λ v. AreSpots points.now v.items) }
{
    let mut spots = Vec::with_capacity(alloc, points.len())?;
    for (index, point) in points.iter().enumerate() {
        spots.push(Spot {
            x: point.x,
            y: point.y,
            index,
        })?;
    }
    spots.sort_unstable();
    Ok(spots)
}

/// Whether two spots are at one place.
fn share_place(s: Spot, t: Spot) -> bool
    ensures { IsTrue result ↔ (spot_place s ≡ spot_place t) }
{
    s.x == t.x && s.y == t.y
}

/// The lesser of two pairs of positions, of which the first may be absent.
pub fn lesser(best: Option<(usize, usize)>, other: (usize, usize)) -> (usize, usize)
    ensures { IsLesser best other result }
{
    match best {
        Some(pair) if pair.0 < other.0 || pair.0 == other.0 && pair.1 <= other.1 => pair,
        _ => other,
    }
}

/// The least pair of positions of points at one place.
pub fn least_twins(points: &[Point], spots: &[Spot]) -> Option<(usize, usize)>
    requires { AreSpots points.now spots.now }
    ensures { IsLeast (AreTogether points.now) result }
{
    let mut least = None;
    for i in 1..spots.len() {
        let (before, here) = (spots[i - 1], spots[i]);
        if share_place(before, here) {
            least = Some(lesser(least, (before.index, here.index)));
        }
    }
    least
}

/// The lesser of two positions, each of which may be absent.
pub fn least_of(first: Option<usize>, second: Option<usize>) -> Option<usize>
    ensures { result ≡ least_of first second }
{
    match (first, second) {
        (Some(m), Some(n)) => Some(m.min(n)),
        (None, position) => position,
        (position, None) => position,
    }
}

/// The numbers, from 1, of the least pair of points at one place.
pub fn same_place(points: &[Point], spots: &[Spot]) -> Option<(u64, u64)>
    requires { AreSpots points.now spots.now }
    ensures found { IfSome result (λ pair. IsLeastPair (AreTogether points.now) pair.0 pair.1) }
    ensures none { IfNone result (ArePlacesDifferent points.now) }
{
    let (i, j) = least_twins(points, spots)?;
    Some((i as u64 + 1, j as u64 + 1))
}
