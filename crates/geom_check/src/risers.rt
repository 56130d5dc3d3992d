// Segments turned upwards, and where they pass a strip between two heights.
ghost use Rattle.std.specs.Prelude.{◌≡◌, length, All, IfOk};
ghost use lib.Signed.{lt_z};
ghost use Rattle.geom_check.specs.Boundary.{IsSegmentOf};
ghost use Rattle.geom_check.specs.Risers.{risers_of};

use crate::kinds::Segment;
use grid_geom::Point;
use std::alloc::{AllocError as OutOfMemory, Global};

/// A segment that isn't level, from its lower end `a` to its upper end `b`.
#[derive(Clone, Copy, Debug, PartialEq, Eq)]
pub struct Riser {
    pub a: Point,
    pub b: Point,
    /// The domain on the side of lesser x.
    pub west: u32,
    /// The domain on the side of greater x.
    pub east: u32,
}

/// A riser that passes a strip.
#[derive(Clone, Copy, Debug, PartialEq, Eq)]
pub struct Passing {
    /// The place where it crosses the strip's middle height: rising from left to right.
    pub key: u128,
    pub riser: Riser,
}

/// Whether p is lower than q.
fn is_below(p: &Point, q: &Point) -> bool
    ensures { result ≡ lt_z p.now.y q.now.y }
{
    p.y < q.y
}

/// The segments that aren't level, turned upwards.
#[tactic(auto, using(crate::proofs::RiserWinding::risers_drop))]
pub fn risers(
    alloc: Global,
    points: &[Point],
    segments: &[Segment],
) -> Result<Vec<Riser>, OutOfMemory>
    requires { All (IsSegmentOf (length points.now)) segments.now }
    ensures { IfOk result (λ v. v.items ≡ risers_of points.now segments.now) }
{
    let mut risers = Vec::new(alloc);
    for segment in segments {
        let (p, q) = (points[segment.p - 1], points[segment.q - 1]);
        if is_below(&p, &q) {
            risers.push(Riser {
                a: p,
                b: q,
                west: segment.left,
                east: segment.right,
            })?;
        }
        if is_below(&q, &p) {
            risers.push(Riser {
                a: q,
                b: p,
                west: segment.right,
                east: segment.left,
            })?;
        }
    }
    Ok(risers)
}
