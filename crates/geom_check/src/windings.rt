// The winding numbers of domains: each 0 or 1 everywhere, and 1 for one domain at most. Accepted
// by a walk, refused by the strips.
ghost use Rattle.std.specs.Prelude.{◌≡◌, ◌<◌, ◌≤◌, ℕ, ℤ, length, All, AllPairs, OnOk, IfErr, IfOk, IfSome, IfNone, Some, pos};
ghost use Rattle.std.specs.List.Sorted.{IsStrictlyIncreasing};
ghost use Rattle.grid_geom.specs.declared.RatPoint.{RatPoint};
ghost use Rattle.grid_geom.specs.Plane.{IsRational};
ghost use Rattle.grid_geom.specs.Bounds.{IsOnGrid};
ghost use Rattle.grid_geom.specs.Closed.{IsOff};
ghost use Rattle.geom_check.specs.Accepted.{ArePlacesDifferent, HasTwoEnds, AreApart, AreClosed, WindsAtMostOnce, IsZeroOrOne, DoOverlap};
ghost use Rattle.geom_check.specs.Boundary.{IsSegmentOf, edges_of};
ghost use Rattle.geom_check.specs.Refused.{IsWindingFault};
ghost use Rattle.geom_check.specs.Risers.{is_chosen, winding_of, AreRisersOf};
ghost use Rattle.geom_check.specs.RiserOrder.{IsRiserOnGrid, IsFree, IsSoundAll, HasLevels, IsLevelsOf, far};
ghost use Rattle.geom_check.specs.Strips.{IsWitness};

use crate::gaps::first_fault;
use crate::kinds::Segment;
use crate::limits::{MOST_DOMAINS, MOST_ROWS};
use crate::refusal::GeomRefusal;
use crate::risers::{Riser, risers};
use crate::strips::levels;
use crate::walk::are_sound;
use grid_geom::{Edge, Point, RatPoint};
use std::alloc::{AllocError as OutOfMemory, Global};

/// The least domain with a winding number other than 0 and 1, and the middle of the first gap in
/// which it has one.
fn first_side(
    alloc: Global,
    edges: &[Edge],
    levels: &[u64],
    risers: &[Riser],
) -> Result<Option<(u32, RatPoint)>, OutOfMemory>
    requires increasing { IsStrictlyIncreasing levels.now }
    requires heights { IsLevelsOf edges.now (length edges.now) levels.now }
    requires levels { All (HasLevels levels.now) risers.now }
    requires risers { All IsRiserOnGrid risers.now }
    requires free { AllPairs IsFree risers.now }
    requires of_edges { AreRisersOf edges.now risers.now }
    requires balanced { (d : ℕ) (y : ℤ) → 0 < d →
        winding_of (is_chosen (Some d)) (far y) risers.now ≡ pos 0 }
    ensures positive { IfOk result (λ found. IfSome found (λ side. 0 < side.0)) }
    ensures found { IfOk result (λ found. IfSome found (λ side. IsWitness
        (λ q. ¬ IsZeroOrOne (winding_of
        (is_chosen (Some side.0)) q risers.now)) edges.now side.1)) }
    ensures least { IfOk result (λ found. IfSome found (λ side. (d : ℕ) → 0 < d → d < side.0 →
        IsSoundAll (is_chosen (Some d)) risers.now)) }
    ensures none { IfOk result (λ found. IfNone found ((d : ℕ) → 0 < d → d ≤ MOST_DOMAINS →
        IsSoundAll (is_chosen (Some d)) risers.now)) }
{
    for domain in 1..MOST_DOMAINS + 1 {
        if let Some(at) = first_fault(alloc, edges, levels, risers, Some(domain))? {
            return Ok(Some((domain, at)));
        }
    }
    Ok(None)
}

/// The first fault of winding numbers. That there is none is found by a walk; what the walk doesn't
/// find sound is looked at strip by strip, domain by domain.
pub fn check_windings(
    alloc: Global,
    points: &[Point],
    segments: &[Segment],
    edges: &[Edge],
) -> Result<(), GeomRefusal>
    requires on_grid { All IsOnGrid points.now }
    requires joined { All (IsSegmentOf (length points.now)) segments.now }
    requires few { length segments.now ≤ MOST_ROWS }
    requires edges { edges.now ≡ edges_of points.now segments.now }
    requires places { ArePlacesDifferent points.now }
    requires ends { All HasTwoEnds segments.now }
    requires apart { AreApart edges.now }
    requires closed { AreClosed points.now segments.now }
    ensures winding { OnOk result ((d : ℕ) → 0 < d → WindsAtMostOnce points.now segments.now d) }
    ensures separate { OnOk result ((q : RatPoint) → IsRational q →
        IsOff q (edges_of points.now segments.now) → ¬ DoOverlap points.now segments.now q) }
    ensures refused { IfErr result (IsWindingFault points.now segments.now) }
{
    let levels = levels(alloc, edges)?;
    let risers = risers(alloc, points, segments)?;
    if are_sound(alloc, &levels, &risers)? {
        return Ok(());
    }
    if let Some((domain, at)) = first_side(alloc, edges, &levels, &risers)? {
        return Err(GeomRefusal::Side {
            domain: domain as u64,
            at,
        });
    }
    match first_fault(alloc, edges, &levels, &risers, None)? {
        Some(at) => Err(GeomRefusal::Overlap { at }),
        None => Ok(()),
    }
}
