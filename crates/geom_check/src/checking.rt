// The whole check of a geometry.

ghost use Rattle.std.specs.Prelude.{◌≡◌, ◌↔◌, ◌≤◌, IsTrue, length, All, Any, OnOk, IfOk, IfErr};
ghost use Rattle.grid_geom.specs.Bounds.{IsOnGrid};
ghost use Rattle.geom_check.specs.Shift.{IsScale};
ghost use Rattle.geom_check.specs.Placed.{IsReadable, IsReadablePoint, points_of};
ghost use Rattle.geom_check.specs.Boundary.{IsSegmentOf};
ghost use Rattle.geom_check.specs.Accepted.{NamesDomain, ArePlacesDifferent, HasDifferentDomains, HasTwoEnds, IsPlanar};
ghost use Rattle.geom_check.specs.Geometry.{IsGeometryOf, sources_of};
ghost use Rattle.geom_check.specs.Refused.{IsRefusal, IsFaultOrMemory};

use crate::boundaries::{edges, first_open, no_length, same_sides};
use crate::domains::domains;
use crate::geometry::Geometry;
use crate::kinds::{Domains, Segment, Source, Sources};
use crate::limits::MOST_ROWS;
use crate::places::first_together;
use crate::placing::{Placed, place};
use crate::refusal::GeomRefusal;
use crate::scale::Scale;
use crate::spans::first_tangled;
use crate::windings::check_windings;
use grid_geom::Point;
use in2d_reader::{PointRow, RawGeometry, SegmentRow};
use std::alloc::{AllocError as OutOfMemory, Global};

/// Whether some segment names a domain.
fn names_domain(rows: &[SegmentRow]) -> bool
    ensures { IsTrue result ↔ Any NamesDomain rows.now }
{
    rows.iter().any(|row| row.left > 0 || row.right > 0)
}

/// The first fault of points, and of segments by themselves.
fn check_rows(alloc: Global, points: &[Point], segments: &[Segment]) -> Result<(), GeomRefusal>
    requires { All IsOnGrid points.now }
    ensures places { OnOk result (ArePlacesDifferent points.now) }
    ensures sides { OnOk result (All HasDifferentDomains segments.now) }
    ensures ends { OnOk result (All HasTwoEnds segments.now) }
    ensures refused { IfErr result (IsFaultOrMemory points.now segments.now) }
{
    if let Some((i, j)) = first_together(alloc, points)? {
        return Err(GeomRefusal::SamePlace { i, j });
    }
    if let Some(segment) = same_sides(segments) {
        return Err(GeomRefusal::SameSides { segment });
    }
    if let Some(segment) = no_length(segments) {
        return Err(GeomRefusal::NoLength { segment });
    }
    Ok(())
}

/// The first fault of points and segments on the grid.
fn check_grid(alloc: Global, points: &[Point], segments: &[Segment]) -> Result<(), GeomRefusal>
    requires on_grid { All IsOnGrid points.now }
    requires joined { All (IsSegmentOf (length points.now)) segments.now }
    requires few { length segments.now ≤ MOST_ROWS }
    ensures planar { OnOk result (IsPlanar points.now segments.now) }
    ensures refused { IfErr result (IsFaultOrMemory points.now segments.now) }
{
    check_rows(alloc, points, segments)?;
    let edges = edges(alloc, points, segments)?;
    if let Some((i, j)) = first_tangled(alloc, &edges)? {
        return Err(GeomRefusal::Meet { i, j });
    }
    if let Some((point, domain)) = first_open(alloc, points, segments)? {
        return Err(GeomRefusal::OpenAt {
            point,
            domain: domain as u64,
        });
    }
    check_windings(alloc, points, segments, &edges)?;
    Ok(())
}

/// The points with a greatest size that has an effect.
fn flagged(
    alloc: Global,
    scale: &Scale,
    rows: &[PointRow],
    points: &[Point],
) -> Result<Vec<Source>, OutOfMemory>
    requires readable { All IsReadablePoint rows.now }
    requires scale { IsScale scale.now }
    requires points { points.now ≡ points_of scale.now.shift rows.now }
    ensures { IfOk result (λ v. v.items ≡ sources_of scale.now.shift rows.now) }
{
    let mut flagged = Vec::new(alloc);
    for (i, row) in rows.iter().enumerate() {
        if let Some(h) = scale.size(row.maxh) {
            flagged.push(Source { at: points[i], h })?;
        }
    }
    Ok(flagged)
}

/// Checks a geometry and moves it to the grid.
///
/// # Errors
///
/// The first fault, in the order of `GeomRefusal`.
pub fn check(alloc: Global, raw: &RawGeometry) -> Result<Geometry, GeomRefusal>
    requires { IsReadable raw.now }
    ensures accepted { IfOk result (IsGeometryOf raw.now) }
    ensures refused { IfErr result (IsRefusal raw.now) }
{
    if !names_domain(raw.segments.as_slice()) {
        return Err(GeomRefusal::NoDomain);
    }
    let Placed {
        shift,
        points,
        segments,
    } = place(alloc, raw)?;
    check_grid(alloc, points.as_slice(), segments.as_slice())?;
    let scale = Scale { shift };
    let flagged = flagged(alloc, &scale, raw.points.as_slice(), points.as_slice())?;
    let domains = domains(alloc, &scale, segments.as_slice(), raw.materials.as_slice())?;
    Ok(Geometry::new(
        shift,
        points,
        segments,
        Sources::from_vec(flagged),
        Domains::from_vec(domains),
    ))
}
