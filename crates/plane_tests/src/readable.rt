// Whether a geometry is within a reader's ranges: what a test makes sure of before it checks one.
ghost use Rattle.std.specs.Prelude.{◌≡◌, ◌==◌, IsTrue, IsSome, IfSome, All};
ghost use Rattle.std.specs.List.{list_any};
ghost use Rattle.geom_check.specs.Boundary.{IsBoundaryNumber};
ghost use Rattle.geom_check.specs.Placed.{IsReadable, IsReadableNumber, IsReadableIfAny, IsReadablePoint, IsReadableSegment, IsReadableMaterial, row_in};

use in2d_reader::{MaterialRow, PointRow, RawGeometry, SegmentRow};
use word_scan::Dec;

/// The most points, and the most segments, of a geometry.
const MOST_ROWS: usize = 4_096;

/// The greatest number of a domain.
const MOST_DOMAINS: u32 = 64;

/// The greatest boundary number.
const MOST_BOUNDARY_NUMBER: u32 = 999_999;

fn is_readable_number(v: &Dec) -> bool
    ensures { IsTrue result → IsReadableNumber v.now }
{
    v.digits.unsigned_abs() < 10u128.pow(30) && v.scale >= -99 && v.scale <= 99
}

fn is_readable_if_any(maxh: &Option<Dec>) -> bool
    ensures { IsTrue result → IsReadableIfAny maxh.now }
{
    match maxh {
        Some(v) => is_readable_number(v),
        None => true,
    }
}

fn is_readable_point(row: &PointRow) -> bool
    ensures { IsTrue result → IsReadablePoint row.now }
{
    is_readable_number(&row.x) && is_readable_number(&row.y) && is_readable_if_any(&row.maxh)
}

fn has_number(points: &[PointRow], number: u32) -> bool
    ensures { result ≡ list_any (λ row. row.number == number) points.now }
{
    points.iter().any(|row| row.number == number)
}

#[tactic(auto, using(crate::proofs::Rows::row_is_known))]
fn is_known(points: &[PointRow], number: u32) -> bool
    ensures { IsTrue result → IsSome (row_in points.now number) }
{
    has_number(points, number)
}

fn is_boundary_number(bc: Option<u32>) -> bool
    ensures { IsTrue result → IfSome bc IsBoundaryNumber }
{
    match bc {
        Some(n) => 0 < n && n <= MOST_BOUNDARY_NUMBER,
        None => true,
    }
}

fn is_readable_segment(points: &[PointRow], row: &SegmentRow) -> bool
    ensures { IsTrue result → IsReadableSegment points.now row.now }
{
    is_known(points, row.p)
        && is_known(points, row.q)
        && is_boundary_number(row.bc)
        && is_readable_if_any(&row.maxh)
        && row.left <= MOST_DOMAINS
        && row.right <= MOST_DOMAINS
}

fn are_readable_points(rows: &[PointRow]) -> bool
    ensures { IsTrue result → All IsReadablePoint rows.now }
{
    rows.iter().all(|row| is_readable_point(row))
}

fn are_readable_segments(points: &[PointRow], rows: &[SegmentRow]) -> bool
    ensures { IsTrue result → All (IsReadableSegment points.now) rows.now }
{
    rows.iter().all(|row| is_readable_segment(points, row))
}

fn are_readable_materials(rows: &[MaterialRow]) -> bool
    ensures { IsTrue result → All IsReadableMaterial rows.now }
{
    rows.iter().all(|row| is_readable_if_any(&row.maxh))
}

pub fn is_readable(raw: &RawGeometry) -> bool
    ensures { IsTrue result → IsReadable raw.now }
{
    let points = raw.points.as_slice();
    let segments = raw.segments.as_slice();
    points.len() <= MOST_ROWS
        && segments.len() <= MOST_ROWS
        && are_readable_points(points)
        && are_readable_segments(points, segments)
        && are_readable_materials(raw.materials.as_slice())
}
