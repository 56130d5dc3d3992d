//! The areas of domains.

ghost use Rattle.std.specs.Prelude.{◌≡◌, ◌∷◌, [], length, All};
ghost use Rattle.grid_geom.specs.Bounds.{IsOnGrid, IsWithin};
ghost use Rattle.grid_geom.specs.Area.{sweep_of, shoelace};
ghost use Rattle.geom_check.specs.Boundary.{boundary, edge_of, IsSegmentOf};
ghost use Rattle.netmesh_cli.specs.Shown.{double_area as double_area_of};

use geom_check::{Geometry, Segment};
use grid_geom::{GRID, Point, orient};

/// The origin of the grid.
const ORIGIN: Point = Point { x: 0, y: 0 };

/// The greatest doubled area of a triangle of the origin and a segment: twice the square of the grid's half width.
pub const SWEPT: i128 = 2 * GRID as i128 * GRID as i128;

/// Twice the signed area of the triangle of the origin and a segment, in square grid units.
fn swept(points: &[Point], segment: &Segment) -> i128
    requires on_grid { All IsOnGrid points.now }
    requires joined { IsSegmentOf (length points.now) segment.now }
    ensures value { result ≡ sweep_of (edge_of points.now segment.now) }
    ensures small { IsWithin SWEPT result }
{
    orient(ORIGIN, points[segment.p - 1], points[segment.q - 1])
}

/// What a segment adds to the doubled area of a domain.
fn added(points: &[Point], segment: &Segment, domain: u32) -> i128
    requires on_grid { All IsOnGrid points.now }
    requires joined { IsSegmentOf (length points.now) segment.now }
    ensures value { result ≡ shoelace (boundary points.now domain (segment.now ∷ [])) }
    ensures small { IsWithin SWEPT result }
{
    let area = swept(points, segment);
    if segment.left == segment.right {
        0
    } else if segment.left == domain {
        area
    } else if segment.right == domain {
        -area
    } else {
        0
    }
}

/// Twice the area of a domain, by the shoelace rule, in square grid units.
pub fn double_area(geometry: &Geometry, domain: u32) -> i128
    ensures { result ≡ double_area_of geometry.now domain }
{
    let points = geometry.points();
    let segments = geometry.segments();
    let mut sum: i128 = 0;
    for segment in segments {
        sum += added(points, segment, domain);
    }
    sum
}
