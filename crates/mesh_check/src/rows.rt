// Whether the edge rows of a mesh walk the segments of a geometry.
ghost use Rattle.std.specs.Prelude.{◌≡◌, ◌↔◌, ◌+◌, ◌<◌, ◌≤◌, List, [], ◌∷◌, ◌++◌, length, take, All, IsTrue, IfSome, IfNone};
ghost use Rattle.grid_geom.specs.Bounds.{IsOnGrid};
ghost use Rattle.state_law.specs.State.{IsListed, point_at};
ghost use Rattle.geom_check.specs.Boundary.{edge_of};
ghost use Rattle.geom_check.specs.Geometry.{IsGeometry};
ghost use Rattle.vol_format.specs.declared.EdgeRow.{EdgeRow};
ghost use Rattle.mesh_check.specs.Parts.{NamesItsPoints, RowJoins, row_edge};
ghost use Rattle.mesh_check.specs.Walked.{IsLabelled, DoesMove, IsStep, DoWalk, StandsAt, IsRowFault, places_of, segment_after};
ghost use Rattle.mesh_check.specs.Whole.{DoRowsWalk};
ghost use Rattle.mesh_check.specs.Stands.{IsStandAfter};

use geom_check::{Geometry, Segment};
use grid_geom::{Point, on_open};
use vol_format::{EdgeRow, Mesh};

/// Where a walk stands: so many segments are walked, and the next one up to a place.
#[derive(Clone, Copy, Debug, PartialEq, Eq)]
pub struct Stand {
    pub done: usize,
    pub at: Point,
}

/// The place of a point, by its number from 1.
pub fn place(points: &[Point], number: u64) -> Point
    requires { IsListed (length points.now) number }
    ensures { result ≡ point_at points.now number }
{
    points[(number - 1) as usize]
}

/// Whether an edge row says of its sides and its number what a segment says.
fn is_labelled(row: &EdgeRow, segment: &Segment, number: usize) -> bool
    ensures { IsTrue result ↔ IsLabelled number segment.now row.now }
{
    row.left == segment.left
        && row.right == segment.right
        && row.bc == segment.bc
        && row.segment as usize == number
}

/// Whether an edge row goes on from a place, strictly forward along a segment that ends at `last`.
fn does_move(points: &[Point], row: &EdgeRow, at: Point, last: Point) -> bool
    requires joins { RowJoins (length points.now) row.now }
    requires on_grid { All IsOnGrid points.now }
    requires at_on { IsOnGrid at }
    requires last_on { IsOnGrid last }
    ensures { IsTrue result ↔ DoesMove at last (row_edge points.now row.now) }
{
    let (start, end) = (place(points, row.a), place(points, row.b));
    start == at && (end != at && (end == last || on_open(end, at, last)))
}

/// Where the next segment begins, if there is one.
fn begin(g: &Geometry, done: usize) -> Option<Stand>
    requires { done ≤ length g.now.segments }
    ensures none { IfNone result (done ≡ length g.now.segments) }
    ensures some { IfSome result (λ s. (s.done ≡ done) × (done < length g.now.segments)
        × (s.at ≡ (edge_of g.now.points (segment_after done g.now.segments)).a)) }
    ensures on_grid { IfSome result (λ s. IsOnGrid s.at) }
    ensures geometry { IsGeometry g.now }
{
    let segments = g.segments();
    if done == segments.len() {
        return None;
    }
    Some(Stand {
        done,
        at: g.points()[segments[done].p - 1],
    })
}

/// The last place of a segment.
fn last_of(g: &Geometry, done: usize) -> Point
    requires { done < length g.now.segments }
    ensures value { result ≡ (edge_of g.now.points (segment_after done g.now.segments)).b }
    ensures on_grid { IsOnGrid result }
    ensures geometry { IsGeometry g.now }
{
    g.points()[g.segments()[done].q - 1]
}

/// Whether an edge row is a step on from where the walk stands.
fn is_step(g: &Geometry, m: &Mesh, stand: Stand, row: &EdgeRow) -> bool
    requires names { NamesItsPoints m.now }
    requires joins { RowJoins (length m.now.points) row.now }
    requires in_list { stand.done < length g.now.segments }
    requires at_on { IsOnGrid stand.at }
    ensures { IsTrue result ↔ IsStep (places_of g.now m.now) (stand.done + 1)
        (segment_after stand.done g.now.segments) stand.at row.now }
{
    let last = last_of(g, stand.done);
    does_move(m.points.as_slice(), row, stand.at, last)
        && is_labelled(row, &g.segments()[stand.done], stand.done + 1)
}

/// Where the walk stands after one more step.
fn after(g: &Geometry, m: &Mesh, stand: Stand, row: &EdgeRow) -> Option<Stand>
    requires names { NamesItsPoints m.now }
    requires joins { RowJoins (length m.now.points) row.now }
    requires in_list { stand.done < length g.now.segments }
    requires step { IsStep (places_of g.now m.now) (stand.done + 1)
        (segment_after stand.done g.now.segments) stand.at row.now }
    ensures stands { (rows : List EdgeRow) →
        StandsAt (places_of g.now m.now) g.now.segments stand.done stand.at rows →
        IsStandAfter (places_of g.now m.now) g.now.segments (rows ++ row.now ∷ []) result }
    ensures on_grid { IfSome result (λ s. IsOnGrid s.at) }
{
    let end = place(m.points.as_slice(), row.b);
    if end == last_of(g, stand.done) {
        begin(g, stand.done + 1)
    } else {
        Some(Stand {
            done: stand.done,
            at: end,
        })
    }
}

/// The number, from 1, of the first edge row by which the rows don't walk the segments, or of the one
/// past the last where rows are missing.
pub fn row_fault(g: &Geometry, m: &Mesh) -> Option<u64>
    requires { NamesItsPoints m.now }
    ensures found { IfSome result (IsRowFault g.now m.now) }
    ensures none { IfNone result (DoRowsWalk g.now m.now) }
{
    let rows = m.edges.as_slice();
    let mut stand = begin(g, 0);
    for (i, row) in rows.iter().enumerate() {
        match stand {
            Some(here) if is_step(g, m, here, row) => stand = after(g, m, here, row),
            _ => return Some(i as u64 + 1),
        }
    }
    match stand {
        Some(_) => Some(rows.len() as u64 + 1),
        None => None,
    }
}
