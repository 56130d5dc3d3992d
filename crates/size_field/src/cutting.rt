// Segments cut into pieces.
ghost use Rattle.std.specs.Prelude.{◌≡◌, ◌<◌, ◌≤◌, ◌+◌, ◌++◌, map, min, length, All, IfOk, IfSome, OnOk};
ghost use Rattle.grid_geom.specs.Bounds.{IsWithin, IsOnGrid};
ghost use Rattle.grid_geom.specs.declared.TheConstants.{GRID};
ghost use Rattle.geom_check.specs.Boundary.{edge_of, IsEdgeOnGrid, IsSegmentOf};
ghost use Rattle.size_field.specs.Size.{least_size, reach, AreLimits};
ghost use Rattle.size_field.specs.Cutting.{half_sum, middle_of, cut_at, next_cut, parts, at_most, bound_by, size_of_domain, side_most, most_of, parts_of, segment_at, piece_of, pieces_of};

use super::fields::sizes_of_points;
use super::pieces::{Piece, Pieces};
use super::sizes::Sizes;
use geom_check::{Domain, Geometry, Segment};
use grid_geom::{Edge, LONGEST, Point};
use std::alloc::{AllocError as OutOfMemory, Global};

/// How often a segment may be halved.
pub const MOST_HALVINGS: u32 = 8;

/// Half the sum of two coordinates, where it is whole.
fn half_sum(u: &i64, w: &i64) -> Option<i64>
    requires u { IsWithin GRID u.now }
    requires w { IsWithin GRID w.now }
    ensures half { result ≡ half_sum u.now w.now }
    ensures within { IfSome result (IsWithin GRID) }
{
    let sum = *u + *w;
    let half = sum.div_euclid(2);
    if 2 * half == sum { Some(half) } else { None }
}

/// The point in the middle between two, where it is a grid point.
fn middle(a: &Point, b: &Point) -> Option<Point>
    requires a { IsOnGrid a.now }
    requires b { IsOnGrid b.now }
    ensures middle { result ≡ middle_of a.now b.now }
    ensures on_grid { IfSome result IsOnGrid }
{
    let x = half_sum(&a.x, &b.x)?;
    let y = half_sum(&a.y, &b.y)?;
    Some(Point { x, y })
}

/// The longer one of a segment's two extents, along the axes.
pub fn extent(a: &Point, b: &Point) -> u64
    ensures { result ≡ reach a.now b.now }
{
    a.x.abs_diff(b.x).max(a.y.abs_diff(b.y))
}

/// What bounds the pieces of a segment: the sources of sizes, and the greatest length.
#[derive(Clone, Copy)]
pub(super) struct Bound<'a> {
    pub(super) sizes: &'a Sizes,
    pub(super) most: u64,
}

/// Where a piece is cut: in its middle, where that is a grid point, and the piece's longer extent is
/// greater than its bound.
fn cut_at(bound: &Bound<'_>, edge: &Edge) -> Option<Point>
    requires edge { IsEdgeOnGrid edge.now }
    requires most { bound.now.most ≤ bound.now.sizes.now.greatest }
    ensures place { result ≡ cut_at
        (bound_by bound.now.sizes.now bound.now.most) edge.now.a edge.now.b }
    ensures on_grid { IfSome result IsOnGrid }
{
    let middle = middle(&edge.a, &edge.b)?;
    if bound.sizes.below(&middle, bound.most) < extent(&edge.a, &edge.b) {
        Some(middle)
    } else {
        None
    }
}

/// Where a piece is cut that may be halved so often.
fn next_cut(bound: &Bound<'_>, edge: &Edge, halvings: u32) -> Option<Point>
    requires edge { IsEdgeOnGrid edge.now }
    requires most { bound.now.most ≤ bound.now.sizes.now.greatest }
    ensures place { result ≡ next_cut
        (bound_by bound.now.sizes.now bound.now.most) halvings edge.now.a edge.now.b }
    ensures on_grid { IfSome result IsOnGrid }
    ensures may { IfSome result (λ _. 0 < halvings) }
{
    if halvings == 0 {
        None
    } else {
        cut_at(bound, edge)
    }
}

/// Adds the pieces of an edge of a segment, where each may be halved so often.
pub(super) fn push_parts(
    pieces: &mut Vec<Piece>,
    bound: &Bound<'_>,
    segment: usize,
    edge: &Edge,
    halvings: u32,
) -> Result<(), OutOfMemory>
    requires edge { IsEdgeOnGrid edge.now }
    requires most { bound.now.most ≤ bound.now.sizes.now.greatest }
    ensures { OnOk result (pieces.new.items ≡ pieces.old.items
        ++ map (piece_of segment)
        (parts (bound_by bound.now.sizes.now bound.now.most) halvings edge.now.a edge.now.b)) }
{
    match next_cut(bound, edge, halvings) {
        None => pieces.push(Piece {
            segment,
            a: edge.a,
            b: edge.b,
        })?,
        Some(middle) => {
            let first = Edge {
                a: edge.a,
                b: middle,
            };
            let second = Edge {
                a: middle,
                b: edge.b,
            };
            push_parts(pieces, bound, segment, &first, halvings - 1)?;
            push_parts(pieces, bound, segment, &second, halvings - 1)?;
        }
    }
    Ok(())
}

/// The greatest size that a domain has, if it has one.
fn size_of_domain(domains: &[Domain], domain: u32) -> Option<u64>
    ensures { result ≡ size_of_domain domains.now domain }
{
    for d in domains {
        if d.number == domain {
            return d.maxh;
        }
    }
    None
}

/// The lesser of a number and another one, where there is one.
fn at_most(n: u64, other: Option<u64>) -> u64
    ensures { result ≡ at_most n other }
{
    match other {
        None => n,
        Some(m) => n.min(m),
    }
}

/// The greatest size of a domain: its own one, or the given one, if that is less.
pub fn greatest_in(domains: &[Domain], greatest: u64, domain: u32) -> u64
    ensures size { result ≡ at_most greatest (size_of_domain domains.now domain) }
    ensures most { result ≤ greatest }
{
    at_most(greatest, size_of_domain(domains, domain))
}

/// The greatest length that the domain on a side allows; the outside, 0, allows any length.
fn side_most(domains: &[Domain], greatest: u64, domain: u32) -> u64
    requires { greatest ≤ LONGEST }
    ensures size { result ≡ side_most domains.now greatest domain }
    ensures most { result ≤ LONGEST }
{
    if domain == 0 {
        LONGEST
    } else {
        greatest_in(domains, greatest, domain)
    }
}

/// The greatest length of a segment's pieces, without regard to sources.
fn most_of(domains: &[Domain], greatest: u64, segment: &Segment) -> u64
    requires { greatest ≤ LONGEST }
    ensures size { result ≡ most_of domains.now greatest segment.now }
    ensures most { result ≤ LONGEST }
{
    let left = side_most(domains, greatest, segment.left);
    let right = side_most(domains, greatest, segment.right);
    at_most(left.min(right), segment.maxh)
}

/// A segment as an edge, from its first point to its last.
fn edge_of(points: &[Point], segment: &Segment) -> Edge
    requires on_grid { All IsOnGrid points.now }
    requires of_points { IsSegmentOf (length points.now) segment.now }
    ensures edge { result ≡ edge_of points.now segment.now }
    ensures on_grid { IsEdgeOnGrid result }
{
    Edge {
        a: points[segment.p - 1],
        b: points[segment.q - 1],
    }
}

/// Adds the pieces of the segment with this number. `sizes` are those of the file's points.
fn push_segment(
    pieces: &mut Vec<Piece>,
    g: &Geometry,
    greatest: u64,
    sizes: &Sizes,
    index: usize,
) -> Result<(), OutOfMemory>
    requires greatest { greatest ≤ LONGEST }
    requires most { sizes.now.greatest ≡ LONGEST }
    requires sources { sizes.now.sources ≡ g.now.flagged }
    requires index { index < length g.now.segments }
    ensures { OnOk result (pieces.new.items ≡ pieces.old.items
        ++ map (piece_of (index + 1))
        (parts_of g.now greatest sizes.now.grading (segment_at g.now index))) }
{
    let segment = &g.segments()[index];
    let bound = Bound {
        sizes,
        most: most_of(g.domains(), greatest, segment),
    };
    let edge = edge_of(g.points(), segment);
    push_parts(pieces, &bound, index + 1, &edge, MOST_HALVINGS)
}

/// The pieces of a geometry, segment by segment, each segment's from its first point to its last.
///
/// A piece is cut in its middle where that is a grid point, it was made by fewer than
/// `MOST_HALVINGS` halvings, and its longer extent is greater than the least of the segment's own
/// greatest length and the sizes at its middle of the domains on its sides. `greatest` is the greatest
/// size, in grid steps, and `grading` by how many thousandths of the distance sizes grow.
pub fn cut(alloc: Global, g: &Geometry, greatest: u64, grading: u32) -> Result<Pieces, OutOfMemory>
    requires { AreLimits greatest grading }
    ensures { IfOk result (λ pieces. pieces ≡ pieces_of g.now greatest grading) }
{
    let sizes = sizes_of_points(alloc, g, LONGEST, grading)?;
    let mut pieces = Vec::with_capacity(alloc, g.segments().len())?;
    for index in 0..g.segments().len() {
        push_segment(&mut pieces, g, greatest, &sizes, index)?;
    }
    Ok(Pieces::from_vec(pieces))
}
