// The sides and ends of segments, and the boundaries of domains.
ghost use Rattle.std.specs.Prelude.{◌≡◌, ◌↔◌, ◌≤◌, IsTrue, length, All, IfOk, IfSome, IfNone};
ghost use Rattle.grid_geom.specs.Closed.{leaving, arriving};
ghost use Rattle.geom_check.specs.Accepted.{HasDifferentDomains, HasTwoEnds, AreClosed};
ghost use Rattle.geom_check.specs.Boundary.{boundary, edges_of, departures_of, arrivals_of, IsSegmentOf};
ghost use Rattle.geom_check.specs.Refused.{IsFirstFailing, IsLeastOpen};

use crate::kinds::Segment;
use crate::limits::MOST_DOMAINS;
use grid_geom::{Edge, Point};
use std::alloc::{AllocError as OutOfMemory, Global};
use wind_law::closed;

/// The number, from 1, of the first segment with one domain on both sides.
pub fn same_sides(segments: &[Segment]) -> Option<u64>
    ensures found { IfSome result (λ n. IsFirstFailing HasDifferentDomains segments.now n) }
    ensures none { IfNone result (All HasDifferentDomains segments.now) }
{
    for (i, segment) in segments.iter().enumerate() {
        if segment.left == segment.right {
            return Some(i as u64 + 1);
        }
    }
    None
}

/// The number, from 1, of the first segment with one point at both ends.
pub fn no_length(segments: &[Segment]) -> Option<u64>
    ensures found { IfSome result (λ n. IsFirstFailing HasTwoEnds segments.now n) }
    ensures none { IfNone result (All HasTwoEnds segments.now) }
{
    for (i, segment) in segments.iter().enumerate() {
        if segment.p == segment.q {
            return Some(i as u64 + 1);
        }
    }
    None
}

/// The edges of all segments.
pub fn edges(
    alloc: Global,
    points: &[Point],
    segments: &[Segment],
) -> Result<Vec<Edge>, OutOfMemory>
    requires { All (IsSegmentOf (length points.now)) segments.now }
    ensures { IfOk result (λ v. v.items ≡ edges_of points.now segments.now) }
{
    let mut edges = Vec::with_capacity(alloc, segments.len())?;
    for segment in segments {
        edges.push(Edge {
            a: points[segment.p - 1],
            b: points[segment.q - 1],
        })?;
    }
    Ok(edges)
}

/// The edges round a domain, each with the domain on its left.
pub fn round(
    alloc: Global,
    points: &[Point],
    segments: &[Segment],
    domain: u32,
) -> Result<Vec<Edge>, OutOfMemory>
    requires { All (IsSegmentOf (length points.now)) segments.now }
    ensures { IfOk result (λ v. v.items ≡ boundary points.now domain segments.now) }
{
    let mut edges = Vec::new(alloc);
    for segment in segments {
        let (a, b) = (points[segment.p - 1], points[segment.q - 1]);
        if segment.left == domain {
            edges.push(Edge { a, b })?;
        }
        if segment.right == domain {
            edges.push(Edge { a: b, b: a })?;
        }
    }
    Ok(edges)
}

/// 1 where an edge leaves a point, else 0.
fn leaves(edge: &Edge, at: &Point) -> usize
    ensures value { result ≡ departures_of edge.now at.now }
    ensures small { result ≤ 1 }
{
    (edge.a == *at) as usize
}

/// 1 where an edge arrives at a point, else 0.
fn arrives(edge: &Edge, at: &Point) -> usize
    ensures value { result ≡ arrivals_of edge.now at.now }
    ensures small { result ≤ 1 }
{
    (edge.b == *at) as usize
}

/// Whether as many edges leave a point as arrive.
fn is_balanced(edges: &[Edge], at: &Point) -> bool
    ensures { IsTrue result ↔ (leaving at.now edges.now ≡ arriving at.now edges.now) }
{
    let mut departures = 0usize;
    let mut arrivals = 0usize;
    for edge in edges {
        departures += leaves(edge, at);
        arrivals += arrives(edge, at);
    }
    departures == arrivals
}

/// The number, from 1, of the first point that edges leave more or less often than they arrive.
fn open_at(points: &[Point], edges: &[Edge]) -> Option<u64>
    ensures found { IfSome result (λ n. IsFirstFailing (λ p. leaving p edges.now
        ≡ arriving p edges.now) points.now n) }
    ensures none { IfNone result (All (λ p. leaving p edges.now
        ≡ arriving p edges.now) points.now) }
{
    for (i, point) in points.iter().enumerate() {
        if !is_balanced(edges, point) {
            return Some(i as u64 + 1);
        }
    }
    None
}

/// The same, if there is such a point. That there is none is found by sorting the edges' ends.
fn open_point(alloc: Global, points: &[Point], edges: &[Edge]) -> Result<Option<u64>, OutOfMemory>
    ensures found { IfOk result (λ found. IfSome found (λ n. IsFirstFailing
        (λ p. leaving p edges.now ≡ arriving p edges.now) points.now n)) }
    ensures none { IfOk result (λ found. IfNone found
        (All (λ p. leaving p edges.now ≡ arriving p edges.now) points.now)) }
{
    if closed(alloc, edges)? {
        return Ok(None);
    }
    Ok(open_at(points, edges))
}

/// The least domain whose boundary is open, and the number, from 1, of the first point at which it
/// is.
pub fn first_open(
    alloc: Global,
    points: &[Point],
    segments: &[Segment],
) -> Result<Option<(u64, u32)>, OutOfMemory>
    requires { All (IsSegmentOf (length points.now)) segments.now }
    ensures found { IfOk result (λ found. IfSome found
        (λ fault. IsLeastOpen points.now segments.now fault.0 fault.1)) }
    ensures none { IfOk result (λ found. IfNone found (AreClosed points.now segments.now)) }
{
    for domain in 1..MOST_DOMAINS + 1 {
        let edges = round(alloc, points, segments, domain)?;
        if let Some(point) = open_point(alloc, points, &edges)? {
            return Ok(Some((point, domain)));
        }
    }
    Ok(None)
}
