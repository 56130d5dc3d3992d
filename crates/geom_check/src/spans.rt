// Whether no two edges tangle, each tried against those alone whose boxes meet its own.
ghost use Rattle.std.specs.Prelude.{◌≡◌, ◌<◌, ℕ, length, map, slice_index_or, true, false, All, AllPairs, IfOk, IfSome, IfNone};
ghost use lib.Signed.{lt_z};
ghost use Rattle.std.specs.List.Sorted.{IsNonDecreasingBy};
ghost use Rattle.wind_law.specs.Grid.{IsEdgeOnGrid};
ghost use Rattle.geom_check.specs.Accepted.{AreApart, AreTangled, DoEdgesTangle};
ghost use Rattle.geom_check.specs.Refused.{IsLeastPair};
ghost use Rattle.geom_check.specs.Spans.{box_of, IsSpan, IsFreeOf};

use crate::pairs::tangled;
use crate::strips::from_left;
use grid_geom::{Bounds, Edge, Point, meet, tangle};
use std::alloc::{AllocError as OutOfMemory, Global};

/// An edge with its box, and how far the box's left side is from the left end of the grid.
#[derive(Clone, Copy, Debug, PartialEq, Eq)]
pub struct Span {
    pub left: u64,
    pub bounds: Bounds,
    pub edge: Edge,
}

/// The box of an edge.
fn box_of(edge: &Edge) -> Bounds
    ensures { result ≡ box_of edge.now }
{
    let (a, b) = (edge.a, edge.b);
    Bounds {
        lo: Point {
            x: a.x.min(b.x),
            y: a.y.min(b.y),
        },
        hi: Point {
            x: a.x.max(b.x),
            y: a.y.max(b.y),
        },
    }
}

/// An edge with its box.
fn span_of(edge: &Edge) -> Span
    requires { IsEdgeOnGrid edge.now }
    ensures edge { result.edge ≡ edge.now }
    ensures span { IsSpan result }
{
    let bounds = box_of(edge);
    Span {
        left: from_left(&bounds.lo),
        bounds,
        edge: *edge,
    }
}

/// The edges with their boxes, in their order.
fn spans_of(alloc: Global, edges: &[Edge]) -> Result<Vec<Span>, OutOfMemory>
    requires { All IsEdgeOnGrid edges.now }
    ensures edges { IfOk result (λ v. map (λ s. s.edge) v.items ≡ edges.now) }
    ensures spans { IfOk result (λ v. All IsSpan v.items) }
{
    let mut spans = Vec::with_capacity(alloc, edges.len())?;
    for edge in edges {
        spans.push(span_of(edge))?;
    }
    Ok(spans)
}

/// Whether two edges tangle: boxes first.
fn do_tangle(first: &Span, second: &Span) -> bool
    requires first { IsSpan first.now }
    requires second { IsSpan second.now }
    ensures { result ≡ false → ¬ DoEdgesTangle first.now.edge second.now.edge }
{
    let (e, f) = (first.edge, second.edge);
    meet(&first.bounds, &second.bounds) && tangle(e.a, e.b, f.a, f.b)
}

/// Whether an edge begins right of the end of another.
fn begins_beyond(first: &Span, second: &Span) -> bool
    ensures { result ≡ lt_z first.now.bounds.hi.x second.now.bounds.lo.x }
{
    first.bounds.hi.x < second.bounds.lo.x
}

/// Whether the edge at a place tangles with a later one. By the order, none tangles with it from the first one on
/// that begins right of its end.
fn is_tangled(spans: &[Span], i: usize) -> bool
    requires in_list { i < length spans.now }
    requires spans { All IsSpan spans.now }
    requires sorted { IsNonDecreasingBy (λ s. s.left) spans.now }
    ensures { result ≡ false → IsFreeOf spans.now i (length spans.now) }
{
    let first = spans[i];
    for j in i + 1..spans.len() {
        let second = spans[j];
        if begins_beyond(&first, &second) {
            return false;
        }
        if do_tangle(&first, &second) {
            return true;
        }
    }
    false
}

/// Whether none of the edges tangles with a later one.
fn are_free(spans: &[Span]) -> bool
    requires spans { All IsSpan spans.now }
    requires sorted { IsNonDecreasingBy (λ s. s.left) spans.now }
    ensures { result ≡ true → AllPairs (λ s t. ¬ DoEdgesTangle s.edge t.edge) spans.now }
{
    for i in 0..spans.len() {
        if is_tangled(spans, i) {
            return false;
        }
    }
    true
}

/// Whether it is found that no two edges share more than a common end. Near-linear where few boxes meet.
fn are_apart(alloc: Global, edges: &[Edge]) -> Result<bool, OutOfMemory>
    requires { All IsEdgeOnGrid edges.now }
    ensures { IfOk result (λ apart. apart ≡ true → AreApart edges.now) }
{
    let mut spans = spans_of(alloc, edges)?;
    spans.sort_unstable_by_key(|s| s.left);
    Ok(are_free(&spans))
}

/// The numbers, from 1, of the least pair of edges that share more than a common end.
pub fn first_tangled(alloc: Global, edges: &[Edge]) -> Result<Option<(u64, u64)>, OutOfMemory>
    requires { All IsEdgeOnGrid edges.now }
    ensures found { IfOk result (λ found. IfSome found
        (λ pair. IsLeastPair (AreTangled edges.now) pair.0 pair.1)) }
    ensures none { IfOk result (λ found. IfNone found (AreApart edges.now)) }
{
    if are_apart(alloc, edges)? {
        return Ok(None);
    }
    Ok(tangled(edges))
}
