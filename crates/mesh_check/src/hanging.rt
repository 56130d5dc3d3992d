// Mesh points in open sides of elements.
ghost use Rattle.std.specs.Prelude.{◌≡◌, ℕ, ◌<◌, ◌∷◌, [], length, slice_index_or, true, All, MatchOption, IfOk, IfSome, IfNone};
ghost use Rattle.std.specs.List.{AllByRecursion};
ghost use Rattle.grid_geom.specs.Bounds.{IsOnGrid};
ghost use Rattle.grid_geom.specs.Polygon.{sides, way_round};
ghost use Rattle.wind_law.specs.Chains.{edge};
ghost use Rattle.state_law.specs.State.{IsListed};
ghost use Rattle.mesh_check.specs.Whole.{DoesHang};
ghost use Rattle.geom_check.specs.Refused.{IsLeastPair};
ghost use Rattle.mesh_check.specs.Least.{IsLeast, IsLesser, IsLeastNumber};
ghost use Rattle.mesh_check.specs.Near.{IsPlaced};
ghost use Rattle.mesh_check.specs.Hung.{IsMetIn, IsMetAt};

use crate::elements::polygon;
use crate::near::{box_of, tree_of};
use crate::spots::{least_of, lesser};
use digital_tree::{Entry, Tree};
use grid_geom::{Point, on_open};
use std::alloc::{AllocError as OutOfMemory, Global};
use vol_format::MeshElement;

/// The position of a point, where that is in the open side from a to b.
fn met(hit: &Entry<usize>, a: Point, b: Point) -> Option<usize>
    requires hit { IsPlaced hit.now }
    requires a_on { IsOnGrid a }
    requires b_on { IsOnGrid b }
    ensures { IsLeastNumber (IsMetAt hit.now a b) result }
{
    if on_open(hit.bounds.lo, a, b) {
        Some(hit.value)
    } else {
        None
    }
}

/// The least position of a point in the open side from a to b.
fn least_on(hits: &[Entry<usize>], a: Point, b: Point) -> Option<usize>
    requires hits { All IsPlaced hits.now }
    requires a_on { IsOnGrid a }
    requires b_on { IsOnGrid b }
    ensures { IsLeastNumber (IsMetIn hits.now (edge a b ∷ [])) result }
{
    let mut least = None;
    for hit in hits {
        least = least_of(least, met(hit, a, b));
    }
    least
}

/// The least position of a point in an open side from `from` by the rest of the corners and on to
/// `first`.
fn least_way(hits: &[Entry<usize>], first: Point, from: Point, rest: &[Point]) -> Option<usize>
    requires hits { All IsPlaced hits.now }
    requires first_on { IsOnGrid first }
    requires from_on { IsOnGrid from }
    requires rest_on { All IsOnGrid rest.now }
    ensures { IsLeastNumber (IsMetIn hits.now (way_round first from rest.now)) result }
{
    match rest {
        [] => least_on(hits, from, first),
        [to, after @ ..] => {
            let here = least_on(hits, from, *to);
            let ahead = least_way(hits, first, *to, after);
            least_of(here, ahead)
        }
    }
}

/// The least position of a point in an open side of the polygon of the corners.
fn least_in(hits: &[Entry<usize>], corners: &[Point]) -> Option<usize>
    requires hits { All IsPlaced hits.now }
    requires corners_on { All IsOnGrid corners.now }
    ensures { IsLeastNumber (IsMetIn hits.now (sides corners.now)) result }
{
    match corners {
        [] => None,
        [first, rest @ ..] => least_way(hits, *first, *first, rest),
    }
}

/// The least position of a point of the tree in an open side of the polygon of the corners. Only points
/// in a box that holds the corners are tried.
fn least_at(
    alloc: Global,
    tree: &Tree<usize>,
    corners: &[Point],
) -> Result<Option<usize>, OutOfMemory>
    requires placed { AllByRecursion IsPlaced tree.now.entries }
    requires corners_on { All IsOnGrid corners.now }
    ensures { IfOk result (IsLeastNumber (IsMetIn tree.now.entries (sides corners.now))) }
{
    let mut hits = Vec::new(alloc);
    tree.push_hits(&box_of(corners), &mut hits)?;
    Ok(least_in(&hits, corners))
}

/// The lesser of a pair and that of a point found at an element, each of which may be absent.
fn with_element(
    least: Option<(usize, usize)>,
    found: Option<usize>,
    element: usize,
) -> Option<(usize, usize)>
    ensures none { IfNone found (result ≡ least) }
    ensures some { IfSome found (λ i. MatchOption result ⊥ (IsLesser least (i, element))) }
{
    match found {
        Some(point) => Some(lesser(least, (point, element))),
        None => least,
    }
}

/// The least pair of positions of a point and of an element that has it in an open side. Points that
/// are passed over aren't tried: they hang nowhere.
fn least_hanging(
    alloc: Global,
    points: &[Point],
    passed: &[bool],
    elements: &[MeshElement],
) -> Result<Option<(usize, usize)>, OutOfMemory>
    requires long { length passed.now ≡ length points.now }
    requires passed { (i k : ℕ) → i < length points.now → slice_index_or passed.now i true ≡ true →
        ¬ DoesHang points.now elements.now i k }
    requires on_grid { All IsOnGrid points.now }
    requires corners { All (λ e. All (IsListed (length points.now)) e.corners) elements.now }
    ensures { IfOk result (IsLeast (DoesHang points.now elements.now)) }
{
    let tree = tree_of(alloc, points, passed)?;
    let mut least = None;
    for (i, element) in elements.iter().enumerate() {
        let corners = polygon(alloc, points, element.corners.as_slice())?;
        let found = least_at(alloc, &tree, &corners)?;
        least = with_element(least, found, i);
    }
    Ok(least)
}

/// The numbers, from 1, of the least point in an open side of an element, and of the least such element.
pub fn hanging(
    alloc: Global,
    points: &[Point],
    passed: &[bool],
    elements: &[MeshElement],
) -> Result<Option<(u64, u64)>, OutOfMemory>
    requires long { length passed.now ≡ length points.now }
    requires passed { (i k : ℕ) → i < length points.now → slice_index_or passed.now i true ≡ true →
        ¬ DoesHang points.now elements.now i k }
    requires on_grid { All IsOnGrid points.now }
    requires corners { All (λ e. All (IsListed (length points.now)) e.corners) elements.now }
    ensures found { IfOk result (λ found. IfSome found
        (λ pair. IsLeastPair (DoesHang points.now elements.now) pair.0 pair.1)) }
    ensures none { IfOk result (λ found. IfNone found
        ((i k : ℕ) → ¬ DoesHang points.now elements.now i k)) }
{
    match least_hanging(alloc, points, passed, elements)? {
        Some((i, k)) => Ok(Some((i as u64 + 1, k as u64 + 1))),
        None => Ok(None),
    }
}
