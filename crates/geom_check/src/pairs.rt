// Pairs of points at one place, and pairs of edges that share more than a common end.
ghost use Rattle.std.specs.Prelude.{◌≡◌, ◌≢◌, ◌<◌, ℕ, length, All, IfSome, IfNone};
ghost use Rattle.geom_check.specs.Accepted.{AreTogether, AreTangled, ArePlacesDifferent, AreApart};
ghost use Rattle.wind_law.specs.Grid.{IsEdgeOnGrid};
ghost use Rattle.geom_check.specs.Refused.{IsLeastPair, IsFirstPartner};

use grid_geom::{Edge, Point, tangle};

/// The first later point at the place of point i.
fn twin(points: &[Point], i: usize) -> Option<usize>
    requires { i < length points.now }
    ensures found { IfSome result (λ j. IsFirstPartner (AreTogether points.now) i j) }
    ensures none { IfNone result ((j : ℕ) → ¬ AreTogether points.now i j) }
{
    for j in i + 1..points.len() {
        if points[j] == points[i] {
            return Some(j);
        }
    }
    None
}

/// The numbers, from 1, of the least pair of points at one place.
pub fn together(points: &[Point]) -> Option<(u64, u64)>
    ensures found { IfSome result (λ pair. IsLeastPair (AreTogether points.now) pair.0 pair.1) }
    ensures none { IfNone result (ArePlacesDifferent points.now) }
{
    for i in 0..points.len() {
        if let Some(j) = twin(points, i) {
            return Some((i as u64 + 1, j as u64 + 1));
        }
    }
    None
}

/// The first later edge that tangles with edge i.
fn tangled_with(edges: &[Edge], i: usize) -> Option<usize>
    requires in_list { i < length edges.now }
    requires on_grid { All IsEdgeOnGrid edges.now }
    ensures found { IfSome result (λ j. IsFirstPartner (AreTangled edges.now) i j) }
    ensures none { IfNone result ((j : ℕ) → ¬ AreTangled edges.now i j) }
{
    let first = edges[i];
    for j in i + 1..edges.len() {
        let second = edges[j];
        if tangle(first.a, first.b, second.a, second.b) {
            return Some(j);
        }
    }
    None
}

/// The numbers, from 1, of the least pair of edges that share more than a common end.
pub fn tangled(edges: &[Edge]) -> Option<(u64, u64)>
    requires { All IsEdgeOnGrid edges.now }
    ensures found { IfSome result (λ pair. IsLeastPair (AreTangled edges.now) pair.0 pair.1) }
    ensures none { IfNone result (AreApart edges.now) }
{
    for i in 0..edges.len() {
        if let Some(j) = tangled_with(edges, i) {
            return Some((i as u64 + 1, j as u64 + 1));
        }
    }
    None
}
