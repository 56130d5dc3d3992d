// Points of a mesh that can't hang, where elements and boundaries agree: corners of elements, where no
// point is in an open edge row.
ghost use Rattle.std.specs.Prelude.{◌≡◌, ◌⊎◌, ℕ, ◌+◌, ◌<◌, Bool, true, false, length, slice_index_or, All, Contains, IsTrue, IfOk};
ghost use Rattle.std.specs.List.{AllByRecursion};
ghost use Rattle.grid_geom.specs.Bounds.{IsOnGrid};
ghost use Rattle.state_law.specs.State.{IsListed};
ghost use Rattle.mesh_check.specs.Parts.{NamesItsPoints, RowJoins, row_edge};
ghost use Rattle.mesh_check.specs.Near.{IsEdgeEntry, HasEdge, IsFreeOf};
ghost use Rattle.mesh_check.specs.Tight.{IsNamed, IsRowFree, IsSpared};

use crate::near::{box_at, box_of};
use crate::rows::place;
use digital_tree::{Entry, Tree};
use grid_geom::{Edge, Point, on_open};
use std::alloc::{AllocError as OutOfMemory, Global};
use vol_format::{EdgeRow, Mesh, MeshElement};

/// Notes the points that the corners name.
fn note(noted: &mut Vec<bool>, corners: &[u64])
    requires { All (IsListed (length noted.old.items)) corners.now }
    ensures long { length noted.new.items ≡ length noted.old.items }
    ensures noted { (i : ℕ) (d : Bool) → i < length noted.old.items →
        slice_index_or noted.new.items i d ≡ true →
        (slice_index_or noted.old.items i d ≡ true) ⊎ Contains corners.now (i + 1) }
{
    for corner in corners {
        noted[(*corner - 1) as usize] = true;
    }
}

/// Which points are corners of elements.
fn named_points(
    alloc: Global,
    count: usize,
    elements: &[MeshElement],
) -> Result<Vec<bool>, OutOfMemory>
    requires { All (λ e. All (IsListed count) e.corners) elements.now }
    ensures long { IfOk result (λ v. length v.items ≡ count) }
    ensures named { IfOk result (λ v. (i : ℕ) → i < count → slice_index_or v.items i true ≡ true →
        IsNamed elements.now i) }
{
    let mut noted = vec![in alloc; false; count]?;
    for element in elements {
        note(&mut noted, element.corners.as_slice());
    }
    Ok(noted)
}

/// The edge rows as edges, each in a box that holds its ends.
fn tree_of_rows(
    alloc: Global,
    points: &[Point],
    rows: &[EdgeRow],
) -> Result<Tree<Edge>, OutOfMemory>
    requires on_grid { All IsOnGrid points.now }
    requires joins { All (RowJoins (length points.now)) rows.now }
    ensures each { IfOk result (λ tree. AllByRecursion IsEdgeEntry tree.entries) }
    ensures all { IfOk result (λ tree.
        All (λ row. HasEdge (row_edge points.now row) tree.entries) rows.now) }
{
    let mut tree = Tree::new(alloc);
    for row in rows {
        let a = place(points, row.a);
        let b = place(points, row.b);
        tree.insert(box_of(&[a, b]), Edge { a, b })?;
    }
    Ok(tree)
}

/// Whether a place is in no open edge of the hits.
fn is_free_of(hits: &[Entry<Edge>], place: Point) -> bool
    requires hits { All IsEdgeEntry hits.now }
    requires place_on { IsOnGrid place }
    ensures { IsTrue result → IsFreeOf hits.now place }
{
    for hit in hits {
        if on_open(place, hit.value.a, hit.value.b) {
            return false;
        }
    }
    true
}

/// Whether a place is in no open edge of the tree. Only edges whose boxes hold it are tried.
fn is_free(alloc: Global, tree: &Tree<Edge>, place: Point) -> Result<bool, OutOfMemory>
    requires each { AllByRecursion IsEdgeEntry tree.now.entries }
    requires place_on { IsOnGrid place }
    ensures { IfOk result (λ free. IsTrue free → IsFreeOf tree.now.entries place) }
{
    let mut hits = Vec::new(alloc);
    tree.push_hits(&box_at(place), &mut hits)?;
    Ok(is_free_of(&hits, place))
}

/// Whether none of the points is in an open edge of the tree.
fn are_free_of(alloc: Global, tree: &Tree<Edge>, points: &[Point]) -> Result<bool, OutOfMemory>
    requires each { AllByRecursion IsEdgeEntry tree.now.entries }
    requires on_grid { All IsOnGrid points.now }
    ensures { IfOk result (λ free. IsTrue free → All (IsFreeOf tree.now.entries) points.now) }
{
    for point in points {
        if !is_free(alloc, tree, *point)? {
            return Ok(false);
        }
    }
    Ok(true)
}

/// Whether no point is in an open edge row.
fn are_free(alloc: Global, points: &[Point], rows: &[EdgeRow]) -> Result<bool, OutOfMemory>
    requires on_grid { All IsOnGrid points.now }
    requires joins { All (RowJoins (length points.now)) rows.now }
    ensures { IfOk result (λ free. IsTrue free → All (IsRowFree points.now) rows.now) }
{
    let tree = tree_of_rows(alloc, points, rows)?;
    let free = are_free_of(alloc, &tree, points)?;
    Ok(free)
}

/// Which points need not be searched for in open sides, being corners of elements: none, where elements
/// and boundaries don't agree, or a point is in an open edge row.
pub fn passed_over(alloc: Global, m: &Mesh, agree: bool) -> Result<Vec<bool>, OutOfMemory>
    requires { NamesItsPoints m.now }
    ensures long { IfOk result (λ v. length v.items ≡ length m.now.points) }
    ensures spared { IfOk result (λ v. (i : ℕ) → i < length m.now.points →
        slice_index_or v.items i true ≡ true → IsTrue agree × IsSpared m.now i) }
{
    let points = m.points.as_slice();
    let rows = m.edges.as_slice();
    let elements = m.elements.as_slice();
    if agree && are_free(alloc, points, rows)? {
        let named = named_points(alloc, points.len(), elements)?;
        return Ok(named);
    }
    vec![in alloc; false; points.len()]
}

/// Whether all points are passed over.
pub fn are_all(passed: &[bool]) -> bool
    ensures { IsTrue result → All (λ b. b ≡ true) passed.now }
{
    passed.iter().all(|is_passed| *is_passed)
}
