// Whether a mesh names its points: what a test makes sure of before it checks one.
ghost use Rattle.std.specs.Prelude.{length, All, IsTrue};
ghost use Rattle.grid_geom.specs.Bounds.{IsOnGrid};
ghost use Rattle.state_law.specs.State.{IsListed};
ghost use Rattle.mesh_check.specs.Parts.{NamesItsPoints, RowJoins};

use grid_geom::{Point, on_grid};
use vol_format::{EdgeRow, Mesh, MeshElement};

fn is_listed(count: usize, number: u64) -> bool
    ensures { IsTrue result → IsListed count number }
{
    1 <= number && number <= count as u64
}

fn are_on_grid(points: &[Point]) -> bool
    ensures { IsTrue result → All IsOnGrid points.now }
{
    points.iter().all(|point| on_grid(*point))
}

fn joins(count: usize, row: &EdgeRow) -> bool
    ensures { IsTrue result → RowJoins count row.now }
{
    is_listed(count, row.a) && is_listed(count, row.b)
}

fn do_join(count: usize, rows: &[EdgeRow]) -> bool
    ensures { IsTrue result → All (RowJoins count) rows.now }
{
    rows.iter().all(|row| joins(count, row))
}

fn are_listed(count: usize, corners: &[u64]) -> bool
    ensures { IsTrue result → All (IsListed count) corners.now }
{
    corners.iter().all(|corner| is_listed(count, *corner))
}

fn have_listed(count: usize, elements: &[MeshElement]) -> bool
    ensures { IsTrue result → All (λ e. All (IsListed count) e.corners) elements.now }
{
    elements
        .iter()
        .all(|element| are_listed(count, element.corners.as_slice()))
}

pub fn names_its_points(m: &Mesh) -> bool
    ensures { IsTrue result → NamesItsPoints m.now }
{
    let points = m.points.as_slice();
    are_on_grid(points)
        && do_join(points.len(), m.edges.as_slice())
        && have_listed(points.len(), m.elements.as_slice())
}
