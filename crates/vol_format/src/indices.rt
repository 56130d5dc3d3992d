//! Whether the point numbers of a mesh name points of it.

ghost use Rattle.std.specs.Prelude.{◌≡◌, ◌+◌, ◌<◌, ◌^◌, length, ◌∷◌, []};
ghost use Rattle.std.specs.List.{flat_map};
ghost use Rattle.vol_format.specs.Text.{PointNumber, Number, corner_items, element_items, edge_items, mesh_items};
ghost use Rattle.vol_format.specs.Reading.{misnames, walked, known_if, Gives};

use crate::refusal::VolRefusal;
use crate::{EdgeRow, Mesh, MeshElement};

/// The word where the elements' rows begin.
const FIRST_ROW: u64 = 8;

/// Refuses a point number in this word that names none of so many points; else the word behind it.
fn after(number: u64, points: u64, at: u64) -> Result<u64, VolRefusal>
    requires { at + 1 < 2 ^ 64 }
    ensures { result ≡ walked points at (Number PointNumber number ∷ []) }
{
    if number == 0 || points < number {
        return Err(VolRefusal::BadIndex { word: at });
    }
    Ok(at + 1)
}

/// The corners that begin at this word.
fn after_corners(corners: &[u64], points: u64, from: u64) -> Result<u64, VolRefusal>
    requires { from + length (corner_items corners.now) < 2 ^ 64 }
    ensures { result ≡ walked points from (corner_items corners.now) }
{
    let mut at = from;
    for corner in corners {
        at = after(*corner, points, at)?;
    }
    Ok(at)
}

/// The corners of an element whose row begins at this word.
fn after_element(element: &MeshElement, points: u64, from: u64) -> Result<u64, VolRefusal>
    requires { from + length (element_items element.now) < 2 ^ 64 }
    ensures { result ≡ walked points from (element_items element.now) }
{
    after_corners(element.corners.as_slice(), points, from + 5)
}

/// The elements whose rows begin at this word.
fn after_elements(elements: &[MeshElement], points: u64, from: u64) -> Result<u64, VolRefusal>
    requires { from + length (flat_map element_items elements.now) < 2 ^ 64 }
    ensures { result ≡ walked points from (flat_map element_items elements.now) }
{
    let mut at = from;
    for element in elements {
        at = after_element(element, points, at)?;
    }
    Ok(at)
}

/// The ends of an edge row that begins at this word.
fn after_edge(edge: &EdgeRow, points: u64, from: u64) -> Result<u64, VolRefusal>
    requires { from + 12 < 2 ^ 64 }
    ensures { result ≡ walked points from (edge_items edge.now) }
{
    let at = after(edge.a, points, from + 2)?;
    let at = after(edge.b, points, at)?;
    Ok(at + 8)
}

/// The edges whose rows begin at this word.
fn after_edges(edges: &[EdgeRow], points: u64, from: u64) -> Result<u64, VolRefusal>
    requires { from + length (flat_map edge_items edges.now) < 2 ^ 64 }
    ensures { result ≡ walked points from (flat_map edge_items edges.now) }
{
    let mut at = from;
    for edge in edges {
        at = after_edge(edge, points, at)?;
    }
    Ok(at)
}

/// Refuses the first word of the mesh's text whose point number names no point.
pub fn known(m: &Mesh) -> Result<(), VolRefusal>
    requires { length (mesh_items m.now) < 2 ^ 63 }
    ensures { Gives (λ u. m.now) result
        (known_if m.now (walked (length m.now.points) 1 (mesh_items m.now))) }
{
    let points = m.points.as_slice().len() as u64;
    let at = after_elements(m.elements.as_slice(), points, FIRST_ROW)?;
    after_edges(m.edges.as_slice(), points, at + 4)?;
    Ok(())
}
