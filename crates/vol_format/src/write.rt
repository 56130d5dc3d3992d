// The text of a vol file.

ghost use Rattle.std.specs.Prelude.{◌≡◌, ◌≤◌, IfOk, pos, ◌*ℤ◌};
ghost use Rattle.text_rows.specs.Rows.{Appends};
ghost use Rattle.vol_format.specs.Vol.{IsShift, places, coordinate, element_row, edge_row, point_row, counted, heading, edge_heading, point_heading, ending, vol_text};

use super::{EdgeRow, Mesh, MeshElement, places_of};
use grid_geom::Point;
use std::alloc::{AllocError, Global};
use text_rows::{write_fixed, write_number_row};

/// The bytes of the mesh's vol file (NETGEN's form, in this project's profile): one item a line,
/// words separated by one space, no comments. A coordinate has `shift` + 6 decimals, which give it
/// exactly.
pub fn write_vol(alloc: Global, m: &Mesh) -> Result<Vec<u8>, AllocError>
    requires { IsShift m.now.shift }
    ensures { IfOk result (λ bytes. bytes.items ≡ vol_text m.now) }
{
    let mut text = String::new(alloc);
    write_heading(&mut text)?;
    write_elements(&mut text, m.elements.as_slice())?;
    write_edge_heading(&mut text)?;
    write_edges(&mut text, m.edges.as_slice())?;
    write_point_heading(&mut text)?;
    write_points(&mut text, m.points.as_slice(), places_of(&m.shift))?;
    write_ending(&mut text)?;
    Ok(text.into_bytes())
}

#[tactic(auto, unfolding(crate::specs::Vol::heading))]
fn write_heading(text: &mut String) -> Result<(), AllocError>
    ensures { Appends result text.old text.new heading }
{
    text.push_str("mesh3d\ndimension\n2\ngeomtype\n0\nsurfaceelements\n")?;
    Ok(())
}

#[tactic(auto, unfolding(crate::specs::Vol::edge_heading))]
fn write_edge_heading(text: &mut String) -> Result<(), AllocError>
    ensures { Appends result text.old text.new edge_heading }
{
    text.push_str("volumeelements\n0\nedgesegmentsgi2\n")?;
    Ok(())
}

#[tactic(auto, unfolding(crate::specs::Vol::point_heading))]
fn write_point_heading(text: &mut String) -> Result<(), AllocError>
    ensures { Appends result text.old text.new point_heading }
{
    text.push_str("points\n")?;
    Ok(())
}

#[tactic(auto, unfolding(crate::specs::Vol::ending))]
fn write_ending(text: &mut String) -> Result<(), AllocError>
    ensures { Appends result text.old text.new ending }
{
    text.push_str("endmesh\n")?;
    Ok(())
}

fn write_elements(text: &mut String, elements: &[MeshElement]) -> Result<(), AllocError>
    ensures { Appends result text.old text.new (counted element_row elements.now) }
{
    write_number_row(text, elements.len() as u64, &[], &[])?;
    for element in elements {
        write_element(text, element)?;
    }
    Ok(())
}

fn write_element(text: &mut String, element: &MeshElement) -> Result<(), AllocError>
    ensures { Appends result text.old text.new (element_row element.now) }
{
    let domain = element.domain as u64;
    let corners = element.corners.as_slice();
    write_number_row(text, domain, &[domain, 0, 0, corners.len() as u64], corners)?;
    Ok(())
}

fn write_edges(text: &mut String, edges: &[EdgeRow]) -> Result<(), AllocError>
    ensures { Appends result text.old text.new (counted edge_row edges.now) }
{
    write_number_row(text, edges.len() as u64, &[], &[])?;
    for edge in edges {
        write_edge(text, edge)?;
    }
    Ok(())
}

fn write_edge(text: &mut String, edge: &EdgeRow) -> Result<(), AllocError>
    ensures { Appends result text.old text.new (edge_row edge.now) }
{
    let segment = edge.segment as u64;
    write_number_row(
        text,
        edge.bc as u64,
        &[0, edge.a, edge.b, 0, 0],
        &[edge.left as u64, edge.right as u64, segment, 0, segment, 0],
    )?;
    Ok(())
}

fn write_points(text: &mut String, points: &[Point], places: u32) -> Result<(), AllocError>
    requires { places ≤ 14 }
    ensures { Appends result text.old text.new (counted (point_row places) points.now) }
{
    write_number_row(text, points.len() as u64, &[], &[])?;
    for point in points {
        write_point(text, point, places)?;
    }
    Ok(())
}

fn write_point(text: &mut String, point: &Point, places: u32) -> Result<(), AllocError>
    requires { places ≤ 14 }
    ensures { Appends result text.old text.new (point_row places point.now) }
{
    write_coordinate(text, &point.x, places)?;
    text.push_str(" ")?;
    write_coordinate(text, &point.y, places)?;
    text.push_str(" 0\n")?;
    Ok(())
}

fn write_coordinate(text: &mut String, x: &i64, places: u32) -> Result<(), AllocError>
    requires { places ≤ 14 }
    ensures { Appends result text.old text.new (coordinate places x.now) }
{
    write_fixed(text, &last_decimals(x), places)?;
    Ok(())
}

// A grid coordinate in units of the last decimal.
fn last_decimals(x: &i64) -> i128
    ensures { result ≡ x.now *ℤ pos 15625 }
{
    *x as i128 * 15625
}
