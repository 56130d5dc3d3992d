//! Reading the rows of a mesh.

ghost use Rattle.std.specs.Prelude.{◌≡◌, ◌≤◌, ℕ, IfOk, length, List, []};
ghost use Rattle.vol_format.specs.declared.refusal.VolRefusal.{VolRefusal};
ghost use Rattle.vol_format.specs.Reading.{Form, GivesAt, State, run, rows_behind, counted_rows, elements_form, edges_form, points_form, ending_form};

use crate::reader::Reader;
use crate::refusal::VolRefusal;
use crate::{EdgeRow, MeshElement};
use grid_geom::{Element, GRID, Point};
use std::alloc::Global;

/// A row of a text.
pub trait Row: Sized + Drop {
    /// What its words have to be.
    ghost form: { Form Self };

    /// Reads one.
    fn read(alloc: Global, reader: &mut Reader<'_>) -> Result<Self, VolRefusal>
        ensures { GivesAt (λ x. x) result reader.new (run form reader.old) };
}

impl Row for MeshElement {
    ghost use Rattle.vol_format.specs.Reading.{element_form};

    ghost form = { element_form };

    #[tactic(auto, unfolding(crate::specs::Reading::element_form))]
    fn read(alloc: Global, reader: &mut Reader<'_>) -> Result<Self, VolRefusal> {
        let domain = reader.number(1, 64)?;
        reader.number(domain, domain)?;
        reader.number(0, 0)?;
        reader.number(0, 0)?;
        reader.number(3, 3)?;
        let a = reader.point_number()?;
        let b = reader.point_number()?;
        let c = reader.point_number()?;
        let corners = Element::from_vec(vec![in alloc; a, b, c]?);
        let domain = domain as u32;
        Ok(MeshElement { domain, corners })
    }
}

impl Row for EdgeRow {
    ghost use Rattle.vol_format.specs.Reading.{edge_form};

    ghost form = { edge_form };

    #[tactic(auto, unfolding(crate::specs::Reading::edge_form))]
    fn read(_alloc: Global, reader: &mut Reader<'_>) -> Result<Self, VolRefusal> {
        let bc = reader.number(0, 999_999)? as u32;
        reader.number(0, 0)?;
        let a = reader.point_number()?;
        let b = reader.point_number()?;
        reader.number(0, 0)?;
        reader.number(0, 0)?;
        let left = reader.number(0, 64)? as u32;
        let right = reader.number(0, 64)? as u32;
        let segment = reader.number(1, 4_096)?;
        reader.number(0, 0)?;
        reader.number(segment, segment)?;
        reader.number(0, 0)?;
        let segment = segment as u32;
        Ok(EdgeRow {
            bc,
            a,
            b,
            left,
            right,
            segment,
        })
    }
}

impl Row for Point {
    ghost use Rattle.vol_format.specs.Reading.{point_form};

    ghost form = { point_form };

    #[tactic(auto, unfolding(crate::specs::Reading::point_form))]
    fn read(_alloc: Global, reader: &mut Reader<'_>) -> Result<Self, VolRefusal> {
        let x = reader.place(GRID as u64)?;
        let y = reader.place(GRID as u64)?;
        reader.place(0)?;
        Ok(Point { x, y })
    }
}

/// So many rows. Memory is taken as they are read, and not by their count.
fn rows<T: Row>(alloc: Global, reader: &mut Reader<'_>, count: u64) -> Result<Vec<T>, VolRefusal>
    ensures { GivesAt (λ x. x.items) result reader.new
        (run (rows_behind T.Row.form [] count) reader.old) }
{
    let mut rows = Vec::new(alloc);
    while (rows.len() as u64) < count {
        let row = T::read(alloc, reader)?;
        rows.push(row)?;
    }
    Ok(rows)
}

/// How many rows there are, and the rows.
fn counted<T: Row>(alloc: Global, reader: &mut Reader<'_>) -> Result<Vec<T>, VolRefusal>
    ensures { GivesAt (λ x. x.items) result reader.new (run (counted_rows T.Row.form) reader.old) }
{
    let count = reader.count()?;
    rows(alloc, reader, count)
}

/// The elements, and the words before them.
#[tactic(auto, unfolding(crate::specs::Reading::elements_form, crate::specs::Text::mesh3d, crate::specs::Text::dimension, crate::specs::Text::geomtype, crate::specs::Text::surfaceelements))]
pub fn elements(alloc: Global, reader: &mut Reader<'_>) -> Result<Vec<MeshElement>, VolRefusal>
    ensures { GivesAt (λ x. x.items) result reader.new (run elements_form reader.old) }
{
    reader.said(b"mesh3d")?;
    reader.said(b"dimension")?;
    reader.number(2, 2)?;
    reader.said(b"geomtype")?;
    reader.number(0, 0)?;
    reader.said(b"surfaceelements")?;
    counted(alloc, reader)
}

/// The edge rows, and the words before them.
#[tactic(auto, unfolding(crate::specs::Reading::edges_form, crate::specs::Text::volumeelements, crate::specs::Text::edgesegmentsgi2))]
pub fn edges(alloc: Global, reader: &mut Reader<'_>) -> Result<Vec<EdgeRow>, VolRefusal>
    ensures { GivesAt (λ x. x.items) result reader.new (run edges_form reader.old) }
{
    reader.said(b"volumeelements")?;
    reader.number(0, 0)?;
    reader.said(b"edgesegmentsgi2")?;
    counted(alloc, reader)
}

/// The points, and the word before them.
#[tactic(auto, unfolding(crate::specs::Reading::points_form, crate::specs::Text::points_word))]
pub fn points(alloc: Global, reader: &mut Reader<'_>) -> Result<Vec<Point>, VolRefusal>
    ensures { GivesAt (λ x. x.items) result reader.new (run points_form reader.old) }
{
    reader.said(b"points")?;
    counted(alloc, reader)
}

/// The last word.
#[tactic(auto, unfolding(crate::specs::Reading::ending_form, crate::specs::Text::endmesh))]
pub fn ending(reader: &mut Reader<'_>) -> Result<(), VolRefusal>
    ensures { GivesAt (λ x. x) result reader.new (run ending_form reader.old) }
{
    reader.said(b"endmesh")?;
    Ok(())
}
