// The mesh of a whole run.
ghost use Rattle.std.specs.Prelude.{◌≡◌, ◌+◌, ◌-◌, ◌++◌, ◌<◌, ◌≤◌, ◌^◌, length, map, IfOk, OnOk, All};
ghost use Rattle.std.specs.List.{flat_map};
ghost use Rattle.mesh_run.specs.Boundary.{IsNumberTo, IsPieceOf};
ghost use Rattle.mesh_run.specs.Mesh.{edge_row, elements_from, elements_of, mesh_element, mesh_number, mesh_of_run, new_points, whole_points, NamesItsPoints};
ghost use Rattle.mesh_run.specs.Opening.{mesh_points};

use super::boundary::segment_at;
use super::numbering::Numbering;
use super::opening::number_mesh;
use super::{Application, DomainRun, WholeRun};
use geom_check::Segment;
use grid_geom::{Element, Point, Points};
use size_field::Piece;
use std::alloc::{AllocError as OutOfMemory, Global};
use vol_format::{EdgeRow, EdgeRows, Mesh, MeshElement, MeshElements};

/// The pieces as edge rows, their ends by their mesh numbers.
fn edge_rows(
    alloc: Global,
    mesh: &Numbering,
    segments: &[Segment],
    pieces: &[Piece],
) -> Result<Vec<EdgeRow>, OutOfMemory>
    requires pieces { All (IsPieceOf segments.now) pieces.now }
    requires few { length segments.now < 2 ^ 32 }
    ensures { IfOk result (λ v. v.items ≡ map (edge_row mesh.now segments.now) pieces.now) }
{
    let mut rows = Vec::new(alloc);
    for piece in pieces {
        let segment = segment_at(segments, piece);
        rows.push(EdgeRow {
            bc: segment.bc,
            a: mesh.number_of(piece.a),
            b: mesh.number_of(piece.b),
            left: segment.left,
            right: segment.right,
            segment: piece.segment as u32,
        })?;
    }
    Ok(rows)
}

/// The mesh number of a point of the run, where `before` mesh points come before the run's new points.
fn mesh_number_of(mesh: &Numbering, before: usize, run: &DomainRun, number: u64) -> u64
    requires number { IsNumberTo (length run.now.points) number }
    requires room { before + (length run.now.points - run.now.opened) < 2 ^ 64 }
    ensures { result ≡ mesh_number mesh.now before run.now number }
{
    let opened = run.opened as u64;
    if number <= opened {
        mesh.number_of(run.points.as_slice()[number as usize - 1])
    } else {
        before as u64 + (number - opened)
    }
}

/// An element's corners by their mesh numbers.
fn mesh_corners(
    alloc: Global,
    mesh: &Numbering,
    before: usize,
    run: &DomainRun,
    corners: &[u64],
) -> Result<Vec<u64>, OutOfMemory>
    requires corners { All (IsNumberTo (length run.now.points)) corners.now }
    requires room { before + (length run.now.points - run.now.opened) < 2 ^ 64 }
    ensures { IfOk result (λ v. v.items ≡ map (mesh_number mesh.now before run.now) corners.now) }
{
    let mut numbers = Vec::new(alloc);
    for corner in corners {
        numbers.push(mesh_number_of(mesh, before, run, *corner))?;
    }
    Ok(numbers)
}

/// Adds the elements of one application.
fn push_application(
    alloc: Global,
    elements: &mut Vec<MeshElement>,
    mesh: &Numbering,
    before: usize,
    run: &DomainRun,
    made: &[Element],
) -> Result<(), OutOfMemory>
    requires corners { All (All (IsNumberTo (length run.now.points))) made.now }
    requires room { before + (length run.now.points - run.now.opened) < 2 ^ 64 }
    ensures { OnOk result (elements.new.items ≡ elements.old.items
        ++ map (mesh_element mesh.now before run.now) made.now) }
{
    for element in made {
        let corners = mesh_corners(alloc, mesh, before, run, element.as_slice())?;
        elements.push(MeshElement {
            domain: run.domain,
            corners: Element::from_vec(corners),
        })?;
    }
    Ok(())
}

/// Adds the elements of a domain's run, where `before` mesh points come before the run's new points.
fn push_elements(
    alloc: Global,
    elements: &mut Vec<MeshElement>,
    mesh: &Numbering,
    before: usize,
    run: &DomainRun,
) -> Result<(), OutOfMemory>
    requires names { NamesItsPoints run.now }
    requires room { before + (length run.now.points - run.now.opened) < 2 ^ 64 }
    ensures { OnOk result (elements.new.items ≡ elements.old.items
        ++ elements_of mesh.now before run.now) }
{
    for application in run.applications.as_slice() {
        push_application(
            alloc,
            elements,
            mesh,
            before,
            run,
            application.elements.as_slice(),
        )?;
    }
    Ok(())
}

/// Adds the points that a domain's run made.
fn push_new_points(points: &mut Vec<Point>, run: &DomainRun) -> Result<(), OutOfMemory>
    requires { run.now.opened ≤ length run.now.points }
    ensures { OnOk result (points.new.items ≡ points.old.items ++ new_points run.now) }
{
    points.extend_from_slice(&run.points.as_slice()[run.opened..])
}

/// Adds the new points and the elements of the runs, domain by domain.
fn push_runs(
    alloc: Global,
    points: &mut Vec<Point>,
    elements: &mut Vec<MeshElement>,
    mesh: &Numbering,
    runs: &[DomainRun],
) -> Result<(), OutOfMemory>
    requires { All NamesItsPoints runs.now }
    ensures points { OnOk result
        (points.new.items ≡ points.old.items ++ flat_map new_points runs.now) }
    ensures elements { OnOk result
        (elements.new.items ≡ elements.old.items
        ++ elements_from mesh.now (length points.old.items) runs.now) }
{
    for run in runs {
        let before = points.len();
        push_new_points(points, run)?;
        push_elements(alloc, elements, mesh, before, run)?;
    }
    Ok(())
}

/// The mesh of a whole run: the ends of its pieces and the new points domain by domain, its pieces as edge rows, and its elements domain by domain.
///
/// `segments` are those that the pieces were cut from. The conditions are that each piece names one
/// of them and each element points of its domain, as those of a run do.
pub fn mesh_of(alloc: Global, w: &WholeRun, segments: &[Segment]) -> Result<Mesh, OutOfMemory>
    requires pieces { All (IsPieceOf segments.now) w.now.pieces }
    requires few { length segments.now < 2 ^ 32 }
    requires names { All NamesItsPoints w.now.domains }
    ensures { IfOk result (λ m. m ≡ mesh_of_run w.now segments.now) }
{
    let mesh = number_mesh(alloc, w.pieces.as_slice())?;
    let edges = edge_rows(alloc, &mesh, segments, w.pieces.as_slice())?;
    let mut points = mesh.points(alloc)?;
    let mut elements = Vec::new(alloc);
    push_runs(
        alloc,
        &mut points,
        &mut elements,
        &mesh,
        w.domains.as_slice(),
    )?;
    Ok(Mesh {
        shift: w.shift,
        points: Points::from_vec(points),
        edges: EdgeRows::from_vec(edges),
        elements: MeshElements::from_vec(elements),
    })
}
