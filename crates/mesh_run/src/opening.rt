// The opening of one domain: its points, its lines, and the run in which no rule applies.
ghost use Rattle.std.specs.Prelude.{◌≡◌, length, filter, IfOk, All};
ghost use Rattle.mesh_run.specs.Boundary.{IsPieceOf};
ghost use Rattle.mesh_run.specs.Numbering.{is_among};
ghost use Rattle.mesh_run.specs.Opening.{domain_points, end_of_front, front_from, mesh_points, numbered, opening_lines, unmeshed_run};

use super::boundary::{boundary_of, piece_edges};
use super::numbering::{Numbering, numbering_of, numbering_of_ends};
use super::{Applications, DomainRun, End, FrontRows, OpeningLines};
use geom_check::Segment;
use grid_geom::{Edge, Point, Points};
use size_field::Piece;
use std::alloc::{AllocError as OutOfMemory, Global};

/// The ends of the pieces, numbered by first occurrence.
pub fn number_mesh(alloc: Global, pieces: &[Piece]) -> Result<Numbering, OutOfMemory>
    ensures { IfOk result (λ n. n ≡ mesh_points pieces.now) }
{
    let edges = piece_edges(alloc, pieces)?;
    numbering_of_ends(alloc, &edges)
}

/// Those of the points that the numbering lists.
fn points_among(
    alloc: Global,
    points: &[Point],
    listed: &Numbering,
) -> Result<Vec<Point>, OutOfMemory>
    ensures { IfOk result (λ v. v.items ≡ filter (is_among listed.now) points.now) }
{
    points
        .iter()
        .copied()
        .filter(|point| listed.has(*point))
        .collect(alloc)
}

/// The edges by the numbers of their ends.
fn number_edges(
    alloc: Global,
    numbering: &Numbering,
    edges: &[Edge],
) -> Result<Vec<(u64, u64)>, OutOfMemory>
    ensures { IfOk result (λ v. v.items ≡ numbered numbering.now edges.now) }
{
    edges
        .iter()
        .map(|edge| (numbering.number_of(edge.a), numbering.number_of(edge.b)))
        .collect(alloc)
}

/// The opening lines as front lines, with the numbers 1, 2, ..
fn front_of(alloc: Global, lines: &[(u64, u64)]) -> Result<Vec<(u64, u64, u64)>, OutOfMemory>
    ensures { IfOk result (λ v. v.items ≡ front_from 1 lines.now) }
{
    let mut front = Vec::new(alloc);
    for (index, line) in lines.iter().enumerate() {
        front.push((index as u64 + 1, line.0, line.1))?;
    }
    Ok(front)
}

/// How a run ends that can apply nothing.
fn end_of(front: &[(u64, u64, u64)]) -> End
    ensures { result ≡ end_of_front front.now }
{
    match front {
        [] => End::Done,
        [_, ..] => End::Stuck,
    }
}

/// The points and the lines with which a domain's run begins.
#[derive(Drop)]
pub struct Opening {
    pub points: Points,
    pub lines: OpeningLines,
}

/// The points and the lines with which the domain's run begins. `mesh` are the mesh points.
pub fn opening_of(
    alloc: Global,
    domain: u32,
    segments: &[Segment],
    pieces: &[Piece],
    mesh: &[Point],
) -> Result<Opening, OutOfMemory>
    requires pieces { All (IsPieceOf segments.now) pieces.now }
    requires mesh { mesh.now ≡ mesh_points pieces.now }
    ensures points { IfOk result
        (λ opening. opening.points ≡ domain_points domain segments.now pieces.now) }
    ensures lines { IfOk result
        (λ opening. opening.lines ≡ opening_lines domain segments.now pieces.now) }
{
    let boundary = boundary_of(alloc, domain, segments, pieces)?;
    let ends = numbering_of_ends(alloc, &boundary)?;
    let points = points_among(alloc, mesh, &ends)?;
    let numbering = numbering_of(alloc, &points)?;
    let lines = number_edges(alloc, &numbering, &boundary)?;
    Ok(Opening {
        points: Points::from_vec(points),
        lines: OpeningLines::from_vec(lines),
    })
}

/// The run of the domain to which no rule applies: its opening state. `mesh` are the mesh points.
pub fn open_domain(
    alloc: Global,
    domain: u32,
    segments: &[Segment],
    pieces: &[Piece],
    mesh: &[Point],
) -> Result<DomainRun, OutOfMemory>
    requires pieces { All (IsPieceOf segments.now) pieces.now }
    requires mesh { mesh.now ≡ mesh_points pieces.now }
    ensures { IfOk result (λ run. run ≡ unmeshed_run domain segments.now pieces.now) }
{
    let opening = opening_of(alloc, domain, segments, pieces, mesh)?;
    let opened = opening.points.as_slice().len();
    let front = front_of(alloc, opening.lines.as_slice())?;
    let end = end_of(&front);
    Ok(DomainRun {
        domain,
        opened,
        points: opening.points,
        lines: opening.lines,
        applications: Applications::from_vec(Vec::new(alloc)),
        front: FrontRows::from_vec(front),
        end,
    })
}
