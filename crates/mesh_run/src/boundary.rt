// The pieces of segments, and the boundary of a domain.
ghost use Rattle.std.specs.Prelude.{◌≡◌, ◌++◌, length, map, IfOk, OnOk, All};
ghost use Rattle.mesh_run.specs.Boundary.{piece_boundary, piece_edge, segment_of, turned_to, whole_pieces, IsPieceOf};
ghost use Rattle.geom_check.specs.Boundary.{IsSegmentOf};

use geom_check::Segment;
use grid_geom::{Edge, Point};
use size_field::{Piece, Pieces};
use std::alloc::{AllocError as OutOfMemory, Global};

/// The pieces of a geometry of which no segment is cut: one for each segment, in order.
pub fn uncut(alloc: Global, points: &[Point], segments: &[Segment]) -> Result<Pieces, OutOfMemory>
    requires { All (IsSegmentOf (length points.now)) segments.now }
    ensures pieces { IfOk result (λ pieces. pieces ≡ whole_pieces points.now segments.now) }
    ensures of_segments { IfOk result (All (IsPieceOf segments.now)) }
{
    let mut pieces = Vec::new(alloc);
    for (index, segment) in segments.iter().enumerate() {
        pieces.push(Piece {
            segment: index + 1,
            a: points[segment.p - 1],
            b: points[segment.q - 1],
        })?;
    }
    Ok(Pieces::from_vec(pieces))
}

/// The piece as an edge, as its segment is walked.
fn edge_of(piece: &Piece) -> Edge
    ensures { result ≡ piece_edge piece.now }
{
    Edge {
        a: piece.a,
        b: piece.b,
    }
}

/// The pieces as edges, as the segments are walked.
pub fn piece_edges(alloc: Global, pieces: &[Piece]) -> Result<Vec<Edge>, OutOfMemory>
    ensures { IfOk result (λ v. v.items ≡ map piece_edge pieces.now) }
{
    pieces.iter().map(|piece| edge_of(piece)).collect(alloc)
}

/// Adds what an edge of the segment gives to the boundary of the domain.
fn push_turned(
    edges: &mut Vec<Edge>,
    domain: u32,
    segment: &Segment,
    edge: Edge,
) -> Result<(), OutOfMemory>
    ensures { OnOk result (edges.new.items ≡ edges.old.items ++ turned_to domain segment.now edge) }
{
    if segment.left == domain {
        edges.push(edge)?;
    }
    if segment.right == domain {
        edges.push(Edge {
            a: edge.b,
            b: edge.a,
        })?;
    }
    Ok(())
}

/// The segment that the piece was cut from.
pub fn segment_at<'a>(segments: &'a [Segment], piece: &Piece) -> &'a Segment
    requires { IsPieceOf segments.now piece.now }
    ensures { result.now ≡ segment_of segments.now piece.now }
{
    &segments[piece.segment - 1]
}

/// The boundary of the domain: each piece with it on its left as it stands, each with it on its right reversed.
pub fn boundary_of(
    alloc: Global,
    domain: u32,
    segments: &[Segment],
    pieces: &[Piece],
) -> Result<Vec<Edge>, OutOfMemory>
    requires { All (IsPieceOf segments.now) pieces.now }
    ensures { IfOk result (λ v. v.items ≡ piece_boundary domain segments.now pieces.now) }
{
    let mut edges = Vec::new(alloc);
    for piece in pieces {
        push_turned(
            &mut edges,
            domain,
            segment_at(segments, piece),
            edge_of(piece),
        )?;
    }
    Ok(edges)
}
