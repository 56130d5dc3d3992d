// The sizes of a geometry's domains.
ghost use Rattle.std.specs.Prelude.{◌≡◌, ◌++◌, IfOk, OnOk};
ghost use Rattle.size_field.specs.Size.{AreLimits};
ghost use Rattle.size_field.specs.Boundary.{piece_edge, IsPieceOf};
ghost use Rattle.size_field.specs.Cutting.{pieces_of};
ghost use Rattle.size_field.specs.Fields.{field_after, piece_sources, sources_beside};
ghost use Rattle.size_field.specs.Parts.{IsPart};

use super::cutting::{extent, greatest_in};
use super::pieces::{Piece, Pieces};
use super::sizes::Sizes;
use geom_check::{Geometry, Segment, Source};
use std::alloc::{AllocError as OutOfMemory, Global};

/// The sizes whose sources are those of the file's points.
pub fn sizes_of_points(
    alloc: Global,
    g: &Geometry,
    greatest: u64,
    grading: u32,
) -> Result<Sizes, OutOfMemory>
    requires { AreLimits greatest grading }
    ensures { IfOk result (λ sizes. sizes
        ≡ record { greatest = greatest; grading = grading; sources = g.now.flagged }) }
{
    let mut sizes = Sizes::new(alloc, greatest, grading);
    for source in g.flagged() {
        sizes.add(*source)?;
    }
    Ok(sizes)
}

/// Adds both ends of a piece as sources, with the piece's longer extent.
fn add_ends(sizes: &mut Sizes, piece: &Piece) -> Result<(), OutOfMemory>
    requires { IsPart (piece_edge piece.now) }
    ensures { OnOk result (sizes.new
        ≡ record sizes.old { sources = sizes.old.sources ++ piece_sources piece.now }) }
{
    let h = extent(&piece.a, &piece.b);
    sizes.add(Source { at: piece.a, h })?;
    sizes.add(Source { at: piece.b, h })?;
    Ok(())
}

/// Adds what a piece gives to a domain: its ends, where it is a part of the domain's boundary.
fn add_piece(
    sizes: &mut Sizes,
    segments: &[Segment],
    domain: u32,
    piece: &Piece,
) -> Result<(), OutOfMemory>
    requires of_segment { IsPieceOf segments.now piece.now }
    requires part { IsPart (piece_edge piece.now) }
    ensures { OnOk result (sizes.new
        ≡ record sizes.old {
          sources = sizes.old.sources
              ++ sources_beside domain segments.now piece.now;
        }) }
{
    let segment = &segments[piece.segment - 1];
    if segment.left == domain || segment.right == domain {
        add_ends(sizes, piece)
    } else {
        Ok(())
    }
}

/// The sizes of a domain after cutting: the sources are those of the file's points, and both ends of
/// each piece of the domain's boundary, with the piece's longer extent.
///
/// The pieces are those that `cut` gives for this greatest size and this grading.
pub fn sizes_of(
    alloc: Global,
    g: &Geometry,
    pieces: &Pieces,
    domain: u32,
    greatest: u64,
    grading: u32,
) -> Result<Sizes, OutOfMemory>
    requires limits { AreLimits greatest grading }
    requires pieces { pieces.now ≡ pieces_of g.now greatest grading }
    ensures { IfOk result (λ sizes. sizes ≡ field_after g.now pieces.now domain greatest grading) }
{
    let most = greatest_in(g.domains(), greatest, domain);
    let mut sizes = sizes_of_points(alloc, g, most, grading)?;
    for piece in pieces.as_slice() {
        add_piece(&mut sizes, g.segments(), domain, piece)?;
    }
    Ok(sizes)
}
