// The pieces into which segments are cut.

use grid_geom::Point;
use list_of::List;

/// One piece of a segment, from `a` to `b` as the segment is walked.
#[derive(Clone, Copy, Debug, PartialEq, Eq)]
pub struct Piece {
    /// The number of the segment.
    pub segment: usize,
    pub a: Point,
    pub b: Point,
}

/// Pieces, segment by segment, each segment's from its first point to its last.
pub type Pieces = List<Piece>;
