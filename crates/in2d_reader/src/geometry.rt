//! A geometry as its text writes it.

use list_of::List;
use word_scan::{Dec, Name};

/// A geometry as its text writes it: the number of the file, and the rows in the order of the text.
#[derive(Debug, Drop)]
pub struct RawGeometry {
    pub number: Dec,
    pub points: PointRows,
    pub segments: SegmentRows,
    pub materials: MaterialRows,
}

/// A point with its number, its coordinates, and the greatest mesh size near it, where one is given.
#[derive(Clone, Copy, Debug, PartialEq, Eq)]
pub struct PointRow {
    pub number: u32,
    pub x: Dec,
    pub y: Dec,
    pub maxh: Option<Dec>,
}

/// A segment from point `p` to point `q`, with the domains on its left and right, and where they are
/// given the number of its boundary condition and its greatest mesh size.
#[derive(Clone, Copy, Debug, PartialEq, Eq)]
pub struct SegmentRow {
    pub left: u32,
    pub right: u32,
    pub p: u32,
    pub q: u32,
    pub bc: Option<u32>,
    pub maxh: Option<Dec>,
}

/// The material of a domain, and the domain's greatest mesh size, where one is given.
#[derive(Debug, Drop)]
pub struct MaterialRow {
    pub domain: u32,
    pub name: Name,
    pub maxh: Option<Dec>,
}

/// Points in the order of the text.
pub type PointRows = List<PointRow>;

/// Segments in the order of the text.
pub type SegmentRows = List<SegmentRow>;

/// Materials in the order of the text.
pub type MaterialRows = List<MaterialRow>;
