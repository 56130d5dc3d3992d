// The parts of a geometry on the grid, and their list types. A contract sees each list as the list
// of its items.

use grid_geom::Point;
use list_of::List;

/// A directed segment with a domain on each side, of which 0 is the outside.
#[derive(Clone, Copy, Debug, PartialEq, Eq)]
pub struct Segment {
    pub left: u32,
    pub right: u32,
    /// The row of the point where it begins, from 1.
    pub p: usize,
    /// The row of the point where it ends, from 1.
    pub q: usize,
    /// Its boundary number: its own number, from 1, where none was given.
    pub bc: u32,
    /// The greatest length of its pieces, in grid steps.
    pub maxh: Option<u64>,
}

/// A point that bounds the sizes around it.
#[derive(Clone, Copy, Debug, PartialEq, Eq)]
pub struct Source {
    pub at: Point,
    /// The size at the point, in grid steps.
    pub h: u64,
}

/// A domain, with its greatest size in grid steps.
#[derive(Clone, Copy, Debug, PartialEq, Eq)]
pub struct Domain {
    pub number: u32,
    pub maxh: Option<u64>,
}

/// A list of segments.
pub type Segments = List<Segment>;

/// A list of sources.
pub type Sources = List<Source>;

/// A list of domains.
pub type Domains = List<Domain>;
