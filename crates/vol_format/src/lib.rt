//! What is a mesh, and which bytes are its vol file?
//!
//! A mesh has points on the grid, elements whose corners are numbers of its points, and edge rows:
//! the pieces of the geometry's segments, whose ends are numbers of its points too. Point numbers
//! begin at 1.
//!
//! 1. A text is read word by word, and the first word that doesn't fit is the one that is refused.
//! 2. A coordinate is read exactly, and memory is taken as rows are read, never by a count.
//! 3. Point numbers are held against the points where the whole text is read.
#![tactic(auto)]

ghost use Rattle.std.specs.Prelude.{◌≡◌, ◌≤◌};
ghost use Rattle.vol_format.specs.Vol.{IsShift, places};

mod coordinate;
mod indices;
pub mod laws;
mod lists;
mod read;
mod reader;
mod refusal;
mod rows;
mod write;

use grid_geom::{Element, Points};
pub use lists::{EdgeRows, MeshElements};
pub use read::read_vol;
pub use refusal::{MOST_ROWS, VolRefusal};
pub use write::write_vol;

/// One piece of a segment of the geometry, as the segment is walked.
#[derive(Clone, Copy, Debug, PartialEq, Eq)]
pub struct EdgeRow {
    /// The boundary condition's number.
    pub bc: u32,
    /// The number of the point where the piece begins.
    pub a: u64,
    /// The number of the point where the piece ends.
    pub b: u64,
    /// The domain on the left, or 0.
    pub left: u32,
    /// The domain on the right, or 0.
    pub right: u32,
    /// The number of the segment.
    pub segment: u32,
}

/// One element of a domain.
#[derive(Debug, Drop)]
pub struct MeshElement {
    /// The number of the domain.
    pub domain: u32,
    /// The numbers of the element's corners, counterclockwise.
    pub corners: Element,
}

/// A mesh: `shift` is the power of ten by which the geometry was moved to the grid.
#[derive(Debug, Drop)]
pub struct Mesh {
    /// A coordinate of 1 in the geometry's file is 64 * 10^shift grid steps.
    pub shift: i32,
    /// The points, by their numbers.
    pub points: Points,
    /// The pieces of the segments, segment by segment.
    pub edges: EdgeRows,
    /// The elements by rising domain, in order of making.
    pub elements: MeshElements,
}

/// How many decimals the coordinates of a mesh's text have.
fn places_of(shift: &i32) -> u32
    requires { IsShift shift.now }
    ensures value { result ≡ places shift.now }
    ensures few { result ≤ 14 }
{
    (*shift + 6) as u32
}
