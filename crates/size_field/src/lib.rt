//! Into which pieces are the segments of a geometry cut, and how long may an edge be at a point?
//!
//! 1. Lengths and sizes are in grid steps, a grading in thousandths.
//! 2. The size at a point is the least over the list of sources; how the sources are kept is seen by
//!    no contract.
//! 3. A piece is cut in its middle, a grid point, or not at all, and at most `MOST_HALVINGS` times from
//!    its segment on: so its ends are two different grid points.
//! 4. Pieces stand segment by segment, each segment's from its first point to its last.
#![tactic(auto)]

mod boxes;
mod cutting;
mod fields;
pub mod laws;
mod pieces;
mod query;
mod sizes;
mod tree;

pub use cutting::{MOST_HALVINGS, cut};
pub use fields::sizes_of;
pub use pieces::{Piece, Pieces};
pub use sizes::Sizes;
pub use std::alloc::AllocError as OutOfMemory;

/// A grading is a number of parts of which this many make a whole.
pub const GRADING_UNIT: u64 = 1_000;

/// The greatest grading.
pub const MOST_GRADING: u32 = 10_000;
