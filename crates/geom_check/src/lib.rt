//! Is a geometry a planar one whose domains don't overlap, and if not, where is its first fault?
//!
//! 1. Everything is decided on the grid, in whole numbers: a file's coordinates are moved there at
//!    the finest shift at which each fits, and nothing of the file's own numbers is asked after that.
//! 2. A file has one answer: it is accepted, or it has one first fault, in the order of
//!    `GeomRefusal`, at its least place.
//! 3. A `Geometry` keeps in its type that it was accepted: its segments share ends alone, its
//!    boundaries are closed, and each place off the segments is in one domain or in none. It also
//!    keeps the ranges of its numbers, and that its domains are those which its segments name.
//! 4. Between two successive heights of ends of segments lies a strip. The segments that pass it
//!    have one order from left to right, so a winding number is the same all over a gap between two.
//! 5. A fault of winding numbers is named by the middle of the leftmost gap that has it, in the
//!    lowest strip with one, by the least denominator.
//! 6. Bounds of numbers are in `limits`, computed from `GRID`.
#![tactic(auto)]

mod boundaries;
mod checking;
mod domains;
mod events;
mod gaps;
mod geometry;
mod kinds;
pub mod laws;
mod limits;
mod pairs;
mod places;
mod placing;
mod refusal;
mod risers;
mod scale;
mod spans;
mod strips;
mod walk;
mod windings;

pub use checking::check;
pub use domains::domain_numbers;
pub use geometry::Geometry;
pub use kinds::{Domain, Domains, Segment, Segments, Source, Sources};
pub use refusal::GeomRefusal;
