//! Which geometry does a text write?
//!
//! 1. A text is read word by word, and the first word that doesn't fit is the one that is refused.
//! 2. A row at hand is kept apart from the rows before it, since flags may follow it.
//! 3. The numbers of the points so far are kept in order, so that a number is looked up in few steps.
#![tactic(auto)]

mod geometry;
pub mod laws;
mod place;
mod printing;
mod reader;
mod reading;
mod refusal;
mod text;

pub use geometry::{
    MaterialRow, MaterialRows, PointRow, PointRows, RawGeometry, SegmentRow, SegmentRows,
};
pub use printing::print_in2d;
pub use reading::read_in2d;
pub use refusal::In2dRefusal;
pub use word_scan::{Dec, Name};
