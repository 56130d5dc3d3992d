//! Where does a rule of an advancing front put its points on a given base line?
//!
//! 1. Everything is exact: local places are fractions of whole numbers, and only the place of a new point or
//!    of a corner of a zone is rounded, once, to the nearest whole number, halves upwards.
//! 2. A `Frame` is the local frame of two different grid points and a size.
//! 3. No number passes 128 bits; the bounds are computed from `GRID` and `LONGEST` of grid_geom.
#![tactic(auto)]

mod compiled;
mod frame;
mod inert;
pub mod laws;
mod placing;
mod reach;
mod rule_set;
mod sums;

pub use compiled::{Compiled, compile};
pub use frame::Frame;
pub use inert::Inert;
pub use reach::{Leeway, leeway_in_range};
pub use rule_set::RuleSet;
pub use std::alloc::AllocError as OutOfMemory;
