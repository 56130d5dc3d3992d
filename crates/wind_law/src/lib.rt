//! How often does a list of directed edges wind round a point, and what keeps that number the same?
#![tactic(auto)]

mod balance;
mod crossings;
pub mod laws;

pub use balance::closed;
pub use crossings::{crossing, winding};
pub use grid_geom::Edge;
pub use std::alloc::AllocError as OutOfMemory;
