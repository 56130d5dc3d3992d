//! Which geometry and which rules does the program hold by itself?
//!
//! 1. The geometry is n times n unit squares, each a domain of its own. It is accepted for each n from
//!    1 to 8, so that `check` can't refuse it.
//! 2. The rules are twelve, after those of NETGEN. They are within the limits of a rule file.
#![tactic(auto)]

pub mod laws;
mod plans;
mod squares;
mod twelve;

pub use squares::{geometry, part_of_side, rows};
pub use twelve::twelve_rules;
