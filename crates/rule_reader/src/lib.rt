//! Which rules does a text have?
//!
//! 1. A text is read from left to right, each word once.
//! 2. A text that is refused is refused at the first fault from left to right.
//! 3. Numbers are kept in units of 1/10,000.
#![tactic(auto)]

mod entries;
mod fault;
pub mod laws;
mod lists;
mod numbers;
mod printing;
mod reader;
mod rule;
mod sections;
mod text;
mod tokens;
mod verdict;

pub use fault::RuleRefusal;
pub use grid_geom::Element;
pub use lists::{Elements, MapLines, MapPoints, Pairs, Places, Row, Rules, Turns};
pub use printing::print_rules;
pub use rule::{MapLine, MapPoint, Place, Rule, Term, Triple};
pub use std::alloc::AllocError as OutOfMemory;
pub use text::read_rules;
