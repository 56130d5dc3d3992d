//! Is what is said of worked fronts, of elements glued to them, and of trees of boxes what was meant?
//!
//! Tests alone. They stand apart from the crates that they try, since a crate that has tests is proved
//! a second time with them.
#![tactic(auto)]

#[cfg(test)]
mod fronts;
#[cfg(test)]
mod gluing;
#[cfg(test)]
mod lines;
#[cfg(test)]
mod trees;
