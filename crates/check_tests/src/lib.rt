//! Is what is said of worked meshes what was meant?
//!
//! Tests alone. They stand apart from the crates that they try, since a crate that has tests is proved
//! a second time with them.
#![tactic(auto)]

#[cfg(test)]
mod check_whole;
#[cfg(test)]
mod named;
