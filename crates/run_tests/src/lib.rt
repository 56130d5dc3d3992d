//! Is what is said of worked runs, their logs and their meshes what was meant?
//!
//! Tests alone. They stand apart from the crates that they try, since a crate that has tests is proved
//! a second time with them.
#![tactic(auto)]

#[cfg(test)]
mod opened;
#[cfg(test)]
mod squares;
#[cfg(test)]
mod viewed;
#[cfg(test)]
mod written;
