//! Is what the calls of plane geometry say of worked geometries, points and edges what was meant?
//!
//! Tests alone. They stand apart from the crates that they try, since a crate that has tests is proved
//! a second time with them.
#![tactic(auto)]

#[cfg(test)]
mod geometries;
#[cfg(test)]
mod grid;
#[cfg(test)]
mod readable;
#[cfg(test)]
mod sizes;
#[cfg(test)]
mod winding;
