//! Is what is said of a rule's ground, and of the least candidate of a line, what was meant?
//!
//! Tests alone. They stand apart from the crates that they try, since a crate that has tests is proved
//! a second time with them.
#![tactic(auto)]

#[cfg(test)]
mod cases;
#[cfg(test)]
mod compared;
#[cfg(test)]
mod enumeration;
#[cfg(test)]
mod fronts;
#[cfg(test)]
mod gluing;
#[cfg(test)]
mod least;
#[cfg(test)]
mod looked_again;
#[cfg(test)]
mod places;
#[cfg(test)]
mod reading;
#[cfg(test)]
mod texts;
#[cfg(test)]
mod zones;
