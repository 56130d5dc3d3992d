//! Is what the readers and printers say of worked texts what was meant?
//!
//! Tests alone. They stand apart from the crates that they try, since a crate that has tests is proved
//! a second time with them.
#![tactic(auto)]

#[cfg(test)]
mod geometries;
#[cfg(test)]
mod meshes;
#[cfg(test)]
mod place_texts;
#[cfg(test)]
mod places;
#[cfg(test)]
mod rule_texts;
#[cfg(test)]
mod rules;
#[cfg(test)]
mod twelve;
#[cfg(test)]
mod twelve_text;
