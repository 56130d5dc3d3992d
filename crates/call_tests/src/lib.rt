//! Do folders, words of calls and sentences answer worked calls as was meant?
//!
//! Tests alone. They stand apart from the crates that they try, since a crate that has tests is proved
//! a second time with them.
#![tactic(auto)]

#[cfg(test)]
mod folders;
#[cfg(test)]
mod sentences;
#[cfg(test)]
mod words;
