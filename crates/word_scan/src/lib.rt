//! Which words does a text have, and which numbers do they write?
//!
//! 1. A scanner gives the words of its text one after another, from left to right, each once.
//! 2. A scanner that refuses stays as it was, so it refuses again.
//! 3. No call takes memory.
#![tactic(auto)]

mod decimals;
mod name;
mod scanner;
mod spaced;
mod tokens;
mod wholes;
pub mod word_laws;

pub use decimals::{Dec, decimal};
pub use name::Name;
pub use scanner::{Kind, ScanRefusal, Scanner, Style, Word};
pub use wholes::whole;

#[cfg(test)]
mod tests;
