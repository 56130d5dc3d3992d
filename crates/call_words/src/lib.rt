//! What do the words of a call ask for, and if nothing, what is wrong with them?
//!
//! 1. What words ask for is a relation (`Reads`, `IsCommand`), apart from how they are read: they ask for one
//!    task at most, or have one fault, never both.
//! 2. They are read by `clap`. That what it gives is what the relation says is one lemma for all verbs
//!    (`proofs/ByClap.antt`); a verb is a case of `command_of` and a table of `proofs/Tables.antt`.
//! 3. Where words are in no form, the first that can't stand where it stands has a number (`first_misfit`).
//! 4. So has the first that is at fault, by its number or its name (`first_at_fault`); words with such a
//!    fault have such a word (law `one_is_at_fault`).
//! 5. A call fails only where memory is refused.
#![tactic(auto)]

mod at_fault;
mod command;
mod form;
mod forms;
pub mod laws;
mod misfit;
mod settings;
mod values;
mod words_fault;

pub use at_fault::first_at_fault;
pub use command::{Command, MeshCall, MeshOptions, Verb, read_words};
pub use misfit::first_misfit;
pub use words_fault::WordsFault;
