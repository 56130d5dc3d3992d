//! Which bytes are the log of a run, which line sums it up, and what does a log say?
//!
//! 1. A log is read word by word, each word once, and the first word that can't stand where it stands is
//!    the one that is refused.
//! 2. No memory is taken by a count alone: a list grows line by line.
#![tactic(auto)]

mod applied;
mod end_word;
pub mod laws;
mod lists;
mod log;
mod reader;
mod reading;
mod refusal;
mod rows;
mod runs;
mod state;
mod summary;
mod table;
mod viewing;
mod words;
mod write;

pub use log::Log;
pub use reading::read_log;
pub use refusal::LogRefusal;
pub use state::View;
pub use summary::write_summary;
pub use viewing::view;
pub use write::write_log;
