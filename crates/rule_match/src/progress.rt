//! How far a search has come.

use super::found::Found;

/// A front line that keeps an assignment from being a candidate, and a point that the assignment maps,
/// both by number.
#[derive(Clone, Copy, Debug)]
pub struct Note {
    pub line: u64,
    pub point: u64,
}

/// The best find so far, and the notes so far.
#[derive(Debug, Drop)]
pub struct Progress {
    pub best: Option<Found>,
    pub notes: Vec<Note>,
}
