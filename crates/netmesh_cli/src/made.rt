//! What a verb makes of the files that it takes.

use super::Outcome;

/// Bytes that are put under a name.
#[derive(Debug, Drop)]
pub struct Put<'a> {
    pub name: &'a str,
    pub bytes: Vec<u8>,
}

/// What is put, in order, what is written in the end, and how the call then ended.
#[derive(Debug, Drop)]
pub struct Made<'a> {
    pub puts: Vec<Put<'a>>,
    pub answer: Vec<u8>,
    pub outcome: Outcome,
}
