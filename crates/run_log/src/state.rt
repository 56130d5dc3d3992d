//! What a view shows.

use mesh_run::FrontRows;

/// A domain's front after some applications.
#[derive(Debug, Drop)]
pub struct View {
    /// How many elements were made.
    pub elements: u64,
    /// The front lines, by rising number: number, from, to.
    pub front: FrontRows,
}
