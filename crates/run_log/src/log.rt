//! What a log says.

use mesh_run::{DomainRuns, Options};

/// What a log says.
#[derive(Debug, Drop)]
pub struct Log {
    /// The power of ten by which the geometry was moved to the grid.
    pub shift: i32,
    /// The options that the run was made with.
    pub options: Options,
    /// The domains' runs, by rising domain number.
    pub domains: DomainRuns,
}
