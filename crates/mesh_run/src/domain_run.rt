// Runs of single domains.

use super::{Applications, End, FrontRows, OpeningLines};
use grid_geom::Points;
use list_of::List;

/// The run of one domain.
#[derive(Debug, Drop)]
pub struct DomainRun {
    /// The number of the domain.
    pub domain: u32,
    /// All points of the domain, by their numbers.
    pub points: Points,
    /// How many of them were there at the opening.
    pub opened: usize,
    /// The opening lines, by their numbers: from, to.
    pub lines: OpeningLines,
    /// The applications in order of making.
    pub applications: Applications,
    /// The front lines that are left, by rising number: number, from, to.
    pub front: FrontRows,
    pub end: End,
}

/// The runs of domains by rising number.
pub type DomainRuns = List<DomainRun>;
