//! What is a run of all domains, application by application?
//!
//! 1. Point, line, rule and segment numbers begin at 1.
//! 2. Mesh points are the ends of the pieces by first occurrence, then the new points domain by domain.
//! 3. A domain's points are the mesh points that are ends of its lines, by rising mesh number, then
//!    its new points in order of making.
//! 4. A domain's opening lines are its pieces in their order, each with the domain on its left: as
//!    edges they are the domain's boundary.
//! 5. A `Run` is a domain's state after some applications, each of which was the next one: that of the
//!    least class, then of the least line, then of the least candidate on it. One more takes at least 1
//!    from the front's doubled area, so a run ends.
//! 6. A run remembers up to which class a line has no candidate, and lists by class and line what is to be
//!    tried: so nothing is tried again that no application has touched since.
//! 7. A run ends done, where no front is left; else stuck, where nothing applies; else stopped, where as
//!    many applications were made as the domain may make.
//! 8. What a run, a whole run and its mesh are is given exactly; the definitions stand in specs/.
#![tactic(auto)]

mod all;
mod application;
mod applying;
mod boundary;
mod domain_run;
mod gate;
mod ground;
pub mod laws;
mod left;
mod lists;
mod looked_again;
mod mesh;
mod numbering;
mod opening;
mod refusals;
mod run;
mod search;
mod stepped;
mod touched;
mod whole;
mod worklist;

pub use all::run_all;
pub use application::{Application, Applications};
pub use boundary::uncut;
pub use domain_run::{DomainRun, DomainRuns};
pub use gate::{Gate, NoGate};
pub use lists::{Elements, FrontRows, OpeningLines, PointNumbers};
pub use mesh::mesh_of;
pub use run::Run;
pub use size_field::{Piece, Pieces};
pub use std::alloc::AllocError as OutOfMemory;
pub use stepped::Stepped;

/// The options of a run.
#[derive(Clone, Copy, Debug, PartialEq, Eq)]
pub struct Options {
    /// The greatest size, in grid units.
    pub greatest: u64,
    /// How fast sizes may grow with the distance, in thousandths.
    pub grading: u32,
    /// The last quality class that is tried.
    pub last: u32,
    /// The number of applications that each domain may make at most, where one was given.
    pub limit: Option<u64>,
}

/// How a run ended.
#[derive(Clone, Copy, Debug, PartialEq, Eq)]
pub enum End {
    /// No front line is left.
    Done,
    /// A front is left, and nothing applies to it.
    Stuck,
    /// A front is left, and the given number of applications was made.
    Stopped,
}

/// The run of all domains.
#[derive(Debug, Drop)]
pub struct WholeRun {
    /// The power of ten by which the geometry was moved to the grid.
    pub shift: i32,
    /// The options that the run was made with.
    pub options: Options,
    /// The pieces into which the segments were cut.
    pub pieces: Pieces,
    /// The domains' runs, by rising domain number.
    pub domains: DomainRuns,
    /// Stopped if a domain's end is, else Stuck if one is, else Done.
    pub end: End,
}
