//! What one step of a run says.

use super::Application;

/// What a step of a run has done.
#[derive(Debug, Drop)]
pub enum Stepped {
    /// The next application was made: this one.
    Applied(Application),
    /// No front line is left, and nothing was done.
    Done,
    /// A front is left, nothing applies to it, and nothing was done.
    Stuck,
}
