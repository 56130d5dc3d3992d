//! Which ground does a rule need free, and what of the front is in its way?
//!
//! A rule's zone at a class is a polygon around the place where its elements would go. For every zone:
//!
//! 1. Its corners are on the grid and strictly convex, so they go round it counterclockwise. They are
//!    the rounded places of the rule's definition, at the class.
//! 2. What is in the way is told least first: points before lines, and the least number of each. A
//!    point is in the way where it is in the open zone, a line where it isn't apart from it; what
//!    the rule maps isn't.
//! 3. Only lines whose boxes meet the zone's are looked at: no other line is in the way, and a point
//!    in the way is an end of such a line. `line_in_way` alone takes memory, for a list of them: one
//!    walk is quicker than a step from each line to the next, and a line above one that is in the way
//!    isn't tested.
#![tactic(auto)]

mod around;
mod blocked;
pub mod laws;
mod mapped;
mod zone;

pub use blocked::Blocker;
pub use zone::Zone;
