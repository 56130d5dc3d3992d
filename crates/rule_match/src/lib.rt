#![tactic(auto)]
//! Which rule applies at a line of the front, and where?
//!
//! 1. What a candidate is looks at all rules, all assignments and all front lines. The search looks at
//!    few: it maps point after point, and gives up as soon as the points mapped so far can't go on.
//! 2. A search meets every assignment, whatever it gives up: its promise is on all that may still come.
//! 3. The best find is the least by badness, then rule, then assignment. Badness is compared as a
//!    fraction, crosswise in 128 bits.
//! 4. A find that doesn't come before the best so far is never judged.
//! 5. `best` tries each live rule of quality at most the class on one line. The line's frame, the front
//!    points in range and the front lines between them are gathered once, from the lines whose boxes
//!    meet the range, and are shared by all rules.
//! 6. A search may note why assignments fail: front lines, each beside a mapped point. An assignment
//!    that no front line hinders fails by its places alone, or by what no application undoes. `best`
//!    makes no notes, `best_noted` makes them.
//! 7. `again` tries a refused line by the assignments that map given points. Of rules of three points
//!    these map the line's ends and one given point, so no other point is gathered.

mod application;
mod around;
mod assignment;
mod badness;
mod base;
mod few_points;
mod found;
mod fresh;
mod front_trial;
pub mod laws;
mod least;
mod leeways;
mod making;
mod near;
mod noting;
mod out_of_reach;
mod progress;
mod refused;
mod rule_search;
mod squares;
mod tolerance;
mod trying;
mod walk;

pub use application::Application;
pub use assignment::Assignment;
pub use badness::Badness;
pub use found::Found;
pub use fresh::search_fresh;
pub use least::{best, best_noted, some_may_apply};
pub use near::NearPoint;
pub use out_of_reach::{greatest_reach_at, reach_box};
pub use progress::{Note, Progress};
pub use refused::again;
pub use squares::{MOST_SIDES, element_badness};
pub use std::alloc::AllocError as OutOfMemory;
pub use trying::Trying;
pub use walk::{Trial, search};
