//! What is the front of a domain, and how does it change when an element is glued to it?
//!
//! A front is a list of points and a list of directed lines between them, with the unmeshed region on
//! the left of each line. For every front, whatever was called:
//!
//! 1. Points are different grid points, numbered from 1. Lines join listed points; a line that joins
//!    takes the next line number, and numbers are never used again.
//! 2. The lines are closed, none tangles with another, and they wind 0 times or once round each rational
//!    point off them: they bound a region. So no line occurs twice or reversed.
//! 3. The next line number plus four times the doubled area is below 2^64, so numbers fit for good: a
//!    gluing adds at most four lines and takes at least 1 from the doubled area.
//! 4. Each listed point is an end of a line, or outside the region and on no line for good, or waiting:
//!    listed, but no corner of a glued element so far.
//! 5. The walk has the number of each line once. Its order is the front's own choice.
//!
//! `open`, `reserve` and `near_lines` alone take memory. Every look-up is one look in a table; gluing costs what the
//! element has, and the waiting points, however long the front is. Lines are linked in order of making,
//! so what is kept of them is as long as the front, and no walk meets a line that has left. `next_line`
//! is one look where it is given the number of a line, and else a walk from the first line on. The walks
//! over near lines ask a tree of the lines' boxes (Bonet and Peraire 1991), whose order is the walk: a
//! step costs about the tree's height, and what stands off the box isn't looked at. `near_lines` meets
//! all near lines in one walk down the tree, which costs less than a step for each.
#![tactic(auto)]

mod boxes;
mod chain;
mod front;
mod gluing;
mod opening;
mod order;
mod side;
mod walk;

pub use boxes::box_between;
pub use front::{Front, Near};
pub use opening::SWEEP;
pub use std::alloc::AllocError as OutOfMemory;
