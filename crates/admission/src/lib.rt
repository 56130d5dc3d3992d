//! May elements be glued to a front one after another, and if not, why not?
//!
//! 1. Elements are taken in their order, each against the front that those before it leave. The new
//!    points of the call are listed after the front's own, and lines that join take the numbers
//!    that they would have.
//! 2. An element may be glued where it is positively turned; each front line is apart from it; no
//!    front point is in an open side of it, and no corner of it in an open front line; none of its
//!    sides reversed is a front line; the front winds once round its centre; and its doubled area
//!    is at most the front's.
//! 3. The refusal is that of the first element that may not be glued, by the first of these
//!    conditions that fails, at the least number of a line or of a point. Want of memory is the
//!    only other refusal.
//! 4. Only lines whose boxes meet the box of all the elements' corners are tested, since no other
//!    line can hinder. The front's winding number is summed only where no side of the element is a
//!    front line: by such a side it is 1, since a front is a region.
#![tactic(auto)]

mod admitting;
mod glue;
pub mod laws;
mod lines;
mod near;
mod refusal;
mod shapes;
mod triangle;
mod view;

pub use admitting::admit;
pub use refusal::{Admitted, GlueRefusal};
pub use std::alloc::AllocError as OutOfMemory;
