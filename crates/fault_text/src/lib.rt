//! What does a refusal say to a person, and where in the file does it point?
//!
//! 1. The word that is shown is the one with the refusal's number, in its line and column (`spot_of`).
//! 2. The word of a call that is shown is the first that can't stand where it stands (`misfit_of`), or the
//!    first that is at fault by its number or its name (`fault_of`).
//! 3. A sentence is made after the answer, and of what is at hand: where the file's bytes are not, it has
//!    no place and no word.
//! 4. How a sentence is worded is tested and not proved. A call fails only where memory is refused.
#![tactic(auto)]

mod geometry;
mod in2d;
mod rows;
mod rules;
mod runs;
mod sentences;
mod shift;
mod spot;
mod words;
mod writing;

pub use sentences::{File, Refused, sentence};
pub use spot::{Cursor, Spot, spot_of};
pub use words::{CallWord, fault_of, misfit_of};
