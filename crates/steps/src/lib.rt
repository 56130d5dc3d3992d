#![tactic(auto)]
//! How many trials were made?
//!
//! 1. A counter is seen as a number. Only `count` changes it, by one.
//! 2. It takes no bytes: its tokens are of std's ledgers, whose calls do nothing when they run. So a
//!    bound on a count is a clause, and not a number that a program could print.
//! 3. What a step stands for is the word of who counts: in this repository, one call of `best`, the
//!    search for the least candidate of a line and a class.

ghost use Rattle.std.specs.Prelude.{◌≡◌, ◌+◌, ◌<◌};

use std::marker::Model;
use std::sync::ledger::{Blank, Book, Ledger, Share};

#[cfg(test)]
mod tests;

/// A counter of steps over a ledger of its own, seen as the number of steps taken.
#[derive(Drop)]
pub struct Steps<L: Ledger> {
    book: Book<L>,
    share: Share<L>,
}

impl<L: Ledger> Model for Steps<L> {
    ghost use Rattle.std.specs.Prelude.{ℕ, ◌<◌};

    ghost Value = { ℕ };

    ghost view = { λ steps. steps.book.total };

    ghost invariant = { λ steps. 0 < steps.share.parts };
}

impl<L: Ledger> Steps<L> {
    /// A counter at 0 that writes into the blank's ledger. Takes no memory.
    ///
    /// A caller that counts names the ledger itself: it passes `Blank::new(1)` to a function over
    /// `L: Ledger` with these three conditions, called with `Brand` for `L`.
    pub fn from_blank(blank: Blank) -> Steps<L>
        requires name { blank.name ≡ L.name }
        requires parts { blank.parts ≡ L.parts }
        requires some { 0 < L.parts }
        ensures { result ≡ 0 }
    {
        let (book, share) = blank.open();
        Steps { book, share }
    }

    /// Counts one step. Takes no memory and no time.
    pub fn count(&mut self)
        ensures { self.new ≡ self.old + 1 }
    {
        self.book.add(&mut self.share, 1);
    }
}
