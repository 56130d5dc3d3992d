//! The points that a rule maps.

ghost use Rattle.std.specs.Prelude.{◌≡◌, ◌++◌, ◌∷◌, [], ◌<◌, length};

use smallvec::SmallVec;
use std::alloc::Global;
use std::marker::Model;

/// The most points that a rule may map.
pub const MOST_MAPPED: usize = 16;

/// The numbers of a rule's mapped points in their order, at most 16. Seen as their list; takes no
/// memory.
#[derive(Debug, Drop)]
pub struct Assignment {
    numbers: SmallVec<u64, 16>,
}

impl Model for Assignment {
    ghost use Rattle.std.specs.Prelude.{ℕ, List, ◌≡◌};

    ghost Value = { List ℕ };

    ghost view = { λ a. a.numbers.items };

    ghost invariant = { λ a. a.numbers.capacity ≡ 16 };
}

impl Assignment {
    /// No points.
    pub fn new(alloc: Global) -> Assignment
        ensures { result ≡ [] }
    {
        Assignment {
            numbers: SmallVec::new(alloc),
        }
    }

    /// Maps one more point.
    pub fn push(&mut self, number: u64)
        requires { length self.old < MOST_MAPPED }
        ensures { self.new ≡ self.old ++ number ∷ [] }
    {
        self.numbers.push_reserved(number);
    }

    /// The numbers in their order.
    pub fn as_slice(&self) -> &[u64]
        ensures { result.now ≡ self.now }
    {
        self.numbers.as_slice()
    }
}
