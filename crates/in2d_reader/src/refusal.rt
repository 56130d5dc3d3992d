//! Why a geometry was not read.

ghost use Rattle.std.specs.Prelude.{◌≡◌};
ghost use Rattle.in2d_reader.specs.Refusals.{refusal_number};
ghost use Rattle.in2d_reader.specs.declared.refusal.In2dRefusal.TheVariants.{Memory};

use std::alloc::{AllocError, AllocFailed};

/// Why a text was not read. Words, segments and points are numbered from 1.
#[derive(Clone, Copy, Debug, PartialEq, Eq)]
pub enum In2dRefusal {
    /// This word can't stand here, or a word is missing here.
    Syntax { word: u64 },
    /// A number is needed in the place of this word, of its kind and range.
    Number { word: u64 },
    /// This segment is curved.
    Curved { segment: u64 },
    /// More than 4,096 points (`what` is 1) or segments (2).
    TooMany { what: u64 },
    /// The number of a point, at this word, has stood before.
    NumberTwice { word: u64 },
    /// This segment names a point that is not there.
    UnknownPoint { segment: u64 },
    /// Memory ran out.
    Memory,
}

impl In2dRefusal {
    /// The number that a refusal is printed with.
    pub fn number(self) -> u64
        ensures { result ≡ refusal_number self }
    {
        match self {
            In2dRefusal::Syntax { .. } => 1,
            In2dRefusal::Number { .. } => 2,
            In2dRefusal::Curved { .. } => 3,
            In2dRefusal::TooMany { .. } => 4,
            In2dRefusal::NumberTwice { .. } => 5,
            In2dRefusal::UnknownPoint { .. } => 6,
            In2dRefusal::Memory => 7,
        }
    }
}

impl From<AllocError> for In2dRefusal {
    ghost from_gives = { λ _ e. e ≡ Memory };

    fn from(_e: AllocError) -> In2dRefusal {
        In2dRefusal::Memory
    }
}

impl<T: Drop> From<AllocFailed<T>> for In2dRefusal {
    ghost from_gives = { λ _ e. e ≡ Memory };

    fn from(_e: AllocFailed<T>) -> In2dRefusal {
        In2dRefusal::Memory
    }
}
