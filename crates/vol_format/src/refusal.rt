//! Why a mesh was not read.

ghost use Rattle.std.specs.Prelude.{◌≡◌};
ghost use Rattle.vol_format.specs.Refusals.{refusal_number};
ghost use Rattle.vol_format.specs.declared.refusal.VolRefusal.TheVariants.{Memory};

use std::alloc::{AllocError, AllocFailed};

/// The greatest count of rows, and the greatest point number, in a text that is read: 2^24.
pub const MOST_ROWS: u64 = 16_777_216;

/// Why a text was not read. Words are numbered from 1; where the text ends and a word is needed, the
/// number is that of the words plus 1.
#[derive(Clone, Copy, Debug, PartialEq, Eq)]
pub enum VolRefusal {
    /// This word can't stand here, or a word is missing here.
    Syntax { word: u64 },
    /// A number is needed in the place of this word, of its kind and range.
    Number { word: u64 },
    /// The text is whole, and this word is the first point number in it that is 0 or past the points.
    BadIndex { word: u64 },
    /// This word is a count above 16,777,216.
    TooMany { word: u64 },
    /// Memory ran out.
    Memory,
}

impl VolRefusal {
    /// The number that a refusal is printed with.
    pub fn number(self) -> u64
        ensures { result ≡ refusal_number self }
    {
        match self {
            VolRefusal::Syntax { .. } => 1,
            VolRefusal::Number { .. } => 2,
            VolRefusal::BadIndex { .. } => 3,
            VolRefusal::TooMany { .. } => 4,
            VolRefusal::Memory => 5,
        }
    }
}

impl From<AllocError> for VolRefusal {
    ghost from_gives = { λ _ e. e ≡ Memory };

    fn from(_e: AllocError) -> VolRefusal {
        VolRefusal::Memory
    }
}

impl<T: Drop> From<AllocFailed<T>> for VolRefusal {
    ghost from_gives = { λ _ e. e ≡ Memory };

    fn from(_e: AllocFailed<T>) -> VolRefusal {
        VolRefusal::Memory
    }
}
