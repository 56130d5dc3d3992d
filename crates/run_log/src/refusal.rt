//! Why a log was not read or viewed.

ghost use Rattle.std.specs.Prelude.{◌≡◌};
ghost use Rattle.run_log.specs.declared.refusal.LogRefusal.TheVariants.{Memory};

use std::alloc::{AllocError, AllocFailed};

/// Why a log was not read, or no state of it shown. Words are numbered from 1; where the text ends
/// and a word is needed, the number is that of the words plus 1.
#[derive(Clone, Copy, Debug, PartialEq, Eq)]
pub enum LogRefusal {
    /// This word can't stand here, or a word is missing here.
    Syntax { word: u64 },
    /// A number is needed in the place of this word, of its kind and range.
    Number { word: u64 },
    /// This word is a point number, and none of a point that is there so far.
    BadIndex { word: u64 },
    /// The log has no run of this domain, or that run has fewer applications.
    NoState { domain: u32, step: u64 },
    /// Memory ran out.
    Memory,
}

impl From<AllocError> for LogRefusal {
    ghost from_gives = { λ _ e. e ≡ Memory };

    fn from(_e: AllocError) -> LogRefusal {
        LogRefusal::Memory
    }
}

impl<T: Drop> From<AllocFailed<T>> for LogRefusal {
    ghost from_gives = { λ _ e. e ≡ Memory };

    fn from(_e: AllocFailed<T>) -> LogRefusal {
        LogRefusal::Memory
    }
}
