//! Why a text has no rules.

ghost use Rattle.std.specs.Prelude.{◌≡◌};
ghost use Rattle.rule_reader.specs.declared.fault.Stop.TheVariants.{Memory};

use std::alloc::{AllocError, AllocFailed};

/// Why a text is refused. Words are numbered from 1; where the text ends and a word is needed, the
/// number is that of the words plus 1.
#[derive(Clone, Copy, Debug, PartialEq, Eq)]
pub enum RuleRefusal {
    /// This word doesn't fit.
    Syntax { word: u64 },
    /// This word is a number where one is needed, and not of its kind and range.
    Number { word: u64 },
    /// The rule of this number has more than its limit of: 1 rules, 2 mappoints, 3 maplines,
    /// 4 newpoints, 5 newlines, 6 freearea, 7 freearea2, 8 elements, 9 orientations, 10 terms of a row,
    /// 11 bytes of its name.
    TooMany { rule: u64, what: u64 },
    /// This word is the first of the rule that names a point that it doesn't have, or that isn't as
    /// its first mapped line must be.
    BadIndex { rule: u64, word: u64 },
    /// The rule of this number has four or more loose starts.
    TooLoose { rule: u64 },
    /// Memory ran out.
    Memory,
}

/// A fault of a text. A word is told by how many words are left, it included.
#[derive(Clone, Copy)]
pub enum Fault {
    Syntax { left: usize },
    Number { left: usize },
    TooMany { rule: u64, what: u64 },
    BadIndex { rule: u64, left: usize },
    TooLoose { rule: u64 },
}

/// Why reading stops.
#[derive(Clone, Copy)]
pub enum Stop {
    Memory,
    Fault(Fault),
}

impl From<AllocError> for Stop {
    ghost from_gives = { λ _ e. e ≡ Memory };

    fn from(_e: AllocError) -> Stop {
        Stop::Memory
    }
}

impl<T: Drop> From<AllocFailed<T>> for Stop {
    ghost from_gives = { λ _ e. e ≡ Memory };

    fn from(_e: AllocFailed<T>) -> Stop {
        Stop::Memory
    }
}
