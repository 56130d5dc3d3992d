//! Rows of points and of segments in a geometry's text.

use word_scan::{Scanner, Style};

/// Which rows.
#[derive(Clone, Copy, Debug, PartialEq, Eq)]
pub(crate) enum Rows {
    Points,
    Segments,
}

/// The section that a walk over the words is in.
#[derive(Clone, Copy, Debug, PartialEq, Eq)]
enum Section {
    Head,
    Points,
    Segments,
    Rest,
}

/// A walk over the words of a geometry: the section, and how many of its words have passed, without flags.
#[derive(Clone, Copy, Debug)]
pub(crate) struct Walk {
    section: Section,
    passed: u64,
}

impl Walk {
    /// The walk before the first word.
    pub(crate) fn new() -> Walk {
        Walk {
            section: Section::Head,
            passed: 0,
        }
    }

    /// The walk behind one more word that is no flag.
    pub(crate) fn after(self, word: &[u8]) -> Walk {
        let (next, width): (&[u8], u64) = match self.section {
            Section::Head => (b"points", 1),
            Section::Points => (b"segments", 3),
            Section::Segments => (b"materials", 5),
            Section::Rest => (b"", 1),
        };
        if self.passed % width == 0 && word == next {
            return Walk {
                section: match self.section {
                    Section::Head => Section::Points,
                    Section::Points => Section::Segments,
                    Section::Segments | Section::Rest => Section::Rest,
                },
                passed: 0,
            };
        }
        Walk {
            section: self.section,
            passed: self.passed.saturating_add(1),
        }
    }

    /// Whether the last word is a coordinate of a point.
    pub(crate) fn is_coordinate(self) -> bool {
        self.section == Section::Points && self.passed > 0 && self.passed % 3 != 1
    }

    /// Whether the last word is the first of a row, and which row it is.
    fn row(self, rows: Rows) -> Option<u64> {
        let (section, width) = match rows {
            Rows::Points => (Section::Points, 3),
            Rows::Segments => (Section::Segments, 5),
        };
        if self.section == section && self.passed % width == 1 {
            Some(self.passed / width + 1)
        } else {
            None
        }
    }
}

/// A flag is a minus and a letter, and whatever follows.
pub(crate) fn is_flag(word: &[u8]) -> bool {
    match word {
        [b'-', letter, ..] => letter.is_ascii_alphabetic(),
        _ => false,
    }
}

/// The number of the first word of a row, from 1, where the text has that row.
pub(crate) fn first_word(text: &[u8], rows: Rows, row: i128) -> Option<usize> {
    let mut walk = Walk::new();
    let mut scanner = Scanner::new(text, Style::Spaced);
    while let Ok(word) = scanner.next() {
        let bytes = scanner.bytes(word);
        if !is_flag(bytes) {
            walk = walk.after(bytes);
            if walk.row(rows).map(i128::from) == Some(row) {
                return Some(word.at);
            }
        }
    }
    None
}
