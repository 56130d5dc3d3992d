//! Faults of a geometry's text.

use crate::rows::{Rows, first_word};
use crate::sentences::File;
use crate::spot::Spot;
use crate::writing::{numbered, push_place, push_quoted, value};
use std::alloc::AllocError;
use std::fmt::Write;
use word_scan::{Style, decimal};

/// Writes the sentence of `refused in2d NUMBERS`.
pub(crate) fn write(
    text: &mut String,
    file: &File<'_>,
    numbers: &[i128],
) -> Result<(), AllocError> {
    let named = value(numbers, 1);
    let word = match value(numbers, 0) {
        3 | 6 => first_word(file.text, Rows::Segments, named).map_or(0, |at| at as i128),
        4 => 0,
        _ => named,
    };
    let spot = numbered(file, Style::Spaced, word);
    push_place(text, file, spot.as_ref())?;
    match value(numbers, 0) {
        1 => write_misplaced(text, spot.as_ref()),
        2 => write_number(text, spot.as_ref()),
        3 => write!(
            text,
            "segment {named} is curved; straight segments alone are read"
        ),
        4 if named == 1 => text.push_str("there are more than 4096 points"),
        4 => text.push_str("there are more than 4096 segments"),
        5 => {
            text.push_str("the point number ")?;
            write_word(text, spot.as_ref())?;
            text.push_str(" stood before")
        }
        _ => write!(
            text,
            "segment {named} names a point that the file does not have"
        ),
    }
}

/// Writes the word, where it is known.
pub(crate) fn write_word(text: &mut String, spot: Option<&Spot<'_>>) -> Result<(), AllocError> {
    match spot {
        Some(spot) => push_quoted(text, spot.word),
        None => text.push_str("of this row"),
    }
}

/// Writes that a word can't stand where it stands, or that the file ends too early.
pub(crate) fn write_misplaced(
    text: &mut String,
    spot: Option<&Spot<'_>>,
) -> Result<(), AllocError> {
    match spot {
        Some(spot) => {
            push_quoted(text, spot.word)?;
            text.push_str(" can't stand here")
        }
        None => text.push_str("the file ends where a word is needed"),
    }
}

/// Writes that a word is no number, or not one that is needed.
pub(crate) fn write_number(text: &mut String, spot: Option<&Spot<'_>>) -> Result<(), AllocError> {
    match spot {
        Some(spot) => {
            push_quoted(text, spot.word)?;
            text.push_str(if decimal(spot.word).is_some() {
                " is not of the kind and range that is needed here"
            } else {
                " is no number"
            })
        }
        None => text.push_str("a number is not of the kind and range that is needed"),
    }
}
