//! Faults of the files of a run: of a mesh, and of a log.

use crate::in2d::{write_misplaced, write_number, write_word};
use crate::sentences::File;
use crate::writing::{numbered, push_place, value};
use std::alloc::AllocError;
use std::fmt::Write;
use word_scan::Style;

/// Writes the sentence of `refused vol NUMBERS`.
pub(crate) fn write_mesh(
    text: &mut String,
    file: &File<'_>,
    numbers: &[i128],
) -> Result<(), AllocError> {
    let spot = numbered(file, Style::Spaced, value(numbers, 1));
    push_place(text, file, spot.as_ref())?;
    match value(numbers, 0) {
        1 => write_misplaced(text, spot.as_ref()),
        2 => write_number(text, spot.as_ref()),
        3 => {
            text.push_str("the mesh has no point ")?;
            write_word(text, spot.as_ref())
        }
        _ => text.push_str("no mesh has more than 16777216 of them"),
    }
}

/// Writes the sentence of `refused log NUMBERS`.
pub(crate) fn write_log(
    text: &mut String,
    file: &File<'_>,
    numbers: &[i128],
) -> Result<(), AllocError> {
    let named = value(numbers, 1);
    let word = if value(numbers, 0) == 4 { 0 } else { named };
    let spot = numbered(file, Style::Spaced, word);
    push_place(text, file, spot.as_ref())?;
    match value(numbers, 0) {
        1 => write_misplaced(text, spot.as_ref()),
        2 => write_number(text, spot.as_ref()),
        3 => {
            text.push_str("the domain has no point ")?;
            write_word(text, spot.as_ref())?;
            text.push_str(" here")
        }
        _ => {
            let step = value(numbers, 2);
            write!(text, "the log has no step {step} of domain {named}")
        }
    }
}
