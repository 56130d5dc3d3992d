//! Faults of a geometry.

use crate::rows::{Rows, first_word};
use crate::sentences::File;
use crate::shift::{Place, write_place};
use crate::spot::Spot;
use crate::writing::{numbered, push_place, push_quoted, value};
use std::alloc::AllocError;
use std::fmt::Write;
use word_scan::Style;

/// The first word of a row of the file, where it is there.
fn row<'a>(file: &File<'a>, rows: Rows, row: i128) -> Option<Spot<'a>> {
    let word = first_word(file.text, rows, row)?;
    numbered(file, Style::Spaced, word as i128)
}

/// Writes the sentence of `refused geometry NUMBERS`.
pub(crate) fn write(
    text: &mut String,
    file: &File<'_>,
    numbers: &[i128],
) -> Result<(), AllocError> {
    let named = value(numbers, 1);
    let spot = match value(numbers, 0) {
        2 | 3 | 7 => row(file, Rows::Points, named),
        4 | 5 | 6 => row(file, Rows::Segments, named),
        _ => None,
    };
    push_place(text, file, spot.as_ref())?;
    match value(numbers, 0) {
        1 => text.push_str("no segment has a domain on a side"),
        2 => {
            write_point(text, spot.as_ref(), named)?;
            text.push_str(" is too far out: no coordinate may pass 16384 million")
        }
        3 => {
            let other = row(file, Rows::Points, value(numbers, 2));
            write_point(text, spot.as_ref(), named)?;
            text.push_str(" is on the grid at the place of ")?;
            write_point(text, other.as_ref(), value(numbers, 2))?;
            write_line(text, other.as_ref())
        }
        4 => write!(
            text,
            "segment {named} has the same domain, or the outside, on both sides"
        ),
        5 => write!(text, "segment {named} goes from a point to the same point"),
        6 => {
            let second = value(numbers, 2);
            write!(text, "segment {named} and segment {second}")?;
            write_line(text, row(file, Rows::Segments, second).as_ref())?;
            text.push_str(" share more than one common end")
        }
        7 => {
            let domain = value(numbers, 2);
            write!(text, "the boundary of domain {domain} is open at ")?;
            write_point(text, spot.as_ref(), named)
        }
        8 => {
            write!(
                text,
                "the boundary of domain {named} winds neither 0 times nor once round "
            )?;
            write_place(text, file.text, &place(numbers, 2))?;
            text.push_str("; are the domains on the left and right of its segments exchanged?")
        }
        _ => {
            text.push_str("two domains overlap at ")?;
            write_place(text, file.text, &place(numbers, 1))
        }
    }
}

/// The place in grid steps that begins at this number.
fn place(numbers: &[i128], at: usize) -> Place {
    match numbers.get(at..) {
        Some([x, y, k, ..]) => Place {
            x: *x,
            y: *y,
            k: *k,
        },
        _ => Place { x: 0, y: 0, k: 1 },
    }
}

/// Writes a point by its own number in the file, or else by its row.
fn write_point(text: &mut String, spot: Option<&Spot<'_>>, row: i128) -> Result<(), AllocError> {
    match spot {
        Some(spot) => {
            text.push_str("point ")?;
            push_quoted(text, spot.word)
        }
        None => write!(text, "the point in row {row}"),
    }
}

/// Writes in which line a row stands.
fn write_line(text: &mut String, spot: Option<&Spot<'_>>) -> Result<(), AllocError> {
    if let Some(spot) = spot {
        let line = spot.at.line;
        write!(text, " (line {line})")?;
    }
    Ok(())
}
