//! Names, places and words, as sentences show them.

use crate::sentences::File;
use crate::spot::{Spot, spot_of};
use std::alloc::AllocError;
use std::fmt::Write;
use word_scan::Style;

/// How many bytes of a word are shown.
const SHOWN: usize = 40;

/// Adds a name, with its control signs as `\x` and two digits.
pub(crate) fn push_name(text: &mut String, name: &str) -> Result<(), AllocError> {
    for sign in name.chars() {
        if sign.is_control() {
            write!(text, "\\x{:02x}", u32::from(sign))?;
        } else {
            text.push(sign)?;
        }
    }
    Ok(())
}

/// Adds a word between quotes, of a long one the first bytes. What is no printable ASCII sign is shown as
/// `\x` and two digits.
pub(crate) fn push_quoted(text: &mut String, word: &[u8]) -> Result<(), AllocError> {
    text.push_str("'")?;
    for byte in word.iter().take(SHOWN) {
        match *byte {
            b' '..=b'~' => text.push(char::from(*byte))?,
            other => write!(text, "\\x{other:02x}")?,
        }
    }
    text.push_str(if word.len() > SHOWN { "..'" } else { "'" })
}

/// Adds the file's name, the place where it is known, and that it is refused.
pub(crate) fn push_place(
    text: &mut String,
    file: &File<'_>,
    spot: Option<&Spot<'_>>,
) -> Result<(), AllocError> {
    push_name(text, file.name)?;
    if let Some(spot) = spot {
        let (line, column) = (spot.at.line, spot.at.column);
        write!(text, ":{line}:{column}")?;
    }
    text.push_str(": refused: ")
}

/// The word with this number, where there is one.
pub(crate) fn numbered<'a>(file: &File<'a>, style: Style, number: i128) -> Option<Spot<'a>> {
    let number = usize::try_from(number).ok()?;
    spot_of(file.text, style, number)
}

/// The value at a place of a list of numbers, and 0 behind its end.
pub(crate) fn value(numbers: &[i128], at: usize) -> i128 {
    numbers.get(at).copied().unwrap_or(0)
}
