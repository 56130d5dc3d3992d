//! The sentence of any refusal.

use crate::{geometry, in2d, rules, runs, words, writing};
use std::alloc::{AllocError, Global};
use std::fmt::Write;
use std::io::ErrorKind;

/// A file that was taken: its name, and its bytes where they are at hand.
#[derive(Clone, Copy, Debug)]
pub struct File<'a> {
    pub name: &'a str,
    pub text: &'a [u8],
}

/// A refusal as plain values: the numbers are those of its line, from the first on.
#[derive(Clone, Copy, Debug)]
pub enum Refused<'a> {
    /// The words of the call are at fault, or ask for what is not built.
    Words {
        words: &'a [String],
        fault: u32,
    },
    /// Words that are not UTF-8.
    NoText,
    /// `refused in2d ..`.
    In2d {
        file: File<'a>,
        numbers: &'a [i128],
    },
    /// `refused geometry ..`.
    Geometry {
        file: File<'a>,
        numbers: &'a [i128],
    },
    /// `refused rules ..`.
    Rules {
        file: File<'a>,
        numbers: &'a [i128],
    },
    /// `refused vol ..`.
    Mesh {
        file: File<'a>,
        numbers: &'a [i128],
    },
    /// `refused log ..`.
    Log {
        file: File<'a>,
        numbers: &'a [i128],
    },
    /// `refused folder ..`, of a file of which at most `limit` bytes are taken, with what sort of fault the
    /// system gave, where it gave one.
    Folder {
        name: &'a str,
        fault: u32,
        limit: u64,
        reason: Option<ErrorKind>,
    },
    /// `refused notyet ..`.
    NotYet,
    /// The answer was not taken.
    Out,
    /// There was no memory left.
    Memory,
}

/// The sentence of a refusal: one line, with its line feed.
///
/// # Errors
///
/// Where memory was refused.
pub fn sentence(alloc: Global, refused: &Refused<'_>) -> Result<String, AllocError> {
    let mut text = String::new(alloc);
    match refused {
        Refused::Words { words, fault } => words::write(&mut text, words, *fault)?,
        Refused::NoText => text.push_str("netmesh: refused: a word of the call is not UTF-8")?,
        Refused::In2d { file, numbers } => in2d::write(&mut text, file, numbers)?,
        Refused::Geometry { file, numbers } => geometry::write(&mut text, file, numbers)?,
        Refused::Rules { file, numbers } => rules::write(&mut text, file, numbers)?,
        Refused::Mesh { file, numbers } => runs::write_mesh(&mut text, file, numbers)?,
        Refused::Log { file, numbers } => runs::write_log(&mut text, file, numbers)?,
        Refused::Folder {
            name,
            fault,
            limit,
            reason,
        } => {
            write_folder(&mut text, name, *fault, *limit)?;
            if *fault == 1 {
                write_reason(&mut text, *reason)?;
            }
        }
        Refused::NotYet => text.push_str("netmesh: refused: this verb is not built yet")?,
        Refused::Out => text.push_str("netmesh: refused: standard output did not take the answer")?,
        Refused::Memory => text.push_str("netmesh: refused: there is no memory left")?,
    }
    text.push_str("\n")?;
    Ok(text)
}

/// Writes which file the folder refused, and why.
fn write_folder(text: &mut String, name: &str, fault: u32, limit: u64) -> Result<(), AllocError> {
    writing::push_name(text, name)?;
    match fault {
        2 => write!(text, ": refused: the file is longer than {limit} bytes"),
        3 => text.push_str(": refused: there is no such file"),
        _ => text.push_str(": refused: the file can't be read or written"),
    }
}

/// Adds the system's reason, where it gave one.
fn write_reason(text: &mut String, reason: Option<ErrorKind>) -> Result<(), AllocError> {
    let Some(reason) = reason else {
        return Ok(());
    };
    match reason {
        ErrorKind::IsADirectory => text.push_str(": it is a folder"),
        ErrorKind::PermissionDenied => text.push_str(": the system denies it"),
        ErrorKind::NotFound => text.push_str(": its folder is not there"),
        ErrorKind::NotADirectory => text.push_str(": what should be its folder is a file"),
        ErrorKind::ReadOnlyFilesystem => text.push_str(": its disk can't be written"),
        ErrorKind::StorageFull => text.push_str(": the disk is full"),
        ErrorKind::FileTooLarge => text.push_str(": the system allows no file as long"),
        ErrorKind::InvalidFilename => text.push_str(": its name is too long"),
        ErrorKind::Uncategorized => Ok(()),
        other => write!(text, ": {other}"),
    }
}
