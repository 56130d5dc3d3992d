//! Faults of the words of a call.

ghost use Rattle.std.specs.Prelude.{◌≡◌, ◌≤◌, ◌<◌, ◌+◌, ◌-◌, true, false, Some, slice_get, length};
ghost use Rattle.std.specs.Prelude.{map, string_bytes, IfSome, IfNone};
ghost use Rattle.call_words.specs.Begun.{IsFirstMisfit, IsFirstAtFault};
ghost use Rattle.call_words.specs.Commands.{IsFault};
ghost use Rattle.call_words.specs.declared.words_fault.WordsFault.TheVariants.{Value, SameName};
ghost use Rattle.fault_text.specs.Spots.{IsMisfit, IsAtFault};

use crate::writing::push_quoted;
use call_words::{first_at_fault, first_misfit};
use std::alloc::AllocError;
use std::fmt::Write;

/// A word of a call, and its number from 1.
#[derive(Clone, Copy)]
pub struct CallWord<'a> {
    pub number: usize,
    pub word: &'a str,
}

/// The word with this number, where there is one.
fn numbered<'a>(words: &'a [String], number: usize) -> Option<CallWord<'a>>
    requires { 1 ≤ number }
    ensures found { IfSome result (λ found. (found.number ≡ number)
        × (slice_get (map string_bytes words.entry.now) (number - 1) ≡ Some found.word.now)) }
    ensures none { IfNone result (length words.entry.now < number) }
{
    if number > words.len() {
        return None;
    }
    Some(CallWord {
        number,
        word: words[number - 1].as_str(),
    })
}

/// The first word of a call that can't stand where it stands; none where each may, but words are missing
/// at the end, or none is at fault.
pub fn misfit_of<'a>(words: &'a [String]) -> Option<CallWord<'a>>
    ensures found { IfSome result (IsMisfit (map string_bytes words.entry.now)) }
    ensures none { IfNone result
        (IsFirstMisfit (map string_bytes words.entry.now) (length words.entry.now + 1)) }
{
    let number = first_misfit(words);
    numbered(words, number)
}

/// The first word of a call that is at fault: it can't stand where it stands, or is no number of its kind; or,
/// where `names` are looked at, it is the log's name and the mesh's. None where no word is, but words may be
/// missing at the end.
pub fn fault_of<'a>(words: &'a [String], names: bool) -> Option<CallWord<'a>>
    ensures found { IfSome result (IsAtFault names (map string_bytes words.entry.now)) }
    ensures none { IfNone result
        (IsFirstAtFault names (map string_bytes words.entry.now) (length words.entry.now + 1)) }
    ensures number { IfNone result (names ≡ false
        → ¬ IsFault (map string_bytes words.entry.now) Value) }
    ensures name { IfNone result (names ≡ true
        → ¬ IsFault (map string_bytes words.entry.now) SameName) }
{
    let number = first_at_fault(words, names);
    numbered(words, number)
}

/// The form of a verb.
fn form(verb: &str) -> &'static str {
    match verb {
        "mesh" => "mesh GEOMETRY RULES MESH LOG [--maxh V] [--grading N] [--class N] [--steps N]",
        "geom" => "geom GEOMETRY",
        "rules" => "rules RULES",
        "check" => "check GEOMETRY MESH",
        "view" => "view LOG DOMAIN STEP",
        "replay" => "replay GEOMETRY RULES LOG",
        "gen" => "gen N M",
        _ => "VERB FILES",
    }
}

/// Which numbers a verb takes.
fn ranges(verb: &str) -> &'static str {
    match verb {
        "mesh" => "V is above 0, --grading 0 to 10000, --class 1 to 16, --steps 0 to 1000000000000",
        "view" => "DOMAIN is 1 to 64, STEP 0 to 1000000000000",
        "gen" => "N is 1 to 8, M 1 to 16",
        _ => "it takes none",
    }
}

/// Writes which word can't stand where it stands, or that words are missing, and the form of the verb.
fn write_form(text: &mut String, words: &[String], verb: &str) -> Result<(), AllocError> {
    match misfit_of(words) {
        Some(at) => {
            let number = at.number;
            push_quoted(text, at.word.as_bytes())?;
            write!(text, ", word {number}, can't stand there")?;
        }
        None => text.push_str("words are missing at the end")?,
    }
    text.push_str("; the form is ")?;
    text.push_str(form(verb))
}

/// Writes which number isn't of its kind, and the form of the verb and its ranges.
fn write_number(text: &mut String, words: &[String], verb: &str) -> Result<(), AllocError> {
    match fault_of(words, false) {
        Some(at) => {
            let number = at.number;
            push_quoted(text, at.word.as_bytes())?;
            write!(text, ", word {number}, is out of range, or no number")?;
        }
        None => text.push_str("a number is out of range, or none")?,
    }
    text.push_str("; the form is ")?;
    text.push_str(form(verb))?;
    text.push_str(": ")?;
    text.push_str(ranges(verb))
}

/// Writes which name the mesh and the log have.
fn write_name(text: &mut String, words: &[String]) -> Result<(), AllocError> {
    match fault_of(words, true) {
        Some(at) => {
            let number = at.number;
            push_quoted(text, at.word.as_bytes())?;
            write!(text, ", word {number}, is LOG, and MESH has the same name")
        }
        None => text.push_str("MESH and LOG have the same name"),
    }
}

/// Writes the sentence of `refused words FAULT`.
pub(crate) fn write(text: &mut String, words: &[String], fault: u32) -> Result<(), AllocError> {
    text.push_str("netmesh: refused: ")?;
    let verb = words.first().map_or("", |word| word.as_str());
    match fault {
        1 => text.push_str("no verb is given; ./netmesh --help lists them"),
        2 => {
            push_quoted(text, verb.as_bytes())?;
            text.push_str(" is no verb; ./netmesh --help lists them")
        }
        3 => write_form(text, words, verb),
        4 => write_number(text, words, verb),
        _ => write_name(text, words),
    }
}
