//! What the words of a call ask for.

ghost use Rattle.std.specs.Prelude.{◌≡◌, ◌≢◌, map, IfOk, IfErr, IfSome, IfNone, string_bytes};
ghost use Rattle.call_words.specs.Commands.{verb_word, IsFault, IsCommand, task_of};

use super::WordsFault;
use super::form::read_form;
use super::forms::read_rest;
use std::alloc::{AllocError, Global};
use word_scan::Dec;

/// What is done, the first word of a call.
#[derive(Clone, Copy, Debug, PartialEq, Eq)]
pub enum Verb {
    Mesh,
    Geom,
    Rules,
    Check,
    View,
    Replay,
    Gen,
}

/// The options of `mesh`, where they are given.
#[derive(Clone, Copy, Debug, PartialEq, Eq)]
pub struct MeshOptions {
    /// The greatest size, above 0.
    pub maxh: Option<Dec>,
    /// The grading in thousandths, at most 10,000.
    pub grading: Option<u64>,
    /// The greatest class, from 1 to 16.
    pub class: Option<u64>,
    /// The number of steps, at most 1,000,000,000,000.
    pub steps: Option<u64>,
}

/// The files of `mesh` by their names, and its options.
#[derive(Clone, Copy)]
pub struct MeshCall<'a> {
    pub geometry: &'a str,
    pub rules: &'a str,
    pub mesh: &'a str,
    pub log: &'a str,
    pub options: MeshOptions,
}

/// What a call asks for. Files are given by their names.
#[derive(Clone, Copy)]
pub enum Command<'a> {
    /// A mesh of a geometry.
    Mesh(MeshCall<'a>),
    /// A geometry, printed.
    Geom {
        geometry: &'a str,
    },
    /// Rules, printed.
    Rules {
        rules: &'a str,
    },
    /// Whether a mesh is one of a geometry.
    Check {
        geometry: &'a str,
        mesh: &'a str,
    },
    /// What stood after a step of a domain's run, from a log.
    View {
        log: &'a str,
        domain: u64,
        step: u64,
    },
    /// Whether a run made anew is that of a log.
    Replay {
        geometry: &'a str,
        rules: &'a str,
        log: &'a str,
    },
    /// A mesh of so many squares each way, with so many parts to a side.
    Gen {
        squares: u64,
        parts: u64,
    },
}

/// The verb that the word is.
pub(crate) fn verb_called(word: &str) -> Option<Verb>
    ensures found { IfSome result (λ verb. word.now ≡ verb_word verb) }
    ensures none { IfNone result ((verb : Verb) → word.now ≢ verb_word verb) }
{
    if word == "mesh" {
        Some(Verb::Mesh)
    } else if word == "geom" {
        Some(Verb::Geom)
    } else if word == "rules" {
        Some(Verb::Rules)
    } else if word == "check" {
        Some(Verb::Check)
    } else if word == "view" {
        Some(Verb::View)
    } else if word == "replay" {
        Some(Verb::Replay)
    } else if word == "gen" {
        Some(Verb::Gen)
    } else {
        None
    }
}

/// What the words of a call ask for, or the first that is wrong with them.
pub fn read_words<'a>(
    alloc: Global,
    words: &'a [String],
) -> Result<Result<Command<'a>, WordsFault>, AllocError>
    ensures command { IfOk result (λ read. IfOk read (λ command.
        IsCommand (map string_bytes words.entry.now) (task_of command))) }
    ensures fault { IfOk result (λ read. IfErr read (IsFault (map string_bytes words.entry.now))) }
{
    let [first, rest @ ..] = words else {
        return Ok(Err(WordsFault::NoVerb));
    };
    let Some(verb) = verb_called(first.as_str()) else {
        return Ok(Err(WordsFault::UnknownVerb));
    };
    let form = read_form(alloc, verb, rest)?;
    Ok(read_rest(verb, rest, form))
}
