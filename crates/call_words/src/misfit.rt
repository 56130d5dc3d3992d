//! The first word after a verb that can't stand where it stands.

ghost use Rattle.std.specs.Prelude.{◌≡◌, ◌≤◌, ◌+◌, length, map, string_bytes, option_map};
ghost use Rattle.std.specs.Prelude.{MatchOption, None, Some, IfSome};
ghost use Rattle.call_words.specs.Commands.{place_count};
ghost use Rattle.call_words.specs.WordsRead.{given_of, halves, word_sort, setting_of};
ghost use Rattle.call_words.specs.Forms.{takes_options};
ghost use Rattle.call_words.specs.Begun.{IsFirstOff, IsFormed, IsFirstMisfit};
ghost use Rattle.call_words.specs.Walks.{sort_seen, walk_seen, at_start, placed, free_option, walked_by};
ghost use Rattle.call_words.specs.Walks.{walked_on, Fits, IsSound};

use super::command::{Verb, verb_called};
use super::settings::{Setting, Settings, setting_of};

/// What a word may be.
#[derive(Clone, Copy)]
pub(crate) enum Sort<'a> {
    /// `-`, or one that doesn't begin with `-`.
    Plain,
    /// `--`.
    Dashes,
    /// `--name`, before its value word.
    Before(&'a str),
    /// `--name=value`.
    With(&'a str, &'a str),
    /// Another word that begins with `-`.
    Other,
}

/// How far the words after a verb are read: so many places, the options that are set, the one that
/// waits for its value, and whether `--` was passed.
#[derive(Clone, Copy)]
pub(crate) struct Walk<'a> {
    pub passed: usize,
    pub settings: Settings<'a>,
    pub waits: Option<Setting>,
    pub alone: bool,
}

impl Walk<'_> {
    /// Before the first word.
    pub(crate) fn new() -> Self
        ensures { walk_seen result ≡ at_start }
    {
        Walk {
            passed: 0,
            settings: Settings::new(),
            waits: None,
            alone: false,
        }
    }
}

/// The texts before and after the first `=`.
fn halves(text: &str) -> Option<(&str, &str)>
    ensures { MatchOption result (halves text.now ≡ None)
        (λ x. halves text.now ≡ Some (x.0.now, x.1.now)) }
{
    text.split_once('=')
}

/// What the word may be.
fn sort_of(word: &str) -> Sort<'_>
    ensures { sort_seen result ≡ word_sort word.now }
{
    if word == "-" {
        return Sort::Plain;
    }
    if let Some(text) = word.strip_prefix("--") {
        if text == "" {
            return Sort::Dashes;
        }
        return match halves(text) {
            None => Sort::Before(text),
            Some((name, value)) => Sort::With(name, value),
        };
    }
    if word.as_bytes().first() == Some(&b'-') {
        Sort::Other
    } else {
        Sort::Plain
    }
}

/// How many places a verb has.
fn place_count(verb: Verb) -> usize
    ensures value { result ≡ place_count verb }
    ensures few { result ≤ 4 }
{
    match verb {
        Verb::Geom | Verb::Rules => 1,
        Verb::Check | Verb::Gen => 2,
        Verb::View | Verb::Replay => 3,
        Verb::Mesh => 4,
    }
}

/// The walk with one place more, where the verb has one more.
fn placed<'a>(verb: Verb, walk: &Walk<'a>) -> Option<Walk<'a>>
    ensures { option_map walk_seen result ≡ placed verb (walk_seen walk.now) }
{
    if walk.passed < place_count(verb) {
        Some(Walk {
            passed: walk.passed + 1,
            ..*walk
        })
    } else {
        None
    }
}

/// The option that is called so, where the verb has options and it isn't set yet.
fn free_option(verb: Verb, settings: &Settings<'_>, name: &str) -> Option<Setting>
    ensures { result ≡ free_option verb (given_of settings.now) (setting_of name.now) }
{
    let setting = setting_of(name)?;
    if verb == Verb::Mesh && settings.get(setting).is_none() {
        Some(setting)
    } else {
        None
    }
}

/// The walk behind a word of this sort, where no option waits.
fn walked_by<'a>(verb: Verb, walk: &Walk<'a>, sort: Sort<'a>) -> Option<Walk<'a>>
    ensures { option_map walk_seen result
        ≡ walked_by verb (walk_seen walk.now) (sort_seen sort.entry) }
{
    match sort {
        Sort::Plain => placed(verb, walk),
        Sort::Dashes => Some(Walk {
            alone: true,
            ..*walk
        }),
        Sort::Before(name) => {
            let setting = free_option(verb, &walk.settings, name)?;
            Some(Walk {
                waits: Some(setting),
                ..*walk
            })
        }
        Sort::With(name, value) => {
            let setting = free_option(verb, &walk.settings, name)?;
            Some(Walk {
                settings: walk.settings.with(setting, value),
                waits: None,
                ..*walk
            })
        }
        Sort::Other => None,
    }
}

/// The walk behind the word, where it may stand there.
pub(crate) fn walked_on<'a>(verb: Verb, walk: &Walk<'a>, word: &'a str) -> Option<Walk<'a>>
    ensures { option_map walk_seen result ≡ walked_on verb (walk_seen walk.now) word.entry.now }
{
    if walk.alone {
        return placed(verb, walk);
    }
    let sort = sort_of(word);
    match walk.waits {
        None => walked_by(verb, walk, sort),
        Some(setting) => {
            if matches!(sort, Sort::Plain) {
                Some(Walk {
                    settings: walk.settings.with(setting, word),
                    waits: None,
                    ..*walk
                })
            } else {
                None
            }
        }
    }
}

/// The number of the first of the words that can't stand behind the walk, or one behind the last. It
/// calls itself for each word that may stand there, which are few.
fn misfit_from<'a>(verb: Verb, walk: &Walk<'a>, words: &'a [String]) -> usize
    requires { IsSound verb (walk_seen walk.now) }
    ensures { IsFirstOff (Fits verb (walk_seen walk.now))
        (map string_bytes words.entry.now) result }
{
    let [word, rest @ ..] = words else {
        return 1;
    };
    match walked_on(verb, walk, word.as_str()) {
        None => 1,
        Some(next) => misfit_from(verb, &next, rest) + 1,
    }
}

/// The number, from 1, of the first word after the verb that can't stand where it stands; where each may,
/// one behind the last.
fn misfit_behind(verb: Verb, words: &[String]) -> usize
    ensures { IsFirstOff (IsFormed verb) (map string_bytes words.now) result }
{
    misfit_from(verb, &Walk::new(), words)
}

/// The number, from 1, of the first word of a call that can't stand where it stands: with it the words
/// begin no verb with words in its form. Where each word may stand there, one behind the last: words are
/// missing, or none is. Of numbers among the words it says nothing.
pub fn first_misfit(words: &[String]) -> usize
    ensures { IsFirstMisfit (map string_bytes words.now) result }
{
    let [first, rest @ ..] = words else {
        return 1;
    };
    match verb_called(first.as_str()) {
        None => 1,
        Some(verb) => misfit_behind(verb, rest) + 1,
    }
}
