//! The words after a verb, as `clap` reads them.

ghost use Rattle.std.specs.Prelude.{◌≡◌, [], ◌∷◌, true, false, map, string_bytes, None, Some, IfOk, IfErr, codes};
ghost use Rattle.std.specs.Option.{option_copied};
ghost use Rattle.clap.specs.Words.{app_of, found_of, first_value, new_rule, rule_of, with_rule};
ghost use Rattle.clap.specs.declared.builder.action.ArgAction.TheVariants.{Set};
ghost use Rattle.call_words.specs.CommandLine.{nothing_given};
ghost use Rattle.call_words.specs.WordsRead.{given_of, reading};
ghost use Rattle.call_words.specs.Asks.{place_word, no_places, asks};
ghost use Rattle.call_words.specs.Commands.{place_count};
ghost use Rattle.call_words.specs.Forms.{asked_of, takes_options, IsRead, HasNot, HasNotAlone};

use super::WordsFault;
use super::command::Verb;
use super::settings::Settings;
use clap::error::ErrorKind;
use clap::{Arg, ArgAction, ArgMatches, Command};
use std::alloc::{AllocError, Global};

/// The places and options among the words after a verb.
#[derive(Clone, Copy)]
pub struct Form<'a> {
    pub first: Option<&'a str>,
    pub second: Option<&'a str>,
    pub third: Option<&'a str>,
    pub fourth: Option<&'a str>,
    pub settings: Settings<'a>,
}

/// The command with one place more.
fn with_place<'a>(
    alloc: Global,
    command: Command<'a>,
    name: &'a str,
) -> Result<Command<'a>, AllocError>
    ensures { IfOk result (λ more. app_of more ≡ with_rule (app_of command.entry)
        (record (new_rule name.entry.now) { required = true; action = Some Set })) }
{
    let place = Arg::new(alloc, name).required(true).action(ArgAction::Set);
    command.arg(place)
}

/// The command with one option more.
fn with_option<'a>(
    alloc: Global,
    command: Command<'a>,
    name: &'a str,
) -> Result<Command<'a>, AllocError>
    ensures { IfOk result (λ more. app_of more ≡ with_rule (app_of command.entry)
        (record (new_rule name.entry.now) {
          long = Some name.entry.now;
          action = Some Set;
        })) }
{
    let option = Arg::new(alloc, name).long(name).action(ArgAction::Set);
    command.arg(option)
}

/// A command without places.
fn no_places<'a>(alloc: Global) -> Command<'a>
    ensures { app_of result ≡ no_places }
{
    Command::new(alloc, "netmesh")
        .no_binary_name(true)
        .disable_help_flag(true)
}

/// The command of a verb with one place.
fn one_command<'a>(alloc: Global) -> Result<Command<'a>, AllocError>
    ensures { IfOk result (λ command. app_of command ≡ asks 1 false) }
{
    with_place(alloc, no_places(alloc), "1")
}

/// The command of a verb with two places.
fn two_command<'a>(alloc: Global) -> Result<Command<'a>, AllocError>
    ensures { IfOk result (λ command. app_of command ≡ asks 2 false) }
{
    let command = one_command(alloc)?;
    with_place(alloc, command, "2")
}

/// The command of a verb with three places.
fn three_command<'a>(alloc: Global) -> Result<Command<'a>, AllocError>
    ensures { IfOk result (λ command. app_of command ≡ asks 3 false) }
{
    let command = two_command(alloc)?;
    with_place(alloc, command, "3")
}

/// The command of a verb with four places.
fn four_command<'a>(alloc: Global) -> Result<Command<'a>, AllocError>
    ensures { IfOk result (λ command. app_of command ≡ asks 4 false) }
{
    let command = three_command(alloc)?;
    with_place(alloc, command, "4")
}

/// The command of `mesh`.
fn mesh_command<'a>(alloc: Global) -> Result<Command<'a>, AllocError>
    ensures { IfOk result (λ command. app_of command ≡ asks 4 true) }
{
    let command = four_command(alloc)?;
    let command = with_option(alloc, command, "maxh")?;
    let command = with_option(alloc, command, "grading")?;
    let command = with_option(alloc, command, "class")?;
    with_option(alloc, command, "steps")
}

/// The command of the verb.
fn command_of<'a>(alloc: Global, verb: Verb) -> Result<Command<'a>, AllocError>
    ensures { IfOk result (λ command. app_of command ≡ asked_of verb) }
{
    match verb {
        Verb::Mesh => mesh_command(alloc),
        Verb::Geom | Verb::Rules => one_command(alloc),
        Verb::Check | Verb::Gen => two_command(alloc),
        Verb::View | Verb::Replay => three_command(alloc),
    }
}

/// What was found.
fn form_of<'a>(matches: &ArgMatches<'a>) -> Form<'a>
    ensures first { option_copied result.first ≡ first_value (found_of matches.now) (place_word 1) }
    ensures second { option_copied result.second
        ≡ first_value (found_of matches.now) (place_word 2) }
    ensures third { option_copied result.third ≡ first_value (found_of matches.now) (place_word 3) }
    ensures fourth { option_copied result.fourth
        ≡ first_value (found_of matches.now) (place_word 4) }
    ensures given { given_of result.settings ≡ record {
      maxh = first_value (found_of matches.now) (codes "maxh");
      grading = first_value (found_of matches.now) (codes "grading");
      class = first_value (found_of matches.now) (codes "class");
      steps = first_value (found_of matches.now) (codes "steps");
    } }
{
    Form {
        first: matches.get_str("1"),
        second: matches.get_str("2"),
        third: matches.get_str("3"),
        fourth: matches.get_str("4"),
        settings: Settings {
            maxh: matches.get_str("maxh"),
            grading: matches.get_str("grading"),
            class: matches.get_str("class"),
            steps: matches.get_str("steps"),
        },
    }
}

/// What is found among the words after the verb, or nothing where they aren't in its form.
pub fn read_form<'a>(
    alloc: Global,
    verb: Verb,
    words: &'a [String],
) -> Result<Option<Form<'a>>, AllocError>
    ensures { IfOk result
        (IsRead (place_count verb) (takes_options verb) (map string_bytes words.entry.now)) }
{
    let command = command_of(alloc, verb)?;
    match command.try_get_matches_from(words) {
        Ok(matches) => Ok(Some(form_of(&matches))),
        Err(error) => {
            if error.kind() == ErrorKind::OutOfMemory {
                return Err(AllocError);
            }
            Ok(None)
        }
    }
}

/// The one place of words that are one place, without an option.
pub fn one_place<'a>(words: &'a [String], form: Option<Form<'a>>) -> Result<&'a str, WordsFault>
    requires { IsRead 1 false (map string_bytes words.now) form }
    ensures ok { IfOk result (λ found. reading None nothing_given (map string_bytes words.entry.now)
        ≡ Some (found.now ∷ [], nothing_given)) }
    ensures fault { IfErr result (λ fault. (fault ≡ WordsFault.Form)
        × HasNotAlone 1 (reading None nothing_given (map string_bytes words.entry.now))) }
{
    let Some(form) = form else {
        return Err(WordsFault::Form);
    };
    let Some(first) = form.first else {
        return Err(WordsFault::Form);
    };
    Ok(first)
}

/// The places of words that are two of them, without an option.
pub fn two_places<'a>(
    words: &'a [String],
    form: Option<Form<'a>>,
) -> Result<(&'a str, &'a str), WordsFault>
    requires { IsRead 2 false (map string_bytes words.now) form }
    ensures ok { IfOk result (λ found. reading None nothing_given (map string_bytes words.entry.now)
        ≡ Some (found.0.now ∷ found.1.now ∷ [], nothing_given)) }
    ensures fault { IfErr result (λ fault. (fault ≡ WordsFault.Form)
        × HasNotAlone 2 (reading None nothing_given (map string_bytes words.entry.now))) }
{
    let Some(form) = form else {
        return Err(WordsFault::Form);
    };
    let Some(first) = form.first else {
        return Err(WordsFault::Form);
    };
    let Some(second) = form.second else {
        return Err(WordsFault::Form);
    };
    Ok((first, second))
}

/// The places of words that are three of them, without an option.
pub fn three_places<'a>(
    words: &'a [String],
    form: Option<Form<'a>>,
) -> Result<(&'a str, &'a str, &'a str), WordsFault>
    requires { IsRead 3 false (map string_bytes words.now) form }
    ensures ok { IfOk result (λ found. reading None nothing_given (map string_bytes words.entry.now)
        ≡ Some (found.0.now ∷ found.1.now ∷ found.2.now ∷ [], nothing_given)) }
    ensures fault { IfErr result (λ fault. (fault ≡ WordsFault.Form)
        × HasNotAlone 3 (reading None nothing_given (map string_bytes words.entry.now))) }
{
    let Some(form) = form else {
        return Err(WordsFault::Form);
    };
    let Some(first) = form.first else {
        return Err(WordsFault::Form);
    };
    let Some(second) = form.second else {
        return Err(WordsFault::Form);
    };
    let Some(third) = form.third else {
        return Err(WordsFault::Form);
    };
    Ok((first, second, third))
}

/// The places of words that are four of them, with their options.
pub fn four_places<'a>(
    words: &'a [String],
    form: Option<Form<'a>>,
) -> Result<(&'a str, &'a str, &'a str, &'a str, Settings<'a>), WordsFault>
    requires { IsRead 4 true (map string_bytes words.now) form }
    ensures ok { IfOk result (λ found. reading None nothing_given (map string_bytes words.entry.now)
        ≡ Some (
          found.0.now ∷ found.1.now ∷ found.2.now ∷ found.3.now ∷ [],
          given_of found.4,
        )) }
    ensures fault { IfErr result (λ fault. (fault ≡ WordsFault.Form)
        × HasNot 4 (reading None nothing_given (map string_bytes words.entry.now))) }
{
    let Some(form) = form else {
        return Err(WordsFault::Form);
    };
    let Some(first) = form.first else {
        return Err(WordsFault::Form);
    };
    let Some(second) = form.second else {
        return Err(WordsFault::Form);
    };
    let Some(third) = form.third else {
        return Err(WordsFault::Form);
    };
    let Some(fourth) = form.fourth else {
        return Err(WordsFault::Form);
    };
    Ok((first, second, third, fourth, form.settings))
}
