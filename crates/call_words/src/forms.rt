//! The words after each verb.

ghost use Rattle.std.specs.Prelude.{true, false, map, string_bytes, IfOk, IfErr};
ghost use Rattle.call_words.specs.Commands.{place_count, task_of, IsFaultOf, IsCommandOf};
ghost use Rattle.call_words.specs.Forms.{takes_options, IsRead};

use super::WordsFault;
use super::command::{Command, MeshCall, Verb};
use super::form::{Form, four_places, one_place, three_places, two_places};
use super::values::{options_of, whole_from};

/// The words after `mesh`.
fn read_mesh<'a>(words: &'a [String], form: Option<Form<'a>>) -> Result<Command<'a>, WordsFault>
    requires { IsRead 4 true (map string_bytes words.now) form }
    ensures ok { IfOk result (λ command.
        IsCommandOf Verb.Mesh (map string_bytes words.entry.now) (task_of command)) }
    ensures fault { IfErr result (IsFaultOf Verb.Mesh (map string_bytes words.entry.now)) }
{
    let (geometry, rules, mesh, log, settings) = four_places(words, form)?;
    let options = options_of(&settings)?;
    if mesh == log {
        return Err(WordsFault::SameName);
    }
    Ok(Command::Mesh(MeshCall {
        geometry,
        rules,
        mesh,
        log,
        options,
    }))
}

/// The words after `geom`.
fn read_geom<'a>(words: &'a [String], form: Option<Form<'a>>) -> Result<Command<'a>, WordsFault>
    requires { IsRead 1 false (map string_bytes words.now) form }
    ensures ok { IfOk result (λ command.
        IsCommandOf Verb.Geom (map string_bytes words.entry.now) (task_of command)) }
    ensures fault { IfErr result (IsFaultOf Verb.Geom (map string_bytes words.entry.now)) }
{
    let geometry = one_place(words, form)?;
    Ok(Command::Geom { geometry })
}

/// The words after `rules`.
fn read_rules<'a>(words: &'a [String], form: Option<Form<'a>>) -> Result<Command<'a>, WordsFault>
    requires { IsRead 1 false (map string_bytes words.now) form }
    ensures ok { IfOk result (λ command.
        IsCommandOf Verb.Rules (map string_bytes words.entry.now) (task_of command)) }
    ensures fault { IfErr result (IsFaultOf Verb.Rules (map string_bytes words.entry.now)) }
{
    let rules = one_place(words, form)?;
    Ok(Command::Rules { rules })
}

/// The words after `check`.
fn read_check<'a>(words: &'a [String], form: Option<Form<'a>>) -> Result<Command<'a>, WordsFault>
    requires { IsRead 2 false (map string_bytes words.now) form }
    ensures ok { IfOk result (λ command.
        IsCommandOf Verb.Check (map string_bytes words.entry.now) (task_of command)) }
    ensures fault { IfErr result (IsFaultOf Verb.Check (map string_bytes words.entry.now)) }
{
    let (geometry, mesh) = two_places(words, form)?;
    Ok(Command::Check { geometry, mesh })
}

/// The words after `view`.
fn read_view<'a>(words: &'a [String], form: Option<Form<'a>>) -> Result<Command<'a>, WordsFault>
    requires { IsRead 3 false (map string_bytes words.now) form }
    ensures ok { IfOk result (λ command.
        IsCommandOf Verb.View (map string_bytes words.entry.now) (task_of command)) }
    ensures fault { IfErr result (IsFaultOf Verb.View (map string_bytes words.entry.now)) }
{
    let (log, domain, step) = three_places(words, form)?;
    let domain = whole_from(domain, 1, 64)?;
    let step = whole_from(step, 0, 1_000_000_000_000)?;
    Ok(Command::View { log, domain, step })
}

/// The words after `replay`.
fn read_replay<'a>(words: &'a [String], form: Option<Form<'a>>) -> Result<Command<'a>, WordsFault>
    requires { IsRead 3 false (map string_bytes words.now) form }
    ensures ok { IfOk result (λ command.
        IsCommandOf Verb.Replay (map string_bytes words.entry.now) (task_of command)) }
    ensures fault { IfErr result (IsFaultOf Verb.Replay (map string_bytes words.entry.now)) }
{
    let (geometry, rules, log) = three_places(words, form)?;
    Ok(Command::Replay {
        geometry,
        rules,
        log,
    })
}

/// The words after `gen`.
fn read_gen<'a>(words: &'a [String], form: Option<Form<'a>>) -> Result<Command<'a>, WordsFault>
    requires { IsRead 2 false (map string_bytes words.now) form }
    ensures ok { IfOk result (λ command.
        IsCommandOf Verb.Gen (map string_bytes words.entry.now) (task_of command)) }
    ensures fault { IfErr result (IsFaultOf Verb.Gen (map string_bytes words.entry.now)) }
{
    let (squares, parts) = two_places(words, form)?;
    let squares = whole_from(squares, 1, 8)?;
    let parts = whole_from(parts, 1, 16)?;
    Ok(Command::Gen { squares, parts })
}

/// The words after a verb.
pub fn read_rest<'a>(
    verb: Verb,
    words: &'a [String],
    form: Option<Form<'a>>,
) -> Result<Command<'a>, WordsFault>
    requires { IsRead (place_count verb) (takes_options verb) (map string_bytes words.now) form }
    ensures ok { IfOk result (λ command.
        IsCommandOf verb (map string_bytes words.entry.now) (task_of command)) }
    ensures fault { IfErr result (IsFaultOf verb (map string_bytes words.entry.now)) }
{
    match verb {
        Verb::Mesh => read_mesh(words, form),
        Verb::Geom => read_geom(words, form),
        Verb::Rules => read_rules(words, form),
        Verb::Check => read_check(words, form),
        Verb::View => read_view(words, form),
        Verb::Replay => read_replay(words, form),
        Verb::Gen => read_gen(words, form),
    }
}
