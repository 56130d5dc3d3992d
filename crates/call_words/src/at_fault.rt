//! The first word of a call that is at fault, numbers and names among them.

ghost use Rattle.std.specs.Prelude.{◌≡◌, true, false, ◌&&◌, ℕ, List, ◌∷◌, map, string_bytes};
ghost use Rattle.std.specs.Prelude.{IfSome, IfNone};
ghost use Rattle.std.specs.Option.{option_copied};
ghost use Rattle.call_words.specs.Commands.{AreOptions};
ghost use Rattle.call_words.specs.Begun.{IsFirstOff, StandsFor, IsFirstAtFault};
ghost use Rattle.call_words.specs.Walks.{range_of, IsRight, mesh_behind, course_seen, FitsRight};
ghost use Rattle.call_words.specs.Walks.{IsOnCourse, LeadsTo};
ghost use Rattle.call_words.specs.WordsRead.{given_of};
ghost use Rattle.call_words.specs.Forms.{takes_options};
ghost use Rattle.call_words.specs.declared.command.MeshOptions.{MeshOptions};

use super::command::{Verb, verb_called};
use super::misfit::{Walk, walked_on};
use super::settings::Settings;
use super::values::{options_of, whole_from};

/// How far the words after a verb are read, whether names are looked at, and then the name of the mesh,
/// where it is among them.
#[derive(Clone, Copy)]
pub(crate) struct Course<'a> {
    pub walk: Walk<'a>,
    pub names: bool,
    pub mesh: Option<&'a str>,
}

/// The range of the number in a place, where a number stands there. Places are counted from 0.
fn range_of(verb: Verb, place: usize) -> Option<(u64, u64)>
    ensures { result ≡ range_of verb place }
{
    match verb {
        Verb::View if place == 1 => Some((1, 64)),
        Verb::View if place == 2 => Some((0, 1_000_000_000_000)),
        Verb::Gen if place == 0 => Some((1, 8)),
        Verb::Gen if place == 1 => Some((1, 16)),
        _ => None,
    }
}

/// Whether the word may be this place.
fn is_right(verb: Verb, place: usize, mesh: Option<&str>, word: &str) -> bool
    ensures right { result ≡ true → IsRight verb place (option_copied mesh.entry) word.now }
    ensures wrong { result ≡ false → ¬ IsRight verb place (option_copied mesh.entry) word.now }
{
    if let Some((least, greatest)) = range_of(verb, place) {
        if whole_from(word, least, greatest).is_err() {
            return false;
        }
    }
    mesh != Some(word)
}

/// Whether each option that is set has a value.
fn have_values(settings: &Settings<'_>) -> bool
    ensures right { result ≡ true
        → (options : MeshOptions) × AreOptions (given_of settings.now) options }
    ensures wrong { result ≡ false
        → (options : MeshOptions) → ¬ AreOptions (given_of settings.now) options }
{
    options_of(settings).is_ok()
}

/// The name of the mesh behind the word, which is a place.
fn mesh_behind<'a>(course: &Course<'a>, word: &'a str) -> Option<&'a str>
    ensures { option_copied result ≡ mesh_behind course.now.names course.now.walk.passed
        word.entry.now (option_copied course.now.mesh) }
{
    if course.names && course.walk.passed == 2 {
        Some(word)
    } else {
        course.mesh
    }
}

/// How far the words are read behind this one, where it may stand there.
fn led_on<'a>(verb: Verb, course: &Course<'a>, word: &'a str) -> Option<Course<'a>>
    requires { IsOnCourse verb (course_seen course.now) }
    ensures found { IfSome result
        (λ next. LeadsTo verb (course_seen course.now) word.entry.now (course_seen next)) }
    ensures none { IfNone result ((more : List (List ℕ))
        → ¬ FitsRight verb (course_seen course.now) (word.entry.now ∷ more)) }
{
    let Some(walk) = walked_on(verb, &course.walk, word) else {
        return None;
    };
    if !have_values(&walk.settings) {
        return None;
    }
    let place = course.walk.passed;
    if walk.passed == place {
        return Some(Course { walk, ..*course });
    }
    if !is_right(verb, place, course.mesh, word) {
        return None;
    }
    Some(Course {
        walk,
        mesh: mesh_behind(course, word),
        ..*course
    })
}

/// The number of the first of the words that is at fault behind the course, or one behind the last. It
/// calls itself for each word that may stand there, which are few.
fn fault_from<'a>(verb: Verb, course: &Course<'a>, words: &'a [String]) -> usize
    requires { IsOnCourse verb (course_seen course.now) }
    ensures { IsFirstOff (FitsRight verb (course_seen course.now))
        (map string_bytes words.entry.now) result }
{
    let [word, rest @ ..] = words else {
        return 1;
    };
    match led_on(verb, course, word.as_str()) {
        None => 1,
        Some(next) => fault_from(verb, &next, rest) + 1,
    }
}

/// Whether names are looked at: they are of `mesh` alone.
fn looks(verb: Verb, names: bool) -> bool
    ensures { result ≡ takes_options verb && names }
{
    verb == Verb::Mesh && names
}

/// The number, from 1, of the first word after the verb that is at fault; where none is, one behind the
/// last.
fn fault_behind(verb: Verb, words: &[String], names: bool) -> usize
    ensures { IsFirstOff (StandsFor names verb) (map string_bytes words.now) result }
{
    let course = Course {
        walk: Walk::new(),
        names: looks(verb, names),
        mesh: None,
    };
    fault_from(verb, &course, words)
}

/// The number, from 1, of the first word of a call that is at fault: with it the words stand for no task,
/// whatever comes behind it. It can't stand where it stands, or is no number of its kind; or, where `names`
/// are looked at, it is the name of the log and of the mesh. Where no word is at fault, one behind the last:
/// words are missing, or none is.
pub fn first_at_fault(words: &[String], names: bool) -> usize
    ensures { IsFirstAtFault names (map string_bytes words.now) result }
{
    let [first, rest @ ..] = words else {
        return 1;
    };
    match verb_called(first.as_str()) {
        None => 1,
        Some(verb) => fault_behind(verb, rest, names) + 1,
    }
}
