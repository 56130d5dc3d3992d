//! What is said to a person, on standard error, of a call that was refused. Contracts say of it that what the
//! folder holds stays as it is, and nothing of the words.

ghost use Rattle.std.specs.Prelude.{◌≡◌};

use super::{FILE_LIMIT, RUN_FILE_LIMIT, Refusal};
use call_words::{Command, WordsFault, read_words};
use fault_text::{File, Refused, sentence};
use folder_io::Folder;
use geom_check::GeomRefusal;
use in2d_reader::In2dRefusal;
use rule_reader::RuleRefusal;
use run_log::LogRefusal;
use std::alloc::Global;
use std::fs;
use std::io::{ErrorKind, Write};
use vol_format::VolRefusal;

/// The numbers of a refusal's line, with noughts behind them.
type Numbers = [i128; 5];

fn numbers_of_in2d(fault: &In2dRefusal) -> Numbers {
    match fault {
        In2dRefusal::Syntax { word } => [1, *word as i128, 0, 0, 0],
        In2dRefusal::Number { word } => [2, *word as i128, 0, 0, 0],
        In2dRefusal::Curved { segment } => [3, *segment as i128, 0, 0, 0],
        In2dRefusal::TooMany { what } => [4, *what as i128, 0, 0, 0],
        In2dRefusal::NumberTwice { word } => [5, *word as i128, 0, 0, 0],
        In2dRefusal::UnknownPoint { segment } => [6, *segment as i128, 0, 0, 0],
        In2dRefusal::Memory => [0; 5],
    }
}

fn numbers_of_geometry(fault: &GeomRefusal) -> Numbers {
    match fault {
        GeomRefusal::NoDomain => [1, 0, 0, 0, 0],
        GeomRefusal::TooLarge { point } => [2, *point as i128, 0, 0, 0],
        GeomRefusal::SamePlace { i, j } => [3, *i as i128, *j as i128, 0, 0],
        GeomRefusal::SameSides { segment } => [4, *segment as i128, 0, 0, 0],
        GeomRefusal::NoLength { segment } => [5, *segment as i128, 0, 0, 0],
        GeomRefusal::Meet { i, j } => [6, *i as i128, *j as i128, 0, 0],
        GeomRefusal::OpenAt { point, domain } => [7, *point as i128, *domain as i128, 0, 0],
        GeomRefusal::Side { domain, at } => [8, *domain as i128, at.x, at.y, at.k],
        GeomRefusal::Overlap { at } => [9, at.x, at.y, at.k, 0],
        GeomRefusal::Memory => [0; 5],
    }
}

fn numbers_of_rules(fault: &RuleRefusal) -> Numbers {
    match fault {
        RuleRefusal::Syntax { word } => [1, *word as i128, 0, 0, 0],
        RuleRefusal::Number { word } => [2, *word as i128, 0, 0, 0],
        RuleRefusal::TooMany { rule, what } => [3, *rule as i128, *what as i128, 0, 0],
        RuleRefusal::BadIndex { rule, word } => [4, *rule as i128, *word as i128, 0, 0],
        RuleRefusal::TooLoose { rule } => [5, *rule as i128, 0, 0, 0],
        RuleRefusal::Memory => [0; 5],
    }
}

fn numbers_of_mesh(fault: &VolRefusal) -> Numbers {
    match fault {
        VolRefusal::Syntax { word } => [1, *word as i128, 0, 0, 0],
        VolRefusal::Number { word } => [2, *word as i128, 0, 0, 0],
        VolRefusal::BadIndex { word } => [3, *word as i128, 0, 0, 0],
        VolRefusal::TooMany { word } => [4, *word as i128, 0, 0, 0],
        VolRefusal::Memory => [0; 5],
    }
}

fn numbers_of_log(fault: &LogRefusal) -> Numbers {
    match fault {
        LogRefusal::Syntax { word } => [1, *word as i128, 0, 0, 0],
        LogRefusal::Number { word } => [2, *word as i128, 0, 0, 0],
        LogRefusal::BadIndex { word } => [3, *word as i128, 0, 0, 0],
        LogRefusal::NoState { domain, step } => [4, *domain as i128, *step as i128, 0, 0],
        LogRefusal::Memory => [0; 5],
    }
}

/// Its number among the faults of words.
fn number_of_words(fault: WordsFault) -> u32 {
    match fault {
        WordsFault::NoVerb => 1,
        WordsFault::UnknownVerb => 2,
        WordsFault::Form => 3,
        WordsFault::Value => 4,
        WordsFault::SameName => 5,
    }
}

/// The names of the files that a command takes, empty where it takes none of the kind.
#[derive(Clone, Copy)]
struct Names<'a> {
    geometry: &'a str,
    rules: &'a str,
    mesh: &'a str,
    log: &'a str,
}

/// No files.
const NO_NAMES: Names<'static> = Names {
    geometry: "",
    rules: "",
    mesh: "",
    log: "",
};

/// The names of the files that a command takes.
fn names_taken<'a>(command: &Command<'a>) -> Names<'a> {
    match command {
        Command::Mesh(call) => Names {
            geometry: call.geometry,
            rules: call.rules,
            ..NO_NAMES
        },
        Command::Geom { geometry } => Names {
            geometry,
            ..NO_NAMES
        },
        Command::Rules { rules } => Names { rules, ..NO_NAMES },
        Command::Check { geometry, mesh } => Names {
            geometry,
            mesh,
            ..NO_NAMES
        },
        Command::View { log, .. } => Names { log, ..NO_NAMES },
        Command::Replay {
            geometry,
            rules,
            log,
        } => Names {
            geometry,
            rules,
            log,
            ..NO_NAMES
        },
        Command::Gen { .. } => NO_NAMES,
    }
}

/// How many bytes of the file of this name a call with these words takes at most.
fn limit_of(alloc: Global, words: &[String], name: &str) -> u64 {
    let Ok(Ok(command)) = read_words(alloc, words) else {
        return FILE_LIMIT;
    };
    let names = names_taken(&command);
    if name != names.geometry && (name == names.mesh || name == names.log) {
        RUN_FILE_LIMIT
    } else {
        FILE_LIMIT
    }
}

/// The bytes of a plain file once more; none of what is no plain file, since it may give them once only.
fn bytes_again<F: Folder>(
    rt: &HostRuntime,
    alloc: Global,
    folder: &mut F,
    name: &str,
    limit: u64,
) -> Option<Vec<u8>>
    ensures held { (F.state folder.new).held ≡ (F.state folder.old).held }
{
    if fs::metadata(rt, name).ok()?.is_file() {
        folder.take(alloc, name, limit).ok()
    } else {
        None
    }
}

/// Writes a sentence to standard error. Where it can't be made or isn't taken, nothing more is said.
pub fn write_sentence(rt: &HostRuntime, refused: &Refused<'_>) {
    if let Ok(text) = sentence(rt.alloc(), refused) {
        let _ = rt.stderr().write_all(text.as_bytes());
    }
}

/// Says of a call with these words why it was refused, and of a folder's fault what the system's reason was.
/// A file that is at fault by what it holds is taken once more.
pub fn say<F: Folder>(
    rt: &HostRuntime,
    folder: &mut F,
    words: &[String],
    refusal: &Refusal,
    reason: Option<ErrorKind>,
)
    ensures held { (F.state folder.new).held ≡ (F.state folder.old).held }
{
    match refusal {
        Refusal::Words(fault) => {
            let fault = number_of_words(*fault);
            write_sentence(rt, &Refused::Words { words, fault });
        }
        Refusal::In2d(_)
        | Refusal::Geometry(_)
        | Refusal::Rules(_)
        | Refusal::Vol(_)
        | Refusal::Log(_) => {
            say_of_file(rt, folder, words, refusal);
        }
        Refusal::Folder { name, fault } => {
            if let Ok(name) = std::str::from_utf8(name.as_slice()) {
                write_sentence(
                    rt,
                    &Refused::Folder {
                        name,
                        fault: *fault,
                        limit: limit_of(rt.alloc(), words, name),
                        reason,
                    },
                );
            }
        }
        Refusal::Out => write_sentence(rt, &Refused::Out),
        Refusal::Memory => write_sentence(rt, &Refused::Memory),
        Refusal::NotYet { .. } => write_sentence(rt, &Refused::NotYet),
    }
}

/// The numbers of the line of a refusal for what a file holds.
fn numbers_of(refusal: &Refusal) -> Numbers {
    match refusal {
        Refusal::In2d(fault) => numbers_of_in2d(fault),
        Refusal::Geometry(fault) => numbers_of_geometry(fault),
        Refusal::Rules(fault) => numbers_of_rules(fault),
        Refusal::Vol(fault) => numbers_of_mesh(fault),
        Refusal::Log(fault) => numbers_of_log(fault),
        _ => [0; 5],
    }
}

/// A refusal for what a file holds, as plain values.
fn refused_of<'a>(refusal: &Refusal, file: File<'a>, numbers: &'a [i128]) -> Refused<'a> {
    match refusal {
        Refusal::Geometry(_) => Refused::Geometry { file, numbers },
        Refusal::Rules(_) => Refused::Rules { file, numbers },
        Refusal::Vol(_) => Refused::Mesh { file, numbers },
        Refusal::Log(_) => Refused::Log { file, numbers },
        _ => Refused::In2d { file, numbers },
    }
}

/// Says why a file was refused by what it holds.
fn say_of_file<F: Folder>(rt: &HostRuntime, folder: &mut F, words: &[String], refusal: &Refusal)
    ensures held { (F.state folder.new).held ≡ (F.state folder.old).held }
{
    let Ok(Ok(command)) = read_words(rt.alloc(), words) else {
        return;
    };
    let names = names_taken(&command);
    let (name, limit) = match refusal {
        Refusal::Rules(_) => (names.rules, FILE_LIMIT),
        Refusal::Vol(_) => (names.mesh, RUN_FILE_LIMIT),
        Refusal::Log(_) => (names.log, RUN_FILE_LIMIT),
        _ => (names.geometry, FILE_LIMIT),
    };
    if let Some(bytes) = bytes_again(rt, rt.alloc(), folder, name, limit) {
        let file = File { name, text: &bytes };
        let numbers = numbers_of(refusal);
        write_sentence(rt, &refused_of(refusal, file, &numbers));
    }
}
