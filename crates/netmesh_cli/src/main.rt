//! Which files and which answer come of the files that the words name, and if none, why?
//!
//! Each accepted geometry is shown by `geom`, and meshed by `mesh` by the rules of a file, which `rules`
//! shows. `check` judges a mesh, and `view` shows a state of a log. `gen` meshes squares that it makes
//! itself. The verb `replay` is not built yet.
//!
//! 1. The words name the files. Each file is taken and read before the next is taken.
//! 2. What is put and written is made of values, between the last take and the first put: so it is a
//!    function of what is held.
//! 3. Files are put in one order, by `mesh` the log before the mesh, and the answer is written last.
//! 4. A refusal has one cause, and before the first put it leaves the folder as it was. It writes one
//!    line, but for an answer that isn't taken and for want of memory.
//! 5. What a verb takes, puts and makes is one case of each table of `specs/Jobs.antt`; that a call keeps
//!    1 to 4 is said and proved once, for all verbs.
#![tactic(auto)]

ghost use Rattle.std.specs.Prelude.{◌≡◌, ◌≢◌};
ghost use Rattle.std.specs.Process.{exit_status};
ghost use Rattle.std.specs.IoError.{error_kind};
ghost use Rattle.netmesh_cli.specs.Status.{status_of};

mod areas;
mod asked;
mod check;
pub mod file_laws;
mod files;
mod generated;
mod geom;
mod geometry;
pub mod geometry_laws;
mod lines;
mod log_file;
mod made;
mod mesh;
mod mesh_file;
mod outcome;
mod progress;
mod rule_file;
pub mod rule_laws;
mod rules;
mod run;
mod said;
mod serve;
mod texts;
mod top;
mod view;

pub use call_words::{Command, MeshOptions, Verb, WordsFault, read_words};
use fault_text::Refused;
use folder_io::{FolderDisk, SinkStd};
pub use mesh_run::{Gate, NoGate};
pub use outcome::{Outcome, Refusal};
use progress::Progress;
use std::alloc::Global;
use std::env;
use std::io::{self, ErrorKind};
use std::process::ExitCode;
pub use top::netmesh;

#[cfg(test)]
mod tests;

/// The greatest number of bytes of a geometry file and of a rule file.
const FILE_LIMIT: u64 = 1_048_576;

/// The greatest number of bytes of a mesh and of a log.
const RUN_FILE_LIMIT: u64 = 268_435_456;

/// The status where memory is refused to `main` itself.
const NO_MEMORY: u8 = 7;

/// The status of words that are not UTF-8, which no line can name.
const BAD_WORDS: u8 = 2;

/// The words after the program's name.
fn words_after_name(rt: &HostRuntime, alloc: Global) -> io::Result<Vec<String>> {
    let mut words = Vec::new(alloc);
    for word in env::args(rt)?.skip(1) {
        words.push(word)?;
    }
    Ok(words)
}

/// The status of words that can't be had.
fn status_of_fault(fault: &io::Error) -> u8
    ensures memory { error_kind fault.now ≡ ErrorKind.OutOfMemory → result ≡ 7 }
    ensures other { error_kind fault.now ≢ ErrorKind.OutOfMemory → result ≡ 2 }
{
    if fault.kind() == ErrorKind::OutOfMemory {
        NO_MEMORY
    } else {
        BAD_WORDS
    }
}

/// What is said of words that can't be had.
fn sentence_of_fault(fault: &io::Error) -> Refused<'static> {
    if fault.kind() == ErrorKind::OutOfMemory {
        Refused::Memory
    } else {
        Refused::NoText
    }
}

/// The status that the program ends with.
fn exit_of(outcome: &Outcome) -> ExitCode
    ensures { exit_status result ≡ status_of outcome.now }
{
    ExitCode::from(outcome.status())
}

fn main(rt: HostRuntime) -> ExitCode {
    let alloc = rt.alloc();
    let words = match words_after_name(&rt, alloc) {
        Ok(words) => words,
        Err(fault) => {
            said::write_sentence(&rt, &sentence_of_fault(&fault));
            return ExitCode::from(status_of_fault(&fault));
        }
    };
    let for_folder: Result<HostRuntime, _> = rt.clone();
    let for_sink: Result<HostRuntime, _> = rt.clone();
    let (Ok(for_folder), Ok(for_sink)) = (for_folder, for_sink) else {
        return ExitCode::from(NO_MEMORY);
    };
    let mut folder = FolderDisk::new(for_folder, alloc);
    let mut out = SinkStd::new(for_sink);
    let gate = Progress::new(&rt, &words);
    let outcome = netmesh(&rt, alloc, &words, &mut folder, &mut out, &gate);
    if let Outcome::Refused(refusal) = &outcome {
        let reason = folder.reason();
        said::say(&rt, &mut folder, &words, refusal, reason);
    }
    exit_of(&outcome)
}
