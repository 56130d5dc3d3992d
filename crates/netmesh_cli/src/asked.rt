//! What the words of a call ask for, where that is built.

ghost use Rattle.std.specs.Prelude.{map, IfOk, IfErr, string_bytes};
ghost use Rattle.call_words.specs.Commands.{IsCommand};
ghost use Rattle.netmesh_cli.specs.Words.{WordsRefused};
ghost use Rattle.netmesh_cli.specs.Jobs.{job_of, task_of_job, IsInRange};

use super::Refusal;
use call_words::{Command, MeshCall, read_words};
use std::alloc::Global;

/// The part that words are that are not built yet.
const WORDS_PART: u32 = 1;

/// What is asked for.
#[derive(Clone, Copy)]
pub enum Asked<'a> {
    /// A mesh of a geometry.
    Mesh(MeshCall<'a>),
    /// A geometry, printed.
    Geom(&'a str),
    /// Rules, printed.
    Rules(&'a str),
    /// Whether a mesh is whole for a geometry.
    Check {
        geometry: &'a str,
        mesh: &'a str,
    },
    /// The state of a domain after a step of its run, from a log.
    View {
        log: &'a str,
        domain: u64,
        step: u64,
    },
    /// A mesh of so many squares each way, with so many parts to a side.
    Gen {
        squares: u64,
        parts: u64,
    },
}

/// What the words of a call ask for, or why they are refused.
pub fn read_asked<'a>(alloc: Global, words: &'a [String]) -> Result<Asked<'a>, Refusal>
    ensures asked { IfOk result (λ asked. IsCommand (map string_bytes words.entry.now)
        (task_of_job (job_of asked))) }
    ensures range { IfOk result (λ asked. IsInRange (job_of asked)) }
    ensures refused { IfErr result (WordsRefused (map string_bytes words.entry.now)) }
{
    match read_words(alloc, words)? {
        Ok(Command::Mesh(call)) => Ok(Asked::Mesh(call)),
        Ok(Command::Geom { geometry }) => Ok(Asked::Geom(geometry)),
        Ok(Command::Rules { rules }) => Ok(Asked::Rules(rules)),
        Ok(Command::Check { geometry, mesh }) => Ok(Asked::Check { geometry, mesh }),
        Ok(Command::View { log, domain, step }) => Ok(Asked::View { log, domain, step }),
        Ok(Command::Gen { squares, parts }) => Ok(Asked::Gen { squares, parts }),
        Ok(_) => Err(Refusal::NotYet { part: WORDS_PART }),
        Err(fault) => Err(Refusal::Words(fault)),
    }
}
