//! The top call.

ghost use Rattle.std.specs.Prelude.{◌≡◌, ◌≤◌, map, string_bytes};
ghost use Rattle.folder_io.specs.Causes.{Told, ToldBoth};
ghost use Rattle.call_words.specs.declared.words_fault.WordsFault.{WordsFault as WordsFaultValue};
ghost use Rattle.call_words.specs.Commands.{MeshTask, MeshOf, IsCommand, IsFault};
ghost use Rattle.netmesh_cli.specs.Words.{AskForUnbuilt};
ghost use Rattle.netmesh_cli.specs.Causes.{IsUntaken, HasFailed};
ghost use Rattle.netmesh_cli.specs.Jobs.{Job, MeshJob, IsInRange};
ghost use Rattle.netmesh_cli.specs.Jobs.{job_of, puts_of, task_of_job};
ghost use Rattle.netmesh_cli.specs.Served.{AreApart};
ghost use Rattle.netmesh_cli.specs.Top.{IsNotYetOrMemory, IsWordsOrMemory, Telling, WritesLine};
ghost use Rattle.netmesh_cli.specs.Top.{WordsAnswer, WordsCause, Answers, Exactly, HoldsMesh};
ghost use Rattle.netmesh_cli.specs.Top.{IfRefused, IfServed};

use super::asked::{Asked, read_asked};
use super::serve::serve;
use super::{Outcome, Refusal, lines};
use folder_io::{Folder, Sink, SinkFault};
use mesh_run::Gate;
use std::alloc::Global;
use std::thread::Threads;

/// Writes the line of a refusal, which stays what it is unless memory is refused for it.
fn tell<O: Sink>(alloc: Global, out: &mut O, refusal: Refusal) -> Refusal
    ensures told { Telling (O.state out.old) (O.state out.new) refusal result }
    ensures rises { (O.state out.old).faults ≤ (O.state out.new).faults }
{
    if matches!(refusal, Refusal::Out | Refusal::Memory) {
        return refusal;
    }
    let line = match lines::line_of(alloc, &refusal) {
        Ok(line) => line,
        Err(_) => return Refusal::Memory,
    };
    match out.write(&line) {
        Ok(()) | Err(SinkFault::Failed) => refusal,
        Err(SinkFault::Memory) => Refusal::Memory,
    }
}

/// The outcome of a verb, with the line of a refusal written.
fn answered<R: Threads + Sync, F: Folder, O: Sink, G: Gate + Sync>(
    rt: &R,
    alloc: Global,
    asked: &Asked,
    folder: &mut F,
    out: &mut O,
    gate: &G,
) -> Outcome
    requires range { IsInRange (job_of asked.now) }
    requires apart { AreApart (puts_of (job_of asked.now)) }
    ensures answers { Answers (job_of asked.now) result
        (F.state folder.old) (F.state folder.new) (O.state out.old) (O.state out.new) }
    ensures exactly { Told (F.state folder.old).held
        (Exactly (job_of asked.now) result
        (HasFailed (F.state folder.old) (F.state folder.new))
        (IsUntaken (O.state out.old) (O.state out.new))) }
    ensures line { IfRefused result (WritesLine (O.state out.old) (O.state out.new)) }
{
    match serve(rt, alloc, asked, folder, out, gate) {
        Ok(outcome) => outcome,
        Err(refusal) => Outcome::Refused(tell(alloc, out, refusal)),
    }
}

/// Runs the program on its words. `mesh GEOMETRY RULES MESH LOG` meshes the geometry by the rules,
/// puts the log and then the mesh, and writes a summary line. `--maxh V` is the greatest size anywhere,
/// and `--grading N` how fast sizes may grow. `geom GEOMETRY` writes the geometry's normal text, and as
/// comments its shift and the doubled areas of its domains. `rules RULES` writes of each rule whether it
/// is live or why it never applies, and the normal text of them all. `check GEOMETRY MESH` writes that
/// the mesh is whole for the geometry, or its first fault. `view LOG DOMAIN STEP` writes the state of a
/// domain after so many applications of its run. `gen N M` meshes N times N unit squares with M parts to
/// a side, by the twelve rules that the program holds, and writes the summary line: it takes no file,
/// and nothing is refused but its words, the answer and memory.
///
/// Refused are words at fault, and the other verbs; a file that isn't there, is too long or can't be
/// taken or put; a text of no geometry; a geometry that isn't accepted; bytes that are no rule file, no
/// mesh, or no log with the state that is asked for.
/// A refusal writes its line. Where memory is refused the outcome says so, and no clause says when it
/// may be.
pub fn netmesh<R: Threads + Sync, F: Folder, O: Sink, G: Gate + Sync>(
    rt: &R,
    alloc: Global,
    words: &[String],
    folder: &mut F,
    out: &mut O,
    gate: &G,
) -> Outcome
    // Words.
    ensures words_at_fault { (fault : WordsFaultValue) → IsFault (map string_bytes words.now) fault
        → WordsAnswer (IsWordsOrMemory fault) result (F.state folder.old) (F.state folder.new) }
    ensures words_not_built { AskForUnbuilt (map string_bytes words.now)
        → WordsAnswer (IsNotYetOrMemory 1) result (F.state folder.old) (F.state folder.new) }
    ensures words_cause { IfRefused result (WordsCause (map string_bytes words.now)) }

    // The verbs that are built.
    ensures answers { (job : Job)
        → IsCommand (map string_bytes words.now) (task_of_job job)
        → Answers job result
        (F.state folder.old) (F.state folder.new) (O.state out.old) (O.state out.new) }
    ensures exactly { (job : Job)
        → IsCommand (map string_bytes words.now) (task_of_job job)
        → Told (F.state folder.old).held
        (Exactly job result
        (HasFailed (F.state folder.old) (F.state folder.new))
        (IsUntaken (O.state out.old) (O.state out.new))) }

    // `mesh`, where it isn't refused.
    ensures mesh { (task : MeshTask)
        → IsCommand (map string_bytes words.now) (MeshOf task)
        → IfServed result (λ outcome.
        ToldBoth (F.state folder.old).held (F.state folder.new).held
        (HoldsMesh task outcome (O.state out.old).written (O.state out.new).written)) }

    // A refusal's line.
    ensures line { IfRefused result (WritesLine (O.state out.old) (O.state out.new)) }
{
    match read_asked(alloc, words) {
        Ok(asked) => answered(rt, alloc, &asked, folder, out, gate),
        Err(refusal) => Outcome::Refused(tell(alloc, out, refusal)),
    }
}
