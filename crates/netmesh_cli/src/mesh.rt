//! The verb `mesh`: takes the geometry and the rules, and makes the log, the mesh and the summary line.

ghost use Rattle.std.specs.Prelude.{◌≡◌, ◌≤◌, ◌∷◌, [], map, IfOk, IfErr};
ghost use Rattle.folder_io.specs.Causes.{Told};
ghost use Rattle.netmesh_cli.specs.Run.{outcome_of};
ghost use Rattle.netmesh_cli.specs.Jobs.{AreInRange, IsMeshed, IsRunOutcome, MeshJob, made_of, put_of};
ghost use Rattle.netmesh_cli.specs.Jobs.{names_of_puts, puts_of, task_of_mesh};
ghost use Rattle.netmesh_cli.specs.Served.{MakeRefused};

use super::geometry::take_geometry;
use super::made::{Made, Put};
use super::rule_file::take_rules;
use super::run::{Input, make_run};
use super::texts::{Texts, texts_of};
use super::{Outcome, Refusal};
use call_words::MeshCall;
use folder_io::Folder;
use mesh_run::{End, Gate};
use std::alloc::{AllocError, Global};
use std::thread::Threads;

/// The outcome of a run that ended so.
pub fn outcome_of(end: End) -> Outcome
    ensures outcome { result ≡ outcome_of end }
    ensures ending { IsRunOutcome result }
{
    match end {
        End::Done => Outcome::Done,
        End::Stuck => Outcome::Stuck,
        End::Stopped => Outcome::Stopped,
    }
}

/// The log is put before the mesh, and the line is the answer.
fn made_of_texts<'a>(
    alloc: Global,
    call: &MeshCall<'a>,
    texts: Texts,
    end: End,
) -> Result<Made<'a>, AllocError>
    ensures puts { IfOk result (λ made. map put_of made.puts.items
        ≡ record { name = call.now.log.now; bytes = texts.log.items }
        ∷ record { name = call.now.mesh.now; bytes = texts.mesh.items } ∷ []) }
    ensures answer { IfOk result (λ made. made.answer.items ≡ texts.line.items) }
    ensures outcome { IfOk result (λ made. made.outcome ≡ outcome_of end) }
    ensures ending { IfOk result (λ made. IsRunOutcome made.outcome) }
{
    let mut puts = Vec::new(alloc);
    puts.push(Put {
        name: call.log,
        bytes: texts.log,
    })?;
    puts.push(Put {
        name: call.mesh,
        bytes: texts.mesh,
    })?;
    Ok(Made {
        puts,
        answer: texts.line,
        outcome: outcome_of(end),
    })
}

/// What `mesh` makes of the geometry and the rules that it takes.
pub fn make_mesh<'a, R: Threads + Sync, F: Folder, G: Gate + Sync>(
    rt: &R,
    alloc: Global,
    call: &MeshCall<'a>,
    folder: &mut F,
    gate: &G,
) -> Result<Made<'a>, Refusal>
    requires { AreInRange call.now.options }
    ensures held { (F.state folder.new).held ≡ (F.state folder.old).held }
    ensures made { IfOk result (λ made. Told (F.state folder.old).held
        (λ files. IsMeshed (task_of_mesh call.now) files (made_of made))) }
    ensures puts { IfOk result (λ made. names_of_puts (map put_of made.puts.items)
        ≡ puts_of (MeshJob (task_of_mesh call.now))) }
    ensures ending { IfOk result (λ made. IsRunOutcome made.outcome) }
    ensures refused { IfErr result (MakeRefused
        (MeshJob (task_of_mesh call.now)) (F.state folder.old) (F.state folder.new)) }
    ensures rises { (F.state folder.old).faults ≤ (F.state folder.new).faults }
{
    let read = take_geometry(alloc, folder, call.geometry)?;
    let rules = take_rules(alloc, folder, call.rules)?;
    let input = Input {
        geometry: &read.geometry,
        rules: &rules,
        options: call.options,
    };
    let run = make_run(rt, alloc, &input, gate)?;
    let texts = texts_of(alloc, &input, &run)?;
    let made = made_of_texts(alloc, call, texts, run.end)?;
    Ok(made)
}
