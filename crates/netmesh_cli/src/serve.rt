//! A call of any verb: what is made of the files that it takes is put, and its answer is written.

ghost use Rattle.std.specs.Prelude.{◌≡◌, ◌≤◌, [], map, IfOk, IfErr};
ghost use Rattle.folder_io.specs.Causes.{Told, ToldBoth};
ghost use Rattle.netmesh_cli.specs.Jobs.{job_of, IsInRange, EndsSo, Makes, made_of, put_of};
ghost use Rattle.netmesh_cli.specs.Jobs.{names_of_puts, puts_of};
ghost use Rattle.netmesh_cli.specs.Served.{IsServed, IsAnswer, MakeRefused, Course, WrittenBefore};

use super::asked::Asked;
use super::check::make_check;
use super::generated::make_gen;
use super::geom::make_geom;
use super::made::Made;
use super::mesh::make_mesh;
use super::rules::make_rules;
use super::view::make_view;
use super::{Outcome, Refusal, files};
use folder_io::{Folder, Sink};
use mesh_run::Gate;
use std::alloc::Global;
use std::thread::Threads;

/// What the verb makes of the files that it takes.
fn make<'a, R: Threads + Sync, F: Folder, G: Gate + Sync>(
    rt: &R,
    alloc: Global,
    asked: &Asked<'a>,
    folder: &mut F,
    gate: &G,
) -> Result<Made<'a>, Refusal>
    requires { IsInRange (job_of asked.now) }
    ensures held { (F.state folder.new).held ≡ (F.state folder.old).held }
    ensures made { IfOk result (λ made. Told (F.state folder.old).held
        (λ files. Makes (job_of asked.now) files (made_of made))) }
    ensures puts { IfOk result (λ made. names_of_puts (map put_of made.puts.items)
        ≡ puts_of (job_of asked.now)) }
    ensures ending { IfOk result (λ made. EndsSo (job_of asked.now) made.outcome) }
    ensures refused { IfErr result (MakeRefused
        (job_of asked.now) (F.state folder.old) (F.state folder.new)) }
    ensures rises { (F.state folder.old).faults ≤ (F.state folder.new).faults }
{
    match asked {
        Asked::Mesh(call) => make_mesh(rt, alloc, call, folder, gate),
        Asked::Geom(name) => make_geom(alloc, name, folder),
        Asked::Rules(name) => make_rules(alloc, name, folder),
        Asked::Check { geometry, mesh } => make_check(alloc, geometry, mesh, folder),
        Asked::View { log, domain, step } => make_view(alloc, log, *domain, *step, folder),
        Asked::Gen { squares, parts } => make_gen(rt, alloc, *squares, *parts, gate),
    }
}

/// Does the work of a verb, and says how it ended, or why it was refused.
pub fn serve<R: Threads + Sync, F: Folder, O: Sink, G: Gate + Sync>(
    rt: &R,
    alloc: Global,
    asked: &Asked,
    folder: &mut F,
    out: &mut O,
    gate: &G,
) -> Result<Outcome, Refusal>
    requires { IsInRange (job_of asked.now) }
    ensures served { IfOk result
        (λ outcome. ToldBoth (F.state folder.old).held (F.state folder.new).held
        (IsServed (job_of asked.now) outcome
        (O.state out.old).written (O.state out.new).written)) }
    ensures ending { IfOk result (EndsSo (job_of asked.now)) }
    ensures course { IfErr result (Course (job_of asked.now)
        (F.state folder.old) (F.state folder.new) (O.state out.old) (O.state out.new)) }
    ensures written { IfErr result (WrittenBefore
        (IsAnswer (job_of asked.now) (F.state folder.old).held)
        (O.state out.old).written (O.state out.new).written) }
    ensures puts_nothing { puts_of (job_of asked.now) ≡ []
        → (F.state folder.new).held ≡ (F.state folder.old).held }
    ensures rises { (F.state folder.old).faults ≤ (F.state folder.new).faults }
    ensures rises_out { (O.state out.old).faults ≤ (O.state out.new).faults }
{
    let made = make(rt, alloc, asked, folder, gate)?;
    files::put_all(alloc, folder, made.puts.as_slice())?;
    files::answer(out, &made.answer)?;
    Ok(made.outcome)
}
