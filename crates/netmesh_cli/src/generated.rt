//! The verb `gen`: meshes generated squares by the rules that the program holds, and makes the summary line.

ghost use Rattle.std.specs.Prelude.{◌≡◌, ◌≢◌, [], IfOk, IfErr};
ghost use Rattle.mesh_run.specs.declared.End.TheVariants.{Stopped};
ghost use Rattle.sample_run.specs.Sampled.{IsSampled};
ghost use Rattle.netmesh_cli.specs.Causes.{IsMemory};
ghost use Rattle.netmesh_cli.specs.Jobs.{AreFew, IsGenerated, IsDoneOrStuck, made_of};

use super::Refusal;
use super::made::Made;
use super::mesh::outcome_of;
use geom_check::GeomRefusal;
use mesh_run::Gate;
use sample_run::{Sampled, mesh_squares};
use std::alloc::Global;
use std::thread::Threads;

/// The run of the squares. Memory alone is refused: the squares are an accepted geometry.
fn run_squares<R: Threads + Sync, G: Gate + Sync>(
    rt: &R,
    alloc: Global,
    squares: u64,
    parts: u64,
    gate: &G,
) -> Result<Sampled, Refusal>
    requires { AreFew squares parts }
    ensures sampled { IfOk result (λ made. IsSampled squares parts made.line.items made.end) }
    ensures ending { IfOk result (λ made. made.end ≢ Stopped) }
    ensures refused { IfErr result IsMemory }
{
    match mesh_squares(rt, alloc, squares as u32, parts, gate) {
        Ok(made) => Ok(made),
        Err(GeomRefusal::Memory) => Err(Refusal::Memory),
        Err(fault) => Err(Refusal::Geometry(fault)),
    }
}

/// What `gen` makes: the summary line, and no file.
pub fn make_gen<'a, R: Threads + Sync, G: Gate + Sync>(
    rt: &R,
    alloc: Global,
    squares: u64,
    parts: u64,
    gate: &G,
) -> Result<Made<'a>, Refusal>
    requires { AreFew squares parts }
    ensures made { IfOk result (λ made. IsGenerated squares parts (made_of made)) }
    ensures puts { IfOk result (λ made. made.puts.items ≡ []) }
    ensures ending { IfOk result (λ made. IsDoneOrStuck made.outcome) }
    ensures refused { IfErr result IsMemory }
{
    let made = run_squares(rt, alloc, squares, parts, gate)?;
    Ok(Made {
        puts: Vec::new(alloc),
        answer: made.line,
        outcome: outcome_of(made.end),
    })
}
