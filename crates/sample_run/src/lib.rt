//! What does the geometry that the program holds come to, meshed by the rules that it holds?
//!
//! 1. The answer is the summary line of the whole run, and how it ended.
//! 2. It follows from the number of squares and of parts alone, and nothing is refused but memory.
#![tactic(auto)]

ghost use Rattle.std.specs.Prelude.{◌≡◌, ◌≢◌, ◌≤◌, IfOk, IfErr};
ghost use Rattle.geom_check.specs.declared.refusal.GeomRefusal.TheVariants.{Memory as NoMemory};
ghost use Rattle.geom_check.specs.Shift.{length_at};
ghost use Rattle.mesh_run.specs.declared.End.TheVariants.{Stopped};
ghost use Rattle.mesh_run.specs.RunState.{AreOptions};
ghost use Rattle.sample.specs.Squares.{whole};
ghost use Rattle.sample_run.specs.Sampled.{part_options, IsSampled};

use geom_check::{GeomRefusal, Geometry};
use mesh_run::{End, Gate, Options, mesh_of, run_all};
use rule_maps::RuleSet;
use run_log::write_summary;
use sample::{geometry, part_of_side, twelve_rules};
use std::alloc::Global;
use std::thread::Threads;

pub mod laws;

/// A whole run: its summary line, and how it ended.
#[derive(Debug, Drop)]
pub struct Sampled {
    pub line: Vec<u8>,
    pub end: End,
}

/// The options of a run with so many parts to a side; those that aren't of sizes are the usual ones.
fn options_of(geometry: &Geometry, parts: u64) -> Options
    requires unit { 64 ≤ length_at geometry.now.shift (whole 1) }
    requires least { 1 ≤ parts }
    requires greatest { parts ≤ 16 }
    ensures value { result ≡ part_options geometry.now.shift parts }
    ensures options { AreOptions result }
{
    Options {
        greatest: part_of_side(geometry, parts),
        grading: 300,
        last: 10,
        limit: None,
    }
}

/// Meshes n times n unit squares by the twelve rules, with so many parts to a side.
///
/// # Errors
///
/// No memory was left.
pub fn mesh_squares<R: Threads + Sync, G: Gate + Sync>(
    rt: &R,
    alloc: Global,
    n: u32,
    parts: u64,
    gate: &G,
) -> Result<Sampled, GeomRefusal>
    requires least { 1 ≤ n }
    requires greatest { n ≤ 8 }
    requires least_parts { 1 ≤ parts }
    requires greatest_parts { parts ≤ 16 }
    ensures sampled { IfOk result (λ made. IsSampled n parts made.line.items made.end) }
    ensures ending { IfOk result (λ made. made.end ≢ Stopped) }
    ensures refused { IfErr result (λ refusal. refusal ≡ NoMemory) }
{
    let squares = geometry(alloc, n)?;
    let twelve = twelve_rules(alloc)?;
    let rules = RuleSet::new(alloc, &twelve)?;
    let options = options_of(&squares, parts);
    let run = run_all(rt, alloc, &squares, &rules, &options, gate)?;
    let mesh = mesh_of(alloc, &run, squares.segments())?;
    let line = write_summary(alloc, &run, &mesh)?;
    Ok(Sampled { line, end: run.end })
}
