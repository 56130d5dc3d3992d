//! The run that `mesh` makes of a geometry and rules.

ghost use Rattle.std.specs.Prelude.{◌≡◌, IfOk};
ghost use Rattle.geom_check.specs.Placed.{IsReadableIfAny};
ghost use Rattle.geom_check.specs.Geometry.{IsLength};
ghost use Rattle.rule_reader.specs.Normal.{CanPrint};
ghost use Rattle.mesh_run.specs.RunState.{AreOptions};
ghost use Rattle.netmesh_cli.specs.Run.{input_of, greatest_size, run_options, IsRunOf, IsExactRun};
ghost use Rattle.netmesh_cli.specs.Jobs.{AreInRange};

use call_words::MeshOptions;
use geom_check::Geometry;
use grid_geom::LONGEST;
use mesh_run::{Gate, Options, WholeRun, run_all};
use rule_maps::RuleSet;
use rule_reader::Rules;
use std::alloc::{AllocError, Global};
use std::thread::Threads;
use word_scan::Dec;

/// What `mesh` accepts: a geometry, rules, and the options that it is given.
#[derive(Clone, Copy)]
pub struct Input<'a> {
    pub geometry: &'a Geometry,
    pub rules: &'a Rules,
    pub options: MeshOptions,
}

/// A greatest size in grid steps, or the greatest there is.
fn greatest_size(geometry: &Geometry, maxh: Option<Dec>) -> u64
    requires { IsReadableIfAny maxh }
    ensures value { result ≡ greatest_size geometry.now.shift maxh }
    ensures bounds { IsLength result }
{
    match maxh {
        Some(size) => geometry.length_in_steps(&size),
        None => LONGEST,
    }
}

/// The options of a run of the geometry. Where they aren't given: the greatest size there is, a grading of
/// 0.3, classes up to 10, and no limit on applications.
fn run_options(geometry: &Geometry, options: &MeshOptions) -> Options
    requires { AreInRange options.now }
    ensures value { result ≡ run_options geometry.now.shift options.now }
    ensures options { AreOptions result }
{
    Options {
        greatest: greatest_size(geometry, options.maxh),
        grading: options.grading.unwrap_or(300) as u32,
        last: options.class.unwrap_or(10) as u32,
        limit: options.steps,
    }
}

/// The run of what is accepted, all domains.
pub fn make_run<R: Threads + Sync, G: Gate + Sync>(
    rt: &R,
    alloc: Global,
    input: &Input,
    gate: &G,
) -> Result<WholeRun, AllocError>
    requires options { AreInRange input.now.options }
    requires rules { CanPrint input.now.rules.now }
    ensures run { IfOk result (IsRunOf (input_of input.now)) }
    ensures exact { IfOk result (IsExactRun (input_of input.now)) }
{
    // each geometry is an accepted one
    let _segments = input.geometry.segments();
    let options = run_options(input.geometry, &input.options);
    let rules = RuleSet::new(alloc, input.rules)?;
    let run = run_all(rt, alloc, input.geometry, &rules, &options, gate)?;
    Ok(run)
}
