// The run of all domains by rules.
ghost use Rattle.std.specs.Prelude.{◌≡◌, ◌<◌, IfOk, All};
ghost use Rattle.std.specs.List.{AllZip, Contains};
ghost use Rattle.geom_check.specs.Domains.{domain_numbers};
ghost use Rattle.rule_match.specs.Idle.{NoneApplies};
ghost use Rattle.mesh_run.specs.Mesh.{NamesItsPoints};
ghost use Rattle.mesh_run.specs.Opening.{mesh_points};
ghost use Rattle.mesh_run.specs.Remembered.{AreCovering};
ghost use Rattle.mesh_run.specs.RunState.{AreOptions};
ghost use Rattle.mesh_run.specs.Runs.{pieces_by, IsDomainRun, IsWholeRun};

use super::ground::Ground;
use super::opening::{number_mesh, open_domain};
use super::refusals::reaches_of;
use super::whole::whole_end;
use super::{DomainRun, DomainRuns, Gate, Options, Run, WholeRun};
use geom_check::{Geometry, domain_numbers};
use rule_maps::RuleSet;
use rule_match::some_may_apply;
use size_field::cut;
use std::alloc::{AllocError as OutOfMemory, Global};
use std::marker::Brand;
use std::sync::ledger::{Blank, Ledger};
use std::thread::Threads;
use steps::Steps;

/// The run of a domain by rules that never apply: its opening. No front is made for it.
fn idle_domain(
    alloc: Global,
    ground: &Ground<'_, '_>,
    domain: u32,
) -> Result<DomainRun, OutOfMemory>
    requires idle { NoneApplies ground.now.options.now.last ground.now.rules.now }
    requires pieces { ground.now.pieces.now
        ≡ pieces_by ground.now.geometry.now ground.now.options.now }
    requires mesh { ground.now.mesh.now ≡ mesh_points ground.now.pieces.now }
    ensures run { IfOk result (IsDomainRun ground.now.geometry.now ground.now.rules.now
        ground.now.options.now domain) }
    ensures names { IfOk result NamesItsPoints }
{
    let segments = ground.geometry.segments();
    open_domain(
        alloc,
        domain,
        segments,
        ground.pieces.as_slice(),
        ground.mesh,
    )
}

/// The run of a domain from its opening to its end, which counts its own steps.
fn run_domain<L: Ledger>(
    alloc: Global,
    ground: &Ground<'_, '_>,
    domain: u32,
    blank: Blank,
) -> Result<DomainRun, OutOfMemory>
    requires name { blank.name ≡ L.name }
    requires parts { blank.parts ≡ L.parts }
    requires some { 0 < L.parts }
    requires domain { Contains (domain_numbers ground.now.geometry.now.segments) domain }
    requires options { AreOptions ground.now.options.now }
    requires pieces { ground.now.pieces.now
        ≡ pieces_by ground.now.geometry.now ground.now.options.now }
    requires mesh { ground.now.mesh.now ≡ mesh_points ground.now.pieces.now }
    requires reaches { AreCovering ground.now.rules.now ground.now.reaches.now }
    ensures run { IfOk result (IsDomainRun ground.now.geometry.now ground.now.rules.now
        ground.now.options.now domain) }
    ensures names { IfOk result NamesItsPoints }
{
    if !some_may_apply(ground.rules, ground.options.last) {
        return idle_domain(alloc, ground, domain);
    }
    let mut steps = Steps::<L>::from_blank(blank);
    let mut run = Run::open_on(alloc, ground, domain)?;
    let end = run.run(alloc, &mut steps)?;
    run.into_domain_run(alloc, end)
}

/// The runs of the domains that the segments name, one after another by rising number.
fn run_domains<G: Gate>(
    alloc: Global,
    ground: &Ground<'_, '_>,
    gate: &G,
) -> Result<Vec<DomainRun>, OutOfMemory>
    requires options { AreOptions ground.now.options.now }
    requires pieces { ground.now.pieces.now
        ≡ pieces_by ground.now.geometry.now ground.now.options.now }
    requires mesh { ground.now.mesh.now ≡ mesh_points ground.now.pieces.now }
    requires reaches { AreCovering ground.now.rules.now ground.now.reaches.now }
    ensures runs { IfOk result (λ v. AllZip
        (IsDomainRun ground.now.geometry.now ground.now.rules.now
        ground.now.options.now) (domain_numbers ground.now.geometry.now.segments) v.items) }
    ensures names { IfOk result (λ v. All NamesItsPoints v.items) }
{
    let numbers = domain_numbers(alloc, ground.geometry.segments())?;
    let mut runs = Vec::new(alloc);
    for domain in &numbers {
        gate.enter(*domain);
        runs.push(run_domain::<Brand>(alloc, ground, *domain, Blank::new(1))?)?;
    }
    Ok(runs)
}

/// The whole run of an accepted geometry by rules: its segments are cut into pieces by the options'
/// sizes and its own, and each domain is meshed from its opening to its end, by rising number. The
/// gate is passed before each domain, and the run is the same whatever it does.
///
/// The options are in their ranges: the greatest size from 1 to 2^21 grid steps, the grading at most
/// 10,000, the last class from 1 to 16. A limit is one for each domain.
pub fn run_all<R: Threads + Sync, G: Gate + Sync>(
    _rt: &R,
    alloc: Global,
    geometry: &Geometry,
    rules: &RuleSet<'_>,
    options: &Options,
    gate: &G,
) -> Result<WholeRun, OutOfMemory>
    requires { AreOptions options.now }
    ensures run { IfOk result (IsWholeRun geometry.now rules.now options.now) }
    ensures names { IfOk result (λ w. All NamesItsPoints w.domains) }
{
    let pieces = cut(alloc, geometry, options.greatest, options.grading)?;
    let mesh = number_mesh(alloc, pieces.as_slice())?.points(alloc)?;
    let reaches = reaches_of(alloc, rules)?;
    let ground = Ground {
        pieces: &pieces,
        mesh: &mesh,
        geometry,
        rules,
        reaches: &reaches,
        options,
    };
    let runs = run_domains(alloc, &ground, gate)?;
    let end = whole_end(&runs);
    Ok(WholeRun {
        shift: geometry.shift(),
        options: *options,
        pieces,
        domains: DomainRuns::from_vec(runs),
        end,
    })
}
