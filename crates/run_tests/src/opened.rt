//! Unit squares without rules: each domain's run is its opening.

ghost use Rattle.std.specs.Prelude.{IfOk};
ghost use Rattle.rule_reader.specs.Normal.{CanPrint};

use geom_check::Geometry;
use grid_geom::Point;
use mesh_run::{DomainRun, End, NoGate, Options, WholeRun, run_all};
use rule_maps::RuleSet;
use rule_reader::{Rules, read_rules};
use sample::geometry;
use std::alloc::Global;
use std::test::Fail;
use std::thread::Threads;

const OPTIONS: Options = Options {
    greatest: 2_097_152,
    grading: 300,
    last: 10,
    limit: None,
};

/// No rules at all.
fn no_rules(alloc: Global) -> Result<Rules, Fail>
    ensures { IfOk result CanPrint }
{
    match read_rules(alloc, b"") {
        Ok(rules) => Ok(rules),
        Err(_) => Err("a text without rules is read".into()),
    }
}

/// One unit square, or four.
fn unit_squares(alloc: Global, four: bool) -> Result<Geometry, Fail> {
    let side = if four { 2 } else { 1 };
    Ok(geometry(alloc, side).ok().ok_or("squares are accepted")?)
}

/// The run of the squares without rules.
fn opened<R: Threads + Sync>(rt: &R, alloc: Global, squares: &Geometry) -> Result<WholeRun, Fail> {
    let rules = no_rules(alloc)?;
    let set = RuleSet::new(alloc, &rules)?;
    Ok(run_all(rt, alloc, squares, &set, &OPTIONS, &NoGate)?)
}

/// Whether the domain is the square with its lower left corner at one place and its upper right one at
/// another: its points by rising mesh number, its lines in the order of the segments, with it on their
/// left.
fn is_square(run: &DomainRun, lo: Point, hi: Point) -> bool {
    let corners = [
        lo,
        Point { x: hi.x, y: lo.y },
        Point { x: lo.x, y: hi.y },
        hi,
    ];
    run.points.as_slice() == corners.as_slice()
        && run.lines.as_slice() == [(1, 2), (4, 3), (3, 1), (2, 4)].as_slice()
        && run.front.as_slice() == [(1, 1, 2), (2, 4, 3), (3, 3, 1), (4, 2, 4)].as_slice()
}

/// Whether the run has made nothing.
fn is_opening(run: &DomainRun) -> bool {
    run.opened == 4 && run.applications.as_slice().is_empty() && run.end == End::Stuck
}

#[test]
fn opens_a_square(rt: HostRuntime) -> Result<(), Fail> {
    let squares = unit_squares(rt.alloc(), false)?;
    let run = opened(&rt, rt.alloc(), &squares)?;
    assert!(rt; run.shift == 4 && run.options == OPTIONS && run.end == End::Stuck);
    assert_eq!(rt; run.pieces.as_slice().len(), 4);
    let [domain] = run.domains.as_slice() else {
        return Err("there is one domain".into());
    };
    assert_eq!(rt; domain.domain, 1);
    let hi = Point {
        x: 640_000,
        y: 640_000,
    };
    assert!(rt; is_opening(domain) && is_square(domain, Point { x: 0, y: 0 }, hi));
    Ok(())
}

/// Mesh points are numbered by the first of the pieces that end there: the last of four squares has the
/// numbers 5, 6, 8 and 9.
#[test]
fn opens_four_squares(rt: HostRuntime) -> Result<(), Fail> {
    let squares = unit_squares(rt.alloc(), true)?;
    let run = opened(&rt, rt.alloc(), &squares)?;
    let [_, _, _, last] = run.domains.as_slice() else {
        return Err("there are four domains".into());
    };
    assert_eq!(rt; last.domain, 4);
    let lo = Point {
        x: 64_000,
        y: 64_000,
    };
    let hi = Point {
        x: 128_000,
        y: 128_000,
    };
    assert!(rt; is_opening(last) && is_square(last, lo, hi));
    Ok(())
}
