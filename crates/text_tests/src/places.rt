//! Worked values: a frame, places of rules, inert rules.

ghost use Rattle.std.specs.Prelude.{◌≤◌, ◌↔◌, length, IfOk, IsTrue};
ghost use Rattle.std.specs.List.{All};
ghost use Rattle.rule_maps.specs.Frame.{IsInRange};
ghost use Rattle.rule_reader.specs.Normal.{CanPrint};

use crate::place_texts::{FREE_AND_FAR, INERT, PAST};
use grid_geom::Point;
use rule_maps::{Compiled, Frame, Inert, RuleSet};
use rule_reader::{Rules, read_rules};
use std::alloc::Global;
use std::test::Fail;

/// The rules of a text.
fn read(alloc: Global, text: &[u8]) -> Result<Rules, Fail>
    requires { length text.now ≤ 1048576 }
    ensures { IfOk result CanPrint }
{
    match read_rules(alloc, text) {
        Ok(rules) => Ok(rules),
        Err(_) => Err("the text is admitted".into()),
    }
}

/// The frame of the line from (0, 0) to (640000, 0) with the size 736000.
fn base() -> Frame {
    Frame::new(Point { x: 0, y: 0 }, Point { x: 640_000, y: 0 }, 736_000)
}

/// The ends of that line.
const ENDS: [Point; 2] = [Point { x: 0, y: 0 }, Point { x: 640_000, y: 0 }];

/// Whether all points are in range.
fn all_in_range(f: &Frame, points: &[Point]) -> bool
    ensures { IsTrue result ↔ All (IsInRange f.now) points.now }
{
    points.iter().all(|p| f.is_in_range(*p))
}

/// The place of the only new point of a rule that maps two points.
fn new_point(compiled: &Compiled<'_>, f: &Frame) -> Result<Option<Point>, Fail> {
    let rule = compiled.rule();
    let one = rule.new_points.as_slice().len() == 1 && rule.points.as_slice().len() == 2;
    if one && all_in_range(f, &ENDS) {
        Ok(compiled.new_point(1, f, &ENDS))
    } else {
        Err("the rule has one new point, and the ends are in range".into())
    }
}

/// The place of the fourth corner of a rule that maps two points, at class 10.
fn corner(compiled: &Compiled<'_>, f: &Frame) -> Result<Option<Point>, Fail> {
    let rule = compiled.rule();
    let some = 4 <= rule.area.as_slice().len() && rule.points.as_slice().len() == 2;
    match compiled.inert() {
        None if some && all_in_range(f, &ENDS) => { Ok(compiled.corner(4, f, &ENDS, 10)) }
        _ => Err("the rule is live and has four corners, and the ends are in range".into()),
    }
}

#[test]
fn a_frame(rt: HostRuntime) -> Result<(), Fail> {
    let f = base();
    assert_eq!(rt; f.len(), 640_000);
    assert_eq!(rt; f.h(), 736_000);
    assert_eq!(rt; f.q(), 471_040_000_000);
    assert_eq!(rt; f.middle(), Point { x: 320_000, y: 0 });
    let p = Point { x: 0, y: 640_000 };
    assert_eq!(rt; f.local(p), (0, 409_600_000_000));
    if !f.is_in_range(p) {
        return Err("the point is in range".into());
    }
    assert_eq!(rt; f.local4(p), (0, 8_696));
    let short = Frame::new(Point { x: 0, y: 0 }, Point { x: 1, y: 1 }, 736_000);
    assert_eq!(rt; (short.len(), short.h()), (1, 3));
    let long = Frame::new(Point { x: 0, y: 0 }, Point { x: 640_001, y: 0 }, 1);
    assert_eq!(rt; long.h(), 320_001);
    Ok(())
}

#[test]
fn places(rt: HostRuntime) -> Result<(), Fail> {
    let f = base();
    let rules = read(rt.alloc(), FREE_AND_FAR)?;
    let set = RuleSet::new(rt.alloc(), &rules)?;
    if set.count() != 2 {
        return Err("there are two rules".into());
    }
    let free = set.get(1);
    assert_eq!(rt;
        new_point(free, &f)?,
        Some(Point {
            x: 320_000,
            y: 637_376
        })
    );
    assert_eq!(rt;
        corner(free, &f)?,
        Some(Point {
            x: 320_000,
            y: 661_935
        })
    );
    assert_eq!(rt; free.reach(), 15);
    assert_eq!(rt;
        new_point(set.get(2), &f)?,
        Some(Point {
            x: 320_000,
            y: 883_200
        })
    );
    Ok(())
}

#[test]
fn off_the_grid(rt: HostRuntime) -> Result<(), Fail> {
    let rules = read(rt.alloc(), PAST)?;
    let set = RuleSet::new(rt.alloc(), &rules)?;
    if set.count() != 1 {
        return Err("there is one rule".into());
    }
    assert_eq!(rt; new_point(set.get(1), &base())?, None);
    assert_eq!(rt; set.get(1).reach(), 240);
    Ok(())
}

#[test]
fn inert_rules(rt: HostRuntime) -> Result<(), Fail> {
    let rules = read(rt.alloc(), INERT)?;
    let set = RuleSet::new(rt.alloc(), &rules)?;
    if set.count() != 5 {
        return Err("there are five rules".into());
    }
    assert_eq!(rt; set.get(1).inert(), Some(Inert::Unbalanced));
    assert_eq!(rt; set.get(2).inert(), Some(Inert::BaseKept));
    assert_eq!(rt; set.get(3).inert(), Some(Inert::NoElement));
    assert_eq!(rt; set.get(4).inert(), Some(Inert::IdlePoint));
    assert_eq!(rt; set.get(5).inert(), Some(Inert::BadZone));
    Ok(())
}
