// Worked by hand: the zone of one rule on the line from (0, 0) to (640000, 0), and three fronts on that line.

use crate::fronts::{of_three, square};
use crate::places::all_in_range;
use crate::reading::read;
use free_zone::{Blocker, Zone};
use front_chain::Front;
use grid_geom::Point;
use rule_maps::{Compiled, Frame, RuleSet};
use std::alloc::Global;
use std::test::Fail;

/// A triangle with a new point.
const RULE: &[u8] = b"rule \"Free\"
mappoints (0, 0); (1, 0);
maplines (1, 2) del;
newpoints (0.5, 0.866) { 0.5 X2 } { };
newlines (1, 3); (3, 2);
freearea (0, 0); (1, 0) { 1 X2 } { }; (1.5, 0.7) { 0.5 X2 } { }; (0.5, 1.5) { 0.5 X2 } { };
(-0.5, 0.7) { 0.5 X2 } { };
freearea2 (0, 0); (1, 0) { 1 X2 } { }; (0.5, 0.866) { 0.5 X2 } { };
(0.5, 0.866) { 0.5 X2 } { }; (0.5, 0.866) { 0.5 X2 } { };
elements (1, 2, 3);
endrule
";

/// The ends of the line.
const ENDS: [Point; 2] = [Point { x: 0, y: 0 }, Point { x: 640_000, y: 0 }];

/// The zone at class 10.
fn zone(alloc: Global, rule: &Compiled<'_>) -> Result<Zone, Fail> {
    let f = Frame::new(ENDS[0], ENDS[1], 736_000);
    if rule.inert().is_some() || rule.rule().points.as_slice().len() != 2 {
        return Err("the rule is live and maps two points".into());
    }
    if !all_in_range(&f, &ENDS) {
        return Err("the ends are in range".into());
    }
    match Zone::new(alloc, rule, &f, &ENDS, 10) {
        Some(zone) => Ok(zone),
        None => Err("the zone is on the grid and strictly convex".into()),
    }
}

/// What is in the way of the rule on the first line of a front.
fn answer(alloc: Global, front: &Front) -> Result<Option<Blocker>, Fail> {
    let rules = read(alloc, RULE)?;
    let set = RuleSet::new(alloc, &rules)?;
    if set.count() != 1 {
        return Err("there is one rule".into());
    }
    let zone = zone(alloc, set.get(1))?;
    Ok(zone.blocked(front, set.get(1), &[1, 2]))
}

#[test]
fn the_far_side_of_a_square_is_in_the_way(rt: HostRuntime) -> Result<(), Fail> {
    // a corner of the zone is at the height 661935, above the side at 640000
    let front = square(rt.alloc())?;
    assert_eq!(rt; answer(rt.alloc(), &front)?, Some(Blocker::Line(3)));
    Ok(())
}

#[test]
fn a_low_corner_is_in_the_way(rt: HostRuntime) -> Result<(), Fail> {
    let front = of_three(rt.alloc(), (0, 0), (640_000, 0), (320_000, 300_000))?;
    assert_eq!(rt; answer(rt.alloc(), &front)?, Some(Blocker::Point(3)));
    Ok(())
}

#[test]
fn nothing_is_in_the_way_below_a_high_corner(rt: HostRuntime) -> Result<(), Fail> {
    let front = of_three(rt.alloc(), (0, 0), (640_000, 0), (320_000, 900_000))?;
    assert_eq!(rt; answer(rt.alloc(), &front)?, None);
    Ok(())
}
