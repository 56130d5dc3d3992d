// The candidates of a line by plain enumeration, and the least of them: every rule, every assignment of listed points
// to its mapped points, each judged by the definition (rule_match/specs/Candidate.antt). It leaves nothing out early.
// Local places, new points, zones, what is in their way, and gluing are asked of the crates below.
ghost use Rattle.std.specs.Prelude.{◌≡◌, ◌≤◌, length, true, IsTrue};
ghost use Rattle.std.specs.List.{All};
ghost use Rattle.rule_maps.specs.Frame.{IsInRange};
ghost use Rattle.rule_maps.specs.Inert.{IsLive};

use crate::gluing::{elements_of, made_points, may_glue};
use crate::places::{
    all_in_range, are_lines_tolerated, are_points_tolerated, do_turn, locals_of, nth, places_of,
};
use free_zone::Zone;
use front_chain::Front;
use grid_geom::{Element, Point};
use rule_maps::{Compiled, Frame, RuleSet};
use rule_reader::Rule;
use std::alloc::Global;
use std::test::Fail;

/// A line tried at a class: its ends, its frame, and all lines of its front.
#[derive(Drop)]
pub struct Line {
    pub from: u64,
    pub to: u64,
    pub class: u32,
    pub frame: Frame,
    pub lines: Vec<(u64, u64)>,
}

/// A candidate, with its worst badness as a fraction.
#[derive(Drop)]
pub struct Pick {
    pub rule: usize,
    pub points: Vec<u64>,
    pub made: Vec<Point>,
    pub elements: Vec<Element>,
    pub badness: (i128, i128),
}

/// Whether no number stands there twice.
fn are_different(numbers: &[u64]) -> bool {
    match numbers {
        [] => true,
        [n, others @ ..] => !others.contains(n) && are_different(others),
    }
}

/// Whether all are front points, and points 1 and 2 the line's ends.
fn are_at_line(front: &Front, line: &Line, numbers: &[u64]) -> bool {
    nth(numbers, 1) == line.from
        && nth(numbers, 2) == line.to
        && numbers.iter().all(|n| front.is_front_point(*n))
}

/// Whether each of the rule's lines is mapped to a front line of the same direction.
fn are_lines_there(line: &Line, rule: &Rule, numbers: &[u64]) -> bool {
    for l in rule.lines.as_slice() {
        let ends = (nth(numbers, u64::from(l.i)), nth(numbers, u64::from(l.j)));
        if !line.lines.contains(&ends) {
            return false;
        }
    }
    true
}

/// Whether the rule's tests on the points alone hold.
fn do_points_hold(
    alloc: Global,
    front: &Front,
    line: &Line,
    rule: &Rule,
    numbers: &[u64],
) -> Result<bool, Fail> {
    let places = places_of(alloc, front, numbers)?;
    if !are_at_line(front, line, numbers) || !are_lines_there(line, rule, numbers) {
        return Ok(false);
    }
    let locals = locals_of(alloc, &line.frame, &places)?;
    Ok(
        are_different(numbers)
            && all_in_range(&line.frame, &places)
            && are_points_tolerated(line.class, &locals, rule.points.as_slice())
            && are_lines_tolerated(line.class, &locals, rule)
            && do_turn(&places, rule.turns.as_slice()),
    )
}

/// Whether the rule is live and may apply at the class.
fn may_apply(c: &Compiled<'_>, class: u32) -> bool
    ensures { result ≡ true → IsLive c.now }
{
    c.inert().is_none() && c.rule().quality <= class
}

/// Whether the zone is there, and nothing is in its way.
fn has_free_zone(
    alloc: Global,
    front: &Front,
    line: &Line,
    c: &Compiled<'_>,
    numbers: &[u64],
    places: &[Point],
) -> bool
    requires live { IsLive c.now }
    requires count { length places.now ≡ length c.now.points }
    requires range { All (IsInRange line.now.frame) places.now }
{
    if line.class < 1 || 16 < line.class {
        return false;
    }
    match Zone::new(alloc, c, &line.frame, places, line.class) {
        None => false,
        Some(zone) => zone.blocked(front, c, numbers).is_none(),
    }
}

/// The square of the way from one point to another.
fn squared(a: Point, b: Point) -> i128 {
    let x = i128::from(b.x).saturating_sub(i128::from(a.x));
    let y = i128::from(b.y).saturating_sub(i128::from(a.y));
    x.saturating_mul(x).saturating_add(y.saturating_mul(y))
}

/// Twice the area of a triangle that turns counterclockwise.
fn doubled_area(a: Point, b: Point, c: Point) -> i128 {
    let (x, y) = (b.x.saturating_sub(a.x), b.y.saturating_sub(a.y));
    let (u, v) = (c.x.saturating_sub(a.x), c.y.saturating_sub(a.y));
    let right = i128::from(y).saturating_mul(i128::from(u));
    i128::from(x)
        .saturating_mul(i128::from(v))
        .saturating_sub(right)
}

/// The sum of the squared sides, and twice the area.
fn badness(corners: &[Point]) -> (i128, i128) {
    match corners {
        [a, b, c] => {
            let sides = squared(*a, *b).saturating_add(squared(*b, *c));
            (
                sides.saturating_add(squared(*c, *a)),
                doubled_area(*a, *b, *c),
            )
        }
        _ => (0, 1),
    }
}

/// Whether the first fraction is less.
fn is_less(a: (i128, i128), b: (i128, i128)) -> bool {
    a.0.saturating_mul(b.1) < b.0.saturating_mul(a.1)
}

/// The places of an element's corners, by the rule's numbers.
fn corners(alloc: Global, places: &[Point], element: &[u64]) -> Result<Vec<Point>, Fail> {
    let mut corners = Vec::new(alloc);
    for n in element {
        match places.get((*n as usize).saturating_sub(1)) {
            None => return Err("the corner is one of the rule's points".into()),
            Some(p) => corners.push(*p)?,
        }
    }
    Ok(corners)
}

/// The greatest badness of the rule's elements.
fn worst(
    alloc: Global,
    mapped: &[Point],
    made: &[Point],
    elements: &[Element],
) -> Result<(i128, i128), Fail> {
    let mut places = mapped.to_vec(alloc)?;
    for p in made {
        places.push(*p)?;
    }
    let mut worst = (0, 1);
    for element in elements {
        let next = badness(&corners(alloc, &places, element.as_slice())?);
        if is_less(worst, next) {
            worst = next;
        }
    }
    Ok(worst)
}

/// The candidate by the rule with these points, if it is one.
fn candidate(
    alloc: Global,
    front: &Front,
    line: &Line,
    c: &Compiled<'_>,
    rule: usize,
    numbers: &[u64],
) -> Result<Option<Pick>, Fail> {
    let text = c.rule();
    let places = places_of(alloc, front, numbers)?;
    if !may_apply(c, line.class)
        || places.len() != text.points.as_slice().len()
        || !all_in_range(&line.frame, &places)
    {
        return Ok(None);
    }
    let Some(made) = made_points(alloc, c, &line.frame, &places)? else {
        return Ok(None);
    };
    let named = text.elements.as_slice();
    let elements = elements_of(alloc, front, numbers, made.len(), named)?;
    if !has_free_zone(alloc, front, line, c, numbers, &places)
        || !may_glue(alloc, front, &made, &elements)?
    {
        return Ok(None);
    }
    let badness = worst(alloc, &places, &made, named)?;
    Ok(Some(Pick {
        rule,
        points: numbers.to_vec(alloc)?,
        made,
        elements,
        badness,
    }))
}

/// The digits of a number to a base, the greatest first, each with 1 added.
fn assignment(alloc: Global, code: u64, base: u64, count: usize) -> Result<Vec<u64>, Fail> {
    let mut numbers = Vec::new(alloc);
    let mut rest = code;
    for _ in 0..count {
        numbers.push(rest % base.max(1) + 1)?;
        rest /= base.max(1);
    }
    numbers.reverse();
    Ok(numbers)
}

/// Adds the candidates by one rule: all assignments, in rising order.
fn add_candidates(
    alloc: Global,
    front: &Front,
    line: &Line,
    c: &Compiled<'_>,
    rule: usize,
    picks: &mut Vec<Pick>,
) -> Result<(), Fail> {
    let count = c.rule().points.as_slice().len();
    for code in 0..front.points().saturating_pow(count as u32) {
        let numbers = assignment(alloc, code, front.points(), count)?;
        if do_points_hold(alloc, front, line, c.rule(), &numbers)?
            && let Some(pick) = candidate(alloc, front, line, c, rule, &numbers)?
        {
            picks.push(pick)?;
        }
    }
    Ok(())
}

/// All candidates: rule after rule, and of each rule in rising order.
pub fn candidates(
    alloc: Global,
    front: &Front,
    line: &Line,
    rules: &RuleSet<'_>,
) -> Result<Vec<Pick>, Fail> {
    let mut picks = Vec::new(alloc);
    for k in 0..rules.count() {
        add_candidates(alloc, front, line, rules.get(k + 1), k + 1, &mut picks)?;
    }
    Ok(picks)
}

/// The least candidate: of equals the first.
pub fn least(picks: &[Pick]) -> Option<&Pick> {
    let mut best: Option<&Pick> = None;
    for pick in picks {
        best = match best {
            None => Some(pick),
            Some(other) => {
                if is_less(pick.badness, other.badness) {
                    Some(pick)
                } else {
                    Some(other)
                }
            }
        };
    }
    best
}
