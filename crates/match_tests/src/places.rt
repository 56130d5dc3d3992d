// Places and deviations of a rule's mapped points, by their definitions.
ghost use Rattle.std.specs.Prelude.{◌↔◌, IsTrue};
ghost use Rattle.std.specs.List.{All};
ghost use Rattle.rule_maps.specs.Frame.{IsInRange};

use front_chain::Front;
use grid_geom::{Point, on_grid, orient};
use rule_maps::Frame;
use rule_reader::{MapLine, MapPoint, Rule, Triple};
use std::alloc::Global;
use std::test::Fail;

/// Whether all points are in range.
pub fn all_in_range(f: &Frame, points: &[Point]) -> bool
    ensures { IsTrue result ↔ All (IsInRange f.now) points.now }
{
    points.iter().all(|p| f.is_in_range(*p))
}

/// The n-th number, from 1; 0 where there is none.
pub fn nth(numbers: &[u64], n: u64) -> u64 {
    let k = (n as usize).saturating_sub(1);
    numbers.get(k).copied().unwrap_or(0)
}

/// The n-th point, from 1; the origin where there is none.
fn nth_point(points: &[Point], n: u32) -> Point {
    let k = (n as usize).saturating_sub(1);
    points.get(k).copied().unwrap_or(Point { x: 0, y: 0 })
}

/// The place of a rule's point, from 1; the origin where there is none.
fn rule_place(points: &[MapPoint], n: u32) -> Point {
    match points.get((n as usize).saturating_sub(1)) {
        Some(p) => Point {
            x: i64::from(p.x),
            y: i64::from(p.y),
        },
        None => Point { x: 0, y: 0 },
    }
}

/// The places of the front's points with these numbers.
pub fn places_of(alloc: Global, front: &Front, numbers: &[u64]) -> Result<Vec<Point>, Fail> {
    let mut places = Vec::new(alloc);
    for n in numbers {
        if *n < 1 || front.points() < *n {
            return Err("the point is listed".into());
        }
        places.push(front.point(*n))?;
    }
    Ok(places)
}

/// A rounded local place, in units of 1/10,000; the origin for a point out of range.
fn local_of(f: &Frame, p: Point) -> Point {
    if !f.is_in_range(p) {
        return Point { x: 0, y: 0 };
    }
    let (x, y) = f.local4(p);
    Point { x, y }
}

/// The rounded local places.
pub fn locals_of(alloc: Global, f: &Frame, places: &[Point]) -> Result<Vec<Point>, Fail> {
    let mut locals = Vec::new(alloc);
    for p in places {
        locals.push(local_of(f, *p))?;
    }
    Ok(locals)
}

/// How far the second is from the first. Saturated numbers don't occur: local places are small.
fn way(from: Point, to: Point) -> Point {
    Point {
        x: to.x.saturating_sub(from.x),
        y: to.y.saturating_sub(from.y),
    }
}

/// A summand of a measure.
fn term(weight: i32, a: i64, b: i64) -> i128 {
    i128::from(weight)
        .saturating_mul(i128::from(a))
        .saturating_mul(i128::from(b))
}

/// Whether the measure of the deviation is at most (5 + 3 class) / 10.
fn is_tolerated(class: u32, tol: &Triple, d: Point) -> bool {
    let measure = term(tol.f1, d.x, d.x)
        .saturating_add(term(tol.f2, d.x, d.y))
        .saturating_add(term(tol.f3, d.y, d.y));
    measure <= (5 + 3 * i128::from(class)) * 100_000_000_000
}

/// Whether each point is within its tolerance at the class.
pub fn are_points_tolerated(class: u32, locals: &[Point], points: &[MapPoint]) -> bool {
    for (at, p) in locals.iter().zip(points) {
        let place = Point {
            x: i64::from(p.x),
            y: i64::from(p.y),
        };
        if !is_tolerated(class, &p.tol, way(place, *at)) {
            return false;
        }
    }
    true
}

/// Whether the line is within its tolerance at the class.
fn is_line_tolerated(class: u32, locals: &[Point], points: &[MapPoint], line: &MapLine) -> bool {
    let is = way(nth_point(locals, line.i), nth_point(locals, line.j));
    let meant = way(rule_place(points, line.i), rule_place(points, line.j));
    is_tolerated(class, &line.tol, way(meant, is))
}

/// Whether each line is within its tolerance at the class.
pub fn are_lines_tolerated(class: u32, locals: &[Point], rule: &Rule) -> bool {
    for line in rule.lines.as_slice() {
        if !is_line_tolerated(class, locals, rule.points.as_slice(), line) {
            return false;
        }
    }
    true
}

/// Whether c is strictly left of the way from a to b.
fn is_left(a: Point, b: Point, c: Point) -> bool {
    on_grid(a) && on_grid(b) && on_grid(c) && orient(a, b, c) > 0
}

/// Whether each of the rule's triples turns counterclockwise.
pub fn do_turn(places: &[Point], turns: &[(u32, u32, u32)]) -> bool {
    for turn in turns {
        let (a, b) = (nth_point(places, turn.0), nth_point(places, turn.1));
        if !is_left(a, b, nth_point(places, turn.2)) {
            return false;
        }
    }
    true
}
