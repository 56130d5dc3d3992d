// `best` and the plain enumeration on each line of small fronts.
//
// The size is 640000 everywhere, so a side of this length has height 1 in local places: corners of the square are
// exactly at (0, 0), (1, 0), (1, 1) and (0, 1).
ghost use Rattle.std.specs.Prelude.{◌≡◌, ◌≤◌, ◌<◌, length};

use crate::enumeration::{Line, Pick, candidates, least};
use crate::reading::read;
use crate::texts::{EDGES, LOOSE, TIES};
use front_chain::Front;
use grid_geom::{Point, on_grid};
use rule_maps::{Frame, RuleSet};
use rule_match::{Application, best};
use size_field::Sizes;
use std::alloc::Global;
use std::marker::Brand;
use std::sync::ledger::{Blank, Ledger};
use std::test::Fail;
use steps::Steps;

/// The size everywhere.
pub const SIZE: u64 = 640_000;

/// The frame of a line between two points.
fn frame_of(a: Point, b: Point) -> Result<Frame, Fail> {
    if !on_grid(a) || !on_grid(b) || a == b {
        return Err("the ends are different points of the grid".into());
    }
    Ok(Frame::new(a, b, SIZE))
}

/// The place of a listed point.
fn place_of(front: &Front, n: u64) -> Result<Point, Fail> {
    if n < 1 || front.points() < n {
        return Err("the point is listed".into());
    }
    Ok(front.point(n))
}

/// All lines of the front.
fn all_lines(alloc: Global, front: &Front) -> Result<Vec<(u64, u64)>, Fail> {
    let mut lines = Vec::new(alloc);
    for n in 1..front.next_number() {
        if let Some(ends) = front.line(n) {
            lines.push(ends)?;
        }
    }
    Ok(lines)
}

/// The front's line with these ends at a class.
pub fn line_of(alloc: Global, front: &Front, ends: (u64, u64), class: u32) -> Result<Line, Fail> {
    let frame = frame_of(place_of(front, ends.0)?, place_of(front, ends.1)?)?;
    Ok(Line {
        from: ends.0,
        to: ends.1,
        class,
        frame,
        lines: all_lines(alloc, front)?,
    })
}

/// What `best` answers.
fn answer<L: Ledger>(
    alloc: Global,
    blank: Blank,
    front: &Front,
    rules: &RuleSet<'_>,
    line: u64,
    class: u32,
) -> Result<Option<Application>, Fail>
    requires name { blank.name ≡ L.name }
    requires parts { blank.parts ≡ L.parts }
    requires some { 0 < L.parts }
{
    if front.line(line).is_none() || class < 1 || 16 < class {
        return Err("the line is on the front, the class from 1 to 16".into());
    }
    let mut steps = Steps::<L>::from_blank(blank);
    let sizes = Sizes::new(alloc, SIZE, 300);
    Ok(best(alloc, front, &sizes, rules, line, class, &mut steps)?)
}

/// The same over a ledger of its own.
fn best_of(
    alloc: Global,
    front: &Front,
    rules: &RuleSet<'_>,
    line: u64,
    class: u32,
) -> Result<Option<Application>, Fail> {
    answer::<Brand>(alloc, Blank::new(1), front, rules, line, class)
}

/// Whether the application is the pick's.
fn is_same(application: &Application, pick: &Pick) -> bool {
    application.rule == pick.rule
        && application.points.as_slice() == pick.points.as_slice()
        && application.made.as_slice() == pick.made.as_slice()
        && application.elements.as_slice() == pick.elements.as_slice()
}

/// The number of the rule of both answers, 0 where neither has one.
fn rule_of(application: &Option<Application>, pick: Option<&Pick>) -> Result<u64, Fail> {
    match (application, pick) {
        (None, None) => Ok(0),
        (Some(a), Some(p)) => {
            if is_same(a, p) {
                Ok(a.rule as u64)
            } else {
                Err("both find the same".into())
            }
        }
        _ => Err("both find something, or none does".into()),
    }
}

/// The rules by which the two find the same candidate, line by line, as digits.
fn found(alloc: Global, front: &Front, text: &[u8], class: u32) -> Result<u64, Fail>
    requires { length text.now ≤ 1048576 }
{
    let rules = read(alloc, text)?;
    let set = RuleSet::new(alloc, &rules)?;
    let mut digits = 0u64;
    for n in 1..front.next_number() {
        if let Some(ends) = front.line(n) {
            let line = line_of(alloc, front, ends, class)?;
            let application = best_of(alloc, front, &set, n, class)?;
            let picks = candidates(alloc, front, &line, &set)?;
            let rule = rule_of(&application, least(&picks))?;
            digits = digits.saturating_mul(10).saturating_add(rule);
        }
    }
    Ok(digits)
}

/// The rules that are found on each line at classes 1, 2 and 6, as digits.
pub type Digits = (u64, u64, u64);

/// The rules of a text that are found.
fn digits(alloc: Global, front: &Front, text: &[u8]) -> Result<Digits, Fail>
    requires { length text.now ≤ 1048576 }
{
    Ok((
        found(alloc, front, text, 1)?,
        found(alloc, front, text, 2)?,
        found(alloc, front, text, 6)?,
    ))
}

/// The rules that are found of each text: ties, edges of tolerances, and loose starts.
pub fn rules_found(alloc: Global, front: &Front) -> Result<(Digits, Digits, Digits), Fail> {
    Ok((
        digits(alloc, front, TIES)?,
        digits(alloc, front, EDGES)?,
        digits(alloc, front, LOOSE)?,
    ))
}
