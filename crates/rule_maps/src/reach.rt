// How far from its line a rule reaches.
ghost use Rattle.std.specs.Prelude.{◌≡◌, ◌≤◌, ◌+◌, ◌*◌, length, map, unsigned_abs, IfOk};
ghost use Rattle.std.specs.List.{All};
ghost use Rattle.rule_reader.specs.Normal.{AtMost, IsMapPoint, IsTerm, IsPlace, IsRule};
ghost use Rattle.rule_maps.specs.Reach.{in_range, IsLeeway, leeway_of, stretch, extent, extent_of, farthest, IsLeastFrom, IsReachOf};

use rule_reader::{MapPoint, Place, Rule, Term};
use std::alloc::{AllocError as OutOfMemory, Global};

// Bounds of the numbers on the way: a leeway, a term's share, and a row's extent.
const LEEWAY: u64 = 290_000;

const SHARE: u64 = 160_000 * LEEWAY;

const EXTENT: u64 = 10_000 * 160_000 + 32 * SHARE;

/// How far a mapped point is from its place in the rule at most, along the line and to its left, in units of
/// 1/10,000.
#[derive(Clone, Copy, Debug, PartialEq, Eq)]
pub struct Leeway {
    pub along: u64,
    pub left: u64,
}

/// The leeway of a point in range: its local coordinates are at most 13.
pub fn leeway_in_range(point: &MapPoint) -> Leeway
    requires { IsMapPoint point.now }
    ensures { result ≡ in_range point.now }
{
    Leeway {
        along: 130_000 + point.x.unsigned_abs() as u64,
        left: 130_000 + point.y.unsigned_abs() as u64,
    }
}

/// The leeways of points in range.
fn leeways_in_range(alloc: Global, points: &[MapPoint]) -> Result<Vec<Leeway>, OutOfMemory>
    requires { All IsMapPoint points.now }
    ensures { IfOk result (λ v. v.items ≡ map in_range points.now) }
{
    let mut all = Vec::new(alloc);
    for point in points {
        all.push(leeway_in_range(point))?;
    }
    Ok(all)
}

/// The leeway of the mapped point that a term names, in the term's coordinate.
fn leeway_of(term: &Term, leeways: &[Leeway]) -> u64
    requires leeways { All IsLeeway leeways.now }
    requires term { IsTerm (length leeways.now) term.now }
    ensures value { result ≡ leeway_of leeways.now term.now }
    ensures small { result ≤ LEEWAY }
{
    let leeway = leeways[term.point as usize - 1];
    if term.of_y { leeway.left } else { leeway.along }
}

/// The greatest absolute value of a term, in units of 1/10^8.
fn share(term: &Term, leeways: &[Leeway]) -> u64
    requires leeways { All IsLeeway leeways.now }
    requires term { IsTerm (length leeways.now) term.now }
    ensures value { result ≡ unsigned_abs term.now.coefficient * leeway_of leeways.now term.now }
    ensures small { result ≤ SHARE }
{
    term.coefficient.unsigned_abs() as u64 * leeway_of(term, leeways)
}

/// The greatest absolute value of a row's terms together.
fn stretch(row: &[Term], leeways: &[Leeway]) -> u64
    requires leeways { All IsLeeway leeways.now }
    requires row { AtMost 32 (IsTerm (length leeways.now)) row.now }
    ensures value { result ≡ stretch leeways.now row.now }
    ensures small { result ≤ 32 * SHARE }
{
    let mut sum = 0;
    for term in row {
        sum += share(term, leeways);
    }
    sum
}

/// The greatest absolute value of a place's coordinates.
fn extent_of(place: &Place, leeways: &[Leeway]) -> u64
    requires leeways { All IsLeeway leeways.now }
    requires place { IsPlace (length leeways.now) place.now }
    ensures value { result ≡ extent_of leeways.now place.now }
    ensures small { result ≤ EXTENT }
{
    let u = 10_000 * place.x.unsigned_abs() as u64 + stretch(place.row_x.as_slice(), leeways);
    let v = 10_000 * place.y.unsigned_abs() as u64 + stretch(place.row_y.as_slice(), leeways);
    u.max(v)
}

/// The greatest extent of these places.
fn farthest(places: &[Place], leeways: &[Leeway]) -> u64
    requires leeways { All IsLeeway leeways.now }
    requires places { All (IsPlace (length leeways.now)) places.now }
    ensures value { result ≡ farthest leeways.now places.now }
    ensures small { result ≤ EXTENT }
{
    let mut greatest = 0;
    for place in places {
        greatest = extent_of(place, leeways).max(greatest);
    }
    greatest
}

/// The least whole number that is at least `from` and no less than the absolute value of each local coordinate
/// of a place of the rule, where its mapped points are within these leeways.
pub(crate) fn reach_from(from: u64, rule: &Rule, leeways: &[Leeway]) -> u64
    requires rule { IsRule rule.now }
    requires count { length leeways.now ≡ length rule.now.points }
    requires leeways { All IsLeeway leeways.now }
    ensures { IsLeastFrom from leeways.now rule.now result }
{
    let new_points = farthest(rule.new_points.as_slice(), leeways);
    let area = farthest(rule.area.as_slice(), leeways);
    let limit = farthest(rule.limit.as_slice(), leeways);
    new_points
        .max(area)
        .max(limit)
        .div_ceil(100_000_000)
        .max(from)
}

/// The same where its mapped points are in range, and at least 13. It takes memory for a leeway of each.
pub(crate) fn reach_of(alloc: Global, rule: &Rule) -> Result<u64, OutOfMemory>
    requires { IsRule rule.now }
    ensures { IfOk result (IsReachOf rule.now) }
{
    let leeways = leeways_in_range(alloc, rule.points.as_slice())?;
    Ok(reach_from(13, rule, &leeways))
}
