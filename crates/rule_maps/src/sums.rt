// The sums that place a rule's points, as numerators over one denominator.
ghost use Rattle.std.specs.Prelude.{◌≡◌, ◌≤◌, ◌+ℤ◌, ◌*ℤ◌, ◌-ℤ◌, pos, length, map, IfOk};
ghost use Rattle.std.specs.List.{All};
ghost use Rattle.grid_geom.specs.Bounds.{IsOnGrid, IsWithin};
ghost use Rattle.rule_reader.specs.Normal.{AtMost, IsMapPoint, IsTerm, IsPlace};
ghost use Rattle.rule_maps.specs.Places.{either};
ghost use Rattle.rule_maps.specs.Sums.{seen_at, rest_at, moving, resting, constant, constants_of, numerator, IsSmall};

use crate::frame::{Frame, Seen, TURN, UNIT};
use grid_geom::Point;
use rule_reader::{MapPoint, Place, Term};
use std::alloc::{AllocError as OutOfMemory, Global};

// Bounds of the numbers on the way, all from the limits of rules and those of `frame`: a product of two numbers of a
// rule, what of a row doesn't depend on the mapped points, a term that does, the sum of a row's terms, and a row's
// numerator.
pub(crate) const NUMBER: i64 = 160_000;

pub(crate) const TERMS: i64 = 32;

pub(crate) const REST: i64 = NUMBER * NUMBER;

pub(crate) const CONSTANT: i64 = 10_000 * NUMBER + TERMS * REST;

pub(crate) const WEIGHTED: i128 = NUMBER as i128 * TURN as i128;

pub(crate) const MOVING: i128 = TERMS as i128 * WEIGHTED;

pub(crate) const NUMERATOR: i128 = CONSTANT as i128 * UNIT as i128 + 10_000 * MOVING;

/// What of a place's two rows doesn't depend on a frame or on mapped points, in units of 1/10^8.
#[derive(Clone, Copy, Debug, PartialEq, Eq)]
pub(crate) struct PlaceConstants {
    pub x: i64,
    pub y: i64,
}

/// A local place as two numerators over one denominator.
#[derive(Clone, Copy, Debug, PartialEq, Eq)]
pub(crate) struct PlaceNumerators {
    pub u: i128,
    pub v: i128,
}

/// The coordinate of a mapped point in the rule that a term names.
pub(crate) fn rest_of(term: &Term, points: &[MapPoint]) -> i32
    requires points { All IsMapPoint points.now }
    requires term { IsTerm (length points.now) term.now }
    ensures value { result ≡ rest_at points.now term.now }
    ensures small { IsWithin NUMBER result }
{
    let point = points[term.point as usize - 1];
    if term.of_y { point.y } else { point.x }
}

/// A term's share of its row's constant.
fn rested(term: &Term, points: &[MapPoint]) -> i64
    requires points { All IsMapPoint points.now }
    requires term { IsTerm (length points.now) term.now }
    ensures value { result ≡ term.now.coefficient *ℤ rest_at points.now term.now }
    ensures small { IsWithin REST result }
{
    term.coefficient as i64 * rest_of(term, points) as i64
}

/// The shares of all terms of a row.
fn resting(row: &[Term], points: &[MapPoint]) -> i64
    requires points { All IsMapPoint points.now }
    requires row { AtMost 32 (IsTerm (length points.now)) row.now }
    ensures value { result ≡ resting points.now row.now }
    ensures small { IsWithin (pos 32 *ℤ REST) result }
{
    let mut sum = 0;
    for term in row {
        sum += rested(term, points);
    }
    sum
}

/// What of a place's rows doesn't depend on a frame or on mapped points.
fn constants(place: &Place, points: &[MapPoint]) -> PlaceConstants
    requires points { All IsMapPoint points.now }
    requires place { IsPlace (length points.now) place.now }
    ensures { result ≡ constants_of points.now place.now }
{
    PlaceConstants {
        x: 10_000 * place.x as i64 - resting(place.row_x.as_slice(), points),
        y: 10_000 * place.y as i64 - resting(place.row_y.as_slice(), points),
    }
}

/// The constants of each place.
pub(crate) fn all_constants(
    alloc: Global,
    places: &[Place],
    points: &[MapPoint],
) -> Result<Vec<PlaceConstants>, OutOfMemory>
    requires points { All IsMapPoint points.now }
    requires places { All (IsPlace (length points.now)) places.now }
    ensures { IfOk result (λ v. v.items ≡ map (constants_of points.now) places.now) }
{
    let mut all = Vec::new(alloc);
    for place in places {
        all.push(constants(place, points))?;
    }
    Ok(all)
}

impl Seen {
    /// The coordinate that a term asks for.
    fn part(&self, of_y: bool) -> i64
        ensures { result ≡ either of_y self.now.along self.now.left }
    {
        if of_y { self.left } else { self.along }
    }
}

/// A term's coefficient times where its mapped point is seen.
fn weighted(term: &Term, f: &Frame, mapped: &[Point]) -> i128
    requires mapped { All IsOnGrid mapped.now }
    requires term { IsTerm (length mapped.now) term.now }
    ensures value { result ≡ term.now.coefficient *ℤ seen_at f.now mapped.now term.now }
    ensures small { IsWithin WEIGHTED result }
{
    let seen = f.seen(mapped[term.point as usize - 1]);
    term.coefficient as i128 * seen.part(term.of_y) as i128
}

/// The sum of a row's terms.
fn moving(row: &[Term], f: &Frame, mapped: &[Point]) -> i128
    requires mapped { All IsOnGrid mapped.now }
    requires row { AtMost 32 (IsTerm (length mapped.now)) row.now }
    ensures value { result ≡ moving f.now mapped.now row.now }
    ensures small { IsWithin MOVING result }
{
    let mut sum = 0;
    for term in row {
        sum += weighted(term, f, mapped);
    }
    sum
}

/// A row's value over 10^8 q, from its constant.
fn numerator(constant: &i64, row: &[Term], f: &Frame, mapped: &[Point]) -> i128
    requires constant { IsWithin CONSTANT constant.now }
    requires mapped { All IsOnGrid mapped.now }
    requires row { AtMost 32 (IsTerm (length mapped.now)) row.now }
    ensures value { result ≡ numerator f.now mapped.now constant.now row.now }
    ensures small { IsWithin NUMERATOR result }
{
    *constant as i128 * f.q() + 10_000 * moving(row, f, mapped)
}

/// A place's value over 10^8 q, from its constants.
pub(crate) fn numerators(
    constants: &PlaceConstants,
    place: &Place,
    f: &Frame,
    mapped: &[Point],
) -> PlaceNumerators
    requires constants { IsSmall constants.now }
    requires mapped { All IsOnGrid mapped.now }
    requires place { IsPlace (length mapped.now) place.now }
    ensures u { result.u ≡ numerator f.now mapped.now constants.now.x place.now.row_x }
    ensures v { result.v ≡ numerator f.now mapped.now constants.now.y place.now.row_y }
    ensures u_small { IsWithin NUMERATOR result.u }
    ensures v_small { IsWithin NUMERATOR result.v }
{
    PlaceNumerators {
        u: numerator(&constants.x, place.row_x.as_slice(), f, mapped),
        v: numerator(&constants.y, place.row_y.as_slice(), f, mapped),
    }
}

/// How much the second shape of a corner weighs at a class, where the first weighs 1.
fn limit_weight(class: u32) -> i128
    requires least { 1 ≤ class }
    requires greatest { class ≤ 16 }
    ensures { result ≡ pos 2 *ℤ pos class -ℤ pos 2 }
{
    2 * class as i128 - 2
}

/// Both shapes of a corner mixed at a class: area and 2 class - 2 times limit, over 2 class - 1.
pub(crate) fn mixed(area: &PlaceNumerators, limit: &PlaceNumerators, class: u32) -> PlaceNumerators
    requires area_u { IsWithin NUMERATOR area.now.u }
    requires area_v { IsWithin NUMERATOR area.now.v }
    requires limit_u { IsWithin NUMERATOR limit.now.u }
    requires limit_v { IsWithin NUMERATOR limit.now.v }
    requires least { 1 ≤ class }
    requires greatest { class ≤ 16 }
    ensures u { result.u ≡ area.now.u +ℤ (pos 2 *ℤ pos class -ℤ pos 2) *ℤ limit.now.u }
    ensures v { result.v ≡ area.now.v +ℤ (pos 2 *ℤ pos class -ℤ pos 2) *ℤ limit.now.v }
    ensures u_small { IsWithin (pos 31 *ℤ NUMERATOR) result.u }
    ensures v_small { IsWithin (pos 31 *ℤ NUMERATOR) result.v }
{
    let weight = limit_weight(class);
    PlaceNumerators {
        u: area.u + weight * limit.u,
        v: area.v + weight * limit.v,
    }
}
