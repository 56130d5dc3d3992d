//! The new points of an attempt, and its elements.

ghost use Rattle.std.specs.Prelude.{◌≡◌, ◌≤◌, ◌+◌, ◌-◌, ◌^◌, ◌↔◌, ◌++◌, ◌<◌, length, map, IfOk, IfSome, IfNone, IsTrue, Contains};
ghost use Rattle.std.specs.List.{All, AllByRecursion, IsDistinct};
ghost use Rattle.std.specs.Int.RustNames.{unsigned_abs};
ghost use Rattle.grid_geom.specs.Bounds.{IsOnGrid};
ghost use Rattle.grid_geom.specs.Closed.{same_point};
ghost use Rattle.rule_maps.specs.Frame.{IsInRange};
ghost use Rattle.rule_maps.specs.Places.{mapping};
ghost use Rattle.state_law.specs.State.{point_at, corners_of};
ghost use Rattle.rule_match.specs.Candidate.{made_of, nth};
ghost use Rattle.rule_match.specs.Applied.{numbers_from, are_new, do_differ};
ghost use Rattle.rule_match.specs.Least.{badness_of, worse, worst};

use super::badness::{Badness, compare};
use super::few_points::FewPoints;
use super::squares::element_badness;
use front_chain::Front;
use grid_geom::{Element, Point};
use list_of::List;
use rule_maps::{Compiled, Frame};
use std::alloc::{AllocError, Global};

/// The places of a rule's new points, where all are on the grid.
pub(crate) fn made_points(
    alloc: Global,
    rule: &Compiled<'_>,
    frame: &Frame,
    mapped: &[Point],
) -> Option<FewPoints>
    requires count { length mapped.now ≡ length rule.now.points }
    requires range { All (IsInRange frame.now) mapped.now }
    ensures made { IfSome result (λ v. v ≡ made_of (mapping frame.now rule.now mapped.now)) }
    ensures on { IfSome result (λ v. All IsOnGrid v) }
    ensures few { IfSome result (λ v. length v ≤ 8) }
    ensures off { IfNone result
        (¬ (All IsOnGrid (made_of (mapping frame.now rule.now mapped.now)))) }
{
    let mut made = FewPoints::new(alloc);
    let count = rule.rule().new_points.as_slice().len();
    for k in 0..count {
        made.push(rule.new_point(k + 1, frame, mapped)?);
    }
    Some(made)
}

/// Whether none of the places is that of a point of the front.
pub(crate) fn are_new(front: &Front, made: &[Point]) -> bool
    ensures { result ≡ are_new front.now.points made.now }
{
    match made {
        [] => true,
        [p, others @ ..] => front.number_at(*p).is_none() && are_new(front, others),
    }
}

/// Whether no two of the places are the same.
pub(crate) fn are_different(made: &[Point]) -> bool
    ensures { result ≡ do_differ made.now }
{
    match made {
        [] => true,
        [p, others @ ..] => !others.contains(p) && are_different(others),
    }
}

/// The place with the number, from 1; the origin where there is none.
fn place_at(places: &[Point], n: u64) -> Point
    requires { All IsOnGrid places.now }
    ensures value { result ≡ point_at places.now n }
    ensures on { IsOnGrid result }
{
    let k = (n as usize).saturating_sub(1);
    if k < places.len() {
        places[k]
    } else {
        Point { x: 0, y: 0 }
    }
}

/// The corners of an element, by the places of a rule's points.
fn corners_at(alloc: Global, places: &[Point], element: &[u64]) -> FewPoints
    requires on { All IsOnGrid places.now }
    requires few { length element.now ≤ 24 }
    ensures value { result ≡ corners_of places.now element.now }
    ensures on { All IsOnGrid result }
{
    let mut corners = FewPoints::new(alloc);
    for n in element {
        corners.push(place_at(places, *n));
    }
    corners
}

/// The first unless the second is greater.
fn worse_of(a: Badness, b: Badness) -> Badness
    ensures { result ≡ worse a b }
{
    if compare(&b, &a).is_gt() { b } else { a }
}

/// The greatest badness over the elements, each of three corners.
pub(crate) fn worst_badness(alloc: Global, places: &[Point], elements: &[Element]) -> Badness
    requires on { All IsOnGrid places.now }
    requires three { All (λ ns. length ns ≡ 3) elements.now }
    ensures { result ≡ worst (record { squares = 0; area = 1 })
        (map (corners_of places.now) elements.now) }
{
    let mut found = Badness {
        squares: 0,
        area: 1,
    };
    for element in elements {
        let corners = corners_at(alloc, places, element.as_slice());
        found = worse_of(found, element_badness(corners.as_slice()));
    }
    found
}

/// The numbers of the mapped points, and after them those of new points, which come after the listed
/// ones. Numbers past 64 bits are want of memory.
pub(crate) fn all_numbers(
    alloc: Global,
    points: &[u64],
    listed: u64,
    made: &[Point],
) -> Result<Vec<u64>, AllocError>
    ensures { IfOk result (λ v. v.items ≡ points.now ++ numbers_from listed made.now) }
{
    let mut numbers = points.to_vec(alloc)?;
    let mut next = listed;
    for _ in made {
        if next == u64::MAX {
            return Err(AllocError);
        }
        next += 1;
        numbers.push(next)?;
    }
    Ok(numbers)
}

/// The number of the rule's point n.
fn number_of(numbers: &[u64], n: u64) -> u64
    ensures { result ≡ nth numbers.now n }
{
    let k = (n as usize).saturating_sub(1);
    if k < numbers.len() { numbers[k] } else { 0 }
}

/// An element with a rule's numbers replaced.
fn numbered(alloc: Global, numbers: &[u64], element: &[u64]) -> Result<Element, AllocError>
    ensures { IfOk result (λ e. e ≡ map (nth numbers.now) element.now) }
{
    let mut corners = Vec::with_capacity(alloc, element.len())?;
    for n in element {
        corners.push(number_of(numbers, *n))?;
    }
    Ok(List::from_vec(corners))
}

/// The elements with a rule's numbers replaced.
pub(crate) fn numbered_elements(
    alloc: Global,
    numbers: &[u64],
    elements: &[Element],
) -> Result<Vec<Element>, AllocError>
    ensures { IfOk result (λ v. v.items ≡ map (map (nth numbers.now)) elements.now) }
{
    let mut all = Vec::with_capacity(alloc, elements.len())?;
    for element in elements {
        all.push(numbered(alloc, numbers, element.as_slice())?)?;
    }
    Ok(all)
}
