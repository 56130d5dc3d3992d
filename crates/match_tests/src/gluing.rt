// New points and elements of a candidate, by their definitions.
ghost use Rattle.std.specs.Prelude.{◌≡◌, ◌≤◌, ◌++◌, ◌↔◌, length, true, IsTrue, IfSome};
ghost use Rattle.std.specs.List.{All, IsDistinct};
ghost use Rattle.grid_geom.specs.Bounds.{IsOnGrid};
ghost use Rattle.grid_geom.specs.Closed.{same_point};
ghost use Rattle.state_law.specs.State.{IsListed};
ghost use Rattle.admission.specs.Around.{AreListed};
ghost use Rattle.rule_maps.specs.Frame.{IsInRange};
ghost use Rattle.rule_match.specs.Applied.{are_new, do_differ};

use crate::places::nth;
use admission::{GlueRefusal, admit};
use front_chain::Front;
use grid_geom::{Element, Point, on_grid};
use rule_maps::{Compiled, Frame};
use std::alloc::Global;
use std::test::Fail;

/// The places of a rule's new points, where all are on the grid.
pub fn made_points(
    alloc: Global,
    c: &Compiled<'_>,
    f: &Frame,
    mapped: &[Point],
) -> Result<Option<Vec<Point>>, Fail>
    requires count { length mapped.now ≡ length c.now.points }
    requires range { All (IsInRange f.now) mapped.now }
{
    let mut made = Vec::new(alloc);
    for k in 0..c.rule().new_points.as_slice().len() {
        match c.new_point(k + 1, f, mapped) {
            None => return Ok(None),
            Some(p) => made.push(p)?,
        }
    }
    Ok(Some(made))
}

/// The rule's elements by the numbers of mapped points, and after them of new ones.
pub fn elements_of(
    alloc: Global,
    front: &Front,
    numbers: &[u64],
    made: usize,
    elements: &[Element],
) -> Result<Vec<Element>, Fail> {
    let mut names = numbers.to_vec(alloc)?;
    for k in 0..made {
        names.push(front.points().saturating_add(k as u64 + 1))?;
    }
    let mut all = Vec::new(alloc);
    for element in elements {
        all.push(named(alloc, &names, element.as_slice())?)?;
    }
    Ok(all)
}

/// The element with a rule's numbers replaced.
fn named(alloc: Global, names: &[u64], element: &[u64]) -> Result<Element, Fail> {
    let mut corners = Vec::new(alloc);
    for n in element {
        corners.push(nth(names, *n))?;
    }
    Ok(Element::from_vec(corners))
}

/// Whether none of the places is that of a listed point.
fn are_new(front: &Front, made: &[Point]) -> bool
    ensures { result ≡ are_new front.now.points made.now }
{
    match made {
        [] => true,
        [p, others @ ..] => front.number_at(*p).is_none() && are_new(front, others),
    }
}

/// Whether no two of the places are the same.
pub fn do_differ(made: &[Point]) -> bool
    ensures { result ≡ do_differ made.now }
{
    match made {
        [] => true,
        [p, others @ ..] => !others.contains(p) && do_differ(others),
    }
}

/// Whether the places differ from all listed ones and from each other.
fn are_apart(front: &Front, made: &[Point]) -> bool
    ensures { IsTrue result → IsDistinct same_point (front.now.points ++ made.now) }
{
    let _lines = front.lines();
    are_new(front, made) && do_differ(made)
}

/// Whether the places are new and different, and on the grid.
pub fn may_be_listed(front: &Front, made: &[Point]) -> bool
    ensures on { IsTrue result → All IsOnGrid made.now }
    ensures different { IsTrue result → IsDistinct same_point (front.now.points ++ made.now) }
{
    made.iter().all(|p| on_grid(*p)) && are_apart(front, made)
}

/// Whether each element has three corners.
fn are_triangles(elements: &[Element]) -> bool
    ensures { IsTrue result ↔ All (λ ns. length ns ≡ 3) elements.now }
{
    elements.iter().all(|e| e.as_slice().len() == 3)
}

/// Whether the number is that of one of so many points.
fn is_listed(count: u64, n: u64) -> bool
    ensures { IsTrue result ↔ IsListed count n }
{
    1 <= n && n <= count
}

/// Whether the corners are those of so many points.
pub fn are_listed(count: u64, element: &[u64]) -> bool
    ensures { IsTrue result ↔ AreListed count element.now }
{
    match element {
        [] => true,
        [n, others @ ..] => is_listed(count, *n) && are_listed(count, others),
    }
}

/// Whether each element's corners are those of so many points.
fn are_all_listed(count: u64, elements: &[Element]) -> bool
    ensures { IsTrue result ↔ All (AreListed count) elements.now }
{
    elements.iter().all(|e| are_listed(count, e.as_slice()))
}

/// How many points are listed with the new ones.
fn count_with(front: &Front, made: &[Point]) -> Option<u64>
    ensures { IfSome result (λ n. n ≡ length (front.now.points ++ made.now)) }
{
    front.points().checked_add(made.len() as u64)
}

/// Whether the elements may be glued one after another.
pub fn may_glue(
    alloc: Global,
    front: &Front,
    made: &[Point],
    elements: &[Element],
) -> Result<bool, Fail> {
    let Some(count) = count_with(front, made) else {
        return Ok(false);
    };
    if !may_be_listed(front, made) || !are_triangles(elements) || !are_all_listed(count, elements) {
        return Ok(false);
    }
    match admit(alloc, front, made, elements) {
        Ok(_) => Ok(true),
        Err(GlueRefusal::Memory) => Err("there is memory".into()),
        Err(_) => Ok(false),
    }
}
