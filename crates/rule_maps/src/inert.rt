// Why a rule never applies.
ghost use Rattle.std.specs.Prelude.{◌≡◌, ◌↔◌, ◌++◌, ◌+◌, ◌≤◌, ◌<◌, ℕ, List, length, flat_map, IsTrue, IfOk, OnOk};
ghost use Rattle.std.specs.List.{AllByRecursion, Contains};
ghost use Rattle.rule_reader.specs.Normal.{IsRule};
ghost use Rattle.rule_maps.specs.Inert.{sides, turned_leaving, count, IsBalanced, IsBaseKept, HasNoElement, HasIdlePoint, HasBadZone, HasState};

use rule_reader::Rule;
use std::alloc::{AllocError as OutOfMemory, Global};

/// Why a rule never applies: the first of these that holds.
#[derive(Clone, Copy, Debug, PartialEq, Eq)]
pub enum Inert {
    /// For some pair of points, the sides of its elements aren't the lines that leave less those that
    /// join.
    Unbalanced,
    /// Its first mapped line doesn't leave.
    BaseKept,
    /// It makes no element.
    NoElement,
    /// No element names one of its new points.
    IdlePoint,
    /// Its zone has fewer than three corners, or its second shape not as many as its first.
    BadZone,
}

/// A pair of points of a rule, by their numbers.
type Pair = (u64, u64);

/// The sides of an element, after the pairs.
fn push_sides(pairs: &mut Vec<Pair>, corners: &[u64]) -> Result<(), OutOfMemory>
    ensures { OnOk result (pairs.new.items ≡ pairs.old.items ++ sides corners.now) }
{
    let [first, rest @ ..] = corners else {
        return Ok(());
    };
    let mut from = *first;
    for to in rest {
        pairs.push((from, *to))?;
        from = *to;
    }
    pairs.push((from, *first))?;
    Ok(())
}

/// The sides of the elements, after the pairs.
fn push_elements(pairs: &mut Vec<Pair>, rule: &Rule) -> Result<(), OutOfMemory>
    ensures { OnOk result (pairs.new.items ≡ pairs.old.items ++ flat_map sides rule.now.elements) }
{
    for element in rule.elements.as_slice() {
        push_sides(pairs, element.as_slice())?;
    }
    Ok(())
}

/// The lines that join, after the pairs.
fn push_joining(pairs: &mut Vec<Pair>, rule: &Rule) -> Result<(), OutOfMemory>
    ensures { OnOk result (pairs.new.items ≡ pairs.old.items ++ rule.now.new_lines) }
{
    for (i, j) in rule.new_lines.as_slice() {
        pairs.push((*i as u64, *j as u64))?;
    }
    Ok(())
}

/// The lines that leave, each from its end to its start, after the pairs.
fn push_leaving(pairs: &mut Vec<Pair>, rule: &Rule) -> Result<(), OutOfMemory>
    ensures { OnOk result (pairs.new.items ≡ pairs.old.items ++ turned_leaving rule.now.lines) }
{
    for line in rule.lines.as_slice() {
        if line.del {
            pairs.push((line.j as u64, line.i as u64))?;
        }
    }
    Ok(())
}

/// How often a pair is in the list.
fn count_of(pairs: &[Pair], i: u64, j: u64) -> usize
    ensures { result ≡ count pairs.now i j }
{
    let mut times = 0;
    for pair in pairs {
        if pair.0 == i && pair.1 == j {
            times += 1;
        }
    }
    times
}

/// Whether each pair is in the list as often as its reverse.
fn is_even(pairs: &[Pair]) -> bool
    ensures { IsTrue result ↔ AllByRecursion
        (λ p. count pairs.now p.0 p.1 ≡ count pairs.now p.1 p.0) pairs.now }
{
    for pair in pairs {
        if count_of(pairs, pair.0, pair.1) != count_of(pairs, pair.1, pair.0) {
            return false;
        }
    }
    true
}

/// Whether the sides of elements are the lines that leave less those that join, pair by pair.
fn is_balanced(alloc: Global, rule: &Rule) -> Result<bool, OutOfMemory>
    ensures { IfOk result (λ b. IsTrue b ↔ IsBalanced rule.now) }
{
    let mut pairs = Vec::new(alloc);
    push_elements(&mut pairs, rule)?;
    push_joining(&mut pairs, rule)?;
    push_leaving(&mut pairs, rule)?;
    Ok(is_even(&pairs))
}

/// Whether the first mapped line stays.
fn is_base_kept(rule: &Rule) -> bool
    ensures { IsTrue result ↔ IsBaseKept rule.now }
{
    match rule.lines.as_slice() {
        [line, ..] => !line.del,
        [] => false,
    }
}

/// Whether the element names this point.
fn is_named(corners: &[u64], point: u64) -> bool
    ensures { IsTrue result ↔ Contains corners.now point }
{
    corners.contains(&point)
}

/// Whether no element names this point.
fn is_idle(rule: &Rule, point: u64) -> bool
    ensures { IsTrue result ↔ AllByRecursion
        (λ corners. ¬ Contains corners point) rule.now.elements }
{
    for element in rule.elements.as_slice() {
        if is_named(element.as_slice(), point) {
            return false;
        }
    }
    true
}

/// Whether no element names some new point.
fn has_idle_point(rule: &Rule) -> bool
    requires { IsRule rule.now }
    ensures { IsTrue result ↔ HasIdlePoint rule.now }
{
    let points = rule.points.as_slice().len();
    for point in 0..rule.new_points.as_slice().len() {
        if is_idle(rule, (points + 1 + point) as u64) {
            return true;
        }
    }
    false
}

/// Whether the zone has too few corners, or its second shape not as many as its first.
fn has_bad_zone(rule: &Rule) -> bool
    ensures { IsTrue result ↔ HasBadZone rule.now }
{
    let area = rule.area.as_slice().len();
    let limit = rule.limit.as_slice().len();
    area < 3 || 0 < limit && limit != area
}

/// Why the rule never applies, if it doesn't.
pub(crate) fn state_of(alloc: Global, rule: &Rule) -> Result<Option<Inert>, OutOfMemory>
    requires { IsRule rule.now }
    ensures { IfOk result (HasState rule.now) }
{
    if !is_balanced(alloc, rule)? {
        return Ok(Some(Inert::Unbalanced));
    }
    Ok(if is_base_kept(rule) {
        Some(Inert::BaseKept)
    } else if rule.elements.as_slice().is_empty() {
        Some(Inert::NoElement)
    } else if has_idle_point(rule) {
        Some(Inert::IdlePoint)
    } else if has_bad_zone(rule) {
        Some(Inert::BadZone)
    } else {
        None
    })
}
