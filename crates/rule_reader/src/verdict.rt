//! What is looked at where a rule ends: its indices, and how its points hang together.

ghost use Rattle.std.specs.Prelude.{◌≡◌, ◌+◌, ◌<◌, ◌≤◌, ◌^◌, IfOk, find, slice_index, length};
ghost use Rattle.rule_reader.specs.Verdict.{is_bad, relabelled, numbers_below, labels, own, own_below, loose_starts, verdict, Checks};

use crate::fault::{Fault, Stop};
use crate::reader::{Bound, Use};
use crate::rule::{MapLine, Rule};
use std::alloc::{AllocError, Global};

/// How many loose starts a rule has at most.
const LOOSE: usize = 3;

/// Whether an index names no point that it may name, in a rule with so many points.
fn is_bad(index: Use, points: usize, new_points: usize) -> bool
    ensures { result ≡ is_bad points new_points index }
{
    let number = index.index as usize;
    match index.bound {
        Bound::First => number != 1 || points < 1,
        Bound::Second => number != 2 || points < 2,
        Bound::Mapped => number == 0 || points < number,
        Bound::Any => number == 0 || points as u128 + (new_points as u128) < number as u128,
    }
}

/// The first index that names no point that it may name.
fn first_bad(uses: &[Use], points: usize, new_points: usize) -> Option<Use>
    ensures { result ≡ find (is_bad points new_points) uses.now }
{
    uses.iter()
        .copied()
        .find(|index| is_bad(*index, points, new_points))
}

/// The label of a point: points of one part have one.
fn label_of(labels: &[usize], point: usize) -> usize
    ensures { result ≡ slice_index labels.now point }
{
    labels.get(point).copied().unwrap_or(0)
}

/// The labels where those that are `from` are now `to`.
fn relabelled(
    alloc: Global,
    labels: &[usize],
    from: usize,
    to: usize,
) -> Result<Vec<usize>, AllocError>
    ensures { IfOk result (λ v. v.items ≡ relabelled from to labels.now) }
{
    labels
        .iter()
        .map(|label| if *label == from { to } else { *label })
        .collect(alloc)
}

/// The numbers below this one.
fn numbers_below(alloc: Global, end: usize) -> Result<Vec<usize>, AllocError>
    ensures { IfOk result (λ v. v.items ≡ numbers_below end) }
{
    let mut numbers = Vec::new(alloc);
    for number in 0..end {
        numbers.push(number)?;
    }
    Ok(numbers)
}

/// 0 and the labels of the points: each part of the graph of the points and the lines has the number
/// of one of its points.
fn labels(alloc: Global, points: usize, lines: &[MapLine]) -> Result<Vec<usize>, AllocError>
    requires { points < 2 ^ 63 }
    ensures { IfOk result (λ v. v.items ≡ labels points lines.now) }
{
    let mut labels = numbers_below(alloc, points + 1)?;
    for line in lines {
        let from = label_of(&labels, line.i as usize);
        let to = label_of(&labels, line.j as usize);
        labels = relabelled(alloc, &labels, from, to)?;
    }
    Ok(labels)
}

/// 1 for a number that is its own label, else 0.
fn own(labels: &[usize], number: usize) -> usize
    ensures value { result ≡ own labels.now number }
    ensures small { result ≤ 1 }
{
    if label_of(labels, number) == number {
        1
    } else {
        0
    }
}

/// How many numbers below this one are their own labels.
fn own_below(labels: &[usize], end: usize) -> usize
    ensures { result ≡ own_below labels.now end }
{
    let mut count = 0;
    for number in 0..end {
        count += own(labels, number);
    }
    count
}

/// How many parts of the graph of the points and the lines don't hold point 1.
#[tactic(auto, unfolding(crate::specs::Verdict::loose_starts))]
fn loose_starts(alloc: Global, points: usize, lines: &[MapLine]) -> Result<usize, AllocError>
    requires { points < 2 ^ 63 }
    ensures { IfOk result (λ n. n ≡ loose_starts points lines.now) }
{
    let labels = labels(alloc, points, lines)?;
    // Neither 0 nor the part of point 1 counts.
    Ok(own_below(&labels, points + 1).saturating_sub(2))
}

/// Whether the rule of this number may end here, where so many words are left.
#[tactic(auto, unfolding(crate::specs::Verdict::verdict))]
pub fn check(alloc: Global, number: u64, uses: &[Use], rule: &Rule, left: usize) -> Result<(), Stop>
    ensures { Checks result (verdict number uses.now rule.now left) }
{
    let points = rule.points.as_slice();
    let new_points = rule.new_points.as_slice();
    let lines = rule.lines.as_slice();
    match first_bad(uses, points.len(), new_points.len()) {
        Some(index) => Err(Stop::Fault(Fault::BadIndex {
            rule: number,
            left: index.left,
        })),
        None if lines.is_empty() => Err(Stop::Fault(Fault::BadIndex { rule: number, left })),
        None => {
            if loose_starts(alloc, points.len(), lines)? > LOOSE {
                Err(Stop::Fault(Fault::TooLoose { rule: number }))
            } else {
                Ok(())
            }
        }
    }
}
