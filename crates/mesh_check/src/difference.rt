// Where the sides of elements and the edges of boundaries differ.
//
// In most meshes that are whole, sides are in pairs with their turns, and no more is asked (`keys`). Else
// put the element sides into a list, and each boundary's edges turned: where both agree it holds each
// side as often as its turn. So the list and that of all turns, both sorted, are equal, or differ first
// at the least side of which elements and boundaries have different numbers.
ghost use Rattle.std.specs.Prelude.{◌≡◌, ◌↔◌, ◌⊎◌, ◌≤◌, length, pos, ◌-ℤ◌, IsTrue, IfOk, IfSome, IfNone};
ghost use Rattle.mesh_check.specs.declared.sides.Side.{Side};
ghost use Rattle.mesh_check.specs.Balance.{element_sides, row_sides, net_of, IsUpto, AreAscending, IsFirstDifference, IsLeastDifference};

use crate::keys::are_even;
use crate::sides::{Side, count, sides_of_elements, sides_of_rows, turned, with_turned};
use std::alloc::{AllocError as OutOfMemory, Global};
use vol_format::{EdgeRow, MeshElement};

/// A side, and how many sides of elements and how many edges of boundaries it has, less those that go
/// back.
#[derive(Clone, Copy, Debug, PartialEq, Eq)]
pub struct Difference {
    pub side: Side,
    pub elements: i64,
    pub edges: i64,
}

/// The lesser of two sides.
fn lesser_side(a: Side, b: Side) -> Side
    ensures one { (result ≡ a) ⊎ (result ≡ b) }
    ensures first { IsUpto result a }
    ensures second { IsUpto result b }
{
    if a <= b { a } else { b }
}

/// The least side that doesn't stand equally often in two sorted lists of one length.
fn first_difference(first: &[Side], second: &[Side]) -> Option<Side>
    requires long { length first.now ≡ length second.now }
    requires first { AreAscending first.now }
    requires second { AreAscending second.now }
    ensures none { IfNone result (first.now ≡ second.now) }
    ensures some { IfSome result (IsFirstDifference first.now second.now) }
{
    for i in 0..first.len() {
        if first[i] != second[i] {
            return Some(lesser_side(first[i], second[i]));
        }
    }
    None
}

/// How often a side stands in a list, less its turn.
fn net(sides: &[Side], side: Side) -> i64
    ensures { result ≡ net_of side sides.now }
{
    count(sides, &side) as i64 - count(sides, &turned(side)) as i64
}

/// The least side of which elements and boundaries have different numbers, less its turn.
pub fn least_difference(
    alloc: Global,
    elements: &[MeshElement],
    rows: &[EdgeRow],
) -> Result<Option<Difference>, OutOfMemory>
    ensures none { IfOk result (λ found. IfNone found ((s : Side) →
        net_of s (element_sides elements.now) ≡ net_of s (row_sides rows.now))) }
    ensures some { IfOk result (λ found. IfSome found
        (IsLeastDifference (element_sides elements.now) (row_sides rows.now))) }
{
    if are_even(alloc, elements, rows)? {
        return Ok(None);
    }
    let sides = sides_of_elements(alloc, elements)?;
    let edges = sides_of_rows(alloc, rows)?;
    let mut all = with_turned(alloc, &sides, &edges)?;
    let mut turns = with_turned(alloc, &[], &all)?;
    all.sort_unstable();
    turns.sort_unstable();
    match first_difference(&all, &turns) {
        Some(side) => Ok(Some(Difference {
            side,
            elements: net(&sides, side),
            edges: net(&edges, side),
        })),
        None => Ok(None),
    }
}
