// Whether the sides of elements and the edges of boundaries agree, by one number for each side.
//
// A side's key is even where it goes from the lesser point to the greater, and the next number for its
// turn. In a mesh that is whole, the keys of all element sides, and of each boundary's edges turned, each
// shelf of them sorted (`shelves`), are pairs of an even number and the next one.
ghost use Rattle.std.specs.Prelude.{◌≡◌, IfOk, IsTrue, true};
ghost use Rattle.mesh_check.specs.declared.sides.Side.{Side};
ghost use Rattle.mesh_check.specs.Balance.{element_sides, row_sides, net_of};
ghost use Rattle.mesh_check.specs.Keys.{has_room, packed, key_of, times, ArePaired};

use crate::shelves::sorted_shelves;
use crate::sides::{Side, turned};
use std::alloc::{AllocError as OutOfMemory, Global};
use vol_format::{EdgeRow, MeshElement};

/// One past the greatest number of a domain that has room in a key.
const DOMAINS: u32 = 16_384;

/// One past the greatest number of a point that has room in a key.
pub const POINTS: u64 = 16_777_216;

/// Whether a side has room in a key.
fn has_room(side: Side) -> bool
    ensures { result ≡ has_room side }
{
    side.domain < DOMAINS && side.from < POINTS && side.to < POINTS
}

/// A side from the lesser point to the greater as an even number, from 2 on.
fn packed(side: Side) -> u64
    requires { has_room side ≡ true }
    ensures { result ≡ packed side.domain side.from side.to }
{
    ((side.domain as u64 * POINTS + side.from) * POINTS + side.to) * 2 + 2
}

/// The key of a side.
pub fn key_of(side: Side) -> u64
    ensures { result ≡ key_of side }
{
    if !has_room(side) {
        1
    } else if side.from < side.to {
        packed(side)
    } else {
        packed(turned(side)) + 1
    }
}

/// Whether a list is pairs of an even number, from 2 on, and the next one.
fn are_paired(keys: &[u64]) -> bool
    ensures paired { IsTrue result → ArePaired keys.now }
    ensures none { IsTrue result → times 1 keys.now ≡ 0 }
{
    let mut left = keys;
    while let [key, next, rest @ ..] = left {
        if *key == 0 || key / 2 != next / 2 || key >= next {
            return false;
        }
        left = rest;
    }
    left.is_empty()
}

/// Whether each side is in pairs with its turn, and so elements and boundaries agree. It may be that they
/// agree otherwise.
#[tactic(auto, using(crate::proofs::Paired::even_nets))]
pub fn are_even(
    alloc: Global,
    elements: &[MeshElement],
    rows: &[EdgeRow],
) -> Result<bool, OutOfMemory>
    ensures { IfOk result (λ even. IsTrue even → ((s : Side) →
        net_of s (element_sides elements.now) ≡ net_of s (row_sides rows.now))) }
{
    match sorted_shelves(alloc, elements, rows)? {
        Some(keys) => Ok(are_paired(&keys)),
        None => Ok(false),
    }
}
