// Keys of sides shelf by shelf: those with one lesser end stand together, sorted.
//
// Two keys that are to stand side by side are on one shelf, so it's enough that each shelf is sorted. What
// room a shelf needs is counted first. A key is put only into an empty place, so none is lost.
ghost use Rattle.std.specs.Prelude.{◌≡◌, ℕ, ◌<◌, ◌∷◌, [], ◌++◌, nat_lt, map, length, IsTrue, IfOk, IfSome};
ghost use Rattle.std.specs.List.Sorted.{IsPermutation};
ghost use Rattle.state_law.specs.State.{number_sides, number_way};
ghost use Rattle.mesh_check.specs.Balance.{side_of, with_side, element_sides, row_sides, turned};
ghost use Rattle.mesh_check.specs.Keys.{key_of, times, AreAdded};

use crate::counts::beginnings;
use crate::keys::key_of;
use crate::sides::Side;
use std::alloc::{AllocError as OutOfMemory, Global};
use vol_format::{EdgeRow, MeshElement};

/// Keys on shelves, and the first place of each shelf that is left. A place without a key has 0.
#[derive(Drop)]
struct Shelves {
    left: Vec<usize>,
    keys: Vec<u64>,
}

/// Puts the key of a side into the first place of its shelf that is left, if that is empty.
#[tactic(auto, using(crate::proofs::Shelved::put_once))]
fn put(shelves: &mut Shelves, side: Side) -> bool
    ensures { IsTrue result → AreAdded (key_of side ∷ []) shelves.old.keys.items
        shelves.new.keys.items }
{
    let shelf = side.from.min(side.to) as usize;
    if shelf >= shelves.left.len() {
        return false;
    }
    let at = shelves.left[shelf];
    shelves.left[shelf] = at.wrapping_add(1);
    if at >= shelves.keys.len() || shelves.keys[at] != 0 {
        return false;
    }
    shelves.keys[at] = key_of(side);
    true
}

/// Puts the keys of the sides from `from` by the rest of the corners and on to `first`.
#[tactic(auto, using(crate::proofs::Shelved::both_added))]
fn put_way(shelves: &mut Shelves, domain: u32, first: u64, from: u64, rest: &[u64]) -> bool
    ensures { IsTrue result →
        AreAdded (map key_of (map (side_of domain) (number_way first from rest.now)))
        shelves.old.keys.items shelves.new.keys.items }
{
    match rest {
        [] => put(
            shelves,
            Side {
                domain,
                from,
                to: first,
            },
        ),
        [to, after @ ..] => {
            let to = *to;
            if !put(shelves, Side { domain, from, to }) {
                return false;
            }
            put_way(shelves, domain, first, to, after)
        }
    }
}

/// Puts the keys of an element's sides.
#[tactic(auto, using(crate::proofs::Shelved::none_added))]
fn put_sides(shelves: &mut Shelves, domain: u32, corners: &[u64]) -> bool
    ensures { IsTrue result →
        AreAdded (map key_of (map (side_of domain) (number_sides corners.now)))
        shelves.old.keys.items shelves.new.keys.items }
{
    match corners {
        [] => true,
        [first, rest @ ..] => put_way(shelves, domain, *first, *first, rest),
    }
}

/// Puts the key of the turn of an edge of a domain's boundary; of the outside's none.
#[tactic(auto, using(crate::proofs::Shelved::none_added))]
fn put_turn(shelves: &mut Shelves, domain: u32, a: u64, b: u64) -> bool
    ensures { IsTrue result →
        AreAdded (map key_of (map turned (with_side (nat_lt 0 domain) (side_of domain (a, b)) [])))
        shelves.old.keys.items shelves.new.keys.items }
{
    if domain == 0 {
        return true;
    }
    put(
        shelves,
        Side {
            domain,
            from: b,
            to: a,
        },
    )
}

/// Puts the keys of an edge row's turns: of that for the domain on its left, and of that for the domain
/// on its right.
#[tactic(auto, using(crate::proofs::Shelved::row_added))]
fn put_row(shelves: &mut Shelves, row: &EdgeRow) -> bool
    ensures { IsTrue result → AreAdded (map key_of (map turned (row_sides (row.now ∷ []))))
        shelves.old.keys.items shelves.new.keys.items }
{
    if !put_turn(shelves, row.left, row.a, row.b) {
        return false;
    }
    put_turn(shelves, row.right, row.b, row.a)
}

/// Puts the keys of the sides of all elements.
fn put_elements(shelves: &mut Shelves, elements: &[MeshElement]) -> bool
    ensures { IsTrue result → AreAdded (map key_of (element_sides elements.now))
        shelves.old.keys.items shelves.new.keys.items }
{
    let mut left = elements;
    while let [element, rest @ ..] = left {
        if !put_sides(shelves, element.domain, element.corners.as_slice()) {
            return false;
        }
        left = rest;
    }
    true
}

/// Puts the keys of the turned edges of all boundaries.
fn put_rows(shelves: &mut Shelves, rows: &[EdgeRow]) -> bool
    ensures { IsTrue result → AreAdded (map key_of (map turned (row_sides rows.now)))
        shelves.old.keys.items shelves.new.keys.items }
{
    let mut left = rows;
    while let [row, rest @ ..] = left {
        if !put_row(shelves, row) {
            return false;
        }
        left = rest;
    }
    true
}

/// Sorts the keys from one position up to before another, if these are in order and in the list.
fn sort_part(keys: &mut [u64], from: usize, to: usize)
    ensures kept { IsPermutation keys.old keys.new }
    ensures long { length keys.new ≡ length keys.old }
{
    if from >= to || to > keys.len() {
        return;
    }
    keys[from..to].sort_unstable();
}

/// Sorts the keys of each shelf, given where it ends.
fn sort_shelves(keys: &mut [u64], ends: &[usize])
    ensures kept { IsPermutation keys.old keys.new }
    ensures long { length keys.new ≡ length keys.old }
{
    let mut from = 0;
    for end in ends {
        sort_part(keys, from, *end);
        from = *end;
    }
}

/// The keys of the sides of all elements and of the turned edges of all boundaries, each shelf sorted, if
/// each finds a place.
pub fn sorted_shelves(
    alloc: Global,
    elements: &[MeshElement],
    rows: &[EdgeRow],
) -> Result<Option<Vec<u64>>, OutOfMemory>
    ensures { IfOk result (λ found. IfSome found (λ v. (k : ℕ) → 0 < k →
        times k v.items ≡ times k (map key_of (element_sides elements.now)
        ++ map key_of (map turned (row_sides rows.now))))) }
{
    let (left, all) = beginnings(alloc, elements, rows)?;
    let keys = vec![in alloc; 0u64; all]?;
    let mut shelves = Shelves { left, keys };
    if !put_elements(&mut shelves, elements) || !put_rows(&mut shelves, rows) {
        return Ok(None);
    }
    let Shelves { left, mut keys } = shelves;
    sort_shelves(&mut keys, &left);
    Ok(Some(keys))
}
