// The ends of risers as the events of a walk: rising, at one height from left to right, and at one
// point upper ends before lower ones, each from left to right.
ghost use Rattle.std.specs.Prelude.{◌≡◌, ◌+◌, ◌*◌, ◌/◌, ◌-ℤ◌, ◌<◌, ◌≤◌, true, false, length, All, IfOk, pos};
ghost use Rattle.std.specs.List.Sorted.{IsNonDecreasingBy};
ghost use Rattle.geom_check.specs.RiserOrder.{IsRiserOnGrid, IsRising};
ghost use Rattle.geom_check.specs.Walk.{IsEnd, AreEndsOf, AreRising};

use crate::limits::{KEYS, LEAN_PARTS, LEANS, WIDTH};
use crate::risers::Riser;
use crate::strips::{from_left, level};
use std::alloc::{AllocError as OutOfMemory, Global};

/// An end of a riser.
#[derive(Clone, Copy, Debug, PartialEq, Eq)]
pub struct Event {
    /// Rises from each event to the next.
    pub key: u128,
    /// How high the end is above the bottom of the grid.
    pub level: u64,
    /// The riser's place in the list.
    pub id: usize,
    /// Whether the riser ends here, going up.
    pub is_upper: bool,
}

/// How far a riser goes up.
fn up(riser: &Riser) -> u64
    requires riser { IsRiserOnGrid riser.now }
    requires rising { IsRising riser.now }
    ensures value { pos result ≡ riser.now.b.y -ℤ riser.now.a.y }
    ensures positive { 0 < result }
    ensures small { result ≤ WIDTH }
{
    (riser.b.y - riser.a.y) as u64
}

/// The slope `across` / `up`, in parts of which one is the least difference of two slopes.
fn lean(across: u64, up: u64) -> u128
    requires positive { 0 < up }
    requires small { across ≤ 2 * WIDTH * up }
    requires low { up ≤ WIDTH }
    ensures value { result ≡ across * LEAN_PARTS / up }
    ensures small { result < LEANS }
{
    across as u128 * LEAN_PARTS / up as u128
}

/// The key of an event: first its level, then its column, then its slope.
fn key_of(level: u64, column: u64, lean: u128) -> u128
    requires level { level ≤ WIDTH }
    requires column { column ≤ 2 * WIDTH + 1 }
    requires lean { lean < LEANS }
    ensures value { result ≡ level * KEYS + column * LEANS + lean }
    ensures from_level { level * KEYS ≤ result }
    ensures below_next { result < (level + 1) * KEYS }
{
    level as u128 * KEYS + column as u128 * LEANS + lean
}

/// The lower end of a riser. Its slope is counted from -`WIDTH`, so that it isn't negative.
fn lower_end(riser: &Riser, id: usize) -> Event
    requires riser { IsRiserOnGrid riser.now }
    requires rising { IsRising riser.now }
    ensures end { IsEnd riser.now result }
    ensures id { result.id ≡ id }
    ensures is_upper { result.is_upper ≡ false }
{
    let (low, high) = (from_left(&riser.a), from_left(&riser.b));
    let level = level(&riser.a);
    let up = up(riser);
    let lean = lean(WIDTH * up + high - low, up);
    Event {
        key: key_of(level, 2 * low + 1, lean),
        level,
        id,
        is_upper: false,
    }
}

/// The upper end of a riser.
fn upper_end(riser: &Riser, id: usize) -> Event
    requires riser { IsRiserOnGrid riser.now }
    requires rising { IsRising riser.now }
    ensures end { IsEnd riser.now result }
    ensures id { result.id ≡ id }
    ensures is_upper { result.is_upper ≡ true }
{
    let (low, high) = (from_left(&riser.a), from_left(&riser.b));
    let level = level(&riser.b);
    let up = up(riser);
    let lean = lean(WIDTH * up + low - high, up);
    Event {
        key: key_of(level, 2 * high, lean),
        level,
        id,
        is_upper: true,
    }
}

/// The ends of all risers, in the order of the list.
fn all_events(alloc: Global, risers: &[Riser]) -> Result<Vec<Event>, OutOfMemory>
    requires risers { All IsRiserOnGrid risers.now }
    requires rising { All IsRising risers.now }
    ensures { IfOk result (λ v. AreEndsOf risers.now (length risers.now) v.items) }
{
    let mut events = Vec::new(alloc);
    for (id, riser) in risers.iter().enumerate() {
        events.push(lower_end(riser, id))?;
        events.push(upper_end(riser, id))?;
    }
    Ok(events)
}

/// The ends of all risers, rising.
pub fn events(alloc: Global, risers: &[Riser]) -> Result<Vec<Event>, OutOfMemory>
    requires risers { All IsRiserOnGrid risers.now }
    requires rising { All IsRising risers.now }
    ensures ends { IfOk result (λ v. AreEndsOf risers.now (length risers.now) v.items) }
    ensures rising { IfOk result (λ v. AreRising v.items) }
    ensures sorted { IfOk result (λ v. IsNonDecreasingBy (λ e. e.key) v.items) }
{
    let mut events = all_events(alloc, risers)?;
    events.sort_unstable_by_key(|event| event.key);
    Ok(events)
}
