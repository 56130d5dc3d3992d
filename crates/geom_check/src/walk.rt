// Winding numbers found sound by one walk up through the heights, for all domains at once.
//
// The risers that pass a strip are kept in their order from left to right: where a riser ends it
// is taken out, where one begins it is put in, and two that pass on keep their order, since they
// don't cross. Each two neighbours must have one domain, or the outside, between them; only where
// neighbours are new is this looked at.
//
// Where the walk finds no fault there is none. Where it finds one, or a riser isn't where it was
// looked for, the strips decide.
ghost use Rattle.std.specs.Prelude.{◌≡◌, ◌⊎◌, ℕ, ℤ, pos, Bool, ◌-◌, ◌+◌, ◌<◌, ◌≤◌, true, false, All, AllPairs, IfOk, Contains, length, slice_index_or, slice_index, insert, remove, ◌+ℤ◌};
ghost use Rattle.std.specs.List.Sorted.{IsStrictlyIncreasing};
ghost use Rattle.grid_geom.specs.Bounds.{IsOnGrid};
ghost use Rattle.geom_check.specs.RiserOrder.{IsRiserOnGrid, IsStripOnGrid, IsPassing, IsWest, IsFree, IsRising, HasLevels, IsSoundAll, far, height_of};
ghost use Rattle.geom_check.specs.Risers.{winding_of};
ghost use Rattle.geom_check.specs.Doubt.{event_at, IsNextTo, IsNextAt, IsChainIn, IsBefore, IsPlaceFor, IsTakenAt, IsReached, IsAmiss, IsStuck, IsDoubtful};
ghost use Rattle.geom_check.specs.Walk.{DoAgree, DoAgreeAt, IsEndOf, AreEndsOf, AreRising, AreIn, AreNeighbours, BeginsOutside, IsChain, IsPutIn, IsTakenOut, IsWalking, AreSettled, IsUpTo, IsSoundFor};

use crate::events::{Event, events};
use crate::limits::WIDTH;
use crate::risers::Riser;
use crate::strips::{Strip, does_pass, place_in, strip_at};
use grid_geom::{Point, orient};
use std::alloc::{AllocError as OutOfMemory, Global};

/// The risers that pass, on the way up.
#[derive(Debug, Drop)]
pub struct Walk {
    /// The risers that have begun and not ended, by their places in the list, from left to right.
    pub order: Vec<usize>,
    /// The places of the order that have a new neighbour on their left.
    pub changed: Vec<usize>,
    /// The last of these.
    pub last: usize,
    /// The place of the next event.
    pub next: usize,
}

/// Whether one riser crosses the middle height of a strip to the left of another.
fn is_west(strip: &Strip, r: &Riser, s: &Riser) -> bool
    requires strip { IsStripOnGrid strip.now }
    requires r_on { IsRiserOnGrid r.now }
    requires s_on { IsRiserOnGrid s.now }
    requires r_passing { IsPassing strip.now.low strip.now.high r.now }
    requires s_passing { IsPassing strip.now.low strip.now.high s.now }
    ensures west { result ≡ true → IsWest (strip.now.low +ℤ strip.now.high) r.now s.now }
    ensures not_west { result ≡ false → ¬ IsWest (strip.now.low +ℤ strip.now.high) r.now s.now }
{
    let (left, right) = (place_in(strip, r), place_in(strip, s));
    (left.over as u128 * right.under as u128) < right.over as u128 * left.under as u128
}

/// Whether one domain, or the outside, is east of a riser and west of another, which is right of
/// it.
#[tactic(auto, using(crate::proofs::Agreement::agree_in))]
fn do_agree(strip: &Strip, r: &Riser, s: &Riser) -> bool
    requires strip { IsStripOnGrid strip.now }
    requires r_on { IsRiserOnGrid r.now }
    requires s_on { IsRiserOnGrid s.now }
    ensures agree { result ≡ true → DoAgree r.now s.now }
    ensures next { result ≡ false → ¬ IsNextTo strip.now.low strip.now.high r.now s.now }
{
    r.east == s.west && (does_pass(strip, r) && (does_pass(strip, s) && is_west(strip, r, s)))
}

/// Whether the outside is west of the first riser of an order.
fn begins_outside(risers: &[Riser], order: &[usize]) -> bool
    requires { AreIn risers.now order.now }
    ensures begins { result ≡ true → BeginsOutside risers.now order.now }
    ensures not { result ≡ false → ¬ BeginsOutside risers.now order.now }
{
    match order {
        [first, ..] => risers[*first].west == 0,
        [] => true,
    }
}

/// Whether the neighbours left and right of a place agree, where there are two.
fn do_agree_at(risers: &[Riser], strip: &Strip, order: &[usize], place: usize) -> bool
    requires strip { IsStripOnGrid strip.now }
    requires risers { All IsRiserOnGrid risers.now }
    requires order { AreIn risers.now order.now }
    ensures agree { result ≡ true → 1 ≤ place → place < length order.now →
        DoAgreeAt risers.now order.now place }
    ensures next { result ≡ false → ¬ (1 ≤ place → place < length order.now →
        IsNextAt strip.now.low strip.now.high risers.now order.now place) }
{
    if place == 0 || order.len() <= place {
        return true;
    }
    do_agree(strip, &risers[order[place - 1]], &risers[order[place]])
}

/// Whether the new neighbours agree.
fn do_changed_agree(risers: &[Riser], strip: &Strip, order: &[usize], changed: &[usize]) -> bool
    requires strip { IsStripOnGrid strip.now }
    requires risers { All IsRiserOnGrid risers.now }
    requires order { AreIn risers.now order.now }
    ensures agree { result ≡ true → (place : ℕ) → Contains changed.now place → 1 ≤ place →
        place < length order.now → DoAgreeAt risers.now order.now place }
    ensures next { result ≡ false → ¬ ((place : ℕ) → 1 ≤ place → place < length order.now →
        IsNextAt strip.now.low strip.now.high risers.now order.now place) }
{
    for place in changed {
        if !do_agree_at(risers, strip, order, *place) {
            return false;
        }
    }
    true
}

/// Whether a riser is left of a point; at the point itself, whether it begins there.
fn is_before(riser: &Riser, at: &Point, is_upper: bool) -> bool
    requires riser { IsRiserOnGrid riser.now }
    requires at { IsOnGrid at.now }
    ensures before { result ≡ true → IsBefore riser.now at.now is_upper }
    ensures not_before { result ≡ false → ¬ IsBefore riser.now at.now is_upper }
{
    let turn = orient(riser.a, riser.b, *at);
    turn < 0 || turn == 0 && !is_upper
}

/// The place of an event in an order, by halving: what is left of it is before the event, what is
/// right of it isn't.
fn place_for(risers: &[Riser], order: &[usize], at: &Point, is_upper: bool) -> usize
    requires risers { All IsRiserOnGrid risers.now }
    requires order { AreIn risers.now order.now }
    requires at { IsOnGrid at.now }
    ensures { IsPlaceFor risers.now order.now at.now is_upper result }
{
    let (mut from, mut to) = (0, order.len());
    while from < to {
        let middle = from + (to - from) / 2;
        if is_before(&risers[order[middle]], at, is_upper) {
            from = middle + 1;
        } else {
            to = middle;
        }
    }
    from
}

/// Puts in a riser that begins. False where it isn't right of what changed before.
fn put_in(risers: &[Riser], walk: &mut Walk, id: usize) -> Result<bool, OutOfMemory>
    requires risers { All IsRiserOnGrid risers.now }
    requires id { id < length risers.now }
    requires order { AreIn risers.now walk.old.order.items }
    requires settled { AreSettled risers.now walk.old.order.items
        walk.old.changed.items walk.old.last }
    ensures put_in { IfOk result (λ done. done ≡ true →
        IsPutIn id walk.old.order.items walk.new.order.items) }
    ensures taken { IfOk result (λ done. done ≡ true → IsTakenAt risers.now id false
        walk.old.order.items walk.new.order.items walk.new.last) }
    ensures amiss { IfOk result (λ done. done ≡ false →
        IsAmiss risers.now walk.old.order.items walk.old.last id false) }
    ensures settled { IfOk result (λ done. done ≡ true → AreSettled risers.now
        walk.new.order.items walk.new.changed.items walk.new.last) }
    ensures next { walk.new.next ≡ walk.old.next }
{
    let place = place_for(risers, &walk.order, &risers[id].a, false);
    if place < walk.last {
        return Ok(false);
    }
    walk.order.insert(place, id)?;
    walk.changed.push(place)?;
    walk.changed.push(place + 1)?;
    walk.last = place + 1;
    Ok(true)
}

/// Takes out a riser that ends. False where it isn't at its place right of what changed before.
fn take_out(risers: &[Riser], walk: &mut Walk, id: usize) -> Result<bool, OutOfMemory>
    requires risers { All IsRiserOnGrid risers.now }
    requires id { id < length risers.now }
    requires order { AreIn risers.now walk.old.order.items }
    requires settled { AreSettled risers.now walk.old.order.items
        walk.old.changed.items walk.old.last }
    ensures taken_out { IfOk result (λ done. done ≡ true →
        IsTakenOut id walk.old.order.items walk.new.order.items) }
    ensures taken { IfOk result (λ done. done ≡ true → IsTakenAt risers.now id true
        walk.old.order.items walk.new.order.items walk.new.last) }
    ensures amiss { IfOk result (λ done. done ≡ false →
        IsAmiss risers.now walk.old.order.items walk.old.last id true) }
    ensures settled { IfOk result (λ done. done ≡ true → AreSettled risers.now
        walk.new.order.items walk.new.changed.items walk.new.last) }
    ensures next { walk.new.next ≡ walk.old.next }
{
    let gap = place_for(risers, &walk.order, &risers[id].b, true);
    if gap < walk.last || gap >= walk.order.len() || walk.order[gap] != id {
        return Ok(false);
    }
    walk.order.remove(gap);
    walk.changed.push(gap)?;
    walk.last = gap;
    Ok(true)
}

/// Takes the next event: false where its riser isn't where it was looked for.
fn pass(risers: &[Riser], events: &[Event], walk: &mut Walk) -> Result<bool, OutOfMemory>
    requires risers { All IsRiserOnGrid risers.now }
    requires ends { All (IsEndOf risers.now) events.now }
    requires in_list { walk.old.next < length events.now }
    requires walking { IsWalking risers.now events.now walk.old.next walk.old.order.items }
    requires settled { AreSettled risers.now walk.old.order.items
        walk.old.changed.items walk.old.last }
    requires reached { IsReached risers.now events.now walk.old.next
        walk.old.order.items walk.old.last }
    ensures walking { IfOk result (λ done. done ≡ true →
        IsWalking risers.now events.now walk.new.next walk.new.order.items) }
    ensures reached { IfOk result (λ done. done ≡ true → IsReached risers.now events.now
        walk.new.next walk.new.order.items walk.new.last) }
    ensures amiss { IfOk result (λ done. done ≡ false → IsAmiss risers.now walk.old.order.items
        walk.old.last (event_at events.now walk.old.next).id
        (event_at events.now walk.old.next).is_upper) }
    ensures settled { IfOk result (λ done. done ≡ true → AreSettled risers.now
        walk.new.order.items walk.new.changed.items walk.new.last) }
    ensures next { IfOk result (λ done. done ≡ true → walk.new.next ≡ walk.old.next + 1) }
{
    let event = events[walk.next];
    let done = if event.is_upper {
        take_out(risers, walk, event.id)?
    } else {
        put_in(risers, walk, event.id)?
    };
    walk.next += 1;
    Ok(done)
}

/// Takes all events up to a level.
#[tactic(auto, using(crate::proofs::Reached::reached_anew))]
fn go_up(
    risers: &[Riser],
    events: &[Event],
    walk: &mut Walk,
    level: u64,
) -> Result<bool, OutOfMemory>
    requires risers { All IsRiserOnGrid risers.now }
    requires ends { All (IsEndOf risers.now) events.now }
    requires rising { AreRising events.now }
    requires in_list { walk.old.next ≤ length events.now }
    requires below { (i : ℕ) (d : Event) → i < walk.old.next →
        (slice_index_or events.now i d).level ≤ level }
    requires walking { IsWalking risers.now events.now walk.old.next walk.old.order.items }
    requires neighbours { AreNeighbours risers.now walk.old.order.items }
    requires reached { IsReached risers.now events.now walk.old.next
        walk.old.order.items walk.old.last }
    ensures reached { IfOk result (λ done. done ≡ true → IsReached risers.now events.now
        walk.new.next walk.new.order.items walk.new.last) }
    ensures stuck { IfOk result (λ done. done ≡ false → IsStuck risers.now events.now level) }
    ensures walking { IfOk result (λ done. done ≡ true →
        IsWalking risers.now events.now walk.new.next walk.new.order.items) }
    ensures settled { IfOk result (λ done. done ≡ true → AreSettled risers.now
        walk.new.order.items walk.new.changed.items walk.new.last) }
    ensures up_to { IfOk result (λ done. done ≡ true →
        IsUpTo events.now walk.new.next level) }
{
    walk.changed.clear();
    walk.last = 0;
    while walk.next < events.len() && events[walk.next].level <= level {
        if !pass(risers, events, walk)? {
            return Ok(false);
        }
    }
    Ok(true)
}

/// Whether each two neighbours agree, and the outside is west of the first riser.
fn is_chain(risers: &[Riser], strip: &Strip, walk: &Walk) -> bool
    requires strip { IsStripOnGrid strip.now }
    requires risers { All IsRiserOnGrid risers.now }
    requires order { AreIn risers.now walk.now.order.items }
    requires settled { AreSettled risers.now walk.now.order.items
        walk.now.changed.items walk.now.last }
    ensures chain { result ≡ true → IsChain risers.now walk.now.order.items }
    ensures broken { result ≡ false →
        ¬ IsChainIn strip.now.low strip.now.high risers.now walk.now.order.items }
{
    begins_outside(risers, &walk.order)
        && do_changed_agree(risers, strip, &walk.order, &walk.changed)
}

/// Whether each gap is in one domain or in none. Where this is false it isn't decided: an end
/// isn't where it was looked for, or two neighbours don't agree.
pub fn are_sound(alloc: Global, levels: &[u64], risers: &[Riser]) -> Result<bool, OutOfMemory>
    requires increasing { IsStrictlyIncreasing levels.now }
    requires small { All (λ n. n ≤ WIDTH) levels.now }
    requires levels { All (HasLevels levels.now) risers.now }
    requires risers { All IsRiserOnGrid risers.now }
    requires free { AllPairs IsFree risers.now }
    requires rising { All IsRising risers.now }
    ensures sound { IfOk result (λ sound. sound ≡ true → (chosen : ℕ → Bool) → chosen 0 ≡ false →
        ((y : ℤ) → winding_of chosen (far y) risers.now ≡ pos 0) →
        IsSoundAll chosen risers.now) }
    ensures doubtful { IfOk result (λ sound. sound ≡ false → IsDoubtful levels.now risers.now) }
{
    let events = events(alloc, risers)?;
    let mut walk = Walk {
        order: Vec::new(alloc),
        changed: Vec::new(alloc),
        last: 0,
        next: 0,
    };
    for i in 1..levels.len() {
        let done = go_up(risers, &events, &mut walk, levels[i - 1])?;
        if !done || !is_chain(risers, &strip_at(levels, i), &walk) {
            return Ok(false);
        }
    }
    Ok(true)
}
