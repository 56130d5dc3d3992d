//! Refused pairs of a line and a class that an application touches, looked at again by their notes.
//!
//! 1. A candidate that a refused pair gains by an application maps a fresh point: a new end of a line
//!    that has joined, an end of one that joins two old points, or the point beside a note whose line
//!    has left.
//! 2. So a pair whose notes held before stays refused where no candidate maps a fresh point; its notes
//!    grow by the reasons of the attempts that map one.
//! 3. Looking again isn't a trial: it looks for no least candidate. A pair that isn't kept is forgotten, and
//!    its line is tried again at its class.

ghost use Rattle.std.specs.Prelude.{ℕ, ◌≡◌, ◌≢◌, ◌⊎◌, ◌≤◌, ◌<◌, All, IsSome, Some, true, false, IfOk, OnOk, Vec, length, slice_index_or};
ghost use Rattle.std.specs.Global.{Global};
ghost use Rattle.std.specs.BTreeMap.{get};
ghost use Rattle.rule_match.specs.declared.progress.Note.{Note};
ghost use Rattle.std.specs.List.{AllByRecursion, Contains};
ghost use Rattle.front_chain.specs.Front.{line_at};
ghost use Rattle.rule_reader.specs.Normal.{IsRule};
ghost use Rattle.rule_match.specs.Refused.{IsRefusedBy};
ghost use Rattle.mesh_run.specs.Remembered.{HasEntryOf, setting_in, state_in};
ghost use Rattle.mesh_run.specs.Kept.{AreEndsFresh, AreFreshPoints, AreHeld, IsKeptTo, IsLookedAgain, IsLowered, IsNotedAt, IsOwnClass, WasRefused, WereRefused};
ghost use Rattle.mesh_run.specs.Worklist.{AreTriedAgain, turn_cmp};

use super::refusals::{LAST_CLASS, Notes, Refusals, Region, noted_at, reach_at};
use super::search::Scene;
use super::worklist::{Worklist, try_again};
use digital_tree::Entry;
use front_chain::Front;
use rule_match::{Note, again, reach_box};
use std::alloc::{AllocError as OutOfMemory, Global};

/// What an application makes new: the points with numbers above `points`, and the lines with numbers
/// from `first` on.
#[derive(Clone, Copy, Debug)]
pub struct Change {
    pub points: u64,
    pub first: u64,
}

/// Adds the ends by which a line that has joined may give something to map: its new ends; where it has
/// none, an end that isn't one of the base line.
fn push_ends(
    fresh: &mut Vec<u64>,
    points: u64,
    ends: (u64, u64),
    base: (u64, u64),
) -> Result<(), OutOfMemory>
    ensures kept { (n : ℕ) → Contains fresh.old.items n → Contains fresh.new.items n }
    ensures start { OnOk result (points < ends.0 → Contains fresh.new.items ends.0) }
    ensures end { OnOk result (points < ends.1 → Contains fresh.new.items ends.1) }
    ensures one { OnOk result (Contains fresh.new.items ends.0 ⊎ Contains fresh.new.items ends.1) }
{
    let (from, to) = ends;
    if from > points {
        fresh.push(from)?;
    }
    if to > points {
        fresh.push(to)?;
    } else if from <= points {
        let inner = if from == base.0 || from == base.1 {
            to
        } else {
            from
        };
        fresh.push(inner)?;
    }
    Ok(())
}

/// Adds the points by which lines that have joined may give something to map.
fn push_joined(
    fresh: &mut Vec<u64>,
    front: &Front,
    change: &Change,
    base: (u64, u64),
) -> Result<(), OutOfMemory>
    ensures { OnOk result ((line : ℕ × ℕ × ℕ) → Contains front.now.lines line →
        change.now.first ≤ line.0 →
        AreEndsFresh change.now.points fresh.new.items (line.1, line.2)) }
{
    let _lines = front.lines();
    for number in change.first..front.next_number() {
        if let Some(ends) = front.line(number) {
            push_ends(fresh, change.points, ends, base)?;
        }
    }
    Ok(())
}

/// Adds the point beside a note whose line has left.
fn push_left(fresh: &mut Vec<u64>, front: &Front, note: &Note) -> Result<(), OutOfMemory>
    ensures kept { (n : ℕ) → Contains fresh.old.items n → Contains fresh.new.items n }
    ensures left { OnOk result (IsSome (line_at front.now.lines note.now.line)
        ⊎ Contains fresh.new.items note.now.point) }
{
    if front.line(note.line).is_none() {
        fresh.push(note.point)?;
    }
    Ok(())
}

/// The points by which a pair with these notes may have gained a candidate.
fn fresh_points(
    alloc: Global,
    front: &Front,
    change: &Change,
    base: (u64, u64),
    notes: &[Note],
) -> Result<Vec<u64>, OutOfMemory>
    ensures { IfOk result (λ fresh.
        AreFreshPoints front.now.lines change.now notes.now fresh.items) }
{
    let mut fresh = Vec::new(alloc);
    push_joined(&mut fresh, front, change, base)?;
    for note in notes {
        push_left(&mut fresh, front, note)?;
    }
    Ok(fresh)
}

/// Whether a front line that was refused at a class by notes stays refused there after a change. The
/// notes grow by what is seen, and those are dropped whose lines have left.
///
/// Errors: want of memory, and then it isn't known.
pub fn stays_refused(
    alloc: Global,
    scene: &Scene<'_, '_>,
    change: &Change,
    notes: &mut Vec<Note>,
    turn: (u32, u64),
) -> Result<bool, OutOfMemory>
    requires on_front { IsSome (line_at scene.now.front.now.lines turn.1) }
    requires class_least { 1 ≤ turn.0 }
    requires class_greatest { turn.0 ≤ 16 }
    requires rules { AllByRecursion IsRule scene.now.rules.now }
    requires was { WasRefused (setting_in scene.now) (state_in scene.now) change.now
        turn.1 turn.0 notes.old.items }
    ensures { IfOk result (λ yes. yes ≡ true →
        IsRefusedBy scene.now.sizes.now (state_in scene.now) scene.now.rules.now turn.1 turn.0
        notes.new.items) }
{
    let (class, line) = turn;
    let (front, sizes) = (scene.front, scene.sizes);
    let _lines = front.lines();
    // the line has a frame
    let _reach = reach_box(front, sizes, line, 0);
    let base = front.line(line).unwrap();
    let fresh = fresh_points(alloc, front, change, base, notes.as_slice())?;
    if again(alloc, front, sizes, scene.rules, line, class, &fresh, notes)? {
        return Ok(false);
    }
    notes.retain(|note| front.line(note.line).is_some());
    Ok(true)
}

/// Whether a pair of class and line that has notes stays refused: they are taken out, looked at, and put
/// back. Where this can't be known, or they can't be put back, for want of memory, it doesn't stay so.
fn is_kept(
    alloc: Global,
    scene: &Scene<'_, '_>,
    change: &Change,
    notes: &mut Notes,
    turn: (u32, u64),
) -> bool
    requires on_front { IsSome (line_at scene.now.front.now.lines turn.1) }
    requires class_least { 1 ≤ turn.0 }
    requires class_greatest { turn.0 ≤ 16 }
    requires rules { AllByRecursion IsRule scene.now.rules.now }
    requires was { (held : Vec Note Global) → get turn_cmp notes.old turn ≡ Some held →
        WasRefused (setting_in scene.now) (state_in scene.now) change.now turn.1 turn.0
        held.items }
    ensures others { (other : ℕ × ℕ) → other ≢ turn →
        get turn_cmp notes.new other ≡ get turn_cmp notes.old other }
    ensures kept { result ≡ true →
        IsNotedAt notes.new (setting_in scene.now) (state_in scene.now) turn.1 turn.0 }
{
    match notes.remove(&turn) {
        None => false,
        Some(mut held) => match stays_refused(alloc, scene, change, &mut held, turn) {
            Ok(true) => notes.insert(turn, held).is_ok(),
            _ => false,
        },
    }
}

/// Drops the notes of the line from a class on.
fn drop_notes(notes: &mut Notes, turn: (u32, u64))
    ensures { (line class : ℕ) → (line ≢ turn.1) ⊎ (class < turn.0) →
        get turn_cmp notes.new (class, line) ≡ get turn_cmp notes.old (class, line) }
{
    let (class, line) = turn;
    for n in class..LAST_CLASS + 1 {
        let _held = notes.remove(&(n, line));
    }
}

/// Forgets what is known of a line from a class on, and has it tried again from there.
fn lower(refusals: &mut Refusals, work: &mut Option<Worklist>, turn: (u32, u64))
    ensures lowered { IsLowered turn refusals.old refusals.new }
    ensures again { AreTriedAgain
        (record { least = refusals.old.least.items; work = work.old })
        (record { least = refusals.new.least.items; work = work.new }) }
{
    let (class, line) = turn;
    drop_notes(&mut refusals.notes, turn);
    if (class as u64) < noted_at(refusals.least.as_slice(), line) {
        refusals.least[line as usize] = class as u64;
        try_again(work, (class.max(1), line));
    }
}

/// Whether the class is one of the region's own, and its line is remembered as refused there.
fn is_own(refusals: &Refusals, region: Region, class: u32) -> bool
    requires { region.class ≤ class }
    ensures own { result ≡ true → IsOwnClass refusals.now.reaches.items region class
        × (class < slice_index_or refusals.now.least.items region.line 0) }
    ensures other { result ≡ false → IsOwnClass refusals.now.reaches.items region class →
        class < slice_index_or refusals.now.least.items region.line 0 → ⊥ }
{
    (class as u64) < noted_at(refusals.least.as_slice(), region.line)
        && reach_at(refusals, class) == reach_at(refusals, region.class)
}

/// The first of the region's own classes, as far as they are remembered, at which its front line doesn't
/// stay refused.
fn first_lost(
    alloc: Global,
    scene: &Scene<'_, '_>,
    change: &Change,
    refusals: &mut Refusals,
    region: Region,
) -> Option<u32>
    requires on_front { IsSome (line_at scene.now.front.now.lines region.line) }
    requires rules { AllByRecursion IsRule scene.now.rules.now }
    requires were { WereRefused refusals.old (setting_in scene.now) (state_in scene.now)
        change.now region }
    ensures least { refusals.new.least.items ≡ refusals.old.least.items }
    ensures reaches { refusals.new.reaches.items ≡ refusals.old.reaches.items }
    ensures regions { refusals.new.regions.entries ≡ refusals.old.regions.entries }
    ensures kept { IsKeptTo (setting_in scene.now) (state_in scene.now) region
        refusals.old refusals.new result }
{
    for n in region.class.max(1)..LAST_CLASS + 1 {
        if is_own(refusals, region, n)
            && !is_kept(alloc, scene, change, &mut refusals.notes, (n, region.line))
        {
            return Some(n);
        }
    }
    None
}

/// Looks again at the line of a region, at each of its own classes. From the first one on at which it
/// doesn't stay refused what is known of it is forgotten; where it has left the front, from the region's.
fn look_at(
    alloc: Global,
    scene: &Scene<'_, '_>,
    change: &Change,
    refusals: &mut Refusals,
    work: &mut Option<Worklist>,
    region: Region,
)
    requires rules { AllByRecursion IsRule scene.now.rules.now }
    requires reaches { length refusals.old.reaches.items ≡ 17 }
    requires were { WereRefused refusals.old (setting_in scene.now) (state_in scene.now)
        change.now region }
    ensures held { AreHeld (setting_in scene.now) (state_in scene.now) refusals.old refusals.new }
    ensures kept { (line : ℕ) → (slice_index_or refusals.new.least.items line 0
        ≡ slice_index_or refusals.old.least.items line 0) ⊎ (region.line ≡ line) }
    ensures looked { IsLookedAgain refusals.new (setting_in scene.now) (state_in scene.now) region }
    ensures again { AreTriedAgain
        (record { least = refusals.old.least.items; work = work.old })
        (record { least = refusals.new.least.items; work = work.new }) }
{
    if scene.front.line(region.line).is_none() {
        return lower(refusals, work, (region.class, region.line));
    }
    if let Some(class) = first_lost(alloc, scene, change, refusals, region) {
        lower(refusals, work, (class, region.line));
    }
}

/// Looks again at the lines of these entries, after a change.
pub fn look_at_all(
    alloc: Global,
    scene: &Scene<'_, '_>,
    change: &Change,
    refusals: &mut Refusals,
    work: &mut Option<Worklist>,
    hits: &[Entry<Region>],
)
    requires rules { AllByRecursion IsRule scene.now.rules.now }
    requires reaches { length refusals.old.reaches.items ≡ 17 }
    requires were { All (λ e. WereRefused refusals.old (setting_in scene.now)
        (state_in scene.now) change.now e.value) hits.now }
    ensures held { AreHeld (setting_in scene.now) (state_in scene.now) refusals.old refusals.new }
    ensures kept { (line : ℕ) → (slice_index_or refusals.new.least.items line 0
        ≡ slice_index_or refusals.old.least.items line 0) ⊎ HasEntryOf hits.now line }
    ensures looked { All (λ e. IsLookedAgain refusals.new (setting_in scene.now)
        (state_in scene.now) e.value) hits.now }
    ensures again { AreTriedAgain
        (record { least = refusals.old.least.items; work = work.old })
        (record { least = refusals.new.least.items; work = work.new }) }
{
    for hit in hits {
        look_at(alloc, scene, change, refusals, work, hit.value);
    }
}
