// The classes and lines that a run still has to try, in the order in which they are tried.
ghost use Rattle.std.specs.Prelude.{ℕ, ◌≡◌, ◌+◌, ◌-◌, ◌<◌, ◌≤◌, ◌↔◌, false, [], ◌∷◌, IsTrue, IfOk, IfSome, IfNone, OnOk};
ghost use Rattle.std.specs.BTreeSet.{IsLowerBound, Updates};
ghost use Rattle.mesh_run.specs.Worklist.{AreToTry, AreTriedFirst, IsOpenTurn, IsToTry, IsTriedAgain, least_open, tries_left, turn_cmp};

use super::refusals::{Refusals, noted_at};
use super::search::Scene;
use std::alloc::{AllocError as OutOfMemory, Global};
use std::collections::BTreeSet;

/// Classes and lines to try, in the order in which they are tried: by class, then by line.
pub type Worklist = BTreeSet<(u32, u64)>;

/// A worklist is made anew where it has more turns than so many for each front line, and so many more.
const TURNS_A_LINE: u64 = 4;

const TURNS_MORE: u64 = 64;

/// The least class at which a line may have a candidate.
fn least_open(refusals: &Refusals, line: u64) -> u64
    ensures { result ≡ least_open refusals.now.least.items line }
{
    noted_at(refusals.least.as_slice(), line).max(1)
}

/// Whether the line is on the front, and isn't remembered as refused at the class.
pub fn is_open(scene: &Scene<'_, '_>, refusals: &Refusals, turn: (u32, u64)) -> bool
    ensures { IsTrue result ↔ IsOpenTurn scene.now.front.now.lines refusals.now.least.items
        scene.now.last turn }
{
    let (class, line) = turn;
    least_open(refusals, line) <= class as u64
        && class <= scene.last
        && scene.front.line(line).is_some()
}

/// Takes the first turn off the worklist.
pub fn take_first(work: &mut Worklist) -> Option<(u32, u64)>
    ensures first { IfSome result (IsLowerBound turn_cmp work.old) }
    ensures taken { IfSome result (λ turn. work.old.keys ≡ turn ∷ work.new.keys) }
    ensures others { IfSome result (λ turn. Updates turn_cmp work.old work.new turn false) }
    ensures empty { IfNone result (work.old.keys ≡ []) }
    ensures unchanged { IfNone result (work.new.keys ≡ work.old.keys) }
{
    work.pop_first()
}

/// Adds a front line at the least class that is open to it, if that is one that is tried.
#[tactic(auto, using(crate::proofs::Turns::stays_on))]
fn add_line(
    work: &mut Worklist,
    scene: &Scene<'_, '_>,
    refusals: &Refusals,
    line: u64,
) -> Result<(), OutOfMemory>
    ensures stay { (turn : ℕ × ℕ) → IsToTry work.old turn → IsToTry work.new turn }
    ensures added { OnOk result (least_open refusals.now.least.items line ≤ scene.now.last
        → IsToTry work.new (least_open refusals.now.least.items line, line)) }
{
    let class = least_open(refusals, line);
    if class <= scene.last as u64 {
        work.insert((class as u32, line))?;
    }
    Ok(())
}

/// The worklist made anew, by one walk over the front.
fn worklist_of(
    alloc: Global,
    scene: &Scene<'_, '_>,
    refusals: &Refusals,
) -> Result<Worklist, OutOfMemory>
    ensures { IfOk result (λ work. AreToTry work scene.now.front.now.lines
        refusals.now.least.items scene.now.last) }
{
    let front = scene.front;
    let _lines = front.lines();
    let mut work = BTreeSet::new(alloc);
    let mut next = front.next_line(0);
    while let Some(line) = next {
        add_line(&mut work, scene, refusals, line)?;
        next = front.next_line(line);
    }
    Ok(work)
}

/// The worklist that is known; or made anew, where none is or it has grown long beside the front.
pub fn worklist_from(
    alloc: Global,
    scene: &Scene<'_, '_>,
    refusals: &Refusals,
    known: Option<Worklist>,
) -> Result<Worklist, OutOfMemory>
    requires known { IfSome known (λ work. AreToTry work scene.now.front.now.lines
        refusals.now.least.items scene.now.last) }
    ensures { IfOk result (λ work. AreToTry work scene.now.front.now.lines
        refusals.now.least.items scene.now.last) }
{
    if let Some(work) = known {
        let most = scene.front.lines().saturating_mul(TURNS_A_LINE);
        if work.len() as u64 <= most.saturating_add(TURNS_MORE) {
            return Ok(work);
        }
    }
    worklist_of(alloc, scene, refusals)
}

/// Puts the line of a turn on the worklist at the next class, if that is tried.
#[tactic(auto, using(crate::proofs::Turns::moved_fewer))]
pub fn move_on(work: &mut Worklist, turn: (u32, u64), last: u32) -> Result<(), OutOfMemory>
    requires within { turn.0 ≤ last }
    ensures stay { (other : ℕ × ℕ) → IsToTry work.old other → IsToTry work.new other }
    ensures next { OnOk result (turn.0 < last → IsToTry work.new (turn.0 + 1, turn.1)) }
    ensures fewer { tries_left last work.new.keys
        < 1 + (last - turn.0) + tries_left last work.old.keys }
{
    if turn.0 < last {
        work.insert((turn.0 + 1, turn.1))?;
    }
    Ok(())
}

/// Puts a turn on the worklist. Where there is no memory for it, what is to be tried isn't known any more,
/// and the next search makes the worklist anew.
#[tactic(auto, using(crate::proofs::Tried::put_on))]
pub fn try_again(known: &mut Option<Worklist>, turn: (u32, u64))
    ensures { IsTriedAgain turn known.old known.new }
{
    if let Some(work) = known {
        if let Ok(_) = work.insert(turn) {
            return;
        }
    }
    *known = None;
}

/// Puts the lines from one number up to another on the worklist at the first class.
pub fn try_first(known: &mut Option<Worklist>, from: u64, to: u64)
    ensures { AreTriedFirst from to known.old known.new }
{
    for line in from..to {
        try_again(known, (1, line));
    }
}
