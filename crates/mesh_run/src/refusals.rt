// What a run remembers of lines that have no candidate.
ghost use Rattle.std.specs.Prelude.{ℕ, ◌≡◌, ◌+◌, ◌-◌, ◌<◌, ◌≤◌, Some, length, slice_index_or, IsSome, IsTrue, IfOk, OnOk, OnErr};
ghost use Rattle.std.specs.List.{Contains};
ghost use Rattle.digital_tree.specs.declared.Entry.{Entry};
ghost use Rattle.front_chain.specs.Front.{line_at};
ghost use Rattle.rule_match.specs.Least.{HasNone};
ghost use Rattle.rule_match.specs.Refused.{IsRefusedBy};
ghost use Rattle.mesh_run.specs.Remembered.{AreCovering, AreSameRefusals, AreStill, AreTrue, HasRegion, IsEmpty, IsNoted, IsOfLine, setting_in, state_in};
ghost use Rattle.mesh_run.specs.Trials.{due_in};
ghost use Rattle.mesh_run.specs.Worklist.{IsOpenTurn, least_open};

use super::search::Scene;
use digital_tree::Tree;
use rule_maps::RuleSet;
use rule_match::{Note, greatest_reach_at, reach_box};
use std::alloc::{AllocError as OutOfMemory, Global};
use std::collections::BTreeMap;

/// What was looked at to refuse a line: where nothing changes in the box of a region, the line has no
/// candidate from the region's class on, as far as is remembered.
#[derive(Clone, Copy, Debug)]
pub struct Region {
    pub line: u64,
    pub class: u32,
}

/// What a run remembers of lines that have no candidate.
#[derive(Drop)]
pub struct Refusals {
    /// By line number, the least class at which the line may have a candidate, 0 where it isn't known.
    pub least: Vec<u64>,
    /// By class, a reach that covers the rules up to the class, in frame heights.
    pub reaches: Vec<u64>,
    /// The boxes of what was looked at.
    pub regions: Tree<Region>,
    /// Why lines are refused at classes, as far as it was noted.
    pub notes: Notes,
}

/// By class and line, the notes of a refusal: front lines that hinder attempts, each beside a mapped point.
pub type Notes = BTreeMap<(u32, u64), Vec<Note>>;

/// A run tries classes up to this one at most.
pub const LAST_CLASS: u32 = 16;

/// By class, how far the rules reach up to it: no farther than at all classes.
pub fn reaches_of(alloc: Global, rules: &RuleSet<'_>) -> Result<Vec<u64>, OutOfMemory>
    ensures { IfOk result (λ reaches. AreCovering rules.now reaches.items) }
{
    let mut reaches = Vec::new(alloc);
    for class in 0..LAST_CLASS + 1 {
        reaches.push(greatest_reach_at(alloc, rules, class)?)?;
    }
    Ok(reaches)
}

/// Nothing is remembered.
pub fn no_refusals(alloc: Global, reaches: &[u64]) -> Result<Refusals, OutOfMemory>
    ensures { IfOk result (IsEmpty reaches.now) }
{
    Ok(Refusals {
        least: Vec::new(alloc),
        reaches: reaches.to_vec(alloc)?,
        regions: Tree::new(alloc),
        notes: BTreeMap::new(alloc),
    })
}

/// Nothing is remembered any more.
pub fn forget_all(alloc: Global, refusals: &mut Refusals)
    ensures { IsEmpty refusals.old.reaches.items refusals.new }
{
    refusals.least = Vec::new(alloc);
    refusals.regions = Tree::new(alloc);
    refusals.notes = BTreeMap::new(alloc);
}

/// Makes the table so long that the place is in it. What stands in it stays.
fn lengthen(table: &mut Vec<u64>, place: u64) -> Result<(), OutOfMemory>
    ensures same { AreSameRefusals table.old.items table.new.items }
    ensures long { OnOk result (place < length table.new.items) }
{
    while table.len() as u64 <= place {
        table.push(0)?;
    }
    Ok(())
}

/// Writes the number at the place.
fn note(table: &mut Vec<u64>, place: u64, number: u64) -> Result<(), OutOfMemory>
    ensures noted { IsNoted table.old.items table.new.items place number }
    ensures there { OnOk result (slice_index_or table.new.items place 0 ≡ number) }
    ensures same { OnErr result (AreSameRefusals table.old.items table.new.items) }
{
    lengthen(table, place)?;
    table[place as usize] = number;
    Ok(())
}

/// The number at the place, 0 where there is none.
pub fn noted_at(table: &[u64], place: u64) -> u64
    ensures { result ≡ slice_index_or table.now place 0 }
{
    if (place as usize) < table.len() {
        table[place as usize]
    } else {
        0
    }
}

/// The reach that covers the rules up to the class.
pub fn reach_at(refusals: &Refusals, class: u32) -> u64
    ensures { result ≡ slice_index_or refusals.now.reaches.items class 0 }
{
    noted_at(refusals.reaches.as_slice(), class as u64)
}

/// Whether the rules reach no farther up to the class than up to the class before, that of a class which
/// is tried.
fn is_no_farther(refusals: &Refusals, class: u32) -> bool
    ensures { IsTrue result → (2 ≤ class) × (slice_index_or refusals.now.reaches.items (class - 1) 0
        ≡ slice_index_or refusals.now.reaches.items class 0) }
{
    class >= 2 && reach_at(refusals, class - 1) == reach_at(refusals, class)
}

/// Holds the region of a line at the first class that isn't remembered of it. Where rules reach no
/// farther than up to the class before, the region of that class is this one too.
fn hold(
    scene: &Scene<'_, '_>,
    refusals: &mut Refusals,
    class: u32,
    line: u64,
) -> Result<(), OutOfMemory>
    requires on_front { IsSome (line_at scene.now.front.now.lines line) }
    requires last_class { class ≤ 16 }
    requires first { class ≤ least_open refusals.old.least.items line }
    requires remembered { AreTrue refusals.old (setting_in scene.now) (state_in scene.now) }
    ensures least { refusals.new.least.items ≡ refusals.old.least.items }
    ensures reaches { refusals.new.reaches.items ≡ refusals.old.reaches.items }
    ensures notes { refusals.new.notes ≡ refusals.old.notes }
    ensures stay { AreStill refusals.old.regions.entries refusals.new.regions.entries }
    ensures own { (e : Entry Region) → Contains refusals.new.regions.entries e →
        IsOfLine refusals.new.reaches.items scene.now.sizes.now (state_in scene.now) e }
    ensures held { OnOk result ((ends : ℕ × ℕ) →
        line_at scene.now.front.now.lines line ≡ Some ends →
        HasRegion refusals.new scene.now.sizes.now scene.now.front.now.points
        (line, ends.0, ends.1) class) }
{
    let _lines = scene.front.lines();
    if is_no_farther(refusals, class) {
        return Ok(());
    }
    let reach = reach_at(refusals, class);
    let bounds = reach_box(scene.front, scene.sizes, line, reach);
    refusals.regions.insert(bounds, Region { line, class })?;
    Ok(())
}

/// Remembers that a front line has no candidate up to a class, the first one that isn't remembered of it,
/// with the notes by which it is refused there.
pub fn remember(
    scene: &Scene<'_, '_>,
    refusals: &mut Refusals,
    class: u32,
    line: u64,
    notes: Vec<Note>,
) -> Result<(), OutOfMemory>
    requires on_front { IsSome (line_at scene.now.front.now.lines line) }
    requires last_class { class ≤ 16 }
    requires first { class ≤ least_open refusals.old.least.items line }
    requires none { (n : ℕ) → 1 ≤ n → n ≤ class → HasNone scene.now.sizes.now
        (state_in scene.now) scene.now.rules.now line n }
    requires refused { IsRefusedBy scene.now.sizes.now (state_in scene.now) scene.now.rules.now
        line class notes.items }
    requires remembered { AreTrue refusals.old (setting_in scene.now) (state_in scene.now) }
    ensures remembered { AreTrue refusals.new (setting_in scene.now) (state_in scene.now) }
    ensures noted { IsNoted refusals.old.least.items refusals.new.least.items line (class + 1) }
    ensures there { OnOk result (slice_index_or refusals.new.least.items line 0 ≡ class + 1) }
    ensures fewer { OnOk result (IsOpenTurn scene.now.front.now.lines refusals.old.least.items
        scene.now.last (class, line) →
        due_in scene.now refusals.new + 1 ≤ due_in scene.now refusals.old) }
    ensures as_many { OnErr result (due_in scene.now refusals.new
        ≡ due_in scene.now refusals.old) }
{
    let _lines = scene.front.lines();
    hold(scene, refusals, class, line)?;
    if let Err(_) = refusals.notes.insert((class, line), notes) {
        return Err(OutOfMemory);
    }
    note(&mut refusals.least, line, class as u64 + 1)
}
