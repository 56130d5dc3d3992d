// The search for the application that comes next, along the worklist.
ghost use Rattle.std.specs.Prelude.{◌+◌, ◌-◌, ◌<◌, ◌≤◌, IfOk, IfSome, IfNone, OnOk};
ghost use Rattle.mesh_run.specs.Steps.{IsNext, NothingApplies};
ghost use Rattle.mesh_run.specs.Remembered.{AreTrue, setting_in, state_in};
ghost use Rattle.mesh_run.specs.Trials.{due_in};
ghost use Rattle.mesh_run.specs.Worklist.{AreRefusedBefore, AreToTry, AreToTryBut, IsOpenTurn, least_open, tries_left};

use super::Application;
use super::refusals::{Refusals, remember};
use super::worklist::{Worklist, is_open, move_on, take_first, worklist_from};
use front_chain::Front;
use rule_maps::RuleSet;
use rule_match::best_noted;
use size_field::Sizes;
use std::alloc::{AllocError as OutOfMemory, Global};
use std::sync::ledger::Ledger;
use steps::Steps;

/// What is searched: a front, with the sizes and the rules by which it is meshed, up to the last class.
#[derive(Clone, Copy)]
pub struct Scene<'f, 'a> {
    pub front: &'f Front,
    pub sizes: &'f Sizes,
    pub rules: &'a RuleSet<'a>,
    /// The last quality class that is tried.
    pub last: u32,
}

/// The application of the least candidate of a turn's line at its class, and then the turn is put on the
/// worklist again. That there is none is remembered, and the line's turn is then at the next class.
fn try_turn<L: Ledger>(
    alloc: Global,
    scene: &Scene<'_, '_>,
    refusals: &mut Refusals,
    work: &mut Worklist,
    turn: (u32, u64),
    steps: &mut Steps<L>,
) -> Result<Option<Application>, OutOfMemory>
    requires last_class { scene.now.last ≤ 16 }
    requires open { IsOpenTurn scene.now.front.now.lines refusals.old.least.items
        scene.now.last turn }
    requires first { turn.0 ≤ least_open refusals.old.least.items turn.1 }
    requires before { AreRefusedBefore (setting_in scene.now) (state_in scene.now) turn }
    requires remembered { AreTrue refusals.old (setting_in scene.now) (state_in scene.now) }
    requires to_try { AreToTryBut turn work.old scene.now.front.now.lines
        refusals.old.least.items scene.now.last }
    ensures remembered { AreTrue refusals.new (setting_in scene.now) (state_in scene.now) }
    ensures to_try { OnOk result (AreToTry work.new scene.now.front.now.lines
        refusals.new.least.items scene.now.last) }
    ensures next { IfOk result (λ found. IfSome found
        (IsNext (setting_in scene.now) (state_in scene.now))) }
    ensures fewer { IfOk result (λ found. IfNone found (tries_left scene.now.last work.new.keys
        < 1 + (scene.now.last - turn.0) + tries_left scene.now.last work.old.keys)) }
    ensures few { steps.new ≤ steps.old + due_in scene.now refusals.old }
    ensures found { OnOk result (steps.new + due_in scene.now refusals.new
        ≤ steps.old + due_in scene.now refusals.old + 1) }
    ensures refused { IfOk result (λ found. IfNone found
        (steps.new + due_in scene.now refusals.new
        ≤ steps.old + due_in scene.now refusals.old)) }
{
    let (class, line) = turn;
    let (front, sizes) = (scene.front, scene.sizes);
    let mut notes = Vec::new(alloc);
    let found = best_noted(
        alloc,
        front,
        sizes,
        scene.rules,
        line,
        class,
        steps,
        &mut notes,
    )?;
    if found.is_some() {
        work.insert(turn)?;
        return Ok(found);
    }
    remember(scene, refusals, class, line, notes)?;
    move_on(work, turn, scene.last)?;
    Ok(None)
}

/// The application that comes next: that of the first turn on the worklist at which there is one. Turns
/// that aren't open any more are dropped.
///
/// Errors: want of memory, and then the worklist isn't one any more.
fn next_in<L: Ledger>(
    alloc: Global,
    scene: &Scene<'_, '_>,
    refusals: &mut Refusals,
    work: &mut Worklist,
    steps: &mut Steps<L>,
) -> Result<Option<Application>, OutOfMemory>
    requires last_class { scene.now.last ≤ 16 }
    requires remembered { AreTrue refusals.old (setting_in scene.now) (state_in scene.now) }
    requires to_try { AreToTry work.old scene.now.front.now.lines refusals.old.least.items
        scene.now.last }
    ensures remembered { AreTrue refusals.new (setting_in scene.now) (state_in scene.now) }
    ensures to_try { OnOk result (AreToTry work.new scene.now.front.now.lines
        refusals.new.least.items scene.now.last) }
    ensures next { IfOk result (λ found. IfSome found
        (IsNext (setting_in scene.now) (state_in scene.now))) }
    ensures none { IfOk result (λ found. IfNone found
        (NothingApplies (setting_in scene.now) (state_in scene.now))) }
    ensures few { steps.new ≤ steps.old + due_in scene.now refusals.old }
    ensures found { OnOk result (steps.new + due_in scene.now refusals.new
        ≤ steps.old + due_in scene.now refusals.old + 1) }
    ensures refused { IfOk result (λ found. IfNone found
        (steps.new + due_in scene.now refusals.new
        ≤ steps.old + due_in scene.now refusals.old)) }
{
    let _lines = scene.front.lines();
    while let Some(turn) = take_first(work) {
        if is_open(scene, refusals, turn) {
            let found = try_turn(alloc, scene, refusals, work, turn, steps)?;
            if found.is_some() {
                return Ok(found);
            }
        }
    }
    Ok(None)
}

/// The application that comes next. Where it isn't known what is to be tried, this is found first.
///
/// Errors: want of memory, and then it isn't known any more what is to be tried.
pub fn find_next<L: Ledger>(
    alloc: Global,
    scene: &Scene<'_, '_>,
    refusals: &mut Refusals,
    known: &mut Option<Worklist>,
    steps: &mut Steps<L>,
) -> Result<Option<Application>, OutOfMemory>
    requires last_class { scene.now.last ≤ 16 }
    requires remembered { AreTrue refusals.old (setting_in scene.now) (state_in scene.now) }
    requires to_try { IfSome known.old (λ work. AreToTry work scene.now.front.now.lines
        refusals.old.least.items scene.now.last) }
    ensures remembered { AreTrue refusals.new (setting_in scene.now) (state_in scene.now) }
    ensures to_try { IfSome known.new (λ work. AreToTry work scene.now.front.now.lines
        refusals.new.least.items scene.now.last) }
    ensures next { IfOk result (λ found. IfSome found
        (IsNext (setting_in scene.now) (state_in scene.now))) }
    ensures none { IfOk result (λ found. IfNone found
        (NothingApplies (setting_in scene.now) (state_in scene.now))) }
    ensures few { steps.new ≤ steps.old + due_in scene.now refusals.old }
    ensures found { OnOk result (steps.new + due_in scene.now refusals.new
        ≤ steps.old + due_in scene.now refusals.old + 1) }
    ensures refused { IfOk result (λ found. IfNone found
        (steps.new + due_in scene.now refusals.new
        ≤ steps.old + due_in scene.now refusals.old)) }
{
    let mut work = worklist_from(alloc, scene, refusals, known.take())?;
    let found = next_in(alloc, scene, refusals, &mut work, steps)?;
    *known = Some(work);
    Ok(found)
}
