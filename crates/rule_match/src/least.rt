//! The least candidate of a line at a class, over all live rules of quality at most the class.
//!
//! 1. Where no rule may apply at the class, nothing is looked at.
//! 2. The base line's frame and its surroundings are the same for all rules, and are gathered once.
//! 3. Rule after rule is passed: what is found is the least of the candidates by the rules so far, so a
//!    find that comes after it is never judged.

ghost use Rattle.std.specs.Prelude.{◌≡◌, ◌+◌, ◌-◌, ◌≤◌, length, true, false, IsSome, None, IfOk, IfSome, IfNone, OnOk, OnErr};
ghost use Rattle.std.specs.List.{AllByRecursion};
ghost use Rattle.state_law.specs.State.{IsListed, corners_of};
ghost use Rattle.rule_maps.specs.Inert.{IsLive};
ghost use Rattle.front_chain.specs.Front.{line_at, state_of};
ghost use Rattle.rule_match.specs.Candidate.{Attempt, IsCandidate};
ghost use Rattle.rule_match.specs.Applied.{application};
ghost use Rattle.rule_match.specs.Least.{HasNone, rank};
ghost use Rattle.rule_match.specs.Best.{IsBest};
ghost use Rattle.rule_match.specs.Idle.{NoneApplies, SomeMayApply};
ghost use Rattle.rule_match.specs.Passed.{IsOn, IsFind, IsSoFar, NoneMayApply, state_at};
ghost use Rattle.rule_match.specs.Refused.{IsRefusedBy};
ghost use Rattle.rule_match.specs.Walk.{BeginsWith};

use super::application::Application;
use super::around::Scope;
use super::base::Base;
use super::few_points::FewPoints;
use super::found::Found;
use super::making::{all_numbers, made_points, numbered_elements};
use super::progress::{Note, Progress};
use super::rule_search::try_rule;
use front_chain::Front;
use grid_geom::Points;
use list_of::List;
use rule_maps::{Compiled, RuleSet};
use size_field::Sizes;
use std::alloc::{AllocError, Global};
use std::sync::ledger::Ledger;
use steps::Steps;

/// Whether the rule may apply at the class: it is live, and its quality is at most the class.
pub(crate) fn may_apply(rule: &Compiled<'_>, class: u32) -> bool
    ensures live { result ≡ true → IsLive rule.now }
    ensures quality { result ≡ true → rule.now.quality ≤ class }
    ensures never { result ≡ false → IsLive rule.now → rule.now.quality ≤ class → ⊥ }
{
    rule.inert().is_none() && rule.rule().quality <= class
}

/// Whether some rule may apply at the class or below it: it is live, and its quality is at most the class.
/// Where none may, no line of any front has a candidate there. Source: NETGEN tries a rule from its
/// quality on (Schoeberl 1997).
pub fn some_may_apply(rules: &RuleSet<'_>, class: u32) -> bool
    ensures some { result ≡ true → SomeMayApply class rules.now }
    ensures none { result ≡ false → NoneApplies class rules.now }
    ensures none_may { result ≡ false → NoneMayApply class rules.now (length rules.now) }
{
    for position in 0..rules.count() {
        if may_apply(rules.get(position + 1), class) {
            return true;
        }
    }
    false
}

/// Passes the rule with the number, where it may apply at the class.
fn pass_rule(
    alloc: Global,
    base: &Base<'_>,
    rules: &RuleSet<'_>,
    number: usize,
    progress: &mut Progress,
) -> Result<(), AllocError>
    requires first { 1 ≤ number }
    requires last { number ≤ length rules.now }
    requires so_far { IsSoFar base.now rules.now (number - 1) progress.old }
    ensures so_far { OnOk result (IsSoFar base.now rules.now number progress.new) }
    ensures kept { OnOk result (BeginsWith progress.new.notes.items progress.old.notes.items) }
{
    let _near = base.near();
    let rule = rules.get(number);
    if may_apply(rule, base.class()) {
        try_rule(alloc, base, rule, number, progress)?;
    }
    Ok(())
}

/// Passes all rules.
fn pass_rules(
    alloc: Global,
    base: &Base<'_>,
    rules: &RuleSet<'_>,
    progress: &mut Progress,
) -> Result<(), AllocError>
    requires { progress.old.best ≡ None }
    ensures so_far { OnOk result (IsSoFar base.now rules.now (length rules.now) progress.new) }
    ensures kept { OnOk result (BeginsWith progress.new.notes.items progress.old.notes.items) }
{
    for position in 0..rules.count() {
        pass_rule(alloc, base, rules, position + 1, progress)?;
    }
    Ok(())
}

/// The places of the front's points with these numbers.
fn places_of(alloc: Global, front: &Front, numbers: &[u64]) -> FewPoints
    requires few { length numbers.now ≤ 16 }
    requires listed { AllByRecursion (IsListed (length front.now.points)) numbers.now }
    ensures { result ≡ corners_of front.now.points numbers.now }
{
    let mut places = FewPoints::new(alloc);
    for number in numbers {
        places.push(front.point(*number));
    }
    places
}

/// The application that a find gives.
fn application_of(
    alloc: Global,
    base: &Base<'_>,
    rules: &RuleSet<'_>,
    found: &Found,
) -> Result<Application, AllocError>
    requires { IsFind base.now rules.now found.now }
    ensures { IfOk result (λ a. (t : Attempt) → IsOn base.now rules.now t →
        IsCandidate (state_at base.now) t →
        found.now ≡ rank (state_at base.now) t → a ≡ application (state_at base.now) t) }
{
    let (front, rule) = (base.front(), rules.get(found.rule));
    let text = rule.rule();
    let points = found.points.as_slice();
    let mapped = places_of(alloc, front, points);
    let made = made_points(alloc, rule, base.frame(), mapped.as_slice()).unwrap();
    let numbers = all_numbers(alloc, points, front.points(), made.as_slice())?;
    let elements = numbered_elements(alloc, &numbers, text.elements.as_slice())?;
    Ok(Application {
        class: base.class(),
        line: base.line(),
        rule: found.rule,
        points: List::from_vec(points.to_vec(alloc)?),
        made: Points::from_vec(made.as_slice().to_vec(alloc)?),
        elements: List::from_vec(elements),
    })
}

/// The application of the least candidate of the line at the class. Where there is none, the reasons
/// are noted if they are asked for.
fn search_line(
    alloc: Global,
    front: &Front,
    sizes: &Sizes,
    rules: &RuleSet<'_>,
    line: u64,
    class: u32,
    noting: bool,
    progress: &mut Progress,
) -> Result<Option<Application>, AllocError>
    requires on_front { IsSome (line_at front.now.lines line) }
    requires class_least { 1 ≤ class }
    requires class_greatest { class ≤ 16 }
    requires nothing { progress.old.best ≡ None }
    ensures least { IfOk result (λ found.
        IfSome found (IsBest sizes.now (state_of front.now) rules.now line class)) }
    ensures none { IfOk result (λ found.
        IfNone found (HasNone sizes.now (state_of front.now) rules.now line class)) }
    ensures kept { OnOk result (BeginsWith progress.new.notes.items progress.old.notes.items) }
    ensures noted { noting ≡ true → IfOk result (λ found. IfNone found
        (IsRefusedBy sizes.now (state_of front.now) rules.now line class
        progress.new.notes.items)) }
{
    if !some_may_apply(rules, class) {
        return Ok(None);
    }
    let whole = Scope {
        whole: true,
        these: Vec::new(alloc),
    };
    let base = Base::new(alloc, front, sizes, line, class, whole, noting)?;
    pass_rules(alloc, &base, rules, progress)?;
    match &progress.best {
        None => Ok(None),
        Some(found) => Ok(Some(application_of(alloc, &base, rules, found)?)),
    }
}

/// The application of the least candidate of the line at the class; None exactly where there is none.
/// Each call is one step.
///
/// Errors: want of memory.
pub fn best<L: Ledger>(
    alloc: Global,
    front: &Front,
    sizes: &Sizes,
    rules: &RuleSet<'_>,
    line: u64,
    class: u32,
    steps: &mut Steps<L>,
) -> Result<Option<Application>, AllocError>
    requires on_front { IsSome (line_at front.now.lines line) }
    requires class_least { 1 ≤ class }
    requires class_greatest { class ≤ 16 }
    ensures least { IfOk result (λ found.
        IfSome found (IsBest sizes.now (state_of front.now) rules.now line class)) }
    ensures none { IfOk result (λ found.
        IfNone found (HasNone sizes.now (state_of front.now) rules.now line class)) }
    ensures counted { steps.new ≡ steps.old + 1 }
{
    steps.count();
    let mut progress = Progress {
        best: None,
        notes: Vec::new(alloc),
    };
    search_line(
        alloc,
        front,
        sizes,
        rules,
        line,
        class,
        false,
        &mut progress,
    )
}

/// As `best`; and where there is no candidate the notes hold the reasons, so that the line is refused at
/// the class until a front line that is noted leaves or a front point comes near. What is noted where
/// something is found is of no use. After want of memory the notes are as before.
///
/// Errors: want of memory.
pub fn best_noted<L: Ledger>(
    alloc: Global,
    front: &Front,
    sizes: &Sizes,
    rules: &RuleSet<'_>,
    line: u64,
    class: u32,
    steps: &mut Steps<L>,
    notes: &mut Vec<Note>,
) -> Result<Option<Application>, AllocError>
    requires on_front { IsSome (line_at front.now.lines line) }
    requires class_least { 1 ≤ class }
    requires class_greatest { class ≤ 16 }
    ensures least { IfOk result (λ found.
        IfSome found (IsBest sizes.now (state_of front.now) rules.now line class)) }
    ensures none { IfOk result (λ found.
        IfNone found (HasNone sizes.now (state_of front.now) rules.now line class)) }
    ensures kept { BeginsWith notes.new.items notes.old.items }
    ensures unchanged { OnErr result (notes.new.items ≡ notes.old.items) }
    ensures noted { IfOk result (λ found. IfNone found
        (IsRefusedBy sizes.now (state_of front.now) rules.now line class notes.new.items)) }
    ensures counted { steps.new ≡ steps.old + 1 }
{
    steps.count();
    let mut progress = Progress {
        best: None,
        notes: Vec::new(alloc),
    };
    let found = search_line(alloc, front, sizes, rules, line, class, true, &mut progress)?;
    notes.append(&mut progress.notes)?;
    Ok(found)
}
