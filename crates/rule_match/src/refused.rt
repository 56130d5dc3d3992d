//! Whether a line that was refused at a class has a candidate that maps one of given points.
//!
//! 1. After an application a refused line can gain candidates only by points that came near, or where a
//!    front line that was noted left: such a candidate maps a new point, or one that was noted beside
//!    the line.
//! 2. So only assignments that map one of these points are passed, and the notes grow by their reasons.
//! 3. Of a rule that maps three points such an assignment maps the line's ends and the fresh point. Where
//!    no rule maps more, nothing else is gathered.

ghost use Rattle.std.specs.Prelude.{◌≡◌, ◌≤◌, ◌-◌, ℕ, List, length, true, false, IsSome, None, IfOk, OnOk, OnErr};
ghost use Rattle.front_chain.specs.Front.{line_at, state_of};
ghost use Rattle.rule_match.specs.Walk.{BeginsWith};
ghost use Rattle.rule_match.specs.Refused.{HasNoneAgain, HasOneAgain, IsRefusedAgain};
ghost use Rattle.rule_match.specs.Passed.{AreFreshAt, AreShort, DoFewSuffice, HoldsFew, IsAgainSoFar};

use super::around::Scope;
use super::base::Base;
use super::least::may_apply;
use super::progress::{Note, Progress};
use super::rule_search::try_rule_again;
use super::trying::point_near;
use front_chain::Front;
use rule_maps::RuleSet;
use size_field::Sizes;
use std::alloc::{AllocError, Global};

/// The positions of the near points that are fresh.
fn fresh_positions(alloc: Global, base: &Base<'_>, fresh: &[u64]) -> Result<Vec<usize>, AllocError>
    ensures { IfOk result (λ v. AreFreshAt base.now.near fresh.now v.items) }
{
    let near = base.near();
    let mut positions = Vec::new(alloc);
    for k in 0..near.len() {
        let number = point_near(near, k).number;
        if fresh.contains(&number) {
            positions.push(k)?;
        }
    }
    Ok(positions)
}

/// Passes the rule with the number, where it may apply at the class.
fn pass_rule_again(
    alloc: Global,
    base: &Base<'_>,
    rules: &RuleSet<'_>,
    number: usize,
    positions: &[usize],
    progress: &mut Progress,
) -> Result<(), AllocError>
    requires first { 1 ≤ number }
    requires last { number ≤ length rules.now }
    ensures so_far { OnOk result ((fresh : List ℕ) → AreFreshAt base.now.near fresh positions.now →
        IsAgainSoFar base.now rules.now (number - 1) fresh progress.old →
        IsAgainSoFar base.now rules.now number fresh progress.new) }
    ensures kept { OnOk result (BeginsWith progress.new.notes.items progress.old.notes.items) }
{
    let _near = base.near();
    let rule = rules.get(number);
    if may_apply(rule, base.class()) {
        try_rule_again(alloc, base, rule, number, positions, progress)?;
    }
    Ok(())
}

/// Passes all rules.
fn pass_rules_again(
    alloc: Global,
    base: &Base<'_>,
    rules: &RuleSet<'_>,
    fresh: &[u64],
    progress: &mut Progress,
) -> Result<(), AllocError>
    requires { progress.old.best ≡ None }
    ensures so_far { OnOk result
        (IsAgainSoFar base.now rules.now (length rules.now) fresh.now progress.new) }
    ensures kept { OnOk result (BeginsWith progress.new.notes.items progress.old.notes.items) }
{
    let positions = fresh_positions(alloc, base, fresh)?;
    for position in 0..rules.count() {
        pass_rule_again(alloc, base, rules, position + 1, &positions, progress)?;
    }
    Ok(())
}

/// Whether no rule that may apply at the class maps more than three points.
fn are_short(rules: &RuleSet<'_>, class: u32) -> bool
    ensures { result ≡ true → AreShort class rules.now (length rules.now) }
{
    for position in 0..rules.count() {
        let rule = rules.get(position + 1);
        if may_apply(rule, class) && rule.rule().points.as_slice().len() > 3 {
            return false;
        }
    }
    true
}

/// Whether an attempt on a line that maps a fresh point maps it and the line's ends alone: no end is fresh,
/// and no rule that may apply maps more than three points.
fn do_few_suffice(rules: &RuleSet<'_>, class: u32, ends: (u64, u64), fresh: &[u64]) -> bool
    ensures { result ≡ true → DoFewSuffice class rules.now ends fresh.now }
{
    if fresh.contains(&ends.0) || fresh.contains(&ends.1) {
        return false;
    }
    are_short(rules, class)
}

/// The points that attempts on a line may map that map a fresh point: the line's ends and the fresh points
/// alone, where few suffice; else all.
fn scope_of(
    alloc: Global,
    rules: &RuleSet<'_>,
    class: u32,
    ends: (u64, u64),
    fresh: &[u64],
) -> Result<Scope, AllocError>
    ensures { IfOk result (λ s. s.whole ≡ false →
        HoldsFew class rules.now ends fresh.now s.these.items) }
{
    let mut these = Vec::new(alloc);
    if !do_few_suffice(rules, class, ends, fresh) {
        return Ok(Scope { whole: true, these });
    }
    these.push(ends.0)?;
    these.push(ends.1)?;
    these.extend_from_slice(fresh)?;
    Ok(Scope {
        whole: false,
        these,
    })
}

/// Whether the line has a candidate at the class, of those that map one of the fresh points. Where it
/// has none, the notes hold the reasons of these attempts. After want of memory they are as before.
///
/// Errors: want of memory.
pub fn again(
    alloc: Global,
    front: &Front,
    sizes: &Sizes,
    rules: &RuleSet<'_>,
    line: u64,
    class: u32,
    fresh: &[u64],
    notes: &mut Vec<Note>,
) -> Result<bool, AllocError>
    requires on_front { IsSome (line_at front.now.lines line) }
    requires class_least { 1 ≤ class }
    requires class_greatest { class ≤ 16 }
    ensures one { IfOk result (λ yes. yes ≡ true →
        HasOneAgain sizes.now (state_of front.now) rules.now line class fresh.now) }
    ensures none { IfOk result (λ yes. yes ≡ false →
        HasNoneAgain sizes.now (state_of front.now) rules.now line class fresh.now) }
    ensures noted { IfOk result (λ yes. yes ≡ false →
        IsRefusedAgain sizes.now (state_of front.now) rules.now line class fresh.now
        notes.new.items) }
    ensures kept { BeginsWith notes.new.items notes.old.items }
    ensures unchanged { OnErr result (notes.new.items ≡ notes.old.items) }
{
    let _points = front.points();
    let ends = front.line(line).unwrap();
    let scope = scope_of(alloc, rules, class, ends, fresh)?;
    let base = Base::new(alloc, front, sizes, line, class, scope, true)?;
    let mut progress = Progress {
        best: None,
        notes: Vec::new(alloc),
    };
    pass_rules_again(alloc, &base, rules, fresh, &mut progress)?;
    notes.append(&mut progress.notes)?;
    Ok(progress.best.is_some())
}
