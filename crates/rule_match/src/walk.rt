//! The walk over the assignments of a rule's points: point after point, each from its region, given up
//! as soon as the points mapped so far can't go on.
//!
//! 1. With no region left an assignment is whole, and is settled.
//! 2. What is settled stays settled, whatever is found or noted later.
//! 3. The points mapped so far are as before after each turn.

ghost use Rattle.std.specs.Prelude.{◌≡◌, ℕ, ◌+◌, ◌≤◌, List, [], ◌∷◌, ◌++◌, length, true, false, None, IfOk, OnOk, IfSome, IfNone};
ghost use Rattle.rule_match.specs.declared.found.Found.{Found as Find};
ghost use Rattle.rule_match.specs.declared.progress.Note.{Note as Noted};
ghost use Rattle.rule_match.specs.Walk.{BeginsWith, IsSettled, IsAdvance, AreOf, DoesGoOn};

use super::found::{Found, comes_first};
use super::progress::{Note, Progress};
use std::alloc::{AllocError, Global};

/// One rule on one base line at one class. Assignments are lists of numbers in the order of mapping,
/// one for each mapped point; what a number stands for is the trial's own.
pub trait Trial {
    /// How many points the rule maps.
    ghost count: { Self → ℕ };
    /// The first points of an assignment pass all tests that look at them alone.
    ghost fits: { Self → List ℕ → Type 0 };
    /// The assignment is a candidate.
    ghost holds: { Self → List ℕ → Type 0 };
    /// The notes hold a reason why the assignment is none.
    ghost reasons: { Self → List Noted → List ℕ → Type 0 };
    /// What is found if the assignment is a candidate.
    ghost rank: { Self → List ℕ → Find };

    /// For each of the rule's points, in the order of mapping, the numbers that it may have.
    fn regions(&self, alloc: Global) -> Result<Vec<Vec<usize>>, AllocError>
        ensures counted { IfOk result (λ v. length v.items ≡ count self.now) }
        ensures covers { IfOk result
            (λ v. (b : List ℕ) → length b ≡ count self.now → fits self.now b → AreOf v.items b) };

    /// Whether p may be mapped after the chosen points.
    fn may_follow(&self, chosen: &[usize], p: usize) -> bool
        requires short { length chosen.now + 1 ≤ count self.now }
        requires fits { fits self.now chosen.now }
        ensures may { result ≡ true → fits self.now (chosen.now ++ p ∷ []) }
        ensures may_not { result ≡ false →
            (rest : List ℕ) → fits self.now (chosen.now ++ p ∷ rest) → ⊥ };

    /// The find that the assignment is, if it is a candidate. None where it is none whatever the front
    /// holds.
    fn find(&self, alloc: Global, chosen: &[usize]) -> Option<Found>
        requires complete { length chosen.now ≡ count self.now }
        requires fits { fits self.now chosen.now }
        ensures found { IfSome result (λ found. found ≡ rank self.now chosen.now) }
        ensures none { IfNone result (holds self.now chosen.now → ⊥) }
        ensures no_reason { IfNone result (reasons self.now [] chosen.now) };

    /// Whether the assignment is a candidate; else its blocking line is noted.
    fn judge(
        &self,
        alloc: Global,
        chosen: &[usize],
        notes: &mut Vec<Note>,
    ) -> Result<bool, AllocError>
        requires complete { length chosen.now ≡ count self.now }
        requires fits { fits self.now chosen.now }
        ensures notes { OnOk result (BeginsWith notes.new.items notes.old.items) }
        ensures held { IfOk result (λ yes. yes ≡ true → holds self.now chosen.now) }
        ensures not_held { IfOk result (λ yes. yes ≡ false → holds self.now chosen.now → ⊥) }
        ensures reason { IfOk result
            (λ yes. yes ≡ false → reasons self.now notes.new.items chosen.now) };

    /// Nothing is mapped yet.
    ghost start: { (t : Self) → fits t [] };
    /// More notes are as good.
    ghost more: { (t : Self) (notes more : List Noted) (b : List ℕ) →
        reasons t notes b → reasons t (notes ++ more) b };
}

/// Passes one whole assignment.
fn settle<T: Trial>(
    alloc: Global,
    trial: &T,
    chosen: &[usize],
    progress: &mut Progress,
) -> Result<(), AllocError>
    requires complete { length chosen.now ≡ T.count trial.now }
    requires fits { T.fits trial.now chosen.now }
    ensures advance { OnOk result
        (IsAdvance (DoesGoOn (T.holds trial.now) chosen.now []) (T.rank trial.now)
        progress.old progress.new) }
    ensures settled { OnOk result
        (IsSettled (T.holds trial.now) (T.reasons trial.now) (T.rank trial.now)
        progress.new chosen.now) }
{
    let Some(found) = trial.find(alloc, chosen) else {
        return Ok(());
    };
    if !comes_first(&found, &progress.best) {
        return Ok(());
    }
    if trial.judge(alloc, chosen, &mut progress.notes)? {
        progress.best = Some(found);
    }
    Ok(())
}

/// Passes each assignment that goes on from the chosen points with one number of each region.
#[cycle(walk)]
pub(crate) fn walk<T: Trial>(
    alloc: Global,
    trial: &T,
    regions: &[Vec<usize>],
    chosen: &mut Vec<usize>,
    progress: &mut Progress,
) -> Result<(), AllocError>
    requires counted { length chosen.now.items + length regions.now ≡ T.count trial.now }
    requires fits { T.fits trial.now chosen.now.items }
    ensures chosen { OnOk result (chosen.new.items ≡ chosen.old.items) }
    ensures advance { OnOk result
        (IsAdvance (DoesGoOn (T.holds trial.now) chosen.old.items regions.now) (T.rank trial.now)
        progress.old progress.new) }
    ensures settled { OnOk result
        ((rest : List ℕ) → AreOf regions.now rest → T.fits trial.now (chosen.old.items ++ rest) →
        IsSettled (T.holds trial.now) (T.reasons trial.now) (T.rank trial.now)
        progress.new (chosen.old.items ++ rest)) }
{
    match regions {
        [] => {
            settle(alloc, trial, chosen.as_slice(), progress)?;
            Ok(())
        }
        [region, others @ ..] => {
            for p in region {
                follow(alloc, trial, *p, others, chosen, progress)?;
            }
            Ok(())
        }
    }
}

/// Passes each assignment that goes on from the chosen points with p and then one number of each region.
#[cycle(walk)]
fn follow<T: Trial>(
    alloc: Global,
    trial: &T,
    p: usize,
    regions: &[Vec<usize>],
    chosen: &mut Vec<usize>,
    progress: &mut Progress,
) -> Result<(), AllocError>
    requires counted { length chosen.now.items + 1 + length regions.now ≡ T.count trial.now }
    requires fits { T.fits trial.now chosen.now.items }
    ensures chosen { OnOk result (chosen.new.items ≡ chosen.old.items) }
    ensures advance { OnOk result
        (IsAdvance (DoesGoOn (T.holds trial.now) (chosen.old.items ++ p ∷ []) regions.now)
        (T.rank trial.now) progress.old progress.new) }
    ensures settled { OnOk result
        ((rest : List ℕ) → AreOf regions.now rest →
        T.fits trial.now (chosen.old.items ++ p ∷ rest) →
        IsSettled (T.holds trial.now) (T.reasons trial.now) (T.rank trial.now)
        progress.new (chosen.old.items ++ p ∷ rest)) }
{
    if !trial.may_follow(chosen.as_slice(), p) {
        return Ok(());
    }
    chosen.push(p)?;
    walk(alloc, trial, regions, chosen, progress)?;
    chosen.pop();
    Ok(())
}

/// Passes each assignment of the rule: what is found after it is the least of what was found before and
/// of the rule's candidates, and where nothing is found, each assignment that fits has its reason noted.
pub fn search<T: Trial>(alloc: Global, trial: &T, progress: &mut Progress) -> Result<(), AllocError>
    ensures advance { OnOk result
        (IsAdvance (T.holds trial.now) (T.rank trial.now) progress.old progress.new) }
    ensures settled { OnOk result
        ((b : List ℕ) → length b ≡ T.count trial.now → T.fits trial.now b →
        IsSettled (T.holds trial.now) (T.reasons trial.now) (T.rank trial.now) progress.new b) }
{
    let regions = trial.regions(alloc)?;
    let mut chosen = Vec::new(alloc);
    walk(alloc, trial, regions.as_slice(), &mut chosen, progress)?;
    Ok(())
}
