//! The search among the assignments that map a fresh point: for each of the rule's points in turn, its
//! region is narrowed to the fresh numbers, walked, and put back. An assignment with two fresh points is
//! passed twice, which changes nothing.

ghost use Rattle.std.specs.Prelude.{◌≡◌, ℕ, ◌<◌, List, [], length, IfOk, OnOk, Contains, slice_index_or};
ghost use Rattle.rule_match.specs.Walk.{IsSettled, IsAdvance, AreOf, IsFresh, HoldsFresh};

use super::progress::Progress;
use super::walk::{Trial, walk};
use std::alloc::{AllocError, Global};
use std::mem;

/// The numbers of the region that are fresh.
fn fresh_of(alloc: Global, region: &[usize], fresh: &[usize]) -> Result<Vec<usize>, AllocError>
    ensures all { IfOk result
        (λ v. (p : ℕ) → Contains region.now p → Contains fresh.now p → Contains v.items p) }
    ensures only { IfOk result (λ v. (p : ℕ) → Contains v.items p → Contains fresh.now p) }
{
    let mut common = Vec::new(alloc);
    for p in fresh {
        if region.contains(p) {
            common.push(*p)?;
        }
    }
    Ok(common)
}

/// Passes each assignment of the rule that maps a fresh point.
pub fn search_fresh<T: Trial>(
    alloc: Global,
    trial: &T,
    fresh: &[usize],
    progress: &mut Progress,
) -> Result<(), AllocError>
    ensures advance { OnOk result
        (IsAdvance (HoldsFresh (T.holds trial.now) fresh.now) (T.rank trial.now)
        progress.old progress.new) }
    ensures settled { OnOk result
        ((b : List ℕ) → length b ≡ T.count trial.now → T.fits trial.now b → IsFresh fresh.now b →
        IsSettled (T.holds trial.now) (T.reasons trial.now) (T.rank trial.now) progress.new b) }
{
    let mut regions = trial.regions(alloc)?;
    let mut chosen = Vec::new(alloc);
    for k in 0..regions.len() {
        search_at(alloc, trial, fresh, &mut regions, k, &mut chosen, progress)?;
    }
    Ok(())
}

/// Passes each assignment that has a fresh point at position k, and numbers of the regions elsewhere.
fn search_at<T: Trial>(
    alloc: Global,
    trial: &T,
    fresh: &[usize],
    regions: &mut Vec<Vec<usize>>,
    k: usize,
    chosen: &mut Vec<usize>,
    progress: &mut Progress,
) -> Result<(), AllocError>
    requires counted { length regions.now.items ≡ T.count trial.now }
    requires within { k < length regions.now.items }
    requires empty { chosen.now.items ≡ [] }
    ensures regions { OnOk result (regions.new.items ≡ regions.old.items) }
    ensures empty { OnOk result (chosen.new.items ≡ []) }
    ensures advance { OnOk result
        (IsAdvance (HoldsFresh (T.holds trial.now) fresh.now) (T.rank trial.now)
        progress.old progress.new) }
    ensures settled { OnOk result
        ((b : List ℕ) → AreOf regions.old.items b → T.fits trial.now b →
        Contains fresh.now (slice_index_or b k 0) →
        IsSettled (T.holds trial.now) (T.reasons trial.now) (T.rank trial.now) progress.new b) }
{
    let narrow = fresh_of(alloc, regions[k].as_slice(), fresh)?;
    let kept = mem::replace(&mut regions[k], narrow);
    walk(alloc, trial, regions.as_slice(), chosen, progress)?;
    regions[k] = kept;
    Ok(())
}
