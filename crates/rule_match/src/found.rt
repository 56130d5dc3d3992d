//! What a search has found, and which of two finds comes first.

ghost use Rattle.std.specs.Prelude.{◌≡◌, true, false, Some};
ghost use Rattle.std.specs.Ordering.{is_gt};
ghost use Rattle.rule_match.specs.Order.{rank_cmp, IsNoWorse};

use super::assignment::Assignment;
use super::badness::{Badness, compare};
use std::cmp::Ordering;

/// A candidate of a line and class: how bad the worst of its elements is, its rule's number, and the
/// numbers of the mapped points in the order of the rule.
#[derive(Debug, Drop)]
pub struct Found {
    pub badness: Badness,
    pub rule: usize,
    pub points: Assignment,
}

/// By badness, then rule number, then assignment.
fn compare_found(a: &Found, b: &Found) -> Ordering
    ensures { result ≡ rank_cmp a.now b.now }
{
    compare(&a.badness, &b.badness)
        .then(a.rule.cmp(&b.rule))
        .then(a.points.as_slice().cmp(b.points.as_slice()))
}

/// Whether the find comes before the other.
#[tactic(auto, using(crate::proofs::Advances::turned))]
fn is_before(found: &Found, other: &Found) -> bool
    ensures before { result ≡ true → is_gt (rank_cmp found.now other.now) ≡ false }
    ensures not_before { result ≡ false → is_gt (rank_cmp other.now found.now) ≡ false }
{
    compare_found(other, found).is_gt()
}

/// Whether the find comes before the best one so far.
pub(crate) fn comes_first(found: &Found, best: &Option<Found>) -> bool
    ensures first { result ≡ true → IsNoWorse (Some found.now) best.now }
    ensures not_first { result ≡ false → IsNoWorse best.now (Some found.now) }
{
    match best {
        None => true,
        Some(other) => is_before(found, other),
    }
}
