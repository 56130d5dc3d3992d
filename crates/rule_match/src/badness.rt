//! How bad elements are: (sum of squared sides) / (doubled area), compared as fractions.

ghost use Rattle.std.specs.Prelude.{◌≡◌, ◌*◌, max};
ghost use Rattle.rule_match.specs.Order.{badness_cmp};

use std::cmp::Ordering;

/// The sum of an element's squared sides over its doubled area, both in squared grid steps.
#[derive(Clone, Copy, Debug)]
pub struct Badness {
    pub squares: u64,
    pub area: u64,
}

/// One fraction's numerator times the other's denominator, at least 1.
fn cross_product(squares: u64, area: u64) -> u128
    ensures { result ≡ squares * max 1 area }
{
    squares as u128 * area.max(1) as u128
}

/// Compares the two fractions exactly.
pub(crate) fn compare(a: &Badness, b: &Badness) -> Ordering
    ensures { result ≡ badness_cmp a.now b.now }
{
    cross_product(a.squares, b.area).cmp(&cross_product(b.squares, a.area))
}
