//! One rule passed on a base line: all its assignments, or those that map one of given points.

ghost use Rattle.std.specs.Prelude.{◌≤◌, OnOk};
ghost use Rattle.rule_maps.specs.Inert.{IsLive};
ghost use Rattle.rule_match.specs.Passed.{IsPassed, IsPassedAgain};

use super::base::Base;
use super::fresh::search_fresh;
use super::front_trial::FrontTrial;
use super::progress::Progress;
use super::walk::search;
use rule_maps::Compiled;
use std::alloc::{AllocError, Global};

/// Passes each assignment of the rule on the base line.
pub(crate) fn try_rule(
    alloc: Global,
    base: &Base<'_>,
    rule: &Compiled<'_>,
    number: usize,
    progress: &mut Progress,
) -> Result<(), AllocError>
    requires live { IsLive rule.now }
    requires quality { rule.now.quality ≤ base.now.class }
    ensures { OnOk result
        (IsPassed (record { base = base.now; number = number; rule = rule.now })
        progress.old progress.new) }
{
    let trial = FrontTrial::new(base, number, rule);
    search(alloc, &trial, progress)?;
    Ok(())
}

/// Passes each assignment of the rule on the base line that has one of these near points.
pub(crate) fn try_rule_again(
    alloc: Global,
    base: &Base<'_>,
    rule: &Compiled<'_>,
    number: usize,
    positions: &[usize],
    progress: &mut Progress,
) -> Result<(), AllocError>
    requires live { IsLive rule.now }
    requires quality { rule.now.quality ≤ base.now.class }
    ensures { OnOk result
        (IsPassedAgain (record { base = base.now; number = number; rule = rule.now })
        positions.now progress.old progress.new) }
{
    let trial = FrontTrial::new(base, number, rule);
    search_fresh(alloc, &trial, positions, progress)?;
    Ok(())
}
