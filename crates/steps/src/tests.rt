// A counter is made over a ledger of its own and handed on, and who made it knows its number.

ghost use Rattle.std.specs.Prelude.{◌≡◌, ◌+◌, ◌<◌};

use crate::Steps;
use std::marker::Brand;
use std::sync::ledger::{Blank, Ledger};

/// A trial, which is one step.
fn tried<L: Ledger>(number: u64, steps: &mut Steps<L>) -> bool
    ensures { steps.new ≡ steps.old + 1 }
{
    steps.count();
    number < 5
}

/// Takes a counter of exactly three steps, and no other.
fn take_three<L: Ledger>(_steps: Steps<L>)
    requires { _steps ≡ 3 }
{}

/// Two trials, and a step counted here.
fn tried_twice<L: Ledger>(blank: Blank) -> bool
    requires name { blank.name ≡ L.name }
    requires parts { blank.parts ≡ L.parts }
    requires some { 0 < L.parts }
{
    let mut steps = Steps::<L>::from_blank(blank);
    let first = tried(4, &mut steps);
    steps.count();
    let second = tried(5, &mut steps);
    take_three(steps);
    first && !second
}

#[test]
fn test_a_counter_is_made_and_counts(rt: HostRuntime) {
    assert!(rt; tried_twice::<Brand>(Blank::new(1)));
}
