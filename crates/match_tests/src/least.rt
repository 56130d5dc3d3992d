// Worked by hand: the triangle (0, 0), (640000, 0), (0, 640000) with two rules that make it one element.

ghost use Rattle.std.specs.Prelude.{◌≡◌, ◌≤◌, ◌<◌, length};

use crate::fronts::triangle;
use crate::reading::read;
use rule_maps::RuleSet;
use rule_match::{Application, best, greatest_reach_at};
use size_field::Sizes;
use std::alloc::Global;
use std::marker::Brand;
use std::sync::ledger::{Blank, Ledger};
use std::test::Fail;
use steps::Steps;

/// A rule whose third point no mapped line leads to, and one that maps all three sides.
const RULES: &[u8] = b"rule \"Loose\"
quality 2
mappoints (0, 0); (1, 0); (0.5, 0.866);
maplines (1, 2) del;
newlines (1, 3); (3, 2);
freearea (0, 0); (1, 0) { 1 X2 } { }; (0.5, 0.866) { 1 X3 } { 1 Y3 };
elements (1, 2, 3);
endrule
rule \"Close\"
mappoints (0, 0); (1, 0); (0.5, 0.866);
maplines (1, 2) del; (2, 3) del; (3, 1) del;
freearea (0, 0); (1, 0) { 1 X2 } { }; (0.5, 0.866) { 1 X3 } { 1 Y3 };
elements (1, 2, 3);
endrule
";

/// What is found on the triangle's first line at a class of 1 or 2, by the rules of a text.
fn found<L: Ledger>(
    alloc: Global,
    blank: Blank,
    text: &[u8],
    is_second: bool,
) -> Result<Option<Application>, Fail>
    requires name { blank.name ≡ L.name }
    requires parts { blank.parts ≡ L.parts }
    requires some { 0 < L.parts }
    requires short { length text.now ≤ 1048576 }
{
    let mut steps = Steps::<L>::from_blank(blank);
    let rules = read(alloc, text)?;
    let set = RuleSet::new(alloc, &rules)?;
    let sizes = Sizes::new(alloc, 736_000, 300);
    let front = triangle(alloc)?;
    if front.line(1).is_none() {
        return Err("the front has a first line".into());
    }
    let class = if is_second { 2 } else { 1 };
    Ok(best(alloc, &front, &sizes, &set, 1, class, &mut steps)?)
}

/// Whether the application makes the triangle one element, by the rule with this number.
fn is_by(application: &Option<Application>, rule: usize) -> bool {
    match application {
        None => false,
        Some(a) => {
            a.rule == rule
                && a.points.as_slice() == [1, 2, 3].as_slice()
                && a.made.as_slice().is_empty()
                && a.elements.as_slice().len() == 1
        }
    }
}

/// The same over a ledger of its own.
fn triangle_found(alloc: Global, text: &[u8], is_second: bool) -> Result<Option<Application>, Fail>
    requires { length text.now ≤ 1048576 }
{
    found::<Brand>(alloc, Blank::new(1), text, is_second)
}

#[test]
fn a_rule_of_greater_quality_waits(rt: HostRuntime) -> Result<(), Fail> {
    assert!(rt; is_by(&triangle_found(rt.alloc(), RULES, false)?, 2));
    Ok(())
}

#[test]
fn of_equals_the_first_rule_is_taken(rt: HostRuntime) -> Result<(), Fail> {
    assert!(rt; is_by(&triangle_found(rt.alloc(), RULES, true)?, 1));
    Ok(())
}

#[test]
fn without_rules_nothing_is_found(rt: HostRuntime) -> Result<(), Fail> {
    assert!(rt; triangle_found(rt.alloc(), b"", false)?.is_none());
    Ok(())
}

/// By hand: at class 1 a tolerance lets a point be 0.894.. away, so corner 2, (1, 0) with `1 X2`, is at most
/// 1.9 away, and 3 is the least that is told; at class 16 it lets it be 2.302.. away, and the corner 3.4.
#[test]
fn the_reach_grows_with_the_class(rt: HostRuntime) -> Result<(), Fail> {
    let rules = read(rt.alloc(), RULES)?;
    let set = RuleSet::new(rt.alloc(), &rules)?;
    assert!(rt; greatest_reach_at(rt.alloc(), &set, 1)? == 3);
    assert!(rt; greatest_reach_at(rt.alloc(), &set, 16)? == 4);
    Ok(())
}
