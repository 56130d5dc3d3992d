//! The twelve rules.

ghost use Rattle.std.specs.Prelude.{◌≡◌, ◌++◌, map, IfOk, OnOk};
ghost use Rattle.rule_reader.specs.Normal.{CanPrint};
ghost use Rattle.sample.specs.Twelve.{share, twelve};
ghost use Rattle.sample.specs.Plans.{place_of, element_of, rule_of};

use crate::plans::{Corner, PLANS, Plan};
use rule_reader::{
    Elements, MapLines, MapPoints, Pairs, Place, Places, Row, Rule, Rules, Term, Turns,
};
use std::alloc::{AllocError as OutOfMemory, Global};
use word_scan::Name;

/// A copy of the items.
fn copied<T: Copy>(alloc: Global, items: &[T]) -> Result<Vec<T>, OutOfMemory>
    ensures { IfOk result (λ copy. copy.items ≡ items.now) }
{
    let mut copy = Vec::new(alloc);
    for item in items {
        copy.push(*item)?;
    }
    Ok(copy)
}

/// Appends so much of the deviation of a point, if that is not 0.
fn add_share(
    row: &mut Vec<Term>,
    coefficient: i32,
    of_y: bool,
    point: u32,
) -> Result<(), OutOfMemory>
    ensures { OnOk result (row.new.items ≡ row.old.items ++ share coefficient of_y point) }
{
    if coefficient != 0 {
        row.push(Term {
            coefficient,
            of_y,
            point,
        })?;
    }
    Ok(())
}

/// The place of a corner.
fn place(alloc: Global, corner: Corner) -> Result<Place, OutOfMemory>
    ensures { IfOk result (λ place. place ≡ place_of corner) }
{
    let Corner(x, y, x2, x3, y3) = corner;
    let mut row_x = Vec::new(alloc);
    add_share(&mut row_x, x2, false, 2)?;
    add_share(&mut row_x, x3, false, 3)?;
    let mut row_y = Vec::new(alloc);
    add_share(&mut row_y, y3, true, 3)?;
    Ok(Place {
        x,
        y,
        row_x: Row::from_vec(row_x),
        row_y: Row::from_vec(row_y),
    })
}

/// The places of corners.
fn places(alloc: Global, corners: &[Corner]) -> Result<Places, OutOfMemory>
    ensures { IfOk result (λ places. places ≡ map place_of corners.now) }
{
    let mut places = Vec::new(alloc);
    for corner in corners {
        places.push(place(alloc, *corner)?)?;
    }
    Ok(Places::from_vec(places))
}

/// The elements of these corners.
fn elements(alloc: Global, triples: &[(u64, u64, u64)]) -> Result<Elements, OutOfMemory>
    ensures { IfOk result (λ elements. elements ≡ map element_of triples.now) }
{
    let mut elements = Vec::new(alloc);
    for triple in triples {
        let (a, b, c) = *triple;
        let mut corners = Vec::new(alloc);
        corners.push(a)?;
        corners.push(b)?;
        corners.push(c)?;
        elements.push(rule_reader::Element::from_vec(corners))?;
    }
    Ok(Elements::from_vec(elements))
}

/// The rule of a table.
fn rule(alloc: Global, plan: Plan<'_>) -> Result<Rule, OutOfMemory>
    ensures { IfOk result (λ rule. rule ≡ rule_of plan.entry) }
{
    Ok(Rule {
        name: Name::from_vec(copied(alloc, plan.name)?),
        quality: plan.quality,
        points: MapPoints::from_vec(copied(alloc, plan.points)?),
        lines: MapLines::from_vec(copied(alloc, plan.lines)?),
        new_points: places(alloc, plan.new_points)?,
        new_lines: Pairs::from_vec(copied(alloc, plan.new_lines)?),
        area: places(alloc, plan.area)?,
        limit: places(alloc, plan.limit)?,
        elements: elements(alloc, plan.elements)?,
        turns: Turns::from_vec(Vec::new(alloc)),
    })
}

/// The rules of tables.
fn rules_of(alloc: Global, plans: &[Plan<'_>]) -> Result<Rules, OutOfMemory>
    ensures { IfOk result (λ rules. rules ≡ map rule_of plans.entry.now) }
{
    let mut rules = Vec::new(alloc);
    for plan in plans {
        rules.push(rule(alloc, *plan)?)?;
    }
    Ok(Rules::from_vec(rules))
}

/// The rules of the tables, which are the twelve.
#[tactic(auto, unfolding(crate::specs::Twelve::twelve, crate::specs::Twelve::free_1, crate::specs::Twelve::free_5, crate::specs::Twelve::free_9, crate::specs::Twelve::close, crate::specs::Twelve::left, crate::specs::Twelve::right, crate::specs::Twelve::over, crate::specs::Twelve::two_left, crate::specs::Twelve::two_right, crate::specs::Twelve::left_6, crate::specs::Twelve::right_6, crate::specs::Twelve::any_point))]
fn held(alloc: Global) -> Result<Rules, OutOfMemory>
    ensures { IfOk result (λ rules. rules ≡ twelve) }
{
    rules_of(alloc, &PLANS)
}

/// The twelve rules.
///
/// # Errors
///
/// No memory was left.
pub fn twelve_rules(alloc: Global) -> Result<Rules, OutOfMemory>
    ensures value { IfOk result (λ rules. rules ≡ twelve) }
    ensures printable { IfOk result CanPrint }
{
    held(alloc)
}
