//! What a search notes of assignments that fail: the front lines that keep them from being candidates,
//! each beside the last of the points that the assignment maps. For each refusal:
//!
//! | what refuses | what is noted |
//! |---|---|
//! | a new place is off the grid, or two are the same | nothing: the places themselves refuse |
//! | a new place is listed | nothing: listed places stay |
//! | a zone that is off the grid or not strictly convex | nothing: the places themselves refuse |
//! | a front line or a front point in the zone | the least line in the way |
//! | an element that isn't positively turned | nothing: the places themselves refuse |
//! | a line that meets an element, goes through a corner of it or is a side of it reversed | that line |
//! | a point in a side of an element | each line that ends at the point |
//! | an element outside the front, or larger than it | nothing: the front only shrinks |
//!
//! Lines that earlier elements of the same assignment join have numbers that aren't on the front. They
//! are not noted.

ghost use Rattle.std.specs.Prelude.{◌≡◌, ◌≤◌, length, true, OnOk};
ghost use Rattle.rule_match.specs.Walk.{BeginsWith};
ghost use Rattle.rule_match.specs.Refused.{has_note};
ghost use Rattle.rule_match.specs.Noted.{AreEndsNoted, IsEndNoted, IsLineNoted, IsRefusalNoted};

use super::base::Base;
use super::progress::Note;
use admission::GlueRefusal;
use grid_geom::Bounds;
use std::alloc::{AllocError, Global};

/// Notes a front line beside the last of the points, where notes are made.
pub(crate) fn note(
    base: &Base<'_>,
    line: u64,
    points: &[u64],
    notes: &mut Vec<Note>,
) -> Result<(), AllocError>
    requires { 1 ≤ length points.now }
    ensures kept { OnOk result (BeginsWith notes.new.items notes.old.items) }
    ensures noted { OnOk result
        (base.now.noting ≡ true → has_note notes.new.items points.now line ≡ true) }
{
    if base.is_noting() {
        let point = points[points.len() - 1];
        notes.push(Note { line, point })?;
    }
    Ok(())
}

/// Notes a line that refuses an element, if it is on the front.
fn note_if_on_front(
    base: &Base<'_>,
    line: u64,
    points: &[u64],
    notes: &mut Vec<Note>,
) -> Result<(), AllocError>
    requires { 1 ≤ length points.now }
    ensures kept { OnOk result (BeginsWith notes.new.items notes.old.items) }
    ensures noted { OnOk result
        (base.now.noting ≡ true → IsLineNoted base.now.front notes.new.items points.now line) }
{
    if line < base.front().next_number() {
        note(base, line, points, notes)?;
    }
    Ok(())
}

/// Notes a front line if it ends at a point.
fn note_if_it_ends(
    base: &Base<'_>,
    line: u64,
    point: u64,
    points: &[u64],
    notes: &mut Vec<Note>,
) -> Result<(), AllocError>
    requires { 1 ≤ length points.now }
    ensures kept { OnOk result (BeginsWith notes.new.items notes.old.items) }
    ensures noted { OnOk result
        (base.now.noting ≡ true → IsEndNoted base.now.front notes.new.items points.now point line) }
{
    if let Some((from, to)) = base.front().line(line)
        && (from == point || to == point)
    {
        note(base, line, points, notes)?;
    }
    Ok(())
}

/// Notes each front line that ends at a point.
fn note_ends(
    alloc: Global,
    base: &Base<'_>,
    point: u64,
    points: &[u64],
    notes: &mut Vec<Note>,
) -> Result<(), AllocError>
    requires { 1 ≤ length points.now }
    ensures kept { OnOk result (BeginsWith notes.new.items notes.old.items) }
    ensures noted { OnOk result
        (base.now.noting ≡ true → AreEndsNoted base.now.front notes.new.items points.now point) }
{
    let front = base.front();
    let _points = front.points();
    if !base.is_noting() {
        return Ok(());
    }
    if !front.is_front_point(point) {
        return Ok(());
    }
    let place = front.point(point);
    let near = Bounds {
        lo: place,
        hi: place,
    };
    let lines = front.near_lines(alloc, &near)?;
    for line in &lines {
        note_if_it_ends(base, *line, point, points, notes)?;
    }
    Ok(())
}

/// Notes the front lines that a refusal of elements names.
pub(crate) fn note_refusal(
    alloc: Global,
    base: &Base<'_>,
    refusal: &GlueRefusal,
    points: &[u64],
    notes: &mut Vec<Note>,
) -> Result<(), AllocError>
    requires { 1 ≤ length points.now }
    ensures kept { OnOk result (BeginsWith notes.new.items notes.old.items) }
    ensures noted { OnOk result (base.now.noting ≡ true →
        IsRefusalNoted base.now.front notes.new.items points.now refusal.now) }
{
    match refusal {
        GlueRefusal::Met { line, .. } => note_if_on_front(base, *line, points, notes)?,
        GlueRefusal::PointOnSide { point, .. } => note_ends(alloc, base, *point, points, notes)?,
        GlueRefusal::CornerOnLine { line, .. } => note_if_on_front(base, *line, points, notes)?,
        GlueRefusal::Backwards { line, .. } => note_if_on_front(base, *line, points, notes)?,
        GlueRefusal::Turned { .. } => {}
        GlueRefusal::Outside { .. } => {}
        GlueRefusal::Area { .. } => {}
        GlueRefusal::Memory => {}
    }
    Ok(())
}
