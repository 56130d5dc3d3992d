// What an application touches, and what is forgotten of it.
ghost use Rattle.std.specs.Prelude.{ℤ, ◌≡◌, ◌≤◌, ◌≤ℤ◌, ◌++◌, length, slice_index_or, All, IfOk, Some, Vec, true, false};
ghost use Rattle.std.specs.Global.{Global as AnyGlobal};
ghost use Rattle.std.specs.BTreeMap.{get};
ghost use Rattle.std.specs.List.{AllByRecursion, Contains};
ghost use Rattle.rule_match.specs.declared.progress.Note.{Note as AnyNote};
ghost use Rattle.grid_geom.specs.Boxes.{DoBoundsMeet};
ghost use Rattle.grid_geom.specs.declared.Bounds.{Bounds as AnyBounds};
ghost use Rattle.rule_match.specs.Near.{whole_grid};
ghost use Rattle.state_law.specs.State.{IsListed, point_at};
ghost use Rattle.digital_tree.specs.Entries.{AreDifferent};
ghost use Rattle.front_chain.specs.Front.{state_of};
ghost use Rattle.mesh_run.specs.Worklist.{turn_cmp};
ghost use Rattle.mesh_run.specs.Kept.{AreFewerNotes, AreOnFront, DoNotesStand};
ghost use Rattle.mesh_run.specs.Remembered.{AreDropped, AreHits, IsInArea, IsWider};

use super::Application;
use super::refusals::{LAST_CLASS, Notes, Refusals, Region, noted_at};
use digital_tree::{Entry, Key};
use front_chain::Front;
use grid_geom::{Bounds, Element, GRID, Point};
use rule_match::Note;
use std::alloc::{AllocError as OutOfMemory, Global};

/// The lesser of two coordinates.
fn lesser(a: &i64, b: &i64) -> i64
    ensures first { result ≤ℤ a.now }
    ensures second { result ≤ℤ b.now }
    ensures greatest { (c : ℤ) → c ≤ℤ a.now → c ≤ℤ b.now → c ≤ℤ result }
{
    if *a < *b { *a } else { *b }
}

/// The greater of two coordinates.
fn greater(a: &i64, b: &i64) -> i64
    ensures first { a.now ≤ℤ result }
    ensures second { b.now ≤ℤ result }
    ensures least { (c : ℤ) → a.now ≤ℤ c → b.now ≤ℤ c → result ≤ℤ c }
{
    if *a < *b { *b } else { *a }
}

/// The box, widened as little as holds the place.
fn widened(area: &Bounds, p: &Point) -> Bounds
    ensures holds { IsInArea result p.now }
    ensures wider { IsWider area.now result }
    ensures least { (other : AnyBounds) → IsWider area.now other → IsInArea other p.now →
        IsWider result other }
{
    Bounds {
        lo: Point {
            x: lesser(&area.lo.x, &p.x),
            y: lesser(&area.lo.y, &p.y),
        },
        hi: Point {
            x: greater(&area.hi.x, &p.x),
            y: greater(&area.hi.y, &p.y),
        },
    }
}

/// The place of a corner, by its number among the front's points and the new ones after them.
fn corner_of(front: &Front, made: &[Point], n: u64) -> Point
    requires { IsListed (length (front.now.points ++ made.now)) n }
    ensures { result ≡ point_at (front.now.points ++ made.now) n }
{
    let points = front.points();
    if n <= points {
        front.point(n)
    } else {
        made[(n - points) as usize - 1]
    }
}

/// The box, widened as little as holds the element's corners.
fn with_element(area: &Bounds, front: &Front, made: &[Point], element: &[u64]) -> Bounds
    requires { AllByRecursion (IsListed (length (front.now.points ++ made.now))) element.now }
    ensures wider { IsWider area.now result }
    ensures holds { All (λ n. IsInArea result (point_at (front.now.points ++ made.now) n)) element.now }
    ensures least { (other : AnyBounds) → IsWider area.now other →
        All (λ n. IsInArea other (point_at (front.now.points ++ made.now) n)) element.now →
        IsWider result other }
{
    let mut wide = *area;
    for n in element {
        wide = widened(&wide, &corner_of(front, made, *n));
    }
    wide
}

/// The least box that holds the corners of all these elements: a box on the grid.
fn area_of(front: &Front, made: &[Point], elements: &[Element]) -> Bounds
    requires { AllByRecursion (λ ns. AllByRecursion (IsListed (length (front.now.points ++ made.now))) ns) elements.now }
    ensures holds { All (λ ns. All (λ n. IsInArea result (point_at (front.now.points ++ made.now) n)) ns) elements.now }
    ensures on_grid { DoBoundsMeet result whole_grid }
    ensures least { (other : AnyBounds) → DoBoundsMeet other whole_grid →
        All (λ ns. All (λ n. IsInArea other
        (point_at (front.now.points ++ made.now) n)) ns) elements.now →
        IsWider result other }
{
    let mut area = Bounds {
        lo: Point { x: GRID, y: GRID },
        hi: Point { x: -GRID, y: -GRID },
    };
    for element in elements {
        area = with_element(&area, front, made, element.as_slice());
    }
    area
}

/// The entries whose boxes meet the box of the application's elements: what was looked at where it changes
/// something.
///
/// Errors: want of memory for their list.
pub fn hits_near(
    alloc: Global,
    refusals: &Refusals,
    front: &Front,
    application: &Application,
) -> Result<Vec<Entry<Region>>, OutOfMemory>
    requires { AllByRecursion (λ ns. AllByRecursion
        (IsListed (length (front.now.points ++ application.now.made))) ns)
        application.now.elements }
    ensures { IfOk result (λ hits. AreHits (front.now.points ++ application.now.made)
        application.now.elements refusals.now.regions.entries hits.items) }
{
    let (made, elements) = (application.made.as_slice(), application.elements.as_slice());
    let area = area_of(front, made, elements);
    // no two regions have one key
    let _none = refusals.regions.get(Key { slot: 0 });
    let mut hits = Vec::new(alloc);
    refusals.regions.push_hits(&area, &mut hits)?;
    Ok(hits)
}

/// Whether all lines that the notes name are on the front.
fn do_stand(front: &Front, notes: &[Note]) -> bool
    ensures { result ≡ true → AreOnFront (state_of front.now) notes.now }
{
    for note in notes {
        if front.line(note.line).is_none() {
            return false;
        }
    }
    true
}

/// Whether the pair of class and line has notes that name a line which isn't on the front.
fn is_stale(notes: &Notes, front: &Front, turn: (u32, u64)) -> bool
    ensures { result ≡ false → (held : Vec AnyNote AnyGlobal) → get turn_cmp notes.now turn ≡ Some held →
        AreOnFront (state_of front.now) held.items }
{
    match notes.get(&turn) {
        Some(held) => !do_stand(front, held.as_slice()),
        None => false,
    }
}

/// Drops the notes of the region's line that name a line which isn't on the front.
fn drop_stale_of(notes: &mut Notes, front: &Front, region: Region)
    ensures fewer { AreFewerNotes notes.old notes.new }
    ensures stand { DoNotesStand (state_of front.now) notes.new region }
{
    let Region { line, class } = region;
    for n in class..LAST_CLASS + 1 {
        if is_stale(notes, front, (n, line)) {
            let _held = notes.remove(&(n, line));
        }
    }
}

/// Drops the notes that hold no more, of the lines of these entries from their classes on.
pub fn drop_stale(notes: &mut Notes, front: &Front, hits: &[Entry<Region>])
    ensures fewer { AreFewerNotes notes.old notes.new }
    ensures stand { All (λ e. DoNotesStand (state_of front.now) notes.new e.value) hits.now }
{
    for hit in hits {
        drop_stale_of(notes, front, hit.value);
    }
}

/// Whether of the region's line nothing is remembered any more from its class on.
fn is_gone(refusals: &Refusals, region: Region) -> bool
    ensures { result ≡ true →
        slice_index_or refusals.now.least.items region.line 0 ≤ region.class }
{
    noted_at(refusals.least.as_slice(), region.line) <= region.class as u64
}

/// Drops those of these entries by which nothing is remembered any more.
pub fn drop_forgotten(refusals: &mut Refusals, hits: &[Entry<Region>])
    requires different { AreDifferent refusals.old.regions.entries }
    requires entries { All (Contains refusals.old.regions.entries) hits.now }
    ensures { AreDropped refusals.old refusals.new }
{
    for hit in hits {
        if is_gone(refusals, hit.value) {
            let _held = refusals.regions.remove(hit.key);
        }
    }
}
