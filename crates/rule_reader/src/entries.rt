//! Reading the entries of a section.

ghost use Rattle.std.specs.Prelude.{◌≡◌, ◌+◌, ◌≤◌, ℕ, Result, List};
ghost use Rattle.rule_reader.specs.declared.fault.Fault.{Fault};
ghost use Rattle.rule_reader.specs.Words.{State};
ghost use Rattle.rule_reader.specs.Reading.{Gives, triple_at, tolerance_at, del_at, marks_at, coordinates_at, ends_at, line_at, term_at, terms_at, inner_terms_at, row_at, any_row_at, rows_at, unit_weights, three_at, entries_at};

use crate::fault::{Fault, Stop};
use crate::lists::Row;
use crate::numbers::{GREATEST, GREATEST_WEIGHT};
use crate::reader::{Bound, Reader};
use crate::rule::{MapLine, MapPoint, Place, Term, Triple};
use grid_geom::Element;
use std::alloc::Global;

/// How many terms a row has at most.
const TERMS: usize = 32;

/// What a section holds a list of.
pub trait Entry: Sized + Drop {
    /// How it is read from a place on, with so many entries before it.
    ghost at: { ℕ → State → Result (Self × State) Fault };

    /// Reads one, with so many before it.
    fn read(alloc: Global, reader: &mut Reader<'_>, before: usize) -> Result<Self, Stop>
        ensures { Gives (λ x. x) result reader.new (at before reader.old) };
}

/// The weights of a tolerance in curly brackets.
#[tactic(auto, unfolding(crate::specs::Reading::triple_at))]
fn triple(reader: &mut Reader<'_>) -> Result<Triple, Stop>
    ensures { Gives (λ x. x) result reader.new (triple_at reader.old) }
{
    reader.mark(b'{')?;
    let f1 = reader.number(GREATEST_WEIGHT)?;
    reader.mark(b',')?;
    let f2 = reader.number(GREATEST_WEIGHT)?;
    reader.mark(b',')?;
    let f3 = reader.number(GREATEST_WEIGHT)?;
    reader.mark(b'}')?;
    Ok(Triple { f1, f2, f3 })
}

/// The weights of an entry without any.
fn unit_weights() -> Triple
    ensures { result ≡ unit_weights }
{
    Triple {
        f1: 10_000,
        f2: 0,
        f3: 10_000,
    }
}

/// The weights that come next, and 1, 0, 1 where none do.
#[tactic(auto, unfolding(crate::specs::Reading::tolerance_at))]
fn tolerance(reader: &mut Reader<'_>) -> Result<Triple, Stop>
    ensures { Gives (λ x. x) result reader.new (tolerance_at reader.old) }
{
    if reader.opens(b'{') {
        triple(reader)
    } else {
        Ok(unit_weights())
    }
}

/// Whether `del` comes next, which is then taken.
#[tactic(auto, unfolding(crate::specs::Reading::del_at))]
fn takes_del(reader: &mut Reader<'_>) -> Result<bool, Stop>
    ensures { Gives (λ x. x) result reader.new (del_at reader.old) }
{
    if !reader.is_at(b"del") {
        return Ok(false);
    }
    reader.name(b"del")?;
    Ok(true)
}

/// The marks of an entry, in either order: the weights of its tolerance, and whether `del` is there.
#[tactic(auto, unfolding(crate::specs::Reading::marks_at))]
fn marks(reader: &mut Reader<'_>) -> Result<(Triple, bool), Stop>
    ensures { Gives (λ x. x) result reader.new (marks_at reader.old) }
{
    if reader.is_at(b"del") {
        reader.name(b"del")?;
        let tol = tolerance(reader)?;
        return Ok((tol, true));
    }
    if reader.opens(b'{') {
        let tol = triple(reader)?;
        let del = takes_del(reader)?;
        return Ok((tol, del));
    }
    Ok((unit_weights(), false))
}

/// Two numbers in round brackets.
#[tactic(auto, unfolding(crate::specs::Reading::coordinates_at))]
fn coordinates(reader: &mut Reader<'_>) -> Result<(i32, i32), Stop>
    ensures { Gives (λ x. x) result reader.new (coordinates_at reader.old) }
{
    reader.mark(b'(')?;
    let x = reader.number(GREATEST)?;
    reader.mark(b',')?;
    let y = reader.number(GREATEST)?;
    reader.mark(b')')?;
    Ok((x, y))
}

impl Entry for MapPoint {
    ghost use Rattle.rule_reader.specs.Reading.{map_point_at};

    ghost at = { map_point_at };

    #[tactic(auto, unfolding(crate::specs::Reading::map_point_at))]
    fn read(_alloc: Global, reader: &mut Reader<'_>, _before: usize) -> Result<Self, Stop> {
        let (x, y) = coordinates(reader)?;
        let (tol, _) = marks(reader)?;
        reader.mark(b';')?;
        Ok(MapPoint { x, y, tol })
    }
}

/// Two indices in round brackets.
#[tactic(auto, unfolding(crate::specs::Reading::ends_at))]
fn ends(reader: &mut Reader<'_>, first: Bound, second: Bound) -> Result<(u32, u32), Stop>
    ensures { Gives (λ x. x) result reader.new (ends_at first second reader.old) }
{
    reader.mark(b'(')?;
    let i = reader.index(first)?;
    reader.mark(b',')?;
    let j = reader.index(second)?;
    reader.mark(b')')?;
    Ok((i, j))
}

/// A mapped line whose ends may name these points.
#[tactic(auto, unfolding(crate::specs::Reading::line_at))]
fn line(reader: &mut Reader<'_>, first: Bound, second: Bound) -> Result<MapLine, Stop>
    ensures { Gives (λ x. x) result reader.new (line_at first second reader.old) }
{
    let (i, j) = ends(reader, first, second)?;
    let (tol, del) = marks(reader)?;
    reader.mark(b';')?;
    Ok(MapLine { i, j, tol, del })
}

impl Entry for MapLine {
    ghost use Rattle.rule_reader.specs.Reading.{map_line_at};

    ghost at = { map_line_at };

    fn read(_alloc: Global, reader: &mut Reader<'_>, before: usize) -> Result<Self, Stop> {
        if before == 0 {
            line(reader, Bound::First, Bound::Second)
        } else {
            line(reader, Bound::Mapped, Bound::Mapped)
        }
    }
}

/// A multiple of a variable.
#[tactic(auto, unfolding(crate::specs::Reading::term_at))]
fn term(reader: &mut Reader<'_>) -> Result<Term, Stop>
    ensures { Gives (λ x. x) result reader.new (term_at reader.old) }
{
    let coefficient = reader.number(GREATEST)?;
    let (of_y, point) = reader.variable()?;
    Ok(Term {
        coefficient,
        of_y,
        point,
    })
}

/// Terms with commas between them.
fn terms(alloc: Global, reader: &mut Reader<'_>) -> Result<Vec<Term>, Stop>
    ensures { Gives (λ x. x.items) result reader.new (terms_at 32 reader.old) }
{
    let mut terms = Vec::new(alloc);
    while terms.len() < TERMS {
        let next = term(reader)?;
        terms.push(next)?;
        if !reader.opens(b',') {
            return Ok(terms);
        }
        reader.mark(b',')?;
    }
    if reader.is_at_number() {
        let rule = reader.rule();
        return Err(Stop::Fault(Fault::TooMany { rule, what: 10 }));
    }
    Err(reader.syntax())
}

/// A row in curly brackets.
#[tactic(auto, unfolding(crate::specs::Reading::row_at))]
fn row(alloc: Global, reader: &mut Reader<'_>) -> Result<Row, Stop>
    ensures { Gives (λ x. x) result reader.new (row_at reader.old) }
{
    reader.mark(b'{')?;
    let terms = inner_terms(alloc, reader)?;
    reader.mark(b'}')?;
    Ok(Row::from_vec(terms))
}

/// The terms of a row, of which there may be none.
#[tactic(auto, unfolding(crate::specs::Reading::inner_terms_at))]
fn inner_terms(alloc: Global, reader: &mut Reader<'_>) -> Result<Vec<Term>, Stop>
    ensures { Gives (λ x. x.items) result reader.new (inner_terms_at reader.old) }
{
    if reader.opens(b'}') {
        Ok(Vec::new(alloc))
    } else {
        terms(alloc, reader)
    }
}

/// The row that comes next, and an empty one where none does.
#[tactic(auto, unfolding(crate::specs::Reading::any_row_at))]
fn any_row(alloc: Global, reader: &mut Reader<'_>) -> Result<Row, Stop>
    ensures { Gives (λ x. x) result reader.new (any_row_at reader.old) }
{
    if reader.opens(b'{') {
        row(alloc, reader)
    } else {
        Ok(Row::from_vec(Vec::new(alloc)))
    }
}

/// The rows of x and y, as far as they come; a row that doesn't come is empty.
#[tactic(auto, unfolding(crate::specs::Reading::rows_at))]
fn rows(alloc: Global, reader: &mut Reader<'_>) -> Result<(Row, Row), Stop>
    ensures { Gives (λ x. x) result reader.new (rows_at reader.old) }
{
    if reader.opens(b'{') {
        let x = row(alloc, reader)?;
        let y = any_row(alloc, reader)?;
        return Ok((x, y));
    }
    Ok((
        Row::from_vec(Vec::new(alloc)),
        Row::from_vec(Vec::new(alloc)),
    ))
}

impl Entry for Place {
    ghost use Rattle.rule_reader.specs.Reading.{place_at};

    ghost at = { place_at };

    #[tactic(auto, unfolding(crate::specs::Reading::place_at))]
    fn read(alloc: Global, reader: &mut Reader<'_>, _before: usize) -> Result<Self, Stop> {
        let (x, y) = coordinates(reader)?;
        let (row_x, row_y) = rows(alloc, reader)?;
        reader.mark(b';')?;
        Ok(Place { x, y, row_x, row_y })
    }
}

impl Entry for (u32, u32) {
    ghost use Rattle.rule_reader.specs.Reading.{pair_at};

    ghost at = { pair_at };

    #[tactic(auto, unfolding(crate::specs::Reading::pair_at))]
    fn read(_alloc: Global, reader: &mut Reader<'_>, _before: usize) -> Result<Self, Stop> {
        let pair = ends(reader, Bound::Any, Bound::Any)?;
        reader.mark(b';')?;
        Ok(pair)
    }
}

/// Three indices in round brackets, and the semicolon.
#[tactic(auto, unfolding(crate::specs::Reading::three_at))]
fn three(reader: &mut Reader<'_>, bound: Bound) -> Result<(u32, u32, u32), Stop>
    ensures { Gives (λ x. x) result reader.new (three_at bound reader.old) }
{
    reader.mark(b'(')?;
    let i = reader.index(bound)?;
    reader.mark(b',')?;
    let j = reader.index(bound)?;
    reader.mark(b',')?;
    let k = reader.index(bound)?;
    reader.mark(b')')?;
    reader.mark(b';')?;
    Ok((i, j, k))
}

impl Entry for Element {
    ghost use Rattle.rule_reader.specs.Reading.{element_at};

    ghost at = { element_at };

    #[tactic(auto, unfolding(crate::specs::Reading::element_at))]
    fn read(alloc: Global, reader: &mut Reader<'_>, _before: usize) -> Result<Self, Stop> {
        let (i, j, k) = three(reader, Bound::Any)?;
        let corners = [u64::from(i), u64::from(j), u64::from(k)].to_vec(alloc)?;
        Ok(Element::from_vec(corners))
    }
}

impl Entry for (u32, u32, u32) {
    ghost use Rattle.rule_reader.specs.Reading.{turn_at};

    ghost at = { turn_at };

    fn read(_alloc: Global, reader: &mut Reader<'_>, _before: usize) -> Result<Self, Stop> {
        three(reader, Bound::Mapped)
    }
}

/// The entries that come next, at most this many; `what` says of what there are too many.
pub fn entries<E: Entry>(
    alloc: Global,
    reader: &mut Reader<'_>,
    most: usize,
    what: u64,
) -> Result<Vec<E>, Stop>
    ensures { Gives (λ x. x.items) result reader.new (entries_at E.at what 0 most reader.old) }
{
    let mut entries = Vec::new(alloc);
    while reader.opens(b'(') {
        if entries.len() == most {
            let rule = reader.rule();
            return Err(Stop::Fault(Fault::TooMany { rule, what }));
        }
        let entry = E::read(alloc, reader, entries.len())?;
        entries.push(entry)?;
    }
    Ok(entries)
}
