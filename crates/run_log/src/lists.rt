//! Lines of one kind, one after another.

ghost use Rattle.std.specs.Prelude.{◌≡◌, IfOk, length, ◌≤◌, ℕ, List};
ghost use Rattle.run_log.specs.Form.{Form, many};
ghost use Rattle.run_log.specs.Grammar.{counted, element};
ghost use Rattle.run_log.specs.Reading.{Gives, read};

use crate::reader::Reader;
use crate::refusal::LogRefusal;
use crate::rows;
use grid_geom::{Element, Point};
use list_of::List;
use std::alloc::Global;

/// A kind of lines, or of parts of lines.
pub trait Row {
    /// What one says.
    type Item: Drop;

    /// Its form, where there are so many points.
    ghost form: { ℕ → Form Self.Item };

    /// Reads one.
    fn read(alloc: Global, reader: &mut Reader<'_>, points: u64) -> Result<Self::Item, LogRefusal>
        ensures { Gives result reader.new (read (form points) reader.old) };
}

/// Opening points.
pub struct OpeningPoints;

impl Row for OpeningPoints {
    ghost use Rattle.run_log.specs.Grammar.{opening_point};

    type Item = Point;

    ghost form = { λ points. opening_point };

    fn read(_alloc: Global, reader: &mut Reader<'_>, _points: u64) -> Result<Point, LogRefusal> {
        rows::opening_point(reader)
    }
}

/// Opening lines.
pub struct OpeningLines;

impl Row for OpeningLines {
    ghost use Rattle.run_log.specs.Grammar.{opening_line};

    type Item = (u64, u64);

    ghost form = { opening_line };

    fn read(
        _alloc: Global,
        reader: &mut Reader<'_>,
        points: u64,
    ) -> Result<(u64, u64), LogRefusal> {
        rows::opening_line(reader, points)
    }
}

/// Front lines that are left.
pub struct FrontLines;

impl Row for FrontLines {
    ghost use Rattle.run_log.specs.Grammar.{front_line};

    type Item = (u64, u64, u64);

    ghost form = { front_line };

    fn read(
        _alloc: Global,
        reader: &mut Reader<'_>,
        points: u64,
    ) -> Result<(u64, u64, u64), LogRefusal> {
        rows::front_line(reader, points)
    }
}

/// Places of new points.
pub struct Places;

impl Row for Places {
    ghost use Rattle.run_log.specs.Grammar.{place};

    type Item = Point;

    ghost form = { λ points. place };

    fn read(_alloc: Global, reader: &mut Reader<'_>, _points: u64) -> Result<Point, LogRefusal> {
        rows::place(reader)
    }
}

/// Numbers of points.
pub struct PointNumbers;

impl Row for PointNumbers {
    ghost use Rattle.run_log.specs.Numbers.{point};

    type Item = u64;

    ghost form = { point };

    fn read(_alloc: Global, reader: &mut Reader<'_>, points: u64) -> Result<u64, LogRefusal> {
        rows::point(reader, points)
    }
}

/// The greatest count of a list for which room is taken at once.
const SHORT: u64 = 16;

/// So many of a kind, one after another. Room is taken for a short list at once, and for what a longer
/// one has beyond that as it is read, never by its count.
pub fn many<R: Row>(
    alloc: Global,
    reader: &mut Reader<'_>,
    count: u64,
    points: u64,
) -> Result<List<R::Item>, LogRefusal>
    ensures read { Gives result reader.new (read (many count (R.form points)) reader.old) }
    ensures count { IfOk result (λ items. length items ≡ count) }
{
    let mut items = Vec::with_capacity(alloc, count.min(SHORT) as usize)?;
    while (items.len() as u64) < count {
        items.push(R::read(alloc, reader, points)?)?;
    }
    Ok(List::from_vec(items))
}

/// A count, at most this one, and so many of a kind.
#[tactic(auto, unfolding(crate::specs::Grammar::counted, crate::specs::Reading::read))]
pub fn counted<R: Row>(
    alloc: Global,
    reader: &mut Reader<'_>,
    most: u64,
    points: u64,
) -> Result<List<R::Item>, LogRefusal>
    ensures { Gives result reader.new (read (counted most (R.form points)) reader.old) }
{
    let count = reader.number(0, most)?;
    many::<R>(alloc, reader, count, points)
}

/// An element of three corners among so many points.
#[tactic(auto, unfolding(crate::specs::Grammar::element, crate::specs::Reading::read))]
fn element(alloc: Global, reader: &mut Reader<'_>, points: u64) -> Result<Element, LogRefusal>
    ensures { Gives result reader.new (read (element points) reader.old) }
{
    reader.number(3, 3)?;
    many::<PointNumbers>(alloc, reader, 3, points)
}

/// Elements.
pub struct Elements;

impl Row for Elements {
    ghost use Rattle.run_log.specs.Grammar.{element};

    type Item = Element;

    ghost form = { element };

    fn read(alloc: Global, reader: &mut Reader<'_>, points: u64) -> Result<Element, LogRefusal> {
        element(alloc, reader, points)
    }
}
