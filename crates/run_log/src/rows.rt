//! The lines of a log.

ghost use Rattle.std.specs.Prelude.{◌≡◌, ◌≤◌};
ghost use Rattle.run_log.specs.Reading.{Gives, read};
ghost use Rattle.run_log.specs.Grammar.{place, opening_point, opening_line, front_line};
ghost use Rattle.run_log.specs.Numbers.{point};

use crate::reader::Reader;
use crate::refusal::LogRefusal;
use crate::words::GREATEST_WHOLE;
use grid_geom::{GRID, Point};

/// How far a coordinate may be from 0.
const FARTHEST: u32 = GRID as u32;

/// The number of one of so many points.
#[tactic(auto, unfolding(crate::specs::Reading::read))]
pub fn point(reader: &mut Reader<'_>, points: u64) -> Result<u64, LogRefusal>
    ensures { Gives result reader.new (read (point points) reader.old) }
{
    let number = reader.point(points)?;
    Ok(number)
}

/// The coordinates of a point.
#[tactic(auto, unfolding(crate::specs::Grammar::place, crate::specs::Reading::read))]
pub fn place(reader: &mut Reader<'_>) -> Result<Point, LogRefusal>
    ensures { Gives result reader.new (read place reader.old) }
{
    let x = reader.signed(FARTHEST, FARTHEST)?;
    let y = reader.signed(FARTHEST, FARTHEST)?;
    Ok(Point {
        x: i64::from(x),
        y: i64::from(y),
    })
}

/// A point that is there at the opening.
#[tactic(auto, unfolding(crate::specs::Grammar::opening_point, crate::specs::Reading::read))]
pub fn opening_point(reader: &mut Reader<'_>) -> Result<Point, LogRefusal>
    ensures { Gives result reader.new (read opening_point reader.old) }
{
    reader.fixed(b"p")?;
    place(reader)
}

/// An opening line between two of so many points.
#[tactic(auto, unfolding(crate::specs::Grammar::opening_line, crate::specs::Reading::read))]
pub fn opening_line(reader: &mut Reader<'_>, points: u64) -> Result<(u64, u64), LogRefusal>
    ensures { Gives result reader.new (read (opening_line points) reader.old) }
{
    reader.fixed(b"l")?;
    let a = reader.point(points)?;
    let b = reader.point(points)?;
    Ok((a, b))
}

/// A front line that is left, between two of so many points.
#[tactic(auto, unfolding(crate::specs::Grammar::front_line, crate::specs::Reading::read))]
pub fn front_line(reader: &mut Reader<'_>, points: u64) -> Result<(u64, u64, u64), LogRefusal>
    ensures { Gives result reader.new (read (front_line points) reader.old) }
{
    reader.fixed(b"f")?;
    let line = reader.number(1, GREATEST_WHOLE)?;
    let a = reader.point(points)?;
    let b = reader.point(points)?;
    Ok((line, a, b))
}
