//! What a text may go on with.

use crate::geometry::{PointRow, SegmentRow};
use word_scan::Dec;

/// Where the reading stands in the four parts of a text. The row at hand is in its place.
#[derive(Clone, Copy)]
pub enum Place<'a> {
    Head(HeadPlace),
    Points(PointPlace),
    Segments(SegmentPlace),
    Materials(MaterialPlace<'a>),
}

/// The first word, the number of the file, and the word `points`.
#[derive(Clone, Copy)]
pub enum HeadPlace {
    First,
    Number,
    Points,
}

/// The first row, the coordinates of a row, and what follows a row.
#[derive(Clone, Copy)]
pub enum PointPlace {
    Start,
    X { number: u32 },
    Y { number: u32, x: Dec },
    End { row: PointRow },
}

/// The first row, the other words of a row, and what follows a row.
#[derive(Clone, Copy)]
pub enum SegmentPlace {
    Start,
    Right { left: u32 },
    Shape { left: u32, right: u32 },
    From { left: u32, right: u32 },
    To { left: u32, right: u32, p: u32 },
    End { row: SegmentRow },
}

/// The first row, the name in a row, and what follows a row.
#[derive(Clone, Copy)]
pub enum MaterialPlace<'a> {
    Start,
    Name {
        domain: u32,
    },
    End {
        domain: u32,
        name: &'a [u8],
        maxh: Option<Dec>,
    },
}
