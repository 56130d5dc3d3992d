// A point at which a size is asked for, and the way to it in a tree.
ghost use Rattle.std.specs.Prelude.{◌≡◌, ◌≤◌};
ghost use Rattle.grid_geom.specs.Bounds.{IsOnGrid};
ghost use Rattle.size_field.specs.Size.{size_from};

use super::{GRADING_UNIT, MOST_GRADING};
use geom_check::Source;
use grid_geom::{GRID, LONGEST, Point};

/// A point at which a size is asked for, and how fast sizes grow with the distance.
#[derive(Clone, Copy)]
pub struct Query {
    pub at: Point,
    pub grading: u32,
}

impl Query {
    /// The size that a source leaves at the point.
    pub fn size(&self, source: &Source) -> u64
        requires at { IsOnGrid self.now.at }
        requires grading { self.now.grading ≤ MOST_GRADING }
        requires source { IsOnGrid source.now.at }
        requires small { source.now.h ≤ LONGEST }
        ensures { result ≡ size_from self.now.grading self.now.at source.now }
    {
        let x = self.at.x.abs_diff(source.at.x);
        let y = self.at.y.abs_diff(source.at.y);
        source.h + u64::from(self.grading) * x.max(y) / GRADING_UNIT
    }
}

/// The way to a point from the root of a tree that divides by the bits of the coordinates in turn,
/// from the greatest bit on: the coordinate whose bit is next, and the other one.
#[derive(Clone, Copy)]
pub struct Way {
    next: u64,
    other: u64,
}

impl Way {
    /// The way to a point.
    pub fn to(point: &Point) -> Way {
        let unused = LONGEST.leading_zeros();
        Way {
            next: point.x.wrapping_add(GRID).cast_unsigned() << unused,
            other: point.y.wrapping_add(GRID).cast_unsigned() << unused,
        }
    }

    /// Whether the way goes to the side of the greater coordinates.
    pub fn is_high(&self) -> bool {
        self.next.leading_zeros() == 0
    }

    /// The way from that side on.
    pub fn rest(&self) -> Way {
        Way {
            next: self.other,
            other: self.next << 1,
        }
    }
}
