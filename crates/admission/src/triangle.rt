// Triangles, front lines with the places of their ends, and how the two lie to each other.
ghost use Rattle.std.specs.Prelude.{◌≡◌, ◌↔◌, ◌≢◌, IsTrue};
ghost use Rattle.grid_geom.specs.Bounds.{IsOnGrid, IsMeasured, IsWithin};
ghost use Rattle.grid_geom.specs.Area.{shoelace};
ghost use Rattle.grid_geom.specs.Polygon.{sides, IsStrictlyConvex, IsApart};
ghost use Rattle.wind_law.specs.Centre.{centre, sum_x, sum_y};
ghost use Rattle.wind_law.specs.Chains.{edge};
ghost use Rattle.admission.specs.Triangles.{corners_of_triangle, IsTriangleOnGrid, line_edge, IsLineOnGrid, IsOnSide, IsCornerOn, IsBackwards, IsSideOf};

use grid_geom::{GRID, Point, RatPoint, apart, double_area, on_open, strictly_convex};

/// The greatest absolute value of the sum of three coordinates.
const MOST_SUM: i64 = 3 * GRID;

/// An element's corners, in its order.
#[derive(Clone, Copy, Debug, PartialEq, Eq)]
pub struct Triangle {
    pub a: Point,
    pub b: Point,
    pub c: Point,
}

/// A front line: its number, the numbers of its ends, and their places.
#[derive(Clone, Copy, Debug, PartialEq, Eq)]
pub struct Line {
    pub number: u64,
    pub from: u64,
    pub to: u64,
    pub a: Point,
    pub b: Point,
}

/// Whether the line's ends are a and b, in this order.
fn joins(line: &Line, a: Point, b: Point) -> bool
    ensures { IsTrue result ↔ (line_edge line.now ≡ edge a b) }
{
    line.a == a && line.b == b
}

impl Triangle {
    /// Whether the triangle is positively turned.
    pub fn turned(&self) -> bool
        requires { IsTriangleOnGrid self.now }
        ensures { IsTrue result ↔ IsStrictlyConvex (corners_of_triangle self.now) }
    {
        strictly_convex(&[self.a, self.b, self.c])
    }

    /// Twice the area, in square grid steps.
    pub fn double_area(&self) -> i128
        requires { IsTriangleOnGrid self.now }
        ensures { result ≡ shoelace (sides (corners_of_triangle self.now)) }
    {
        double_area(&[self.a, self.b, self.c])
    }

    /// The sum of the corners' columns.
    fn sum_x(&self) -> i64
        requires { IsTriangleOnGrid self.now }
        ensures value { result ≡ sum_x (corners_of_triangle self.now) }
        ensures small { IsWithin MOST_SUM result }
    {
        self.a.x + (self.b.x + self.c.x)
    }

    /// The sum of the corners' rows.
    fn sum_y(&self) -> i64
        requires { IsTriangleOnGrid self.now }
        ensures value { result ≡ sum_y (corners_of_triangle self.now) }
        ensures small { IsWithin MOST_SUM result }
    {
        self.a.y + (self.b.y + self.c.y)
    }

    /// The centre: the sum of the corners over their number.
    pub fn centre(&self) -> RatPoint
        requires { IsTriangleOnGrid self.now }
        ensures value { result ≡ centre (corners_of_triangle self.now) }
        ensures measured { IsMeasured result }
    {
        RatPoint {
            x: self.sum_x() as i128,
            y: self.sum_y() as i128,
            k: 3,
        }
    }

    /// Whether the line is apart from the open triangle.
    pub fn apart_from(&self, line: &Line) -> bool
        requires corners_on { IsTriangleOnGrid self.now }
        requires line_on { IsLineOnGrid line.now }
        requires turned { IsStrictlyConvex (corners_of_triangle self.now) }
        ensures { IsTrue result ↔ IsApart line.now.a line.now.b (corners_of_triangle self.now) }
    {
        apart(line.a, line.b, &[self.a, self.b, self.c])
    }

    /// Whether the place is in an open side.
    pub fn on_side(&self, p: Point) -> bool
        requires corners_on { IsTriangleOnGrid self.now }
        requires place_on { IsOnGrid p }
        ensures { IsTrue result ↔ IsOnSide (corners_of_triangle self.now) p }
    {
        on_open(p, self.a, self.b) || (on_open(p, self.b, self.c) || on_open(p, self.c, self.a))
    }

    /// Whether a corner is in the open line.
    pub fn corner_on(&self, line: &Line) -> bool
        requires corners_on { IsTriangleOnGrid self.now }
        requires line_on { IsLineOnGrid line.now }
        ensures { IsTrue result ↔ IsCornerOn (corners_of_triangle self.now) (line_edge line.now) }
    {
        on_open(self.a, line.a, line.b)
            || (on_open(self.b, line.a, line.b) || on_open(self.c, line.a, line.b))
    }

    /// Whether the line is a side reversed.
    pub fn backwards(&self, line: &Line) -> bool
        ensures { IsTrue result ↔ IsBackwards (corners_of_triangle self.now) (line_edge line.now) }
    {
        joins(line, self.b, self.a) || (joins(line, self.c, self.b) || joins(line, self.a, self.c))
    }

    /// Whether the line is a side.
    pub fn has_side(&self, line: &Line) -> bool
        ensures { IsTrue result ↔ IsSideOf (corners_of_triangle self.now) (line_edge line.now) }
    {
        joins(line, self.a, self.b) || (joins(line, self.b, self.c) || joins(line, self.c, self.a))
    }
}
