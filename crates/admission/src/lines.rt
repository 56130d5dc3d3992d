// Which lines of a list hinder an element: the least numbers, for each way.
ghost use Rattle.std.specs.Prelude.{◌≡◌, All, None};
ghost use Rattle.grid_geom.specs.Bounds.{IsOnGrid};
ghost use Rattle.grid_geom.specs.Polygon.{IsStrictlyConvex};
ghost use Rattle.admission.specs.Triangles.{corners_of_triangle, IsTriangleOnGrid, IsLineOnGrid, IsLine, IsEnd, HasSome, IsLeastOrNone, lesser_of, lesser_ways, AreLeast, IsMet, IsOnSide, IsCornerOn, IsBackwards, IsSideOf};

use crate::triangle::{Line, Triangle};
use grid_geom::Point;

/// How lines hinder an element: for each way the least number, where a line does.
#[derive(Clone, Copy, Debug, PartialEq, Eq)]
pub struct Hindrances {
    /// The least line that is not apart from the open element.
    pub met: Option<u64>,
    /// The least point, an end of a line, in an open side.
    pub on_side: Option<u64>,
    /// The least line that has a corner in its open segment.
    pub corner_on: Option<u64>,
    /// The least line that is a side reversed.
    pub backwards: Option<u64>,
    /// The least line that is a side. It doesn't hinder.
    pub side: Option<u64>,
}

/// The lesser of two numbers, where they are there.
fn lesser(x: Option<u64>, y: Option<u64>) -> Option<u64>
    ensures { result ≡ lesser_of x y }
{
    match (x, y) {
        (Some(x), Some(y)) => Some(x.min(y)),
        (None, y) => y,
        (x, None) => x,
    }
}

/// The point's number, where its place is in an open side.
fn if_on_side(place: Point, number: u64, t: &Triangle) -> Option<u64>
    requires corners_on { IsTriangleOnGrid t.now }
    requires place_on { IsOnGrid place }
    ensures { IsLeastOrNone (λ n. IsOnSide (corners_of_triangle t.now) place × (number ≡ n))
        result }
{
    if t.on_side(place) {
        return Some(number);
    }
    None
}

/// The least end of the line in an open side.
fn end_on_side(line: &Line, t: &Triangle) -> Option<u64>
    requires corners_on { IsTriangleOnGrid t.now }
    requires line_on { IsLineOnGrid line.now }
    ensures { IsLeastOrNone (IsEnd (IsOnSide (corners_of_triangle t.now)) line.now) result }
{
    lesser(
        if_on_side(line.a, line.from, t),
        if_on_side(line.b, line.to, t),
    )
}

/// The line's number, where the line is not apart from the open triangle.
fn if_met(line: &Line, t: &Triangle) -> Option<u64>
    requires corners_on { IsTriangleOnGrid t.now }
    requires line_on { IsLineOnGrid line.now }
    requires turned { IsStrictlyConvex (corners_of_triangle t.now) }
    ensures { IsLeastOrNone (IsLine (IsMet (corners_of_triangle t.now)) line.now) result }
{
    if t.apart_from(line) {
        return None;
    }
    Some(line.number)
}

/// The line's number, where a corner is in its open segment.
fn if_corner_on(line: &Line, t: &Triangle) -> Option<u64>
    requires corners_on { IsTriangleOnGrid t.now }
    requires line_on { IsLineOnGrid line.now }
    ensures { IsLeastOrNone (IsLine (IsCornerOn (corners_of_triangle t.now)) line.now) result }
{
    if t.corner_on(line) {
        return Some(line.number);
    }
    None
}

/// The line's number, where the line is a side reversed.
fn if_backwards(line: &Line, t: &Triangle) -> Option<u64>
    ensures { IsLeastOrNone (IsLine (IsBackwards (corners_of_triangle t.now)) line.now) result }
{
    if t.backwards(line) {
        return Some(line.number);
    }
    None
}

/// The line's number, where the line is a side.
fn if_side(line: &Line, t: &Triangle) -> Option<u64>
    ensures { IsLeastOrNone (IsLine (IsSideOf (corners_of_triangle t.now)) line.now) result }
{
    if t.has_side(line) {
        return Some(line.number);
    }
    None
}

impl Hindrances {
    /// No line hinders.
    pub fn none() -> Hindrances
        ensures met { result.met ≡ None }
        ensures on_side { result.on_side ≡ None }
        ensures corner_on { result.corner_on ≡ None }
        ensures backwards { result.backwards ≡ None }
        ensures side { result.side ≡ None }
    {
        Hindrances {
            met: None,
            on_side: None,
            corner_on: None,
            backwards: None,
            side: None,
        }
    }

    /// How one line hinders the triangle.
    fn of_line(line: &Line, t: &Triangle) -> Hindrances
        requires corners_on { IsTriangleOnGrid t.now }
        requires line_on { IsLineOnGrid line.now }
        requires turned { IsStrictlyConvex (corners_of_triangle t.now) }
        ensures { AreLeast (corners_of_triangle t.now) (λ R. R line.now) result }
    {
        Hindrances {
            met: if_met(line, t),
            on_side: end_on_side(line, t),
            corner_on: if_corner_on(line, t),
            backwards: if_backwards(line, t),
            side: if_side(line, t),
        }
    }

    /// The lesser number for each way.
    fn or(&self, other: &Hindrances) -> Hindrances
        ensures { result ≡ lesser_ways self.now other.now }
    {
        Hindrances {
            met: lesser(self.met, other.met),
            on_side: lesser(self.on_side, other.on_side),
            corner_on: lesser(self.corner_on, other.corner_on),
            backwards: lesser(self.backwards, other.backwards),
            side: lesser(self.side, other.side),
        }
    }

    /// How the lines of a list hinder the triangle.
    pub fn of_lines(lines: &[Line], t: &Triangle) -> Hindrances
        requires corners_on { IsTriangleOnGrid t.now }
        requires lines_on { All IsLineOnGrid lines.now }
        requires turned { IsStrictlyConvex (corners_of_triangle t.now) }
        ensures { AreLeast (corners_of_triangle t.now) (λ R. HasSome R lines.now) result }
    {
        let mut least = Hindrances::none();
        for line in lines {
            least = least.or(&Hindrances::of_line(line, t));
        }
        least
    }
}
