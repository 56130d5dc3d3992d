// Elements with the places of their corners, and the box of them all.
ghost use Rattle.std.specs.Prelude.{◌≡◌, ◌+◌, ℕ, length, map, All, IfOk, pos, ◌≤ℤ◌};
ghost use Rattle.grid_geom.specs.Bounds.{IsOnGrid};
ghost use Rattle.grid_geom.specs.declared.Point.{Point as AnyPoint};
ghost use Rattle.state_law.specs.State.{IsListed, point_at};
ghost use Rattle.front_chain.specs.Front.{FrontState};
ghost use Rattle.admission.specs.Around.{all_points, IsInBounds, IsBoxOnGrid, IsShapeIn, shape_at, AreListed};
ghost use Rattle.admission.specs.Triangles.{IsTriangleOnGrid};

use crate::triangle::Triangle;
use front_chain::{Front, box_between};
use grid_geom::{Bounds, Element, Point};
use std::alloc::{AllocError as OutOfMemory, Global};

/// An element of three corners: their numbers and their places.
#[derive(Clone, Copy, Debug, PartialEq, Eq)]
pub struct Shape {
    pub i: u64,
    pub j: u64,
    pub k: u64,
    pub t: Triangle,
}

/// The place of the point with this number, where the new points come after the front's.
pub fn place(front: &Front, made: &[Point], n: u64) -> Point
    requires on_grid { All IsOnGrid made.now }
    requires listed { IsListed (length (all_points front.now made.now)) n }
    ensures value { result ≡ point_at (all_points front.now made.now) n }
    ensures on_grid { IsOnGrid result }
{
    let listed = front.points();
    if n <= listed {
        return front.point(n);
    }
    made[(n - listed) as usize - 1]
}

/// The element with the places of its corners.
pub fn shape_of(front: &Front, made: &[Point], element: &Element) -> Shape
    requires on_grid { All IsOnGrid made.now }
    requires three { length element.now ≡ 3 }
    requires listed { AreListed (length (all_points front.now made.now)) element.now }
    ensures value { result ≡ shape_at (all_points front.now made.now) element.now }
    ensures on_grid { IsTriangleOnGrid result.t }
{
    let numbers = element.as_slice();
    let (i, j, k) = (numbers[0], numbers[1], numbers[2]);
    let t = Triangle {
        a: place(front, made, i),
        b: place(front, made, j),
        c: place(front, made, k),
    };
    Shape { i, j, k, t }
}

/// All elements with the places of their corners.
pub fn shapes_of(
    alloc: Global,
    front: &Front,
    made: &[Point],
    elements: &[Element],
) -> Result<Vec<Shape>, OutOfMemory>
    requires on_grid { All IsOnGrid made.now }
    requires three { All (λ ns. length ns ≡ 3) elements.now }
    requires listed { All (AreListed (length (all_points front.now made.now))) elements.now }
    ensures value { IfOk result (λ v. v.items ≡
        map (shape_at (all_points front.now made.now)) elements.now) }
    ensures on_grid { IfOk result (λ v. All (λ s. IsTriangleOnGrid s.t) v.items) }
{
    let mut shapes = Vec::with_capacity(alloc, elements.len())?;
    for element in elements {
        shapes.push(shape_of(front, made, element))?;
    }
    Ok(shapes)
}

/// The box, made so large that it holds a point too.
fn extended(bounds: &Bounds, by: Point) -> Bounds
    requires bounds_on { IsBoxOnGrid bounds.now }
    requires by_on { IsOnGrid by }
    ensures on_grid { IsBoxOnGrid result }
    ensures holds { IsInBounds result by }
    ensures keeps { (p : AnyPoint) → IsInBounds bounds.now p → IsInBounds result p }
{
    Bounds {
        lo: box_between(&by, &bounds.lo).lo,
        hi: box_between(&by, &bounds.hi).hi,
    }
}

/// The box, made so large that it holds the corners of a triangle too.
fn around(bounds: &Bounds, t: &Triangle) -> Bounds
    requires bounds_on { IsBoxOnGrid bounds.now }
    requires corners_on { IsTriangleOnGrid t.now }
    ensures on_grid { IsBoxOnGrid result }
    ensures a { IsInBounds result t.now.a }
    ensures b { IsInBounds result t.now.b }
    ensures c { IsInBounds result t.now.c }
    ensures keeps { (p : AnyPoint) → IsInBounds bounds.now p → IsInBounds result p }
{
    extended(&extended(&extended(bounds, t.a), t.b), t.c)
}

/// A box that holds the corners of all elements.
pub fn box_of(shapes: &[Shape]) -> Bounds
    requires { All (λ shape. IsTriangleOnGrid shape.t) shapes.now }
    ensures { All (IsShapeIn result) shapes.now }
{
    let start = match shapes {
        [] => Point { x: 0, y: 0 },
        [first, ..] => first.t.a,
    };
    let mut bounds = Bounds {
        lo: start,
        hi: start,
    };
    for shape in shapes {
        bounds = around(&bounds, &shape.t);
    }
    bounds
}
