// Fronts: the sides of triangles and quadrilaterals, a square with a hole, and fronts to which elements are glued.
ghost use Rattle.std.specs.Prelude.{◌≡◌, ◌^◌, ◌≤ℤ◌, pos, true, IsTrue, [], ◌∷◌};
ghost use Rattle.std.specs.List.{All, IsDistinct};
ghost use Rattle.grid_geom.specs.Bounds.{IsOnGrid};
ghost use Rattle.grid_geom.specs.Closed.{same_point};
ghost use Rattle.match_tests.specs.Polygons.{IsPolygon};

use crate::gluing::{are_listed, do_differ, may_be_listed};
use admission::admit;
use front_chain::Front;
use grid_geom::{Element, Point, double_area, on_grid, strictly_convex};
use std::alloc::{AllocError as OutOfMemory, Global};
use std::test::Fail;

/// A place by its coordinates, in grid steps.
pub type At = (i64, i64);

/// The point at the place.
fn point(at: At) -> Point {
    Point { x: at.0, y: at.1 }
}

/// Whether the corners are different points of the grid.
fn are_places(corners: &[Point]) -> bool
    ensures on { result ≡ true → All IsOnGrid corners.now }
    ensures different { result ≡ true → IsDistinct same_point corners.now }
{
    corners.iter().all(|p| on_grid(*p)) && do_differ(corners)
}

/// Whether the corners are those of a polygon whose sides may be a front.
fn is_polygon(corners: &[Point]) -> bool
    ensures { result ≡ true → IsPolygon corners.now }
{
    corners.len() <= 4
        && are_places(corners)
        && strictly_convex(corners)
        && double_area(corners) <= 1 << 50
}

/// The front of a triangle, by its corners counterclockwise.
pub fn of_three(alloc: Global, a: At, b: At, c: At) -> Result<Front, Fail> {
    let corners = [point(a), point(b), point(c)];
    if !is_polygon(&corners) {
        return Err("the corners are those of a triangle".into());
    }
    Ok(Front::open(alloc, &corners, &[(1, 2), (2, 3), (3, 1)])?)
}

/// The front of a quadrilateral, by its corners counterclockwise.
pub fn of_four(alloc: Global, a: At, b: At, c: At, d: At) -> Result<Front, Fail> {
    let corners = [point(a), point(b), point(c), point(d)];
    if !is_polygon(&corners) {
        return Err("the corners are those of a convex quadrilateral".into());
    }
    Ok(Front::open(alloc, &corners, &[(1, 2), (2, 3), (3, 4), (4, 1)])?)
}

/// The front of a square.
pub fn square(alloc: Global) -> Result<Front, Fail> {
    of_four(
        alloc,
        (0, 0),
        (640_000, 0),
        (640_000, 640_000),
        (0, 640_000),
    )
}

/// The front of a triangle with a right angle.
pub fn triangle(alloc: Global) -> Result<Front, Fail> {
    of_three(alloc, (0, 0), (640_000, 0), (0, 640_000))
}

/// The front of a square of three units of 64000 with a hole of one unit in its middle.
pub fn ring(alloc: Global) -> Result<Front, OutOfMemory> {
    Front::open(
        alloc,
        &[
            Point { x: 0, y: 0 },
            Point { x: 192_000, y: 0 },
            Point {
                x: 192_000,
                y: 192_000,
            },
            Point { x: 0, y: 192_000 },
            Point {
                x: 64_000,
                y: 64_000,
            },
            Point {
                x: 128_000,
                y: 64_000,
            },
            Point {
                x: 128_000,
                y: 128_000,
            },
            Point {
                x: 64_000,
                y: 128_000,
            },
        ],
        &[
            (1, 2),
            (2, 3),
            (3, 4),
            (4, 1),
            (6, 5),
            (7, 6),
            (8, 7),
            (5, 8),
        ],
    )
}

/// Lists a point on no line.
pub fn list_point(front: &mut Front, at: At) -> Result<(), Fail> {
    let p = point(at);
    if !on_grid(p) || front.number_at(p).is_some() {
        return Err("the place is on the grid, and no listed point is there".into());
    }
    front.reserve(1, 0)?;
    front.add_point(p);
    Ok(())
}

/// Glues an element with these corners.
pub fn glue(alloc: Global, front: &mut Front, corners: (u64, u64, u64)) -> Result<(), Fail> {
    let elements = [Element::from_vec(vec![in alloc; corners.0, corners.1, corners.2]?)];
    if !may_be_listed(front, &[]) || !are_listed(front.points(), elements[0].as_slice()) {
        return Err("the corners are listed".into());
    }
    if admit(alloc, front, &[], &elements).is_err() {
        return Err("the element is admitted".into());
    }
    front.reserve(0, 1)?;
    front.glue(&elements[0]);
    Ok(())
}
