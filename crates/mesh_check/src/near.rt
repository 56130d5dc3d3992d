// Boxes, and the points of a mesh in a tree by their places.
ghost use Rattle.std.specs.Prelude.{◌≡◌, length, All, IfOk};
ghost use Rattle.std.specs.Int.{int_max, int_min};
ghost use Rattle.grid_geom.specs.Bounds.{IsOnGrid};
ghost use Rattle.grid_geom.specs.declared.Point.{Point as AnyPoint};
ghost use Rattle.mesh_check.specs.Near.{box_at, IsInBounds, AreKept};

use digital_tree::Tree;
use grid_geom::{Bounds, Point};
use std::alloc::{AllocError as OutOfMemory, Global};

fn lesser(a: &i64, b: &i64) -> i64
    ensures { result ≡ int_min a.now b.now }
{
    if *a <= *b { *a } else { *b }
}

fn greater(a: &i64, b: &i64) -> i64
    ensures { result ≡ int_max a.now b.now }
{
    if *a <= *b { *b } else { *a }
}

/// The box, made so large that it holds a point too.
fn extended(bounds: &Bounds, by: &Point) -> Bounds
    ensures holds { IsInBounds result by.now }
    ensures keeps { (p : AnyPoint) → IsInBounds bounds.now p → IsInBounds result p }
{
    Bounds {
        lo: Point {
            x: lesser(&bounds.lo.x, &by.x),
            y: lesser(&bounds.lo.y, &by.y),
        },
        hi: Point {
            x: greater(&bounds.hi.x, &by.x),
            y: greater(&bounds.hi.y, &by.y),
        },
    }
}

/// The box of a place alone.
pub fn box_at(place: Point) -> Bounds
    ensures { result ≡ box_at place }
{
    Bounds {
        lo: place,
        hi: place,
    }
}

/// A box that holds the corners.
pub fn box_of(corners: &[Point]) -> Bounds
    ensures { All (IsInBounds result) corners.now }
{
    let start = match corners {
        [] => Point { x: 0, y: 0 },
        [first, ..] => *first,
    };
    let mut bounds = box_at(start);
    for corner in corners {
        bounds = extended(&bounds, corner);
    }
    bounds
}

/// The points that aren't passed over, each by its position, at its place.
pub fn tree_of(alloc: Global, points: &[Point], passed: &[bool]) -> Result<Tree<usize>, OutOfMemory>
    requires long { length passed.now ≡ length points.now }
    requires on_grid { All IsOnGrid points.now }
    ensures { IfOk result (λ tree. AreKept points.now passed.now (length points.now) tree.entries) }
{
    let mut tree = Tree::new(alloc);
    for (i, point) in points.iter().enumerate() {
        if !passed[i] {
            tree.insert(box_at(*point), i)?;
        }
    }
    Ok(tree)
}
