// Boxes that hold sources.
ghost use Rattle.std.specs.Prelude.{◌≡◌, ◌≤◌};
ghost use Rattle.grid_geom.specs.Bounds.{IsOnGrid};
ghost use Rattle.grid_geom.specs.declared.Point.{Point as AnyPoint};
ghost use Rattle.grid_geom.specs.declared.Bounds.{Bounds as AnyBounds};
ghost use Rattle.size_field.specs.Size.{reach};
ghost use Rattle.size_field.specs.Boxes.{IsBoxOnGrid, IsInBounds};

use grid_geom::{Bounds, Point};

/// The point of a box that is nearest to a point, in each coordinate.
pub fn nearest(bounds: &Bounds, to: &Point) -> Point
    requires bounds { IsBoxOnGrid bounds.now }
    requires to { IsOnGrid to.now }
    ensures on_grid { IsOnGrid result }
    ensures nearest { (p : AnyPoint) → IsInBounds bounds.now p →
        reach to.now result ≤ reach to.now p }
{
    Point {
        x: to.x.max(bounds.lo.x).min(bounds.hi.x),
        y: to.y.max(bounds.lo.y).min(bounds.hi.y),
    }
}

/// The box, made so large that it holds a point too.
pub fn extended(bounds: &Bounds, by: &Point) -> Bounds
    requires bounds { IsBoxOnGrid bounds.now }
    requires by { IsOnGrid by.now }
    ensures on_grid { IsBoxOnGrid result }
    ensures holds { IsInBounds result by.now }
    ensures keeps { (p : AnyPoint) → IsInBounds bounds.now p → IsInBounds result p }
{
    Bounds {
        lo: Point {
            x: bounds.lo.x.min(by.x),
            y: bounds.lo.y.min(by.y),
        },
        hi: Point {
            x: bounds.hi.x.max(by.x),
            y: bounds.hi.y.max(by.y),
        },
    }
}
