// The least box that holds two places, as the ends of a line.
ghost use Rattle.std.specs.Prelude.{◌≡◌};
ghost use Rattle.std.specs.Int.{int_max, int_min};
ghost use Rattle.wind_law.specs.Chains.{edge};
ghost use Rattle.front_chain.specs.Boxes.{box_of};

use grid_geom::{Bounds, Point};

/// The point with the lesser of each coordinate.
fn lower(a: &Point, b: &Point) -> Point
    ensures x { result.x ≡ int_min a.now.x b.now.x }
    ensures y { result.y ≡ int_min a.now.y b.now.y }
{
    Point {
        x: a.x.min(b.x),
        y: a.y.min(b.y),
    }
}

/// The point with the greater of each coordinate.
fn higher(a: &Point, b: &Point) -> Point
    ensures x { result.x ≡ int_max a.now.x b.now.x }
    ensures y { result.y ≡ int_max a.now.y b.now.y }
{
    Point {
        x: a.x.max(b.x),
        y: a.y.max(b.y),
    }
}

/// The least box that holds two places.
pub fn box_between(a: &Point, b: &Point) -> Bounds
    ensures { result ≡ box_of (edge a.now b.now) }
{
    Bounds {
        lo: lower(a, b),
        hi: higher(a, b),
    }
}
