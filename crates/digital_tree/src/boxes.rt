// Boxes that hold boxes.
ghost use Rattle.std.specs.Prelude.{◌↔◌, ◌≡◌, ◌≤ℤ◌, IsTrue};
ghost use Rattle.std.specs.Int.{int_max, int_min};
ghost use Rattle.grid_geom.specs.declared.Bounds.{Bounds as AnyBounds};
ghost use Rattle.digital_tree.specs.Boxes.{IsWithin};

use grid_geom::{Bounds, Point};

/// Whether a box lies in another.
pub fn is_within(inner: &Bounds, outer: &Bounds) -> bool
    ensures { IsTrue result ↔ IsWithin inner.now outer.now }
{
    is_at_most(&outer.lo.x, &inner.lo.x)
        && is_at_most(&inner.hi.x, &outer.hi.x)
        && is_at_most(&outer.lo.y, &inner.lo.y)
        && is_at_most(&inner.hi.y, &outer.hi.y)
}

fn is_at_most(a: &i64, b: &i64) -> bool
    ensures { IsTrue result ↔ (a.now ≤ℤ b.now) }
{
    *a <= *b
}

fn lesser(a: &i64, b: &i64) -> i64
    ensures { result ≡ int_min a.now b.now }
{
    if *a <= *b { *a } else { *b }
}

fn greater(a: &i64, b: &i64) -> i64
    ensures { result ≡ int_max a.now b.now }
{
    if *a <= *b { *b } else { *a }
}

/// The least box in which two boxes lie.
pub fn union(a: &Bounds, b: &Bounds) -> Bounds
    ensures first { IsWithin a.now result }
    ensures second { IsWithin b.now result }
    ensures least { (c : AnyBounds) → IsWithin a.now c → IsWithin b.now c → IsWithin result c }
{
    Bounds {
        lo: Point {
            x: lesser(&a.lo.x, &b.lo.x),
            y: lesser(&a.lo.y, &b.lo.y),
        },
        hi: Point {
            x: greater(&a.hi.x, &b.hi.x),
            y: greater(&a.hi.y, &b.hi.y),
        },
    }
}
