// Boxes that meet.
ghost use Rattle.std.specs.Prelude.{◌↔◌, IsTrue};
ghost use Rattle.grid_geom.specs.Boxes.{DoBoundsMeet};

use super::Bounds;

/// Whether two closed boxes have a point in common. They need not be on the grid.
pub fn meet(a: &Bounds, b: &Bounds) -> bool
    ensures { IsTrue result ↔ DoBoundsMeet a.now b.now }
{
    a.lo.x <= b.hi.x && (b.lo.x <= a.hi.x && (a.lo.y <= b.hi.y && b.lo.y <= a.hi.y))
}
