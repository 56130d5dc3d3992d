// A box that holds a zone.
ghost use Rattle.std.specs.Prelude.{List, [], ◌∷◌};
ghost use Rattle.grid_geom.specs.declared.Point.{Point as AnyPoint};
ghost use Rattle.state_law.specs.Saved.{AreInBox};
ghost use Rattle.free_zone.specs.Zone.{IsZone};

use crate::zone::Zone;
use front_chain::box_between;
use grid_geom::{Bounds, Point};

/// The box, made so large that it holds a point too.
fn extended(bounds: &Bounds, by: &Point) -> Bounds
    ensures holds { AreInBox result.lo result.hi (by.now ∷ []) }
    ensures keeps { (corners : List AnyPoint) → AreInBox bounds.now.lo bounds.now.hi corners →
        AreInBox result.lo result.hi corners }
{
    Bounds {
        lo: box_between(&bounds.lo, by).lo,
        hi: box_between(&bounds.hi, by).hi,
    }
}

/// The least box that holds the corners, where there is one.
fn box_of(corners: &[Point]) -> Bounds
    ensures { AreInBox result.lo result.hi corners.now }
{
    let start = match corners {
        [] => Point { x: 0, y: 0 },
        [first, ..] => *first,
    };
    let mut bounds = Bounds {
        lo: start,
        hi: start,
    };
    for corner in corners {
        bounds = extended(&bounds, corner);
    }
    bounds
}

impl Zone {
    /// A box that holds the corners.
    pub fn bounds(&self) -> Bounds
        ensures holds { AreInBox result.lo result.hi self.now }
        ensures zone { IsZone self.now }
    {
        box_of(self.corners())
    }
}
