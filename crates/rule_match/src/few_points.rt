//! A few points, in the value itself.

ghost use Rattle.std.specs.Prelude.{◌≡◌, ◌++◌, ◌∷◌, [], ◌<◌, length};

use grid_geom::Point;
use smallvec::SmallVec;
use std::alloc::Global;
use std::marker::Model;

/// The most points that a rule may map and make: 16 and 8.
pub(crate) const MOST_POINTS: usize = 24;

/// At most 24 points in their order. Seen as their list; takes no memory.
#[derive(Debug, Drop)]
pub(crate) struct FewPoints {
    points: SmallVec<Point, 24>,
}

impl Model for FewPoints {
    ghost use Rattle.std.specs.Prelude.{List, ◌≡◌};
    ghost use Rattle.grid_geom.specs.declared.Point.{Point as AnyPoint};

    ghost Value = { List AnyPoint };

    ghost view = { λ f. f.points.items };

    ghost invariant = { λ f. f.points.capacity ≡ 24 };
}

impl FewPoints {
    /// No points.
    pub(crate) fn new(alloc: Global) -> FewPoints
        ensures { result ≡ [] }
    {
        FewPoints {
            points: SmallVec::new(alloc),
        }
    }

    /// Puts one more point at the end.
    pub(crate) fn push(&mut self, p: Point)
        requires { length self.old < MOST_POINTS }
        ensures { self.new ≡ self.old ++ p ∷ [] }
    {
        self.points.push_reserved(p);
    }

    /// The points in their order.
    pub(crate) fn as_slice(&self) -> &[Point]
        ensures { result.now ≡ self.now }
    {
        self.points.as_slice()
    }
}
