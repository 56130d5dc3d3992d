// An accepted geometry.

ghost use Rattle.std.specs.Prelude.{◌≡◌};
ghost use Rattle.geom_check.specs.Shift.{length_at};
ghost use Rattle.geom_check.specs.Placed.{IsReadableNumber};
ghost use Rattle.geom_check.specs.Geometry.{PlanarMap, IsGeometry, IsLength, map_of};

use crate::kinds::{Domain, Domains, Segment, Segments, Source, Sources};
use crate::scale::Scale;
use grid_geom::{Point, Points};
use std::marker::Model;
use word_scan::Dec;

/// An accepted geometry on the grid. It keeps in its type that it is one.
#[derive(Debug, Drop)]
pub struct Geometry {
    shift: i32,
    points: Points,
    segments: Segments,
    flagged: Sources,
    domains: Domains,
}

impl Model for Geometry {
    ghost use Rattle.geom_check.specs.Geometry.{PlanarMap, IsGeometry, map_of};

    ghost Value = { PlanarMap };

    ghost view = { λ g. map_of g.shift g.points g.segments g.flagged g.domains };

    ghost invariant = { λ g. IsGeometry (map_of g.shift g.points g.segments g.flagged g.domains) };
}

impl Geometry {
    /// The geometry of these parts. Takes no memory.
    pub(crate) fn new(
        shift: i32,
        points: Points,
        segments: Segments,
        flagged: Sources,
        domains: Domains,
    ) -> Geometry
        requires { IsGeometry (map_of shift points segments flagged domains) }
        ensures { result ≡ map_of shift points segments flagged domains }
    {
        Geometry {
            shift,
            points,
            segments,
            flagged,
            domains,
        }
    }

    /// The file's shift, from -6 to 8: one length of the file is 64 * 10 ^ shift grid steps.
    pub fn shift(&self) -> i32
        ensures value { result ≡ self.now.shift }
        ensures accepted { IsGeometry self.now }
    {
        self.shift
    }

    /// The points, in the order of the file's rows.
    pub fn points(&self) -> &[Point]
        ensures value { result.now ≡ self.now.points }
        ensures accepted { IsGeometry self.now }
    {
        self.points.as_slice()
    }

    /// The segments, in the order of the file's rows.
    pub fn segments(&self) -> &[Segment]
        ensures value { result.now ≡ self.now.segments }
        ensures accepted { IsGeometry self.now }
    {
        self.segments.as_slice()
    }

    /// The points that bound the sizes around them, in the order of the file's rows.
    pub fn flagged(&self) -> &[Source]
        ensures value { result.now ≡ self.now.flagged }
        ensures accepted { IsGeometry self.now }
    {
        self.flagged.as_slice()
    }

    /// The domains that segments name, rising.
    pub fn domains(&self) -> &[Domain]
        ensures value { result.now ≡ self.now.domains }
        ensures accepted { IsGeometry self.now }
    {
        self.domains.as_slice()
    }

    /// A length of the file in grid steps, rounded downwards: at least 1, and at most `LONGEST`.
    pub fn length_in_steps(&self, length: &Dec) -> u64
        requires { IsReadableNumber length.now }
        ensures value { result ≡ length_at self.now.shift length.now }
        ensures bounds { IsLength result }
    {
        let scale = Scale { shift: self.shift };
        scale.length(length)
    }
}
