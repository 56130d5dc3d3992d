//! The zone of a rule at a class.
ghost use Rattle.std.specs.Prelude.{◌≡◌, ◌≤◌, length, IfSome, IfNone};
ghost use Rattle.std.specs.List.{All};
ghost use Rattle.grid_geom.specs.Bounds.{IsOnGrid};
ghost use Rattle.rule_maps.specs.Frame.{IsInRange};
ghost use Rattle.rule_maps.specs.Inert.{IsLive};
ghost use Rattle.rule_maps.specs.Places.{mapping};
ghost use Rattle.free_zone.specs.Zone.{IsZone, zone_of};

use grid_geom::{Point, strictly_convex};
use rule_maps::{Compiled, Frame};
use smallvec::SmallVec;
use std::alloc::Global;
use std::marker::Model;

/// The most corners that a zone has.
const MOST_CORNERS: usize = 24;

/// The ground that a rule needs free: a strictly convex polygon of grid points, seen as the list of
/// its corners, counterclockwise.
#[derive(Debug, Drop)]
pub struct Zone {
    corners: SmallVec<Point, MOST_CORNERS>,
}

impl Model for Zone {
    ghost use Rattle.std.specs.Prelude.{List};
    ghost use Rattle.grid_geom.specs.declared.Point.{Point};
    ghost use Rattle.free_zone.specs.Zone.{IsZone};

    ghost Value = { List Point };

    ghost view = { λ z. z.corners.items };

    ghost invariant = { λ z. IsZone z.corners.items };
}

/// The places of the zone's corners at a class, where all are on the grid.
fn corners_of(
    alloc: Global,
    c: &Compiled<'_>,
    f: &Frame,
    mapped: &[Point],
    class: u32,
) -> Option<SmallVec<Point, MOST_CORNERS>>
    requires live { IsLive c.now }
    requires count { length mapped.now ≡ length c.now.points }
    requires range { All (IsInRange f.now) mapped.now }
    requires class_least { 1 ≤ class }
    requires class_greatest { class ≤ 16 }
    ensures corners { IfSome result
        (λ v. v.items ≡ zone_of (mapping f.now c.now mapped.now) class) }
    ensures on { IfSome result (λ v. All IsOnGrid v.items) }
    ensures off { IfNone result
        (¬ (All IsOnGrid (zone_of (mapping f.now c.now mapped.now) class))) }
{
    let mut corners = SmallVec::new(alloc);
    let area = c.rule().area.as_slice();
    for k in 0..area.len() {
        corners.push_reserved(c.corner(k + 1, f, mapped, class)?);
    }
    Some(corners)
}

impl Zone {
    /// The zone of a rule at a class from 1 to 16: its corners in the rule's order. None where a
    /// corner is off the grid or the corners are not strictly convex. It takes no memory.
    ///
    /// The rule is live, and as many points as it maps are given, each in range of the frame.
    pub fn new(
        alloc: Global,
        c: &Compiled<'_>,
        f: &Frame,
        mapped: &[Point],
        class: u32,
    ) -> Option<Zone>
        requires live { IsLive c.now }
        requires count { length mapped.now ≡ length c.now.points }
        requires range { All (IsInRange f.now) mapped.now }
        requires class_least { 1 ≤ class }
        requires class_greatest { class ≤ 16 }
        ensures corners { IfSome result (λ z. z ≡ zone_of (mapping f.now c.now mapped.now) class) }
        ensures zone { IfSome result IsZone }
        ensures none { IfNone result (¬ (IsZone (zone_of (mapping f.now c.now mapped.now) class))) }
    {
        let corners = corners_of(alloc, c, f, mapped, class)?;
        if strictly_convex(corners.as_slice()) {
            Some(Zone { corners })
        } else {
            None
        }
    }

    /// The corners, counterclockwise.
    pub fn corners(&self) -> &[Point]
        ensures value { result.now ≡ self.now }
        ensures zone { IsZone self.now }
    {
        self.corners.as_slice()
    }
}
