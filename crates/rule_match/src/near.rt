//! The surroundings of a base line, from which a rule's points are mapped.

use grid_geom::Point;

/// A front point in range of a base line: its number, its place, and its local place, rounded, in units
/// of 1/10,000.
#[derive(Clone, Copy, Debug)]
pub struct NearPoint {
    pub number: u64,
    pub at: Point,
    pub x: i32,
    pub y: i32,
}
