//! What a rule is.

use crate::lists::{Elements, MapLines, MapPoints, Pairs, Places, Row, Turns};
use word_scan::Name;

/// The weights of a tolerance, in units of 1/10,000: the measure of a deviation (dx, dy) is
/// f1 dx^2 + f2 dx dy + f3 dy^2.
#[derive(Clone, Copy, Debug, PartialEq, Eq)]
pub struct Triple {
    pub f1: i32,
    pub f2: i32,
    pub f3: i32,
}

/// A point that a rule maps to a point of the front: its place, in units of 1/10,000, and how far
/// the front's point may be from it.
#[derive(Clone, Copy, Debug, PartialEq, Eq)]
pub struct MapPoint {
    pub x: i32,
    pub y: i32,
    pub tol: Triple,
}

/// A line of the front that a rule maps, from point i to point j, and whether it leaves the front.
#[derive(Clone, Copy, Debug, PartialEq, Eq)]
pub struct MapLine {
    pub i: u32,
    pub j: u32,
    pub tol: Triple,
    pub del: bool,
}

/// A multiple of the deviation of a mapped point in x, or in y. The coefficient is in units of
/// 1/10,000.
#[derive(Clone, Copy, Debug, PartialEq, Eq)]
pub struct Term {
    pub coefficient: i32,
    pub of_y: bool,
    pub point: u32,
}

/// A place of a new point or of a corner, in units of 1/10,000, and the sums that move it.
#[derive(Debug, Drop)]
pub struct Place {
    pub x: i32,
    pub y: i32,
    pub row_x: Row,
    pub row_y: Row,
}

/// A rule of an advancing front (Schöberl 1997): which points and lines it maps, the points and
/// lines that it makes, the zone that must be free, its narrowest form, the elements, and the
/// triples of points that must turn counterclockwise.
#[derive(Debug, Drop)]
pub struct Rule {
    pub name: Name,
    pub quality: u32,
    pub points: MapPoints,
    pub lines: MapLines,
    pub new_points: Places,
    pub new_lines: Pairs,
    pub area: Places,
    pub limit: Places,
    pub elements: Elements,
    pub turns: Turns,
}
