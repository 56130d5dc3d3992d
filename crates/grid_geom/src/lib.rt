//! Where do points, segments and polygons of the grid lie beside each other, exactly?
//!
//! 1. A grid point has whole coordinates of absolute value at most `GRID`.
//! 2. A rational point (x, y, k), with k at least 1, stands for (x/k, y/k).
//! 3. No call here takes memory or refuses, and no number passes 128 bits.
#![tactic(auto)]

mod boxes;
pub mod laws;
mod lists;
mod orientation;
mod polygons;
mod rounding;
mod segments;

pub use boxes::meet;
pub use lists::{Element, Points};
pub use orientation::{on_grid, orient, orient_rat};
pub use polygons::{apart, double_area, in_open, strictly_convex};
pub use rounding::{isqrt, round_div};
pub use segments::{on_open, segments_meet, tangle};

/// The greatest absolute value of a grid point's coordinate.
pub const GRID: i64 = 1_048_576;

/// The greatest length that a size may have, in grid steps: the grid's width.
pub const LONGEST: u64 = 2_097_152;

/// The greatest absolute value of a rational point's numerators where a call takes one: 2^70.
pub const GREATEST_NUMERATOR: i128 = 1_180_591_620_717_411_303_424;

/// The greatest denominator of a rational point where a call takes one: 2^50.
pub const GREATEST_DENOMINATOR: i128 = 1_125_899_906_842_624;

/// The greatest number of corners of which `double_area` sums: 2^20.
pub const MOST_CORNERS: usize = 1_048_576;

/// A point of the grid, in grid steps.
#[derive(Clone, Copy, Debug, PartialEq, Eq, Hash, Default)]
pub struct Point {
    pub x: i64,
    pub y: i64,
}

/// The rational point (x/k, y/k), with k at least 1.
#[derive(Clone, Copy, Debug, PartialEq, Eq)]
pub struct RatPoint {
    pub x: i128,
    pub y: i128,
    pub k: i128,
}

/// A closed box with sides along the axes: `lo` is at most `hi` in each coordinate.
#[derive(Clone, Copy, Debug, PartialEq, Eq)]
pub struct Bounds {
    pub lo: Point,
    pub hi: Point,
}

/// A directed edge from `a` to `b`.
#[derive(Clone, Copy, Debug, PartialEq, Eq)]
pub struct Edge {
    pub a: Point,
    pub b: Point,
}
