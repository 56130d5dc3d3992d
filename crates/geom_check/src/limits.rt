// The limits of geometries, and the bounds of the numbers on the way: these are computed from
// `GRID`.
use grid_geom::GRID;

/// The most points, and the most segments, of a geometry.
pub const MOST_ROWS: usize = 4096;

/// The greatest number of a domain.
pub const MOST_DOMAINS: u32 = 64;

/// The greatest boundary number.
pub const MOST_BOUNDARY_NUMBER: u32 = 999_999;

/// The coarsest and the finest shift.
pub const COARSEST: i32 = -6;

pub const FINEST: i32 = 8;

/// The greatest absolute value of a coordinate, in units of 64 grid steps.
pub const MOST_UNITS: u64 = 16_384;

/// The grid's width.
pub const WIDTH: u64 = 2 * GRID as u64;

/// The greatest denominator of a place at which a segment crosses the middle height of a strip:
/// twice a height.
pub const MOST_UNDER: u64 = 2 * WIDTH;

/// A bound of such a place's numerator: two products of a width and a denominator.
pub const MOST_OVER: u64 = 2 * WIDTH * MOST_UNDER;

/// Two different such places differ by at least 1 / `MOST_UNDER`^2, which is four of these parts of
/// a grid step.
pub const PARTS: u128 = 4 * MOST_UNDER as u128 * MOST_UNDER as u128;

/// A bound of the denominator of a place between two of them.
pub const MOST_COMMON: u128 = 2 * MOST_UNDER as u128 * MOST_UNDER as u128;

/// A bound of its numerators, counted from the lower left corner of the grid.
pub const MOST_ACROSS: u128 = 2 * MOST_OVER as u128 * MOST_UNDER as u128;

/// Two different slopes of segments differ by at least 1 / `WIDTH`^2, which is one of these parts: so
/// rounded downwards to whole parts they differ still.
pub const LEAN_PARTS: u128 = WIDTH as u128 * WIDTH as u128;

/// How many slopes there are, in these parts: from -`WIDTH` to `WIDTH`.
pub const LEANS: u128 = 2 * WIDTH as u128 * LEAN_PARTS + 1;

/// How many keys the events at one height may have: two columns at each place, with all slopes.
pub const KEYS: u128 = (2 * WIDTH as u128 + 2) * LEANS;
