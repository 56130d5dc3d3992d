//! Is a mesh whole for a geometry, and if not, which is its first fault?
//!
//! 1. A fault is looked for in the order of `Verdict`, and named at its least place.
//! 2. Points are sorted by their places. Two at one place then stand side by side.
//! 3. Edge rows are walked along the segments, one after another.
//! 4. Each side is a number, and that of its turn the next one, on the shelf of its lesser point: where
//!    the numbers of each shelf, sorted, are in pairs, elements and boundaries agree. Else sides are
//!    sorted by their domains, starts and ends: where elements and boundaries agree, each side stands as
//!    often as its turn.
//! 5. Sides are counted before points are searched for. Where they agree, no corner of an element is in
//!    an open side but in one that is an edge row (`laws::law_tight`). So where no point is in an edge
//!    row, only points that are no corners are searched for; else all are.
//! 6. A point in an open side is in each box that holds the side. So the points that are searched for
//!    stand in a tree, and those in a box round an element are tried; edge rows stand in another one.
#![tactic(auto)]

mod checking;
mod counts;
mod difference;
mod elements;
mod hanging;
mod keys;
pub mod laws;
mod near;
mod rows;
mod shelves;
mod sides;
mod spots;
mod tight;
mod verdict;

pub use checking::check_mesh;
pub use verdict::Verdict;

#[cfg(test)]
mod tests;
