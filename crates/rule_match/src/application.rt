//! What a candidate does to a domain.

use grid_geom::{Element, Points};
use list_of::List;

/// One application of a rule to a domain's front, which contracts see as lists.
#[derive(Debug, Drop)]
pub struct Application {
    /// The class at which the rule applies, from 1.
    pub class: u32,
    /// The number of the base line.
    pub line: u64,
    /// The number of the rule, from 1.
    pub rule: usize,
    /// The numbers of the mapped points, in the order of the rule's points.
    pub points: List<u64>,
    /// The places of the new points, in the rule's order.
    pub made: Points,
    /// The elements; numbers after the domain's points name the new points in order.
    pub elements: List<Element>,
}
