// What the runs of a geometry's domains stand on.

use super::Options;
use geom_check::Geometry;
use grid_geom::Point;
use rule_maps::RuleSet;
use size_field::Pieces;

/// What the runs of a geometry's domains stand on.
#[derive(Clone, Copy)]
pub struct Ground<'g, 'a> {
    /// The pieces into which the options' sizes cut the geometry's segments.
    pub pieces: &'g Pieces,
    /// The mesh points of the pieces.
    pub mesh: &'g [Point],
    pub geometry: &'g Geometry,
    pub rules: &'a RuleSet<'a>,
    /// By class, how far the rules reach up to it, in frame heights.
    pub reaches: &'g [u64],
    pub options: &'g Options,
}
