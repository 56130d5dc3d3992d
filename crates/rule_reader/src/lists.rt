//! Lists of what rules are made of.

use crate::rule::{MapLine, MapPoint, Place, Rule, Term};
use grid_geom::Element;
use list_of::List;

/// The mapped points of a rule.
pub type MapPoints = List<MapPoint>;

/// The mapped lines of a rule.
pub type MapLines = List<MapLine>;

/// New points, or corners of a zone.
pub type Places = List<Place>;

/// A row: the terms of a sum.
pub type Row = List<Term>;

/// The lines that a rule makes, each from a point to a point.
pub type Pairs = List<(u32, u32)>;

/// The elements that a rule makes, each by the numbers of its corners.
pub type Elements = List<Element>;

/// Triples of points that must turn counterclockwise.
pub type Turns = List<(u32, u32, u32)>;

/// Rules in the order of the text.
pub type Rules = List<Rule>;
