//! The lists inside an application and a domain's run.

use grid_geom::Element;
use list_of::List;

/// Numbers of points.
pub type PointNumbers = List<u64>;

/// Elements, each the list of its corners.
pub type Elements = List<Element>;

/// The opening lines of a domain: from, to.
pub type OpeningLines = List<(u64, u64)>;

/// Front lines that are left: number, from, to.
pub type FrontRows = List<(u64, u64, u64)>;
