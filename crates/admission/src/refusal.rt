// Why elements are not admitted, and elements that are.
use grid_geom::{Element, Point};
use list_of::List;

/// Why the elements may not be glued one after another: the first one that may not, by the first
/// condition that fails, at the least line or point. Elements are numbered from 1 in the call.
/// Lines and points have the numbers that they have once the new points are listed and the elements
/// before are glued.
#[derive(Clone, Copy, Debug, PartialEq, Eq)]
pub enum GlueRefusal {
    /// The element is not positively turned.
    Turned { element: u64 },
    /// The front line is not apart from the open element.
    Met { element: u64, line: u64 },
    /// The front point is in an open side of the element.
    PointOnSide { element: u64, point: u64 },
    /// A corner of the element is in the open front line.
    CornerOnLine { element: u64, line: u64 },
    /// The front line is a side of the element reversed.
    Backwards { element: u64, line: u64 },
    /// The front winds another number of times than once round the element's centre.
    Outside { element: u64, winding: i64 },
    /// The element's doubled area is greater than that of the front just before it.
    Area { element: u64, left: i128 },
    /// There was no memory.
    Memory,
}

/// New points and elements that may be glued one after another.
#[derive(Debug, Drop)]
pub struct Admitted {
    pub made: List<Point>,
    pub elements: List<Element>,
}
