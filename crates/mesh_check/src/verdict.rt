// What is said of a mesh.

/// The first fault of a mesh for a geometry, in the order of these variants, at its least place.
/// Points, edge rows and elements are numbered from 1.
#[derive(Clone, Copy, Debug, PartialEq, Eq)]
pub enum Verdict {
    /// The least pair of points at one place.
    SamePlace {
        i: u64,
        j: u64,
    },
    /// The first edge row by which the rows don't walk the segments, or one past the last where rows
    /// are missing.
    Edges {
        row: u64,
    },
    /// The least element whose domain is none of the geometry's.
    Domain {
        element: u64,
    },
    /// The least element that is not positively turned.
    Turned {
        element: u64,
    },
    /// The least mesh point in an open side of an element, and the least such element.
    Hanging {
        point: u64,
        element: u64,
    },
    /// The least domain, and in it the least pair of points with `from` < `to`, for which its elements'
    /// sides from the one to the other less those that go back number `elements`, and its boundary's
    /// edges `edges`, and these differ.
    Chain {
        domain: u64,
        from: u64,
        to: u64,
        elements: i64,
        edges: i64,
    },
    /// None of these.
    Whole,
}
