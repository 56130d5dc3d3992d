// The lists of this crate's items. A contract sees each as the list of its items.
use super::Point;
use list_of::List;

/// A list of points.
pub type Points = List<Point>;

/// An element of a mesh: the numbers of its corners, counterclockwise. Its length is a condition of
/// the calls that take it.
pub type Element = List<u64>;
