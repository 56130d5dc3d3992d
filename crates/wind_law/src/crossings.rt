// How the edges of a list are crossed on the level way from a point to its right, added up with their signs.
ghost use Rattle.std.specs.Prelude.{◌≡◌, ◌*ℤ◌, ◌≤ℤ◌, pos, negsuc};
ghost use Rattle.grid_geom.specs.Bounds.{IsOnGrid, IsMeasured};
ghost use Rattle.wind_law.specs.Grid.{AreOnGrid};
ghost use Rattle.grid_geom.specs.Winding.{cross, wind};

use super::Edge;
use grid_geom::{Point, RatPoint, orient_rat};

/// The height of a grid point in the units of q's numerators, q.k to a grid step.
fn height(p: &Point, q: &RatPoint) -> i128
    requires on_grid { IsOnGrid p.now }
    requires measured { IsMeasured q.now }
    ensures { result ≡ p.now.y *ℤ q.now.k }
{
    p.y as i128 * q.k
}

/// 1 where the edge rises past q's height with q strictly on its left, -1 where it falls past it with q
/// strictly on its right, else 0. An edge passes the height of its lower end, and not that of its upper.
/// The sum over a list of edges is the winding number of q. Bounds on q are as for `winding`.
pub fn crossing(edge: &Edge, q: &RatPoint) -> i64
    requires start_on { IsOnGrid edge.now.a }
    requires end_on { IsOnGrid edge.now.b }
    requires measured { IsMeasured q.now }
    ensures value { result ≡ cross q.now edge.now }
    ensures least { negsuc 0 ≤ℤ result }
    ensures greatest { result ≤ℤ pos 1 }
{
    let start = height(&edge.a, q);
    let end = height(&edge.b, q);
    if start <= q.y && q.y < end && orient_rat(edge.a, edge.b, q) > 0 {
        1
    } else if end <= q.y && q.y < start && orient_rat(edge.a, edge.b, q) < 0 {
        -1
    } else {
        0
    }
}

/// How often the edges wind round q, counterclockwise: the sum of their crossings, by the half-open rule
/// of the textbooks. Of points on an edge that rule alone decides. Takes no memory.
///
/// The edges' ends are on the grid. q has numerators of at most `GREATEST_NUMERATOR` in absolute value and
/// a denominator from 1 to `GREATEST_DENOMINATOR`.
pub fn winding(edges: &[Edge], q: &RatPoint) -> i64
    requires on_grid { AreOnGrid edges.now }
    requires measured { IsMeasured q.now }
    ensures { result ≡ wind q.now edges.now }
{
    let mut sum = 0;
    for edge in edges {
        sum += crossing(edge, q);
    }
    sum
}
