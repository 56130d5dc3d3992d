// The points and lines with which a front begins.
ghost use Rattle.std.specs.Prelude.{◌≡◌, ℕ, ◌+◌, ◌*◌, ◌≤◌, nat_eq, List, [], ◌∷◌, length, map, filter, not, take, pos};
ghost use Rattle.std.specs.List.{All, AllByRecursion, IsDistinct, list_any};
ghost use Rattle.grid_geom.specs.Bounds.{IsOnGrid, IsWithin};
ghost use Rattle.grid_geom.specs.Area.{shoelace, sweep_of};
ghost use Rattle.grid_geom.specs.Closed.{same_point};
ghost use Rattle.wind_law.specs.Chains.{edge};
ghost use Rattle.state_law.specs.Free.{AreAlike, AreFreeOf};
ghost use Rattle.state_law.specs.State.{pair_edge, IsListed};
ghost use Rattle.front_chain.specs.Front.{numbered_from, numbers_to};

use crate::chain::Chain;
use crate::side::Side;
use grid_geom::{GRID, Point, orient};

const ORIGIN: Point = Point { x: 0, y: 0 };

/// The greatest area, in absolute value, that one line sweeps: twice the square of the grid's half width.
pub const SWEEP: i128 = 2 * GRID as i128 * GRID as i128;

/// Twice the signed area of the triangle of the origin and the line from `a` to `b`.
fn swept(a: Point, b: Point) -> i128
    requires a_on { IsOnGrid a }
    requires b_on { IsOnGrid b }
    ensures value { result ≡ sweep_of (edge a b) }
    ensures small { IsWithin SWEEP result }
{
    orient(ORIGIN, a, b)
}

/// Lists the points in their order.
pub fn list_points(chain: &mut Chain, points: &[Point])
    requires empty { chain.old.points ≡ [] }
    requires none_waits { chain.old.waiting ≡ [] }
    requires room { length points.now ≤ chain.old.spare_points }
    requires different { IsDistinct same_point points.now }
    ensures points { chain.new.points ≡ points.now }
    ensures waiting { chain.new.waiting ≡ numbers_to (length points.now) }
    ensures lines { chain.new.lines ≡ chain.old.lines }
    ensures next { chain.new.next ≡ chain.old.next }
    ensures spare_lines { chain.new.spare_lines ≡ chain.old.spare_lines }
{
    for p in points {
        chain.add_point(*p);
    }
}

/// Makes lines between listed points, numbered in their order.
pub fn join_lines(chain: &mut Chain, lines: &[(u64, u64)])
    requires empty { chain.old.lines ≡ [] }
    requires first { chain.old.next ≡ 1 }
    requires room { length lines.now ≤ chain.old.spare_lines }
    requires listed { AllByRecursion (λ ends. IsListed (length chain.old.points) ends.0 ×
        IsListed (length chain.old.points) ends.1) lines.now }
    requires single { AreFreeOf AreAlike (map (pair_edge chain.old.points) lines.now) }
    ensures lines { chain.new.lines ≡ numbered_from 1 lines.now }
    ensures next { chain.new.next ≡ 1 + length lines.now }
    ensures points { chain.new.points ≡ chain.old.points }
    ensures waiting { chain.new.waiting ≡ chain.old.waiting }
{
    for (from, to) in lines {
        chain.join(Side {
            from: *from,
            to: *to,
        });
    }
}

/// Twice the signed area that the lines go round.
pub fn swept_area(points: &[Point], lines: &[(u64, u64)]) -> i128
    requires on_grid { All IsOnGrid points.now }
    requires listed { AllByRecursion (λ ends. IsListed (length points.now) ends.0 ×
        IsListed (length points.now) ends.1) lines.now }
    ensures { result ≡ shoelace (map (pair_edge points.now) lines.now) }
{
    let mut area: i128 = 0;
    for place in 0..lines.len() {
        let (from, to) = lines[place];
        area += swept(points[from as usize - 1], points[to as usize - 1]);
    }
    area
}
