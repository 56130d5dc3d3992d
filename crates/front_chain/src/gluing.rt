// The sides of an element, glued one after another, and its area.
ghost use Rattle.std.specs.Prelude.{◌≡◌, ℕ, ◌+◌, ◌<◌, ◌≤◌, length};
ghost use Rattle.std.specs.List.{All, AllByRecursion};
ghost use Rattle.grid_geom.specs.Bounds.{IsOnGrid};
ghost use Rattle.grid_geom.specs.Area.{shoelace};
ghost use Rattle.grid_geom.specs.Polygon.{sides};
ghost use Rattle.state_law.specs.State.{IsListed, corners_of, glue_lines, next_after_all, number_way, number_sides};
ghost use Rattle.front_chain.specs.Gluable.{CanJoin};

use crate::chain::Chain;
use crate::side::Side;
use grid_geom::{Point, double_area};

/// Glues the sides from `from` by the rest of the corners and on to `first`.
fn glue_way(chain: &mut Chain, first: u64, from: u64, rest: &[u64])
    requires room { length rest.now < chain.old.spare_lines }
    requires can { CanJoin (length chain.old.points) chain.old.lines
        (number_way first from rest.now) }
    ensures lines { chain.new.lines ≡
        glue_lines chain.old.lines chain.old.next (number_way first from rest.now) }
    ensures next { chain.new.next ≡
        next_after_all chain.old.lines chain.old.next (number_way first from rest.now) }
    ensures points { chain.new.points ≡ chain.old.points }
    ensures waiting { chain.new.waiting ≡ chain.old.waiting }
    ensures spare_points { chain.new.spare_points ≡ chain.old.spare_points }
    ensures spare_lines { chain.old.spare_lines ≤ chain.new.spare_lines + (length rest.now + 1) }
{
    match rest {
        [] => chain.glue_side(Side { from, to: first }),
        [to, after @ ..] => {
            chain.glue_side(Side { from, to: *to });
            glue_way(chain, first, *to, after);
        }
    }
}

/// Glues the sides of an element, given by its corners' numbers.
pub fn glue_sides(chain: &mut Chain, corners: &[u64])
    requires room { length corners.now ≤ chain.old.spare_lines }
    requires can { CanJoin (length chain.old.points) chain.old.lines (number_sides corners.now) }
    ensures lines { chain.new.lines ≡
        glue_lines chain.old.lines chain.old.next (number_sides corners.now) }
    ensures next { chain.new.next ≡
        next_after_all chain.old.lines chain.old.next (number_sides corners.now) }
    ensures points { chain.new.points ≡ chain.old.points }
    ensures waiting { chain.new.waiting ≡ chain.old.waiting }
    ensures spare_points { chain.new.spare_points ≡ chain.old.spare_points }
    ensures spare_lines { chain.old.spare_lines ≤ chain.new.spare_lines + length corners.now }
{
    match corners {
        [] => {}
        [first, rest @ ..] => glue_way(chain, *first, *first, rest),
    }
}

/// Twice the signed area of an element, given by at most four corners' numbers.
pub fn element_area(chain: &Chain, corners: &[u64]) -> i128
    requires few { length corners.now ≤ 4 }
    requires listed { AllByRecursion (IsListed (length chain.now.points)) corners.now }
    requires on_grid { All IsOnGrid chain.now.points }
    ensures { result ≡ shoelace (sides (corners_of chain.now.points corners.now)) }
{
    let mut places = [Point { x: 0, y: 0 }; 4];
    for place in 0..corners.len() {
        places[place] = chain.point(corners[place]);
    }
    double_area(&places[..corners.len()])
}
