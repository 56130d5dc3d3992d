// On which side of a directed segment a point lies.
ghost use Rattle.std.specs.Prelude.{◌≡◌, ◌↔◌, ◌-ℤ◌, ◌*ℤ◌, ◌<ℤ◌, ◌≤ℤ◌, pos, IsTrue};
ghost use Rattle.grid_geom.specs.Bounds.{IsOnGrid, IsWithin, IsMeasured};
ghost use Rattle.grid_geom.specs.Calls.{orient_of, orient_rat_of};

use super::{GREATEST_DENOMINATOR, GREATEST_NUMERATOR, GRID, Point, RatPoint};

// Bounds of the numbers on the way, all from `GRID`: a difference of coordinates, a product of two, and a difference of products.
pub const OFFSET: i64 = 2 * GRID;

pub const PRODUCT: i64 = OFFSET * OFFSET;

pub const TURN: i64 = 2 * PRODUCT;

// The same for a rational point with denominator k: k-fold differences, and their products with a difference of coordinates.
const RAT_OFFSET: i128 = GREATEST_NUMERATOR + GRID as i128 * GREATEST_DENOMINATOR;

const RAT_PRODUCT: i128 = OFFSET as i128 * RAT_OFFSET;

/// Whether both coordinates are at most `GRID` in absolute value. Any numbers may be given.
pub fn on_grid(p: Point) -> bool
    ensures { IsTrue result ↔ IsOnGrid p }
{
    -GRID <= p.x && p.x <= GRID && -GRID <= p.y && p.y <= GRID
}

/// How far `to` is from `from`.
fn offset(from: i64, to: i64) -> i64
    requires from_on { IsWithin GRID from }
    requires to_on { IsWithin GRID to }
    ensures value { result ≡ to -ℤ from }
    ensures small { IsWithin OFFSET result }
{
    to - from
}

/// The product of two offsets.
pub fn product(a: i64, b: i64) -> i64
    requires a_small { IsWithin OFFSET a }
    requires b_small { IsWithin OFFSET b }
    ensures value { result ≡ a *ℤ b }
    ensures small { IsWithin PRODUCT result }
{
    a * b
}

/// `orient` in 64 bits.
pub fn turn(a: Point, b: Point, c: Point) -> i64
    requires a_on { IsOnGrid a }
    requires b_on { IsOnGrid b }
    requires c_on { IsOnGrid c }
    ensures value { result ≡ orient_of a b c }
    ensures small { IsWithin TURN result }
{
    product(offset(a.x, b.x), offset(a.y, c.y)) - product(offset(a.y, b.y), offset(a.x, c.x))
}

/// Twice the signed area of the triangle a, b, c, in square grid steps: positive where c is to the left of the way from a to b.
pub fn orient(a: Point, b: Point, c: Point) -> i128
    requires a_on { IsOnGrid a }
    requires b_on { IsOnGrid b }
    requires c_on { IsOnGrid c }
    ensures { result ≡ orient_of a b c }
{
    turn(a, b, c) as i128
}

/// k times how far the coordinate z/k is from `from`.
fn rat_offset(from: i64, z: i128, k: i128) -> i128
    requires from_on { IsWithin GRID from }
    requires z_small { IsWithin GREATEST_NUMERATOR z }
    requires k_positive { pos 0 <ℤ k }
    requires k_small { k ≤ℤ GREATEST_DENOMINATOR }
    ensures value { result ≡ z -ℤ from *ℤ k }
    ensures small { IsWithin RAT_OFFSET result }
{
    z - from as i128 * k
}

/// The product of an offset and a k-fold offset.
fn rat_product(a: i64, b: i128) -> i128
    requires a_small { IsWithin OFFSET a }
    requires b_small { IsWithin RAT_OFFSET b }
    ensures value { result ≡ a *ℤ b }
    ensures small { IsWithin RAT_PRODUCT result }
{
    a as i128 * b
}

/// q.k times `orient` of a, b and the rational point q, so that its sign is that of the value at q.
pub fn orient_rat(a: Point, b: Point, q: &RatPoint) -> i128
    requires a_on { IsOnGrid a }
    requires b_on { IsOnGrid b }
    requires q_small { IsMeasured q.now }
    ensures { result ≡ orient_rat_of a b q.now }
{
    rat_product(offset(a.x, b.x), rat_offset(a.y, q.y, q.k))
        - rat_product(offset(a.y, b.y), rat_offset(a.x, q.x, q.k))
}
