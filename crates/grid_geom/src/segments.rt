// How two closed segments between grid points lie to each other.
ghost use Rattle.std.specs.Prelude.{◌≡◌, ◌≢◌, ◌↔◌, ◌⊎◌, ◌*ℤ◌, ◌<ℤ◌, pos, IsTrue, IsFalse};
ghost use Rattle.grid_geom.specs.Bounds.{IsOnGrid};
ghost use Rattle.grid_geom.specs.Calls.{orient_of};
ghost use Rattle.grid_geom.specs.Sides.{IsBetween, IsInBox, IsOnOpen, DoSpansMeet, DoBoxesMeet, AreBeside, HaveSameEnds, DoCross, DoTangle};
ghost use Rattle.grid_geom.specs.Sharing.{DoShare, ShareAtMostAnEnd};

use super::Point;
use super::orientation::turn;

/// Whether z is between u and w, or one of them.
fn between(z: i64, u: i64, w: i64) -> bool
    ensures { IsTrue result ↔ IsBetween z u w }
{
    u.min(w) <= z && z <= u.max(w)
}

/// Whether p is in the closed box of a and b.
fn in_box(p: Point, a: Point, b: Point) -> bool
    ensures { IsTrue result ↔ IsInBox p a b }
{
    between(p.x, a.x, b.x) && between(p.y, a.y, b.y)
}

/// Whether p is between a and b on their segment, and is neither.
pub fn on_open(p: Point, a: Point, b: Point) -> bool
    requires p_on { IsOnGrid p }
    requires a_on { IsOnGrid a }
    requires b_on { IsOnGrid b }
    ensures { IsTrue result ↔ IsOnOpen p a b }
{
    p != a && (p != b && (turn(a, b, p) == 0 && in_box(p, a, b)))
}

/// Whether the closed spans from u to w and from y to z have a number in common.
fn spans_meet(u: i64, w: i64, y: i64, z: i64) -> bool
    ensures { IsTrue result ↔ DoSpansMeet u w y z }
{
    u.min(w) <= y.max(z) && y.min(z) <= u.max(w)
}

/// Whether the closed boxes of a-b and of c-d meet.
fn boxes_meet(a: Point, b: Point, c: Point, d: Point) -> bool
    ensures { IsTrue result ↔ DoBoxesMeet a b c d }
{
    spans_meet(a.x, b.x, c.x, d.x) && spans_meet(a.y, b.y, c.y, d.y)
}

/// Whether c and d are strictly on one side of the line a-b.
fn beside(a: Point, b: Point, c: Point, d: Point) -> bool
    requires a_on { IsOnGrid a }
    requires b_on { IsOnGrid b }
    requires c_on { IsOnGrid c }
    requires d_on { IsOnGrid d }
    ensures { IsTrue result ↔ AreBeside a b c d }
{
    let to_c = turn(a, b, c);
    let to_d = turn(a, b, d);
    if 0 < to_c {
        0 < to_d
    } else {
        to_c < 0 && to_d < 0
    }
}

/// Whether some rational point is on both closed segments a-b and c-d. A segment may be a point.
pub fn segments_meet(a: Point, b: Point, c: Point, d: Point) -> bool
    requires a_on { IsOnGrid a }
    requires b_on { IsOnGrid b }
    requires c_on { IsOnGrid c }
    requires d_on { IsOnGrid d }
    ensures { IsTrue result ↔ DoShare a b c d }
{
    boxes_meet(a, b, c, d) && (!beside(a, b, c, d) && !beside(c, d, a, b))
}

/// Whether c and d are strictly on different sides of the line a-b.
fn opposite(a: Point, b: Point, c: Point, d: Point) -> bool
    requires a_on { IsOnGrid a }
    requires b_on { IsOnGrid b }
    requires c_on { IsOnGrid c }
    requires d_on { IsOnGrid d }
    ensures { IsTrue result ↔ ((orient_of a b c *ℤ orient_of a b d) <ℤ pos 0) }
{
    let to_c = turn(a, b, c);
    let to_d = turn(a, b, d);
    if 0 < to_c {
        to_d < 0
    } else {
        to_c < 0 && 0 < to_d
    }
}

/// Whether an end of a-b is in the open segment c-d.
fn end_inside(a: Point, b: Point, c: Point, d: Point) -> bool
    requires a_on { IsOnGrid a }
    requires b_on { IsOnGrid b }
    requires c_on { IsOnGrid c }
    requires d_on { IsOnGrid d }
    ensures { IsTrue result ↔ (IsOnOpen a c d ⊎ IsOnOpen b c d) }
{
    on_open(a, c, d) || on_open(b, c, d)
}

/// Whether a is c, and b is d.
fn same_pair(a: Point, b: Point, c: Point, d: Point) -> bool
    ensures { IsTrue result ↔ ((a ≡ c) × (b ≡ d)) }
{
    a == c && b == d
}

/// Whether the segments a-b and c-d have the same two ends.
fn same_ends(a: Point, b: Point, c: Point, d: Point) -> bool
    ensures { IsTrue result ↔ HaveSameEnds a b c d }
{
    same_pair(a, b, c, d) || same_pair(a, b, d, c)
}

/// Whether the ends of each of a-b and c-d lie strictly on different sides of the other.
fn cross(a: Point, b: Point, c: Point, d: Point) -> bool
    requires a_on { IsOnGrid a }
    requires b_on { IsOnGrid b }
    requires c_on { IsOnGrid c }
    requires d_on { IsOnGrid d }
    ensures { IsTrue result ↔ DoCross a b c d }
{
    opposite(a, b, c, d) && opposite(c, d, a, b)
}

/// Whether the segments a-b and c-d share more than a common end, for segments with different ends: whether they have the same two ends,
/// or an end of one is in the open other, or the ends of each lie strictly on different sides of the other.
pub fn tangle(a: Point, b: Point, c: Point, d: Point) -> bool
    requires a_on { IsOnGrid a }
    requires b_on { IsOnGrid b }
    requires c_on { IsOnGrid c }
    requires d_on { IsOnGrid d }
    ensures tangle { IsTrue result ↔ DoTangle a b c d }
    ensures shared { a ≢ b → c ≢ d → (IsFalse result ↔ ShareAtMostAnEnd a b c d) }
{
    same_ends(a, b, c, d)
        || (end_inside(a, b, c, d) || (end_inside(c, d, a, b) || cross(a, b, c, d)))
}
