//! The laws of winding numbers. Each is the contract of a function that does nothing, and holds of all
//! points with whole coordinates of any size, and of all rational points.

ghost use Rattle.std.specs.Prelude.{◌≡◌, List, ◌++◌, ◌∷◌, [], pos, ◌+ℤ◌, ◌-ℤ◌, ◌<ℤ◌, ◌≤ℤ◌};
ghost use Rattle.std.specs.List.{AllByRecursion, Contains};
ghost use Rattle.grid_geom.specs.declared.Point.{Point};
ghost use Rattle.grid_geom.specs.declared.RatPoint.{RatPoint};
ghost use Rattle.grid_geom.specs.declared.Edge.{Edge};
ghost use Rattle.grid_geom.specs.Plane.{orient, orient_rat, IsRational};
ghost use Rattle.grid_geom.specs.Sides.{IsOnOpen};
ghost use Rattle.grid_geom.specs.Polygon.{sides, IsStrictlyConvex, IsInPolygon, IsApart};
ghost use Rattle.grid_geom.specs.Area.{shoelace};
ghost use Rattle.grid_geom.specs.Winding.{wind};
ghost use Rattle.grid_geom.specs.Closed.{IsClosed, IsEdge, IsOff};
ghost use Rattle.wind_law.specs.Chains.{edge, times, IsSameChain};
ghost use Rattle.wind_law.specs.Parting.{IsParted};
ghost use Rattle.wind_law.specs.Centre.{centre};
ghost use Rattle.wind_law.specs.Near.{IsInClosure, HasPointNear, HaveCommonPoint};
ghost use Rattle.wind_law.specs.Passing.{DoesPass, IsMissed, IsRightAt, HasPointAcross};

/// Winding numbers add up along a list. An edge and its reverse add up to 0. An edge that is cut at a
/// point of its open segment has the sum of its parts.
pub fn law_additive()
    ensures sums { (q : RatPoint) (es fs : List Edge) → wind q (es ++ fs) ≡ wind q es +ℤ wind q fs }
    ensures backwards { (q : RatPoint) (a b : Point) → wind q (edge a b ∷ edge b a ∷ []) ≡ pos 0 }
    ensures cut { (q : RatPoint) (a b m : Point) → IsRational q → IsOnOpen m a b →
        wind q (edge a m ∷ edge m b ∷ []) ≡ wind q (edge a b ∷ []) }
{}

/// In a closed list, p and q have one winding number where from each edge a line parts both: it has the
/// edge on its closed right side, and p and q strictly on its left.
pub fn law_uncrossed()
    ensures { (p q : RatPoint) (es : List Edge) → IsRational p → IsRational q → IsClosed es →
        AllByRecursion (IsParted p q) es → wind p es ≡ wind q es }
{}

/// A strictly convex polygon, of any number of corners, winds once round each point in it, and 0 times
/// round each other point off its sides. A triangle that turns to the left is strictly convex, and the
/// sides of any polygon are closed.
pub fn law_polygon()
    ensures inside { (corners : List Point) (q : RatPoint) → IsStrictlyConvex corners →
        IsRational q →
        IsInPolygon q corners → wind q (sides corners) ≡ pos 1 }
    ensures outside { (corners : List Point) (q : RatPoint) → IsStrictlyConvex corners →
        IsRational q →
        IsOff q (sides corners) → ¬ IsInPolygon q corners → wind q (sides corners) ≡ pos 0 }
    ensures triangle { (a b c : Point) → pos 0 <ℤ orient a b c → IsStrictlyConvex (a ∷ b ∷ c ∷ []) }
    ensures closed { (corners : List Point) → IsClosed (sides corners) }
{}

/// Near each rational point v of a closed polygon there is one of the open polygon, off all edges of a
/// list, whose segment to v meets each edge at most in v.
pub fn law_near_point()
    ensures { (v : RatPoint) (corners : List Point) (es : List Edge) → IsRational v →
        IsStrictlyConvex corners → IsInClosure v corners → AllByRecursion IsEdge es →
        HasPointNear v corners es }
{}

/// Two strictly convex polygons with a side in the same direction have a common rational point, off all
/// edges of a list.
pub fn law_overlap()
    ensures { (first second : List Point) (e : Edge) (es : List Edge) → IsStrictlyConvex first →
        IsStrictlyConvex second → Contains (sides first) e → Contains (sides second) e →
        AllByRecursion IsEdge es → HaveCommonPoint first second es }
{}

/// Let p be strictly left and q strictly right of a-b. Let the segment p-q meet the open segment a-b, and
/// meet no edge of a closed list other than a-b and b-a. Then the winding number falls from p to q by the
/// number of edges a-b less that of edges b-a.
///
/// That p-q passes through no end of an edge is no premise: it meets no other edge, and a and b are
/// strictly on its two sides.
pub fn law_jump()
    ensures { (p q : RatPoint) (a b : Point) (es : List Edge) → IsRational p → IsRational q →
        AllByRecursion IsEdge es → IsClosed es → DoesPass p q a b →
        AllByRecursion (IsMissed p q a b) es →
        wind p es -ℤ wind q es ≡ pos (times (edge a b) es) -ℤ pos (times (edge b a) es) }
{}

/// Let v be a point of the open segment a-b, and q strictly right of it. Let the segment v-q meet no edge
/// of a closed list other than a-b and b-a. Then in each polygon that v lies in or on, and that has a
/// point z left of a-b, there is a point left of a-b, as near to v as further edges ask, from which the
/// winding number falls to q by the number of edges a-b less that of edges b-a.
pub fn law_jump_near()
    ensures { (v q z : RatPoint) (a b : Point) (corners : List Point) (es others : List Edge) →
        IsRational v → IsRational q → IsRational z → AllByRecursion IsEdge es → IsClosed es →
        IsRightAt v q a b → AllByRecursion (IsMissed v q a b) es → IsInClosure v corners →
        IsInPolygon z corners → pos 0 <ℤ orient_rat a b z → AllByRecursion IsEdge others →
        HasPointAcross v q a b corners es others }
{}

/// A closed list whose edges are all apart from an open polygon winds alike round any two of its points.
/// So where it winds once round the centre, it winds once round each. Of a triangle it need not be said
/// that it turns to the left.
pub fn law_inside()
    ensures alike { (corners : List Point) (p q : RatPoint) (es : List Edge) →
        IsStrictlyConvex corners →
        AllByRecursion IsEdge es → IsClosed es → AllByRecursion (λ e. IsApart e.a e.b corners) es →
        IsRational p → IsRational q → IsInPolygon p corners → IsInPolygon q corners →
        wind p es ≡ wind q es }
    ensures polygon { (corners : List Point) (p : RatPoint) (es : List Edge) →
        IsStrictlyConvex corners →
        AllByRecursion IsEdge es → IsClosed es → AllByRecursion (λ e. IsApart e.a e.b corners) es →
        wind (centre corners) es ≡ pos 1 → IsRational p → IsInPolygon p corners →
        wind p es ≡ pos 1 }
    ensures triangle { (t u w : Point) (p : RatPoint) (es : List Edge) → AllByRecursion IsEdge es →
        IsClosed es → AllByRecursion (λ e. IsApart e.a e.b (t ∷ u ∷ w ∷ [])) es →
        wind (centre (t ∷ u ∷ w ∷ [])) es ≡ pos 1 → IsRational p → IsInPolygon p (t ∷ u ∷ w ∷ []) →
        wind p es ≡ pos 1 }
{}

/// Two lists in which each edge stands equally often more than its reverse have the same winding numbers
/// and the same doubled area, and are closed together.
pub fn law_chain()
    ensures winding { (q : RatPoint) (es fs : List Edge) → IsSameChain es fs →
        wind q es ≡ wind q fs }
    ensures area { (es fs : List Edge) → IsSameChain es fs → shoelace es ≡ shoelace fs }
    ensures closed { (es fs : List Edge) → IsSameChain es fs → IsClosed es → IsClosed fs }
{}

/// Doubled areas add up along a list. An edge and its reverse add up to 0. An edge that is cut at a point
/// of its line has the sum of its parts. A triangle has its orientation. A strictly convex polygon, of any
/// number of corners, has at least 1.
pub fn law_area()
    ensures sums { (es fs : List Edge) → shoelace (es ++ fs) ≡ shoelace es +ℤ shoelace fs }
    ensures backwards { (a b : Point) → shoelace (edge a b ∷ edge b a ∷ []) ≡ pos 0 }
    ensures cut { (a b m : Point) → orient a b m ≡ pos 0 →
        shoelace (edge a m ∷ edge m b ∷ []) ≡ shoelace (edge a b ∷ []) }
    ensures triangle { (a b c : Point) → shoelace (sides (a ∷ b ∷ c ∷ [])) ≡ orient a b c }
    ensures convex { (corners : List Point) → IsStrictlyConvex corners →
        pos 1 ≤ℤ shoelace (sides corners) }
{}
