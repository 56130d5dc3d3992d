//! The laws of sizes and pieces, each as the contract of a function that does nothing.

ghost use Rattle.std.specs.Prelude.{◌≡◌, ◌<◌, ℕ, pos, ◌≤ℤ◌, List, All, length, map, [], ◌∷◌, ◌++◌, Some};
ghost use Rattle.std.specs.List.{AllByRecursion};
ghost use Rattle.grid_geom.specs.declared.Point.{Point};
ghost use Rattle.grid_geom.specs.declared.RatPoint.{RatPoint};
ghost use Rattle.grid_geom.specs.declared.Edge.{Edge};
ghost use Rattle.grid_geom.specs.Plane.{IsRational};
ghost use Rattle.grid_geom.specs.Winding.{wind};
ghost use Rattle.grid_geom.specs.Closed.{IsOff};
ghost use Rattle.state_law.specs.Region.{IsRegion};
ghost use Rattle.wind_law.specs.Chains.{edge};
ghost use Rattle.geom_check.specs.Boundary.{boundary};
ghost use Rattle.geom_check.specs.Geometry.{PlanarMap, IsGeometry};
ghost use Rattle.size_field.specs.Boundary.{piece_boundary, piece_edge};
ghost use Rattle.size_field.specs.Size.{SizeField, size_at, IsLeast};
ghost use Rattle.size_field.specs.Cutting.{middle_of, parts, pieces_of, IsMiddle};
ghost use Rattle.size_field.specs.Parts.{IsPart, IsPiece, AreUntangled, AreOneOrApart};

/// The size at a point is the least of the greatest size and of what the sources leave there: it is at
/// most each of them, and it is one of them.
pub fn law_size()
    ensures { (field : SizeField) (q : Point) → IsLeast field q (size_at field q) }
{}

/// The point in the middle between two grid points, where there is one: twice it is their sum.
pub fn law_middle()
    ensures found { (a b m : Point) → middle_of a b ≡ Some m → IsMiddle m a b }
    ensures only { (a b m : Point) → IsMiddle m a b → middle_of a b ≡ Some m }
{}

/// The pieces of an edge have its winding number at every rational point, have two different ends, and
/// lie on the grid. Put in its place in a list of edges no two of which tangle, no two tangle.
pub fn law_parts()
    ensures winds { (bound : Point → ℕ) (n : ℕ) (a b : Point) (q : RatPoint) → IsRational q →
        IsPart (edge a b) → wind q (parts bound n a b) ≡ wind q (edge a b ∷ []) }
    ensures parts { (bound : Point → ℕ) (n : ℕ) (a b : Point) → IsPart (edge a b) →
        AllByRecursion IsPart (parts bound n a b) }
    ensures untangled { (bound : Point → ℕ) (n : ℕ) (a b : Point) (before after : List Edge) →
        IsPart (edge a b) → AreUntangled (before ++ edge a b ∷ after) →
        AreUntangled (before ++ (parts bound n a b ++ after)) }
{}

/// The pieces of an accepted geometry bound each domain as its segments do: they have the same winding
/// number at every rational point. The pieces round one domain have two ends and don't tangle, and so
/// share nothing or a common end; of those round two domains each two are the same, reversed, or don't
/// tangle. The pieces round a domain are a region: closed, and winding 0 times or once round each point
/// off them; and no point off those of two domains is in both.
pub fn law_boundary()
    ensures winds { (g : PlanarMap) (greatest grading d : ℕ) (q : RatPoint) → IsGeometry g →
        IsRational q → wind q (piece_boundary d g.segments (pieces_of g greatest grading))
        ≡ wind q (boundary g.points d g.segments) }
    ensures one { (g : PlanarMap) (greatest grading d : ℕ) → IsGeometry g →
        AreUntangled (piece_boundary d g.segments (pieces_of g greatest grading)) }
    ensures two { (g : PlanarMap) (greatest grading c d : ℕ) → IsGeometry g →
        AreOneOrApart (piece_boundary c g.segments (pieces_of g greatest grading))
        (piece_boundary d g.segments (pieces_of g greatest grading)) }
    ensures pieces { (g : PlanarMap) (greatest grading : ℕ) → IsGeometry g →
        AreUntangled (map piece_edge (pieces_of g greatest grading)) }
    ensures of_segments { (g : PlanarMap) (greatest grading : ℕ) → IsGeometry g →
        All (IsPiece (length g.segments)) (pieces_of g greatest grading) }
    ensures region { (g : PlanarMap) (greatest grading d : ℕ) → IsGeometry g → 0 < d →
        IsRegion (piece_boundary d g.segments (pieces_of g greatest grading)) }
    ensures separate { (g : PlanarMap) (greatest grading c d : ℕ) → IsGeometry g → 0 < c → c < d →
        (q : RatPoint) → IsRational q →
        IsOff q (piece_boundary c g.segments (pieces_of g greatest grading)) →
        IsOff q (piece_boundary d g.segments (pieces_of g greatest grading)) →
        pos 1 ≤ℤ wind q (piece_boundary c g.segments (pieces_of g greatest grading)) →
        ¬ (pos 1 ≤ℤ wind q (piece_boundary d g.segments (pieces_of g greatest grading))) }
{}
