//! What the tests of this crate mean in rational points. Each law is the contract of a function that does
//! nothing, and holds of all points with whole coordinates of any size.

ghost use Rattle.std.specs.Prelude.{◌↔◌, ◌≢◌, List};
ghost use Rattle.grid_geom.specs.declared.Point.{Point};
ghost use Rattle.grid_geom.specs.declared.Bounds.{Bounds};
ghost use Rattle.grid_geom.specs.Sides.{DoBoxesMeet, DoTangle};
ghost use Rattle.grid_geom.specs.Boxes.{IsBox, HaveCommonPlace, DoBoundsMeet};
ghost use Rattle.grid_geom.specs.Sharing.{ShareAtMostAnEnd};
ghost use Rattle.grid_geom.specs.Polygon.{IsStrictlyConvex, IsApart, DoesEnter};

/// A segment that is apart from an open polygon has no rational point in it, and one that isn't has one.
pub fn law_apart()
    ensures none { (a b : Point) (corners : List Point) → a ≢ b → IsStrictlyConvex corners →
        IsApart a b corners → ¬ DoesEnter a b corners }
    ensures enters { (a b : Point) (corners : List Point) → a ≢ b → IsStrictlyConvex corners →
        ¬ IsApart a b corners → DoesEnter a b corners }
    ensures apart { (a b : Point) (corners : List Point) → a ≢ b → IsStrictlyConvex corners →
        ¬ DoesEnter a b corners → IsApart a b corners }
{}

/// Segments with different ends that don't tangle share nothing, or one point, which is an end of both.
/// Those that tangle share more.
pub fn law_tangle()
    ensures untangled { (a b c d : Point) → a ≢ b → c ≢ d → ¬ DoTangle a b c d →
        ShareAtMostAnEnd a b c d }
    ensures tangled { (a b c d : Point) → a ≢ b → c ≢ d → DoTangle a b c d →
        ¬ ShareAtMostAnEnd a b c d }
{}

/// Boxes meet where some rational point is in both. The box of two points is that from the least to the
/// greatest of their coordinates.
pub fn law_boxes()
    ensures common { (a b : Bounds) → IsBox a → IsBox b → DoBoundsMeet a b → HaveCommonPlace a b }
    ensures meet { (a b : Bounds) → HaveCommonPlace a b → DoBoundsMeet a b }
    ensures corners { (a b : Bounds) → IsBox a → IsBox b →
        DoBoundsMeet a b ↔ DoBoxesMeet a.lo a.hi b.lo b.hi }
{}
