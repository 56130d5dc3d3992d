//! Laws of frames and of the places of rules, over the definitions alone. Each is the contract of a function
//! that does nothing.

ghost use Rattle.std.specs.Prelude.{◌≡◌, ℕ, ℤ, List, pos, ◌≤◌, length, map};
ghost use Rattle.grid_geom.specs.declared.Point.{Point};
ghost use Rattle.rule_reader.specs.declared.rule.Rule.{Rule};
ghost use Rattle.rule_maps.specs.Fractions.{Fraction, IsFraction, IsNearest, IsWithinOf, nearest};
ghost use Rattle.rule_maps.specs.Frame.{LocalFrame, IsFrameOf, IsFrame, IsInRange, local_x, local_y};
ghost use Rattle.rule_maps.specs.Places.{Mapping, IsMapping, IsCopyOf, mapped_at, place_at, narrowest, new_point, corner};
ghost use Rattle.rule_maps.specs.Inert.{HasBadZone};
ghost use Rattle.rule_maps.specs.declared.reach.Leeway.{Leeway};
ghost use Rattle.rule_maps.specs.Reach.{AreNearPlaces, AreNoGreater, Covers, CoversBy, IsInReach, in_range};

/// The whole number nearest to a fraction is at most half away from it, and the greater where two are. There is one.
pub fn law_nearest()
    ensures near { (x : Fraction) → IsFraction x → IsNearest x (nearest x) }
    ensures one { (x : Fraction) (n m : ℤ) → IsFraction x → IsNearest x n → IsNearest x m → n ≡ m }
{}

/// A line and a size have one frame.
pub fn law_one_frame()
    ensures { (p1 p2 : Point) (size : ℕ) (f g : LocalFrame) → IsFrameOf p1 p2 size f →
        IsFrameOf p1 p2 size g → f ≡ g }
{}

/// Local places are fractions, and those of points in range are at most 13 in absolute value.
pub fn law_range()
    ensures along { (f : LocalFrame) (p : Point) → IsFrame f → IsInRange f p →
        IsFraction (local_x f p) × IsWithinOf (pos 13) (local_x f p) }
    ensures left { (f : LocalFrame) (p : Point) → IsFrame f → IsInRange f p →
        IsFraction (local_y f p) × IsWithinOf (pos 13) (local_y f p) }
{}

/// Each point that a rule uses on a line lies in the reach of the line: what it maps, its new points, and the corners of its zone at
/// each class. The reach may be that of any number that covers the rule, as the greatest of many rules does.
pub fn law_reach()
    ensures mapped { (f : LocalFrame) (n : ℕ) (p : Point) → IsFrame f → 3 ≤ n →
        IsInRange f p → IsInReach f n p }
    ensures new_points { (m : Mapping) (n k : ℕ) → IsMapping m → Covers m.rule n →
        1 ≤ k → k ≤ length m.rule.new_points →
        IsInReach m.frame n (new_point m k) }
    ensures corners { (m : Mapping) (n k class : ℕ) → IsMapping m → Covers m.rule n →
        ¬ HasBadZone m.rule → 1 ≤ k → k ≤ length m.rule.area → 1 ≤ class →
        IsInReach m.frame n (corner m k class) }
{}

/// The same where each mapped point is no farther from its place in the rule than its leeway, as the tolerances of a class have it: the
/// reach may be that of any number that covers the rule with these leeways. Points in range are within leeways of their own, and a number
/// that covers the rule with them covers it with lesser ones.
pub fn law_reach_by()
    ensures new_points { (m : Mapping) (leeways : List Leeway) (n k : ℕ) → IsMapping m →
        AreNearPlaces m leeways → CoversBy leeways m.rule n →
        1 ≤ k → k ≤ length m.rule.new_points →
        IsInReach m.frame n (new_point m k) }
    ensures corners { (m : Mapping) (leeways : List Leeway) (n k class : ℕ) → IsMapping m →
        AreNearPlaces m leeways → CoversBy leeways m.rule n →
        ¬ HasBadZone m.rule → 1 ≤ k → k ≤ length m.rule.area → 1 ≤ class →
        IsInReach m.frame n (corner m k class) }
    ensures ranges { (m : Mapping) → IsMapping m →
        AreNearPlaces m (map in_range m.rule.points) }
    ensures lesser { (leeways : List Leeway) (r : Rule) (n : ℕ) →
        AreNoGreater leeways (map in_range r.points) → Covers r n → CoversBy leeways r n }
{}

/// A corner that copies a mapped point, in each shape of the zone that it is placed from, is exactly at that point, at each class.
pub fn law_exact()
    ensures { (m : Mapping) (k j class : ℕ) → IsFrame m.frame → 1 ≤ class →
        IsCopyOf m.rule.points j (place_at m.rule.area k) →
        IsCopyOf m.rule.points j (place_at (narrowest m.rule.area m.rule.limit) k) →
        corner m k class ≡ mapped_at m.mapped j }
{}
