//! The laws of the check, each as the contract of a function that does nothing.

ghost use Rattle.std.specs.Prelude.{◌≡◌, ◌⊎◌, ◌&&◌, ℕ, List, All, nat_eq, not};
ghost use Rattle.std.specs.List.{list_any};
ghost use Rattle.in2d_reader.specs.declared.geometry.RawGeometry.{RawGeometry};
ghost use Rattle.geom_check.specs.declared.refusal.GeomRefusal.{GeomRefusal};
ghost use Rattle.geom_check.specs.declared.refusal.GeomRefusal.TheVariants.{Memory};
ghost use Rattle.geom_check.specs.Accepted.{IsAccepted};
ghost use Rattle.geom_check.specs.declared.kinds.Segment.{Segment};
ghost use Rattle.geom_check.specs.Domains.{domain_numbers, sides_of, IsRising, IsDomain};
ghost use Rattle.geom_check.specs.Geometry.{PlanarMap, IsGeometry, IsGeometryOf};
ghost use Rattle.geom_check.specs.Refused.{IsRefusal};

/// A file has one answer, but for want of memory: one that is accepted has no refusal, one that is
/// refused has no other, and the geometry of a file is one.
pub fn law_one_answer()
    ensures accepted { (raw : RawGeometry) (r : GeomRefusal) → IsAccepted raw → IsRefusal raw r →
        r ≡ Memory }
    ensures one { (raw : RawGeometry) (r s : GeomRefusal) → IsRefusal raw r → IsRefusal raw s →
        (r ≡ s) ⊎ ((r ≡ Memory) ⊎ (s ≡ Memory)) }
    ensures geometry { (raw : RawGeometry) (g h : PlanarMap) → IsGeometryOf raw g →
        IsGeometryOf raw h → g ≡ h }
{}

/// The numbers of domains rise, and are those above 0 that stand on a side of a segment. Those of
/// an accepted geometry are from 1 to 64.
pub fn law_domains()
    ensures rising { (segments : List Segment) → IsRising (domain_numbers segments) }
    ensures named { (segments : List Segment) (d : ℕ) →
        list_any (nat_eq d) (domain_numbers segments)
        ≡ (not (nat_eq d 0) && list_any (nat_eq d) (sides_of segments)) }
    ensures within { (g : PlanarMap) → IsGeometry g → All IsDomain (domain_numbers g.segments) }
{}
