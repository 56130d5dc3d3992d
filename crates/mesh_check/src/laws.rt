//! The laws of the check of a mesh, each as the contract of a function that does nothing.

ghost use Rattle.std.specs.Prelude.{◌≡◌, ℕ, ◌<◌, length, slice_index_or, Contains};
ghost use Rattle.grid_geom.specs.declared.RatPoint.{RatPoint};
ghost use Rattle.grid_geom.specs.declared.Edge.{Edge};
ghost use Rattle.grid_geom.specs.Plane.{IsRational};
ghost use Rattle.grid_geom.specs.Polygon.{sides};
ghost use Rattle.grid_geom.specs.Closed.{IsOff};
ghost use Rattle.grid_geom.specs.Winding.{wind};
ghost use Rattle.state_law.specs.State.{corners_of};
ghost use Rattle.geom_check.specs.Accepted.{IsZeroOrOne};
ghost use Rattle.geom_check.specs.Boundary.{boundary};
ghost use Rattle.geom_check.specs.Geometry.{PlanarMap, IsGeometry};
ghost use Rattle.vol_format.specs.declared.Mesh.{Mesh};
ghost use Rattle.vol_format.specs.declared.MeshElement.{MeshElement};
ghost use Rattle.mesh_check.specs.Parts.{NamesItsPoints, polygons_in};
ghost use Rattle.mesh_check.specs.Partition.{winds};
ghost use Rattle.mesh_check.specs.declared.verdict.Verdict.{Verdict};
ghost use Rattle.mesh_check.specs.declared.verdict.Verdict.TheVariants.{Whole};
ghost use Rattle.mesh_check.specs.Whole.{IsWhole, DoesHang};
ghost use Rattle.mesh_check.specs.Tight.{HasNoOtherFault, IsSpared, IsTight};
ghost use Rattle.mesh_check.specs.Verdict.{IsVerdict};

/// A mesh has one verdict for a geometry. So one that is whole has no fault's, and one with a fault's is
/// not whole.
pub fn law_one_verdict()
    ensures one { (g : PlanarMap) (m : Mesh) (v w : Verdict) → IsVerdict g m v →
        IsVerdict g m w → v ≡ w }
    ensures whole { (g : PlanarMap) (m : Mesh) (v : Verdict) → IsVerdict g m v → IsWhole g m →
        v ≡ Whole }
{}

/// In a whole mesh the elements partition each domain: at each rational point the winding number of the
/// domain's boundary is the sum of those of its elements, and each of these is 0 or 1 off its sides. No directed
/// side belongs to two elements.
pub fn law_partition()
    ensures sums { (g : PlanarMap) (m : Mesh) (domain : ℕ) (q : RatPoint) → NamesItsPoints m →
        IsWhole g m → 0 < domain → IsRational q →
        wind q (boundary g.points domain g.segments)
        ≡ winds q (polygons_in m.points domain m.elements) }
    ensures once { (g : PlanarMap) (m : Mesh) (k : ℕ) (e : MeshElement) (q : RatPoint) →
        IsWhole g m → k < length m.elements → IsRational q →
        IsOff q (sides (corners_of m.points (slice_index_or m.elements k e).corners)) →
        IsZeroOrOne (wind q
        (sides (corners_of m.points (slice_index_or m.elements k e).corners))) }
    ensures sides { (g : PlanarMap) (m : Mesh) (i k : ℕ) (e : MeshElement) (side : Edge) →
        IsGeometry g → NamesItsPoints m → IsWhole g m → i < k → k < length m.elements →
        Contains (sides (corners_of m.points (slice_index_or m.elements i e).corners)) side →
        ¬ Contains (sides (corners_of m.points (slice_index_or m.elements k e).corners)) side }
{}

/// Where a mesh has none of the other faults and no point is in an open edge row, no corner of an
/// element hangs; so none does where all points are corners. Sides that are counted and agree spare the
/// search for corners.
pub fn law_tight()
    ensures spared { (g : PlanarMap) (m : Mesh) (i k : ℕ) → IsGeometry g → NamesItsPoints m →
        HasNoOtherFault g m → IsSpared m i → ¬ DoesHang m.points m.elements i k }
    ensures tight { (g : PlanarMap) (m : Mesh) → IsGeometry g → NamesItsPoints m →
        HasNoOtherFault g m → IsTight m → (i k : ℕ) → ¬ DoesHang m.points m.elements i k }
{}
