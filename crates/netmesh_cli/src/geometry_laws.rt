//! Laws of the geometry of a file and of its run, each as the contract of a function that does nothing.

ghost use Rattle.std.specs.Prelude.{◌≡◌, ℕ, List, []};
ghost use Rattle.word_scan.specs.Scan.{words_of};
ghost use Rattle.in2d_reader.specs.declared.geometry.RawGeometry.{RawGeometry};
ghost use Rattle.in2d_reader.specs.Grammar.{Derives};
ghost use Rattle.in2d_reader.specs.Normal.{CanPrint};
ghost use Rattle.geom_check.specs.Geometry.{PlanarMap, IsGeometryOf};
ghost use Rattle.mesh_run.specs.declared.End.TheVariants.{Stuck};
ghost use Rattle.mesh_run.specs.declared.WholeRun.{WholeRun};
ghost use Rattle.netmesh_cli.specs.Accepted.{IsGeometryText};
ghost use Rattle.netmesh_cli.specs.Run.{MeshInput, IsRunOf};
ghost use Rattle.netmesh_cli.specs.Shown.{shown_text};

/// A text writes one geometry, which lies on the grid in one way: what is put and written of it follows from its bytes.
pub fn one_geometry()
    ensures { (bytes : List ℕ) (raw other : RawGeometry) (g h : PlanarMap)
        → IsGeometryText bytes raw g → IsGeometryText bytes other h
        → (raw ≡ other) × (g ≡ h) }
{}

/// What `mesh` accepts has one run: so what is put and written follows from the bytes that are held.
pub fn one_run()
    ensures { (input : MeshInput) (run other : WholeRun) → IsRunOf input run → IsRunOf input other
        → run ≡ other }
{}

/// The run of an accepted geometry by no rule is stuck: some segment names a domain, whose front stays its
/// boundary.
pub fn accepted_is_stuck()
    ensures { (raw : RawGeometry) (input : MeshInput) (run : WholeRun)
        → IsGeometryOf raw input.geometry → input.rules ≡ [] → IsRunOf input run
        → run.end ≡ Stuck }
{}

/// What `geom` writes of a geometry is read again as the same geometry.
pub fn shown_again()
    ensures { (raw : RawGeometry) (g : PlanarMap) → CanPrint raw
        → Derives (words_of (shown_text raw g)) raw }
{}
