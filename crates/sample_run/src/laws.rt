//! The laws of the run that the program holds, each as the contract of a function that does nothing.

ghost use Rattle.std.specs.Prelude.{◌≡◌, ℕ, List};
ghost use Rattle.mesh_run.specs.declared.End.{End};
ghost use Rattle.sample_run.specs.Sampled.{IsSampled};

/// So many squares with so many parts to a side come to one line and one end.
pub fn law_one_line()
    ensures { (n parts : ℕ) (line other : List ℕ) (end another : End)
        → IsSampled n parts line end → IsSampled n parts other another
        → (line ≡ other) × (end ≡ another) }
{}
