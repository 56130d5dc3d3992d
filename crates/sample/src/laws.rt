//! The laws of the generated geometry, each as the contract of a function that does nothing.

ghost use Rattle.std.specs.Prelude.{◌≤◌, ℕ};
ghost use Rattle.geom_check.specs.Accepted.{IsAccepted};
ghost use Rattle.geom_check.specs.Placed.{IsReadable};
ghost use Rattle.sample.specs.Squares.{squares};

/// The generated geometry is accepted, for each n from 1 to 8.
pub fn law_accepted()
    ensures readable { (n : ℕ) → 1 ≤ n → n ≤ 8 → IsReadable (squares n) }
    ensures accepted { (n : ℕ) → 1 ≤ n → n ≤ 8 → IsAccepted (squares n) }
{}
