//! What an answer of `Zone::blocked` says. The law is the contract of a function that does nothing.
ghost use Rattle.std.specs.Prelude.{◌≡◌, List, Option};
ghost use Rattle.grid_geom.specs.declared.Point.{Point};
ghost use Rattle.free_zone.specs.declared.blocked.Blocker.{Blocker as AnyBlocker};
ghost use Rattle.free_zone.specs.InTheWay.{Mapped, IsAnswer};

/// A zone, a front and what a rule maps have one answer.
pub fn law_one_answer()
    ensures { (zone : List Point) (m : Mapped) (x y : Option AnyBlocker) →
        IsAnswer zone m x → IsAnswer zone m y → x ≡ y }
{}
