//! What an answer of `admit` says. Each law is the contract of a function that does nothing.
ghost use Rattle.std.specs.Prelude.{◌≡◌, ◌++◌, ◌∷◌, [], ℕ, List, length};
ghost use Rattle.grid_geom.specs.declared.Point.{Point};
ghost use Rattle.state_law.specs.State.{State, glued};
ghost use Rattle.front_chain.specs.Front.{FrontState, IsGluable, state_of};
ghost use Rattle.admission.specs.declared.refusal.GlueRefusal.{GlueRefusal as AnyRefusal};
ghost use Rattle.admission.specs.Around.{AreListed};
ghost use Rattle.admission.specs.Admission.{entered, MayFollow, IsRefusal, HasGlued};

/// Elements for which a refusal says why may not be glued one after another. So `admit` answers Ok
/// exactly where they may, but for want of memory.
pub fn law_refusal()
    ensures { (st : State) (elements : List (List ℕ)) (k : ℕ) (r : AnyRefusal) →
        IsRefusal st elements k r → ¬ (MayFollow st elements) }
{}

/// Elements have one refusal at most. So a refused call names the fault of its elements, and in no other
/// way.
pub fn law_one_refusal()
    ensures { (st : State) (elements : List (List ℕ)) (k : ℕ) (r s : AnyRefusal) →
        IsRefusal st elements k r → IsRefusal st elements k s → r ≡ s }
{}

/// Of admitted elements each meets the condition of `Front::glue` once the new points are listed and
/// those before it are glued, and gluing it leads on to the next.
pub fn law_follows()
    ensures gluable { (f g : FrontState) (made : List Point) (before after : List (List ℕ))
        (ns : List ℕ) → MayFollow (entered f made) (before ++ ns ∷ after) →
        HasGlued f made before g → length ns ≡ 3 → AreListed (length g.points) ns →
        IsGluable g ns }
    ensures on { (f g next : FrontState) (made : List Point) (before : List (List ℕ))
        (ns : List ℕ) → HasGlued f made before g → next.points ≡ g.points →
        next.lines ≡ (glued (state_of g) ns).front → next.next ≡ (glued (state_of g) ns).next →
        HasGlued f made (before ++ ns ∷ []) next }
{}
