//! Laws of candidates, each the contract of a function that does nothing.

ghost use Rattle.std.specs.Prelude.{ℕ, List, [], ◌++◌, ◌≡◌, ◌<◌, ◌≤◌, true, length};
ghost use Rattle.rule_reader.specs.declared.rule.Rule.{Rule};
ghost use Rattle.rule_reader.specs.Normal.{IsRule};
ghost use Rattle.size_field.specs.Size.{SizeField};
ghost use Rattle.state_law.specs.State.{State, front_edges, point_at};
ghost use Rattle.state_law.specs.Refusal.{IsFront, HasReason, IsStep, Attempt as PlacedAttempt, DoesFit as IsOnFront};
ghost use Rattle.state_law.specs.Saved.{AreInBox, IsCorner};
ghost use Rattle.state_law.specs.Gluing.{glue_all, MayAllBeGlued};
ghost use Rattle.grid_geom.specs.declared.Point.{Point};
ghost use Rattle.grid_geom.specs.declared.Edge.{Edge};
ghost use Rattle.grid_geom.specs.declared.Bounds.{Bounds};
ghost use Rattle.grid_geom.specs.Boxes.{DoBoundsMeet};
ghost use Rattle.rule_match.specs.declared.progress.Note.{Note as Noted};
ghost use Rattle.rule_match.specs.Candidate.{Attempt, IsCandidate};
ghost use Rattle.rule_match.specs.Least.{HasNone, IsLeast};
ghost use Rattle.std.specs.List.{AllByRecursion, Contains};
ghost use Rattle.rule_maps.specs.Frame.{IsInRange, LocalFrame};
ghost use Rattle.state_law.specs.Reach.{AreAlikeIn, IsWithinReach};
ghost use Rattle.rule_match.specs.Near.{AreBoxesApart, IsAlikeNear, IsBox, IsCovered, IsCoveredAt, IsCoveredBy, IsFarLine, IsReachBox, IsStayingLine, reach_lo, reach_hi, whole_grid};
ghost use Rattle.rule_match.specs.Refused.{IsRefusedAgain, IsRefusedBy, IsExcused, places_of};
ghost use Rattle.rule_match.specs.LookedAgain.{AreFresh, DoStand, IsGluedOn, IsUnmapped, Pair};
ghost use Rattle.rule_match.specs.Walk.{BeginsWith};
ghost use Rattle.rule_match.specs.declared.near.NearPoint.{NearPoint as NearOne};
ghost use Rattle.rule_match.specs.Trying.{Setting, ties};
ghost use Rattle.rule_match.specs.declared.around.Scope.{Scope};
ghost use Rattle.rule_match.specs.Around.{IsAround, AreLookedAt, setting_of, IsTried};
ghost use Rattle.rule_match.specs.Fitting.{Tie, fits_so_far, in_order, IsOrder, renumbered, DoesFit};

/// All places of a candidate lie in the reach of its line. So where a later state of a domain is alike
/// in that reach, each of its candidates on the line is one of the earlier state, and a line that has
/// none at a class has none later.
pub fn law_near()
    ensures within { (n : ℕ) (st : State) (t : Attempt) → IsCovered n t → IsCandidate st t →
        IsWithinReach (reach_lo n t.frame) (reach_hi n t.frame) (places_of st t) }
    ensures candidate { (n : ℕ) (st later : State) (more : List Point) (t : Attempt) →
        IsCovered n t → IsAlikeNear (reach_lo n t.frame) (reach_hi n t.frame) st later more →
        IsCandidate later t → IsCandidate st t }
    ensures none { (sizes : SizeField) (rules : List Rule) (n class : ℕ) (st later : State)
        (more : List Point) (line : ℕ × ℕ × ℕ) (f : LocalFrame) → 1 ≤ class →
        AllByRecursion (IsCoveredBy n) rules → IsStayingLine sizes st later line f →
        IsAlikeNear (reach_lo n f) (reach_hi n f) st later more →
        HasNone sizes st rules line.0 class → HasNone sizes later rules line.0 class }
{}

/// What a line can use grows with the class, so a line that was refused at low classes alone looks at less of
/// the plane: where a later state is alike in its reach by a number that covers the rules up to a class,
/// a line that has none at a class up to this one has none later. What covers a rule covers it at each
/// class; and up to a class below its quality each number does.
pub fn law_near_at()
    ensures none { (sizes : SizeField) (rules : List Rule) (n last class : ℕ) (st later : State)
        (more : List Point) (line : ℕ × ℕ × ℕ) (f : LocalFrame) → 1 ≤ class → class ≤ last →
        AllByRecursion (IsCoveredAt last n) rules → IsStayingLine sizes st later line f →
        IsAlikeNear (reach_lo n f) (reach_hi n f) st later more →
        HasNone sizes st rules line.0 class → HasNone sizes later rules line.0 class }
    ensures covered { (class n : ℕ) (r : Rule) → IsCoveredBy n r → IsCoveredAt class n r }
    ensures above { (class n : ℕ) (r : Rule) → IsRule r → class < r.quality →
        IsCoveredAt class n r }
{}

/// Where the box of a line's reach, cut off at the grid, lies apart from an area that meets the grid, so does
/// all of the reach.
pub fn law_reach_box()
    ensures { (sizes : SizeField) (st : State) (n : ℕ) (line : ℕ × ℕ × ℕ) (box area : Bounds) →
        Contains st.front line → IsReachBox sizes st.points n line.1 line.2 box →
        DoBoundsMeet area whole_grid → AreBoxesApart box.lo box.hi area.lo area.hi →
        IsFarLine sizes st n area.lo area.hi line.0 }
{}

/// Elements that lie in a box leave a front alike in each box apart from it.
pub fn law_far()
    ensures { (lo hi elo ehi : Point) (front : List Edge) (elements : List (List Point)) →
        IsBox lo hi → AreBoxesApart lo hi elo ehi → IsFront front →
        AllByRecursion (AreInBox elo ehi) elements → MayAllBeGlued elements front →
        AreAlikeIn lo hi front (glue_all front elements) }
{}

/// A line has at most one least candidate at a class: its rule and its assignment are fixed.
pub fn law_one()
    ensures { (sizes : SizeField) (st : State) (rules : List Rule) (line class : ℕ)
        (t u : Attempt) →
        IsLeast sizes st rules line class t → IsLeast sizes st rules line class u →
        (t.rule ≡ u.rule) × (t.points ≡ u.points) }
{}

/// A pair of line and class that is refused has no candidate.
pub fn law_none()
    ensures { (sizes : SizeField) (st : State) (rules : List Rule) (line class : ℕ)
        (notes : List Noted) →
        IsFront (front_edges st.points st.front) → IsRefusedBy sizes st rules line class notes →
        HasNone sizes st rules line class }
{}

/// With more notes a reason stays a reason.
pub fn law_more()
    ensures { (st : State) (notes more : List Noted) (t : Attempt) →
        IsExcused st notes t → IsExcused st (notes ++ more) t }
{}

/// A reason of one attempt is kept over an application that takes no witness and joins no line whose
/// two ends the attempt maps, where the attempt maps front points of before alone.
pub fn law_again()
    ensures { (points more : List Point) (front : List Edge) (elements : List (List Point))
        (witnesses : List Edge) (t : PlacedAttempt) →
        IsStep (λ u. u ≡ t) (λ p. IsCorner p t.mapped) points more front elements witnesses →
        HasReason points front witnesses t → IsOnFront (glue_all front elements) t →
        HasReason (points ++ more) (glue_all front elements) witnesses t }
{}

/// A line that is refused by notes stays refused over an application where none of its attempts that map
/// a fresh point applies, by the notes that have grown by the reasons of these. Where no point is fresh
/// nothing has to be looked at again. A point out of the line's range is mapped by none, and a note whose
/// line has left the front is of no more use.
pub fn law_still_refused()
    ensures again { (p : Pair) (st later : State) (more : List Point)
        (elements : List (List Point)) (f : LocalFrame) (notes : List Noted) (fresh : List ℕ) →
        AllByRecursion IsRule p.rules → IsGluedOn st later more elements →
        IsStayingLine p.sizes st later p.line f → AreFresh p st later notes fresh →
        (grown : List Noted) → BeginsWith grown notes →
        IsRefusedBy p.sizes st p.rules p.line.0 p.class notes →
        IsRefusedAgain p.sizes later p.rules p.line.0 p.class fresh grown →
        IsRefusedBy p.sizes later p.rules p.line.0 p.class grown }
    ensures untouched { (p : Pair) (st later : State) (more : List Point)
        (elements : List (List Point)) (f : LocalFrame) (notes : List Noted) →
        AllByRecursion IsRule p.rules → IsGluedOn st later more elements →
        IsStayingLine p.sizes st later p.line f → AreFresh p st later notes [] →
        IsRefusedBy p.sizes st p.rules p.line.0 p.class notes →
        IsRefusedBy p.sizes later p.rules p.line.0 p.class notes }
    ensures far { (p : Pair) (st later : State) (more : List Point)
        (elements : List (List Point)) (f : LocalFrame) → IsGluedOn st later more elements →
        IsStayingLine p.sizes st later p.line f → (n : ℕ) →
        ¬ (IsInRange f (point_at later.points n)) → IsUnmapped p later n }
    ensures fewer { (sizes : SizeField) (rules : List Rule) (class line : ℕ) (st : State)
        (notes left : List Noted) → DoStand st.front notes left →
        IsRefusedBy sizes st rules line class notes → IsRefusedBy sizes st rules line class left }
{}

/// An assignment that fits in the rule's order fits in the order of mapping, from which it is had back.
/// And what doesn't fit so far doesn't fit in any way that it goes on.
pub fn law_order()
    ensures fits { (ties : List Tie) (plan places a : List ℕ) → IsOrder plan places (length a) →
        DoesFit ties a → fits_so_far (renumbered places ties) (in_order plan a) ≡ true }
    ensures back { (plan places a : List ℕ) → IsOrder plan places (length a) →
        in_order places (in_order plan a) ≡ a }
    ensures so_far { (ties : List Tie) (b rest : List ℕ) →
        fits_so_far ties (b ++ rest) ≡ true → fits_so_far ties b ≡ true }
{}

/// A candidate's points are met by the search: where the near points and lines are those of the front,
/// near points stand for its points and meet each test that looks at the points alone. With no point
/// mapped yet no test can fail.
pub fn law_tried()
    ensures starts { (s : Setting) → fits_so_far (ties s) [] ≡ true }
    ensures met { (st : State) (t : Attempt) (near : List NearOne) (lines : List (ℕ × ℕ)) →
        (scope : Scope) → IsAround st t.frame scope near lines →
        AreLookedAt scope t.points → IsCandidate st t →
        IsTried (setting_of t near lines) t.points }
{}
