//! The laws of a domain's state. Each is the contract of a function that does nothing, and holds of all
//! points with whole coordinates of any size, and of all rational points.

ghost use Rattle.std.specs.Prelude.{ℕ, Bool, IsTrue, length, ◌≡◌, ◌+◌, ◌≤◌, List, ◌++◌, ◌∷◌, [], ◌⊎◌, pos, ◌+ℤ◌, ◌<ℤ◌, ◌≤ℤ◌};
ghost use Rattle.std.specs.List.{AllByRecursion};
ghost use Rattle.grid_geom.specs.declared.Point.{Point};
ghost use Rattle.grid_geom.specs.declared.RatPoint.{RatPoint};
ghost use Rattle.grid_geom.specs.declared.Edge.{Edge};
ghost use Rattle.grid_geom.specs.Plane.{IsRational};
ghost use Rattle.grid_geom.specs.Line.{whole};
ghost use Rattle.grid_geom.specs.Sides.{IsOnOpen, DoBoxesMeet};
ghost use Rattle.grid_geom.specs.Polygon.{sides, IsStrictlyConvex, IsInPolygon, IsApart, DoesEnter};
ghost use Rattle.grid_geom.specs.Area.{shoelace};
ghost use Rattle.grid_geom.specs.Winding.{wind};
ghost use Rattle.grid_geom.specs.Closed.{IsClosed, IsEdge, IsOff};
ghost use Rattle.wind_law.specs.Chains.{edge, back, times, IsSameChain};
ghost use Rattle.wind_law.specs.Centre.{centre};
ghost use Rattle.wind_law.specs.Near.{IsInClosure};
ghost use Rattle.state_law.specs.Free.{AreInPairs, AreFreeOf, AreAlike, DoEdgesTangle, DoShareAnEndAtMost, IsIn};
ghost use Rattle.state_law.specs.Gluing.{glue, glue_all, IsClearOf, MayBeGlued, MayAllBeGlued};
ghost use Rattle.state_law.specs.Net.{net};
ghost use Rattle.state_law.specs.Kept.{all_sides, IsNoneOrOne, IsKept};
ghost use Rattle.state_law.specs.Conforming.{IsBoundary, WindsOnce, IsUsed, HasNoHanging, AreNeighbours, IsSound, IsMeshPoint};
ghost use Rattle.state_law.specs.Saved.{AreInBox, IsElementCorner, IsCorner, IsElement, IsFrontPoint, IsNoEnd};
ghost use Rattle.state_law.specs.Region.{IsRegion, IsSettled, AreFrontOrSettled, AreSpent, IsHeld, IsChosen};
ghost use Rattle.state_law.specs.State.{State, IsListed, IsNumbered, AreRising, front_edges, corners_of, glued};
ghost use Rattle.state_law.specs.Reach.{AreAlikeIn, IsWithinReach};
ghost use Rattle.state_law.specs.Worked.{worked};
ghost use Rattle.state_law.specs.Refusal.{Attempt, IsCandidate, IsRefused, IsStep, IsFront};

/// The front before is the element's sides and the front after, as chains: so winding numbers and
/// doubled areas add up, and a closed front stays closed.
/// Where no side reversed is a front line, a front without doubles and reverses stays so. The area
/// falls by at least 1.
pub fn law_glue()
    ensures chain { (front : List Edge) (corners : List Point) →
        IsSameChain front (sides corners ++ glue front corners) }
    ensures winding { (q : RatPoint) (front : List Edge) (corners : List Point) →
        wind q front ≡ wind q (sides corners) +ℤ wind q (glue front corners) }
    ensures area { (front : List Edge) (corners : List Point) →
        shoelace front ≡ shoelace (sides corners) +ℤ shoelace (glue front corners) }
    ensures closed { (front : List Edge) (corners : List Point) → IsClosed front →
        IsClosed (glue front corners) }
    ensures single { (corners : List Point) (front : List Edge) → IsStrictlyConvex corners →
        AllByRecursion (λ e. AllByRecursion (λ s. ¬ (e ≡ back s)) (sides corners)) front →
        AreFreeOf AreAlike front → AreFreeOf AreAlike (glue front corners) }
    ensures falls { (front : List Edge) (corners : List Point) → IsStrictlyConvex corners →
        shoelace (glue front corners) <ℤ shoelace front }
{}

/// What a run keeps of its front and elements is kept by gluing. From it come the sums of winding
/// numbers and of doubled areas, and that front lines share nothing or a common end.
pub fn law_held()
    ensures winding { (boundary others front : List Edge) (elements : List (List Point)) →
        IsKept boundary others front elements → (q : RatPoint) →
        wind q boundary ≡ wind q front +ℤ wind q (all_sides elements) }
    ensures area { (boundary others front : List Edge) (elements : List (List Point)) →
        IsKept boundary others front elements →
        shoelace boundary ≡ shoelace front +ℤ shoelace (all_sides elements) }
    ensures ends { (front : List Edge) → AllByRecursion IsEdge front →
        AreFreeOf DoEdgesTangle front → AreInPairs DoShareAnEndAtMost front }
    ensures step { (boundary others front : List Edge) (elements : List (List Point))
        (corners : List Point) → IsKept boundary others front elements → MayBeGlued corners front →
        IsKept boundary others (glue front corners) (elements ++ corners ∷ []) }
{}

/// Where the front lines are apart from an element and one of its sides is a front line, the front
/// winds once round the element's centre.
pub fn law_centre()
    ensures { (boundary others front : List Edge) (elements : List (List Point))
        (corners : List Point) (e : Edge) → IsKept boundary others front elements →
        IsStrictlyConvex corners → AllByRecursion (λ f. IsApart f.a f.b corners) front →
        IsIn e (sides corners) → IsIn e front → wind (centre corners) front ≡ pos 1 }
{}

/// A place that is a corner of an element and no end of a front line takes no further element. A
/// front point in an open zone is an end of a front line that is not apart from it.
pub fn law_taken()
    ensures place { (boundary others front : List Edge) (elements : List (List Point))
        (old corners : List Point) (c : Point) → IsKept boundary others front elements →
        ((q : RatPoint) → IsRational q → IsOff q others → wind q boundary ≤ℤ pos 1) →
        IsElement old elements → IsCorner c old → IsCorner c corners →
        AllByRecursion (IsNoEnd c) front → ¬ (MayBeGlued corners front) }
    ensures application { (boundary others front : List Edge) (elements more : List (List Point))
        (old : List Point) (c : Point) → IsKept boundary others front elements → ((q : RatPoint) →
        IsRational q → IsOff q others → wind q boundary ≤ℤ pos 1) → IsElement old elements →
        IsCorner c old → AllByRecursion (IsNoEnd c) front → IsElementCorner c more →
        ¬ (MayAllBeGlued more front) }
    ensures zone { (zone : List Point) (e : Edge) (c : Point) → IsStrictlyConvex zone → IsEdge e →
        (c ≡ e.a) ⊎ (c ≡ e.b) → IsInPolygon (whole c) zone → ¬ (IsApart e.a e.b zone) }
{}

/// A refused pair of base line and class has no candidate. It stays refused where no witness has
/// left and each line that has joined opens no new attempt.
pub fn law_refused()
    ensures none { (allowed : Attempt → Bool) (points : List Point) (front witnesses : List Edge) →
        IsFront front → IsRefused (λ t. IsTrue (allowed t)) points front witnesses → (t : Attempt) →
        ¬ (IsCandidate (λ t. IsTrue (allowed t)) points front t) }
    ensures kept { (allowed : Attempt → Bool) (near : Point →
        Bool) (points more : List Point) (front : List Edge) (elements : List (List Point))
        (witnesses : List Edge) →
        IsStep (λ t. IsTrue (allowed t))
        (λ p. IsTrue (near p)) points more front elements witnesses →
        IsRefused (λ t. IsTrue (allowed t)) points front witnesses →
        IsRefused (λ t. IsTrue (allowed t)) (points ++ more) (glue_all front elements) witnesses }
{}

/// No directed side belongs to two elements, of one domain or of two. For each side of an element
/// exactly one of these stands, and once: its reverse as a side of an element, its reverse as a
/// front line, the side itself as an edge of the boundary.
pub fn law_conform()
    ensures once { (boundary others front : List Edge) (elements : List (List Point)) (e : Edge) →
        IsKept boundary others front elements → IsBoundary boundary others →
        times e (all_sides elements) ≤ 1 }
    ensures matched { (boundary others front : List Edge) (elements : List (List Point))
        (e : Edge) → IsKept boundary others front elements → IsBoundary boundary others →
        IsIn e (all_sides elements) →
        times (back e) (all_sides elements) + times (back e) front + times e boundary ≡ 1 }
    ensures domains { (boundary others front : List Edge) (elements : List (List Point))
        (next_boundary next_front : List Edge) (next_elements : List (List Point)) (e : Edge) →
        IsKept boundary others front elements →
        IsKept next_boundary others next_front next_elements → ((q : RatPoint) → IsRational q →
        IsOff q others → pos 1 ≤ℤ wind q boundary → pos 1 ≤ℤ wind q next_boundary → ⊥) →
        IsIn e (all_sides elements) → ¬ (IsIn e (all_sides next_elements)) }
{}

/// Gluing brings no hanging point. A point that is used stays used, and so do the element's
/// corners.
pub fn law_hanging()
    ensures used { (front : List Edge) (elements : List (List Point)) (corners : List Point)
        (v : Point) → IsUsed front elements v ⊎ IsCorner v corners →
        IsUsed (glue front corners) (elements ++ corners ∷ []) v }
    ensures none_hangs { (boundary others front : List Edge) (elements : List (List Point))
        (corners : List Point) → IsKept boundary others front elements →
        IsBoundary boundary others → MayBeGlued corners front → HasNoHanging front elements →
        HasNoHanging (glue front corners) (elements ++ corners ∷ []) }
{}

/// What a run keeps holds of the opening front, and no point hangs there; both go on through the
/// elements of an application, and the area falls by at least their number.
pub fn law_application()
    ensures opened { (boundary others : List Edge) → AllByRecursion IsEdge others →
        IsBoundary boundary others → WindsOnce boundary others →
        IsKept boundary others boundary [] }
    ensures none_hangs { (front : List Edge) → AreFreeOf DoEdgesTangle front →
        HasNoHanging front [] }
    ensures sound { (boundary others : List Edge) → AllByRecursion IsEdge others →
        IsBoundary boundary others → WindsOnce boundary others →
        IsSound boundary others boundary [] }
    ensures sound_on { (boundary others front : List Edge) (elements : List (List Point))
        (corners : List Point) → IsSound boundary others front elements → MayBeGlued corners front →
        IsSound boundary others (glue front corners) (elements ++ corners ∷ []) }
    ensures kept { (boundary others front : List Edge) (elements more : List (List Point)) →
        IsKept boundary others front elements → MayAllBeGlued more front →
        IsKept boundary others (glue_all front more) (elements ++ more) }
    ensures hanging { (boundary others front : List Edge) (elements more : List (List Point)) →
        IsKept boundary others front elements → IsBoundary boundary others →
        MayAllBeGlued more front → HasNoHanging front elements →
        HasNoHanging (glue_all front more) (elements ++ more) }
    ensures falls { (front : List Edge) (more : List (List Point)) → MayAllBeGlued more front →
        (shoelace (glue_all front more) +ℤ pos (length more)) ≤ℤ shoelace front }
{}

/// No mesh point of one domain hangs in a side of an element of another.
pub fn law_foreign()
    ensures { (boundary others front : List Edge) (elements : List (List Point))
        (next after : List Edge) (more : List (List Point)) (v : Point) (s : Edge) →
        IsSound boundary others front elements → IsSound next others after more →
        AreNeighbours boundary next others → IsMeshPoint next more v → IsIn s (all_sides elements) →
        ¬ (IsOnOpen v s.a s.b) }
{}

/// A corner of an element of one domain that is a mesh point of another is an end of a piece of both:
/// domains meet in the ends of their pieces alone.
pub fn law_shared()
    ensures { (boundary others front : List Edge) (elements : List (List Point))
        (next after : List Edge) (more : List (List Point)) (v : Point) →
        IsSound boundary others front elements → IsSound next others after more →
        AreNeighbours boundary next others → IsElementCorner v elements → IsMeshPoint next more v →
        IsFrontPoint boundary v }
{}

/// A segment that enters an open polygon has a box that meets each box which holds the polygon's
/// corners. So only lines with near boxes can hinder an element or stand in a zone.
///
/// A front line that leaves by an application has its ends at corners of the application's
/// elements.
pub fn law_boxes()
    ensures hinders { (lo hi : Point) (corners : List Point) (e : Edge) → IsStrictlyConvex corners →
        AreInBox lo hi corners → IsEdge e → ¬ (IsClearOf corners e) → DoBoxesMeet e.a e.b lo hi }
    ensures stands { (lo hi : Point) (zone : List Point) (e : Edge) → IsStrictlyConvex zone →
        AreInBox lo hi zone → IsEdge e → ¬ (IsApart e.a e.b zone) → DoBoxesMeet e.a e.b lo hi }
    ensures leaves { (front : List Edge) (elements : List (List Point)) (w : Edge) → IsFront front →
        IsIn w front → ¬ (IsIn w (glue_all front elements)) →
        IsElementCorner w.a elements × IsElementCorner w.b elements }
    ensures entered { (a b lo hi : Point) (corners : List Point) → IsStrictlyConvex corners →
        AreInBox lo hi corners → DoesEnter a b corners → DoBoxesMeet a b lo hi }
{}

/// Law Near: where two fronts have the same lines whose boxes meet a box, and equal winding numbers
/// in it, and the later front has no greater area, each candidate of the later state with all its
/// places in the box is one of the earlier state.
pub fn law_near()
    ensures { (allowed : Attempt →
        Bool) (lo hi : Point) (points more : List Point) (front after : List Edge) (t : Attempt) →
        IsFront front → IsFront after → AreAlikeIn lo hi front after → IsWithinReach lo hi t →
        IsCandidate (λ t. IsTrue (allowed t)) (points ++ more) after t →
        IsCandidate (λ t. IsTrue (allowed t)) points front t }
{}

/// Of a domain whose boundary is one strictly convex polygon, what a run keeps holds at the
/// opening, the polygon may be glued, and then the front is empty. So the premises of the laws can
/// be met.
pub fn law_one_polygon()
    ensures kept { (corners : List Point) → IsStrictlyConvex corners →
        IsKept (sides corners) (sides corners) (sides corners) [] }
    ensures may { (corners : List Point) → IsStrictlyConvex corners →
        MayBeGlued corners (sides corners) }
    ensures empties { (corners : List Point) → glue (sides corners) corners ≡ [] }
{}

/// Where a state's points are different and all numbers are listed, gluing by numbers is gluing by
/// places, and the numbers stay listed.
pub fn law_numbers()
    ensures edges { (st : State) (ns : List ℕ) → IsNumbered st →
        AllByRecursion (IsListed (length st.points)) ns →
        front_edges st.points (glued st ns).front ≡ glue (front_edges st.points st.front)
        (corners_of st.points ns) }
    ensures rising { (st : State) (ns : List ℕ) → AreRising st.front st.next →
        AreRising (glued st ns).front (glued st ns).next }
    ensures next { (st : State) (ns : List ℕ) → (glued st ns).next ≤ st.next + length ns }
    ensures numbered { (st : State) (ns : List ℕ) → IsNumbered st →
        AllByRecursion (IsListed (length st.points)) ns → IsNumbered (glued st ns) }
{}

/// A front that is a region stays one by gluing: boundary, elements and further edges don't matter
/// for it. Where it may begin, from the boundary's winding number off further edges, and what it
/// gives for clause 6.
pub fn law_region()
    ensures step { (front : List Edge) (corners : List Point) → IsRegion front →
        MayBeGlued corners front → IsRegion (glue front corners) }
    ensures application { (front : List Edge) (elements : List (List Point)) → IsRegion front →
        MayAllBeGlued elements front → IsRegion (glue_all front elements) }
    ensures centre { (front : List Edge) (corners : List Point) (e : Edge) → IsRegion front →
        IsStrictlyConvex corners → AllByRecursion (λ f. IsApart f.a f.b corners) front →
        IsIn e (sides corners) → IsIn e front → wind (centre corners) front ≡ pos 1 }
    ensures may { (front : List Edge) (corners : List Point) (e : Edge) → IsRegion front →
        IsStrictlyConvex corners → AllByRecursion (IsClearOf corners) front →
        shoelace (sides corners) ≤ℤ shoelace front → IsIn e (sides corners) → IsIn e front →
        MayBeGlued corners front }
    ensures opened { (boundary others : List Edge) → AllByRecursion IsEdge others →
        AllByRecursion IsEdge boundary → IsClosed boundary → AreFreeOf DoEdgesTangle boundary →
        WindsOnce boundary others → IsRegion boundary }
    ensures cut { (before after : List Edge) (a b m : Point) →
        IsRegion (before ++ edge a b ∷ after) → IsOnOpen m a b →
        IsRegion (before ++ edge a m ∷ edge m b ∷ after) }
    ensures cut_all { (before after : List Edge) (a b m : Point) → IsOnOpen m a b →
        AllByRecursion IsEdge (before ++ edge a b ∷ after) →
        AreFreeOf DoEdgesTangle (before ++ edge a b ∷ after) →
        AreFreeOf DoEdgesTangle (before ++ edge a m ∷ edge m b ∷ after) }
    ensures pieces { (es boundary next : List Edge) → AreFreeOf DoEdgesTangle es →
        AllByRecursion (IsChosen es) boundary → AllByRecursion (IsChosen es) next →
        AllByRecursion (λ f. AllByRecursion (λ g. (g ≡ f) ⊎ ((g ≡ back f) ⊎ ¬ (DoEdgesTangle f g)))
        next) boundary }
    ensures own_lines { (boundary others : List Edge) → AllByRecursion IsEdge others →
        AllByRecursion IsEdge boundary → IsClosed boundary → WindsOnce boundary others →
        WindsOnce boundary boundary }
    ensures two { (boundary next others : List Edge) → AllByRecursion IsEdge others →
        AllByRecursion IsEdge boundary → IsClosed boundary → AllByRecursion IsEdge next →
        IsClosed next → ((q : RatPoint) → IsRational q → IsOff q others → pos 1 ≤ℤ wind q boundary →
        pos 1 ≤ℤ wind q next → ⊥) → (q : RatPoint) → IsRational q → IsOff q boundary →
        IsOff q next → pos 1 ≤ℤ wind q boundary → pos 1 ≤ℤ wind q next → ⊥ }
    ensures front { (front : List Edge) → IsRegion front → IsFront front }
    ensures polygon { (corners : List Point) → IsStrictlyConvex corners → IsRegion (sides corners) }
    ensures of_kept { (boundary others front : List Edge) (elements : List (List Point)) →
        IsKept boundary others front elements → IsRegion front }
    ensures to_kept { (boundary others front : List Edge) (elements : List (List Point)) →
        AllByRecursion IsEdge others → IsRegion front → AllByRecursion IsStrictlyConvex elements →
        ((x : Edge) → net x boundary ≡ net x front +ℤ net x (all_sides elements)) →
        IsKept boundary others front elements }
{}

/// A settled place is a corner of no element that may be glued, and stays settled. Each listed
/// place is a front point or settled: so a new place that is no front point is no listed place.
pub fn law_settled()
    ensures taken { (front : List Edge) (corners : List Point) (p : Point) → IsRegion front →
        IsSettled front p → IsCorner p corners → ¬ (MayBeGlued corners front) }
    ensures application { (front : List Edge) (elements : List (List Point)) (p : Point) →
        IsRegion front → IsSettled front p → IsElementCorner p elements →
        ¬ (MayAllBeGlued elements front) }
    ensures stays { (front : List Edge) (corners : List Point) (p : Point) → IsRegion front →
        IsSettled front p → MayBeGlued corners front → IsSettled (glue front corners) p }
    ensures begins { (front : List Edge) (corners : List Point) (p : Point) → IsRegion front →
        MayBeGlued corners front → IsCorner p corners →
        AllByRecursion (IsNoEnd p) (glue front corners) → IsSettled (glue front corners) p }
    ensures each { (front : List Edge) (corners : List Point) (p : Point) → IsRegion front →
        MayBeGlued corners front → (IsFrontPoint front p ⊎ IsSettled front p) ⊎ IsCorner p corners →
        IsFrontPoint (glue front corners) p ⊎ IsSettled (glue front corners) p }
    ensures listed { (front : List Edge) (points made : List Point) (elements : List (List Point)) →
        IsRegion front → AreFrontOrSettled front points → MayAllBeGlued elements front →
        AllByRecursion (λ p. IsElementCorner p elements) made →
        AreFrontOrSettled (glue_all front elements) (points ++ made) }
    ensures fresh { (front : List Edge) (points : List Point) (elements : List (List Point))
        (p : Point) → IsRegion front → AreFrontOrSettled front points →
        MayAllBeGlued elements front → IsElementCorner p elements → ¬ (IsFrontPoint front p) →
        ¬ (IsCorner p points) }
{}

/// The ground of glued elements is spent: at its points off the front there may be no further
/// element, so no point comes to hang. This holds of a front and its elements whatever the
/// boundary, from the opening on.
pub fn law_ground()
    ensures spent { (front : List Edge) (elements : List (List Point)) (corners : List Point) →
        IsRegion front → AreSpent front elements → MayBeGlued corners front →
        AreSpent (glue front corners) (elements ++ corners ∷ []) }
    ensures taken { (front : List Edge) (elements : List (List Point)) (old corners : List Point)
        (q : RatPoint) → IsRegion front → AreSpent front elements → IsElement old elements →
        IsRational q → IsOff q front → IsInClosure q old → IsInClosure q corners →
        ¬ (MayBeGlued corners front) }
    ensures opened { (front : List Edge) → IsRegion front → IsHeld front [] }
    ensures step { (front : List Edge) (elements : List (List Point)) (corners : List Point) →
        IsHeld front elements → MayBeGlued corners front →
        IsHeld (glue front corners) (elements ++ corners ∷ []) }
    ensures application { (front : List Edge) (elements more : List (List Point)) →
        IsHeld front elements → MayAllBeGlued more front →
        IsHeld (glue_all front more) (elements ++ more) }
{}

/// The definitions computed on the front of the triangle (0, 0), (640000, 0), (0, 640000), with the
/// place (320000, 320000) listed: the triangle itself may be glued and leaves no line. An element with a
/// corner in the middle of a line may not, though by its sides it would take one line and add two; nor may
/// the triangle the other way round.
pub fn law_worked()
    ensures may { MayBeGlued (corners_of worked.points (1 ∷ 2 ∷ 3 ∷ []))
        (front_edges worked.points worked.front) }
    ensures empties { (glued worked (1 ∷ 2 ∷ 3 ∷ [])).front ≡ [] }
    ensures joined { (glued worked (1 ∷ 2 ∷ 4 ∷ [])).front ≡
        (2, 2, 3) ∷ (3, 3, 1) ∷ (4, 4, 2) ∷ (5, 1, 4) ∷ [] }
    ensures corner_on_line { ¬ MayBeGlued (corners_of worked.points (1 ∷ 2 ∷ 4 ∷ []))
        (front_edges worked.points worked.front) }
    ensures turned { ¬ MayBeGlued (corners_of worked.points (1 ∷ 3 ∷ 2 ∷ []))
        (front_edges worked.points worked.front) }
{}
