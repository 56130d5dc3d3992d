//! The laws of openings and runs, each as the contract of a function that does nothing.

ghost use Rattle.std.specs.Prelude.{◌≡◌, ◌+◌, ◌-◌, ◌*◌, ◌<◌, ◌≤◌, ℕ, List, All, length, take, true, Option, None, [], ◌↔◌, ◌≢◌};
ghost use Rattle.std.specs.List.{AllByRecursion, AllZip, Contains, IsDistinct};
ghost use Rattle.rule_maps.specs.Frame.{LocalFrame};
ghost use Rattle.size_field.specs.Size.{SizeField};
ghost use Rattle.rule_match.specs.Least.{HasNone};
ghost use Rattle.rule_match.specs.Near.{IsCoveredAt, IsStayingLine, reach_hi, reach_lo};
ghost use Rattle.mesh_run.specs.Remembered.{IsApartFrom};
ghost use Rattle.grid_geom.specs.Bounds.{IsOnGrid};
ghost use Rattle.grid_geom.specs.Closed.{same_point};
ghost use Rattle.grid_geom.specs.declared.Point.{Point};
ghost use Rattle.grid_geom.specs.declared.Edge.{Edge};
ghost use Rattle.grid_geom.specs.declared.RatPoint.{RatPoint};
ghost use Rattle.grid_geom.specs.Winding.{wind};
ghost use Rattle.geom_check.specs.declared.kinds.Segment.{Segment};
ghost use Rattle.geom_check.specs.Boundary.{boundary, point_at};
ghost use Rattle.grid_geom.specs.Plane.{IsRational};
ghost use Rattle.geom_check.specs.Geometry.{PlanarMap, IsGeometry};
ghost use Rattle.size_field.specs.declared.pieces.Piece.{Piece};
ghost use Rattle.state_law.specs.Region.{IsRegion};
ghost use Rattle.size_field.specs.Cutting.{pieces_of};
ghost use Rattle.size_field.specs.Parts.{AreUntangled, AreOneOrApart};
ghost use Rattle.mesh_run.specs.Boundary.{piece_boundary, whole_pieces, IsNumberTo, IsPieceOnGrid};
ghost use Rattle.mesh_run.specs.Mesh.{mesh_of_run, NamesItsPoints, RowJoins};
ghost use Rattle.mesh_run.specs.Numbering.{by_first_occurrence, is_among, number_in};
ghost use Rattle.mesh_run.specs.Whole.{unmeshed_runs};
ghost use Rattle.mesh_run.specs.declared.WholeRun.{WholeRun};
ghost use Rattle.mesh_run.specs.declared.domain_run.DomainRun.{DomainRun};
ghost use Rattle.mesh_run.specs.Opening.{domain_points, front_edges, front_from, mesh_points, opening_lines, unmeshed_run, FrontJoins};
ghost use Rattle.mesh_run.specs.Runs.{opening_of, opening_state, setting_of, IsDomainRun, IsWholeRun};
ghost use Rattle.mesh_run.specs.Reached.{IsReached, MayBeApplied, front_at};
ghost use Rattle.mesh_run.specs.Steps.{applied, AreNext, IsEndOf, IsNext, NothingApplies, RunSetting, state_after};
ghost use Rattle.mesh_run.specs.RunState.{RunState};
ghost use Rattle.mesh_run.specs.Trials.{AreBounded, DoesPayAll, RunView};
ghost use Rattle.mesh_run.specs.Sum.{AreCovered, IsCovered};
ghost use Rattle.mesh_check.specs.Whole.{IsWhole};
ghost use Rattle.mesh_run.specs.Conform.{AreConforming, states_at};
ghost use Rattle.mesh_run.specs.declared.Options.{Options};
ghost use Rattle.mesh_run.specs.declared.End.{End};
ghost use Rattle.mesh_run.specs.declared.End.TheVariants.{Done, Stuck, Stopped};
ghost use Rattle.geom_check.specs.Domains.{domain_numbers};
ghost use Rattle.front_chain.specs.Front.{IsOpening, numbered_from};
ghost use Rattle.rule_reader.specs.declared.rule.Rule.{Rule};
ghost use Rattle.rule_reader.specs.Normal.{CanPrint, IsRule};
ghost use Rattle.rule_match.specs.declared.application.Application.{Application};
ghost use Rattle.rule_match.specs.Applied.{application};
ghost use Rattle.rule_match.specs.Candidate.{Attempt, IsCandidate};
ghost use Rattle.state_law.specs.State.{AreRising, State, front_edges as edges_of_front};

/// The front with which a domain begins is the domain's boundary, edge by edge, so it winds round
/// each point as the boundary does.
pub fn law_front()
    ensures edges { (d : ℕ) (segments : List Segment) (pieces : List Piece) →
        front_edges (unmeshed_run d segments pieces) ≡ piece_boundary d segments pieces }
    ensures runs { (segments : List Segment) (pieces : List Piece) →
        All (λ r. front_edges r ≡ piece_boundary r.domain segments pieces)
        (unmeshed_runs segments pieces) }
    ensures winds { (d : ℕ) (segments : List Segment) (pieces : List Piece) (q : RatPoint) →
        wind q (front_edges (unmeshed_run d segments pieces))
        ≡ wind q (piece_boundary d segments pieces) }
{}

/// Where no segment is cut, the pieces bound each domain as the segments do.
pub fn law_uncut()
    ensures pieces { (d : ℕ) (points : List Point) (segments : List Segment) →
        piece_boundary d segments (whole_pieces points segments) ≡ boundary points d segments }
    ensures front { (d : ℕ) (points : List Point) (segments : List Segment) →
        front_edges (unmeshed_run d segments (whole_pieces points segments))
        ≡ boundary points d segments }
    ensures runs { (points : List Point) (segments : List Segment) →
        All (λ r. front_edges r ≡ boundary points r.domain segments)
        (unmeshed_runs segments (whole_pieces points segments)) }
{}

/// Where the segments of an accepted geometry are cut, the front with which a domain begins winds at
/// every rational point as the domain's boundary in segments does. Its lines have two ends and don't
/// tangle; and of the lines of two domains each two are the same, reversed, or don't tangle. It is a
/// region: closed, and winding 0 times or once round each point off its lines.
pub fn law_cut()
    ensures winds { (g : PlanarMap) (greatest grading d : ℕ) (q : RatPoint) → IsGeometry g →
        IsRational q →
        wind q (front_edges (unmeshed_run d g.segments (pieces_of g greatest grading)))
        ≡ wind q (boundary g.points d g.segments) }
    ensures one { (g : PlanarMap) (greatest grading d : ℕ) → IsGeometry g →
        AreUntangled (front_edges (unmeshed_run d g.segments (pieces_of g greatest grading))) }
    ensures two { (g : PlanarMap) (greatest grading c d : ℕ) → IsGeometry g →
        AreOneOrApart (front_edges (unmeshed_run c g.segments (pieces_of g greatest grading)))
        (front_edges (unmeshed_run d g.segments (pieces_of g greatest grading))) }
    ensures region { (g : PlanarMap) (greatest grading d : ℕ) → IsGeometry g → 0 < d →
        IsRegion (front_edges (unmeshed_run d g.segments (pieces_of g greatest grading))) }
{}

/// Points by first occurrence are different points, the same ones that were given, and each is the
/// one with its number. The one that occurs first has the smaller number.
pub fn law_numbering()
    ensures different { (ps : List Point) → IsDistinct same_point (by_first_occurrence ps) }
    ensures same { (ps : List Point) (p : Point) →
        is_among (by_first_occurrence ps) p ≡ is_among ps p }
    ensures within { (ps : List Point) (p : Point) → is_among ps p ≡ true →
        IsNumberTo (length ps) (number_in ps p) }
    ensures numbered { (ps : List Point) (p : Point) → is_among ps p ≡ true →
        point_at ps (number_in ps p) ≡ p }
    ensures ordered { (ps : List Point) (p q : Point) → number_in ps p < number_in ps q →
        number_in (by_first_occurrence ps) p < number_in (by_first_occurrence ps) q }
{}

/// Each number that a front line of an opening names is one of the domain's points, and each that an
/// edge row names one of the mesh's; and these are grid points where the pieces' ends are.
pub fn law_ranges()
    ensures front { (d : ℕ) (segments : List Segment) (pieces : List Piece) →
        All (FrontJoins (length (unmeshed_run d segments pieces).points))
        (unmeshed_run d segments pieces).front }
    ensures rows { (w : WholeRun) (segments : List Segment) →
        All (RowJoins (length (mesh_of_run w segments).points)) (mesh_of_run w segments).edges }
    ensures on_grid { (pieces : List Piece) → All IsPieceOnGrid pieces →
        All IsOnGrid (mesh_points pieces) }
{}

/// The points and lines with which a domain of an accepted geometry begins are what a front may begin
/// with: different points on the grid, lines that join them and are a region, and so small an area that
/// line numbers stay within 64 bits. Its lines are numbered as a front numbers them, and as edges they
/// are the domain's boundary in pieces.
pub fn law_opens()
    ensures opening { (g : PlanarMap) (greatest grading d : ℕ) → IsGeometry g → 0 < d →
        IsOpening (domain_points d g.segments (pieces_of g greatest grading))
        (opening_lines d g.segments (pieces_of g greatest grading)) }
    ensures numbered { (n : ℕ) (lines : List (ℕ × ℕ)) → front_from n lines ≡ numbered_from n lines }
    ensures edges { (d : ℕ) (segments : List Segment) (pieces : List Piece) →
        edges_of_front (opening_state d segments pieces).points
        (opening_state d segments pieces).front ≡ piece_boundary d segments pieces }
{}

/// What a run keeps of its state holds of the opening of each domain, and each application of a
/// candidate keeps it. A candidate's application, by a rule that a reader gives, may be made: its new
/// places are new, and its elements may be glued one after another, by their numbers. The front is a
/// region all the while.
pub fn law_reached()
    ensures opening { (g : PlanarMap) (greatest grading d : ℕ) → IsGeometry g → 0 < d →
        IsReached (piece_boundary d g.segments (pieces_of g greatest grading))
        (opening_state d g.segments (pieces_of g greatest grading)) }
    ensures may { (b : List Edge) (st : State) (t : Attempt) → IsReached b st → IsRule t.text →
        IsCandidate st t →
        MayBeApplied st (application st t) }
    ensures after { (b : List Edge) (st : State) (a : Application) → IsReached b st →
        MayBeApplied st a → IsReached b (applied st a) }
    ensures region { (b : List Edge) (st : State) → IsReached b st → IsRegion (front_at st) }
{}

/// After each application of a run the elements and the front that is left add up to the domain, at
/// each
/// rational point off all segments and off their own edges: the boundary's winding number there is the
/// sum of theirs, each 0 or 1. There are at most as many applications as the domain's doubled area. All
/// the while the run keeps of its state what it kept.
///
/// So it is of each domain of a whole run, and so it is in the mesh that is written, with the front
/// that
/// is left in the end.
pub fn law_sums()
    ensures whole { (g : PlanarMap) (rules : List Rule) (options : Options) (w : WholeRun) →
        IsGeometry g → CanPrint rules → IsWholeRun g rules options w → AreCovered g options w }
    ensures covered { (g : PlanarMap) (rules : List Rule) (options : Options) (d : ℕ)
        (applications : List Application) →
        IsGeometry g → 0 < d → CanPrint rules →
        AreNext (setting_of g rules options d) (opening_of g options d) applications →
        IsCovered g d (opening_of g options d) applications }
    ensures kept { (b : List Edge) (s : RunSetting) (st : State) (applications : List Application)
        (k : ℕ) →
        IsReached b st → CanPrint s.rules → AreNext s st applications →
        IsReached b (state_after st (take k applications)) }
{}

/// The elements of a run by rules and the front lines that are left name points of the domain, which
/// are
/// grid points.
pub fn law_names()
    ensures names { (g : PlanarMap) (rules : List Rule) (options : Options) (d : ℕ)
        (r : DomainRun) →
        IsGeometry g → 0 < d → CanPrint rules → IsDomainRun g rules options d r → NamesItsPoints r }
    ensures front { (g : PlanarMap) (rules : List Rule) (options : Options) (d : ℕ)
        (r : DomainRun) →
        IsGeometry g → 0 < d → CanPrint rules → IsDomainRun g rules options d r →
        All (FrontJoins (length r.points)) r.front }
    ensures on_grid { (g : PlanarMap) (rules : List Rule) (options : Options) (d : ℕ)
        (r : DomainRun) →
        IsGeometry g → 0 < d → CanPrint rules → IsDomainRun g rules options d r →
        All IsOnGrid r.points }
    ensures runs { (g : PlanarMap) (rules : List Rule) (options : Options) (w : WholeRun) →
        IsGeometry g → CanPrint rules → IsWholeRun g rules options w →
        All NamesItsPoints w.domains }
{}

/// A geometry, rules and options have one run of each domain and one whole run: the next application is
/// one, and a state has one end.
pub fn law_one_run()
    ensures whole { (g : PlanarMap) (rules : List Rule) (options : Options) (v w : WholeRun) →
        IsWholeRun g rules options v → IsWholeRun g rules options w → v ≡ w }
    ensures domain { (g : PlanarMap) (rules : List Rule) (options : Options) (d : ℕ)
        (q r : DomainRun) →
        IsDomainRun g rules options d q → IsDomainRun g rules options d r → q ≡ r }
    ensures next { (s : RunSetting) (st : State) (a b : Application) → IsNext s st a →
        IsNext s st b → a ≡ b }
    ensures ends { (s : RunSetting) (limit : Option ℕ) (st : State) (made : ℕ) (e f : End) →
        IsEndOf s limit st made e → IsEndOf s limit st made f → e ≡ f }
{}

/// A whole run is Done exactly where no domain's front is left. Where no limit is given it is else
/// Stuck,
/// and in each domain of which a front is left nothing applies; no such run is Stopped.
pub fn law_ends()
    ensures done { (g : PlanarMap) (rules : List Rule) (options : Options) (w : WholeRun) →
        IsWholeRun g rules options w →
        (w.end ≡ Done) ↔ All (λ r. r.front ≡ []) w.domains }
    ensures stuck { (g : PlanarMap) (rules : List Rule) (options : Options) (w : WholeRun) →
        IsWholeRun g rules options w →
        options.limit ≡ None → ¬ All (λ r. r.front ≡ []) w.domains → w.end ≡ Stuck }
    ensures nothing { (g : PlanarMap) (rules : List Rule) (options : Options) (w : WholeRun) →
        IsWholeRun g rules options w →
        options.limit ≡ None → AllZip (λ d r. r.front ≢ [] →
        NothingApplies (setting_of g rules options d)
        (state_after (opening_of g options d) r.applications))
        (domain_numbers g.segments) w.domains }
    ensures unstopped { (g : PlanarMap) (rules : List Rule) (options : Options) (w : WholeRun) →
        IsWholeRun g rules options w →
        options.limit ≡ None → w.end ≢ Stopped }
    ensures domain { (g : PlanarMap) (rules : List Rule) (options : Options) (d : ℕ)
        (r : DomainRun) → IsDomainRun g rules options d r →
        (r.end ≡ Done) ↔ (r.front ≡ []) }
{}

/// A refusal stays true: a front line whose reach lies apart from an application's elements has no
/// candidate at a class after the application, where it had none before. `n` covers the rules up to this
/// class, or to a greater one, and so it does where it covers them at all classes.
pub fn law_still()
    ensures none { (sizes : SizeField) (rules : List Rule) (n last class : ℕ) (b : List Edge)
        (st : State) (a : Application) (line : ℕ × ℕ × ℕ) (f : LocalFrame) → 1 ≤ class →
        class ≤ last → AllByRecursion (IsCoveredAt last n) rules → IsReached b st →
        MayBeApplied st a →
        IsStayingLine sizes st (applied st a) line f →
        IsApartFrom (reach_lo n f) (reach_hi n f) st a →
        HasNone sizes st rules line.0 class → HasNone sizes (applied st a) rules line.0 class }
    ensures stays { (st : State) (a : Application) (line other : ℕ × ℕ × ℕ) →
        AreRising st.front st.next → Contains st.front line →
        Contains (applied st a).front other → other.0 ≡ line.0 → other ≡ line }
{}

/// The states of all domains conform, for every choice of how many of its applications each has made:
/// no directed side belongs to two elements; a side is met by exactly one other element of its domain,
/// front line of its domain, or piece of its boundary; and no mesh point is in an open side of any
/// element. So a mesh, done or not, has no hanging point.
pub fn law_conform()
    ensures { (g : PlanarMap) (rules : List Rule) (options : Options) (w : WholeRun)
        (chosen : ℕ → ℕ) → IsGeometry g → CanPrint rules → IsWholeRun g rules options w →
        AreConforming (states_at g options chosen w.domains) }
{}

/// The mesh of a run that is done is whole: none of the faults that a check of meshes looks for is in it.
pub fn law_done()
    ensures { (g : PlanarMap) (rules : List Rule) (options : Options) (w : WholeRun) →
        IsGeometry g → CanPrint rules → IsWholeRun g rules options w → w.end ≡ Done →
        IsWhole g (mesh_of_run w g.segments) }
{}

/// A run as opened makes at most as many trials as there are classes for each opening line, and for each line by
/// each application by which it joins or that touches it. What is due of a run as opened, and what the clause
/// on trials of `Run::run` says, give it.
pub fn law_trials()
    ensures { (opened : RunView) (after : RunState) (before tried : ℕ) →
        opened.run.applications ≡ [] →
        opened.due ≡ opened.run.basis.options.last * length opened.run.basis.lines →
        DoesPayAll opened.run after (before + opened.due) tried →
        AreBounded opened.run after (tried - before) }
{}
