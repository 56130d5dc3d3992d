//! The tests of a rule's points that look at the points alone, as soon as a point is known.
//!
//! Assignments are lists of numbers of near points, from 0, in the rule's order.

ghost use Rattle.std.specs.Prelude.{◌≡◌, ◌≤◌, ◌<◌, ◌-◌, ◌^◌, ◌-ℤ◌, ℕ, List, [], ◌∷◌, ◌++◌, true, false, length, map, slice_get, slice_index_or, IfOk, Contains};
ghost use Rattle.std.specs.Int.RustNames.{unsigned_abs};
ghost use Rattle.std.specs.List.{All, list_any, list_all};
ghost use Rattle.grid_geom.specs.Bounds.{IsOnGrid};
ghost use Rattle.rule_match.specs.Candidate.{rule_place};
ghost use Rattle.rule_reader.specs.declared.rule.MapPoint.{MapPoint as MappedPoint};
ghost use Rattle.rule_match.specs.Walk.{AreOf};
ghost use Rattle.rule_match.specs.Fitting.{is_met, fits_so_far};
ghost use Rattle.rule_match.specs.Trying.{Setting, near_at, does_go, point_test, point_ties, line_test, line_tie, turn_test, turn_tie, other_ties, ties, is_end_right};

use super::near::NearPoint;
use super::tolerance::{is_tolerated, way};
use grid_geom::{Point, orient};
use rule_reader::{MapLine, MapPoint, Rule};
use std::alloc::{AllocError, Global};
use std::marker::Model;

/// A rule tried on a base line at a class, with the near points and the front lines between them.
#[derive(Debug, Drop)]
pub struct Trying<'a> {
    class: u32,
    from: u64,
    to: u64,
    near: &'a [NearPoint],
    lines: &'a [(u64, u64)],
    rule: &'a Rule,
}

impl<'a> Model for Trying<'a> {
    ghost use Rattle.std.specs.List.{All};
    ghost use Rattle.grid_geom.specs.Bounds.{IsOnGrid};
    ghost use Rattle.rule_match.specs.Trying.{Setting};

    ghost Value = { Setting };

    ghost view = { λ t. record {
      class = t.class;
      from = t.from;
      to = t.to;
      near = t.near.now;
      lines = t.lines.now;
      rule = t.rule.now;
    } };

    ghost invariant = { λ t. All (λ n. IsOnGrid n.at) t.near.now };
}

/// The number at a position of the chosen ones with p after them.
fn number_at(chosen: &[usize], p: usize, position: usize) -> Option<usize>
    ensures { result ≡ slice_get (chosen.now ++ p ∷ []) position }
{
    if position < chosen.len() {
        Some(chosen[position])
    } else if position == chosen.len() {
        Some(p)
    } else {
        None
    }
}

/// The position of a rule's number: numbers are from 1.
fn position(number: u32) -> usize
    ensures { result ≡ number - 1 }
{
    number.saturating_sub(1) as usize
}

/// The near point that a number stands for; the origin, with the number 0, where there is none.
pub(crate) fn point_near(near: &[NearPoint], n: usize) -> NearPoint
    requires { All (λ point. IsOnGrid point.at) near.now }
    ensures point { result ≡ near_at near.now n }
    ensures on_grid { IsOnGrid result.at }
{
    if n < near.len() {
        near[n]
    } else {
        NearPoint {
            number: 0,
            at: Point { x: 0, y: 0 },
            x: 0,
            y: 0,
        }
    }
}

/// The local place of a near point, in units of 1/10,000.
fn local_of(near: &NearPoint) -> Point
    ensures x { result.x ≡ near.now.x }
    ensures y { result.y ≡ near.now.y }
    ensures x_small { unsigned_abs result.x ≤ 2 ^ 31 }
    ensures y_small { unsigned_abs result.y ≤ 2 ^ 31 }
{
    Point {
        x: near.x as i64,
        y: near.y as i64,
    }
}

/// The place of a mapped point in its rule, in units of 1/10,000.
fn place_of(point: &MapPoint) -> Point
    ensures x { result.x ≡ point.now.x }
    ensures y { result.y ≡ point.now.y }
    ensures x_small { unsigned_abs result.x ≤ 2 ^ 31 }
    ensures y_small { unsigned_abs result.y ≤ 2 ^ 31 }
{
    Point {
        x: point.x as i64,
        y: point.y as i64,
    }
}

/// The place of a rule's point.
fn place_in_rule(points: &[MapPoint], number: u32) -> Point
    ensures place { result ≡ rule_place points.now number }
    ensures x_small { unsigned_abs result.x ≤ 2 ^ 31 }
    ensures y_small { unsigned_abs result.y ≤ 2 ^ 31 }
{
    let k = position(number);
    if k < points.len() {
        place_of(&points[k])
    } else {
        Point { x: 0, y: 0 }
    }
}

/// Whether a front line goes from a to b.
fn is_front_line(lines: &[(u64, u64)], a: u64, b: u64) -> bool
    ensures { result ≡ list_any (does_go a b) lines.now }
{
    lines.iter().any(|line| line.0 == a && line.1 == b)
}

impl<'a> Trying<'a> {
    /// Tries a rule on the line from one point to another at a class.
    pub fn new(
        class: u32,
        from: u64,
        to: u64,
        near: &'a [NearPoint],
        lines: &'a [(u64, u64)],
        rule: &'a Rule,
    ) -> Trying<'a>
        requires { All (λ point. IsOnGrid point.at) near.now }
        ensures { result ≡ record {
          class = class;
          from = from;
          to = to;
          near = near.now;
          lines = lines.now;
          rule = rule.now;
        } }
    {
        Trying {
            class,
            from,
            to,
            near,
            lines,
            rule,
        }
    }

    /// How many points the rule maps.
    pub fn count(&self) -> usize
        ensures { result ≡ length self.now.rule.points }
    {
        self.rule.points.as_slice().len()
    }

    /// Whether the point may be an end of the base line where it must be.
    fn is_end_right(&self, position: usize, number: u64) -> bool
        ensures { result ≡ is_end_right self.now position number }
    {
        match position {
            0 => number == self.from,
            1 => number == self.to,
            _ => true,
        }
    }

    /// Whether the near point with the number n may be mapped at the position.
    fn point_holds(&self, position: usize, point: &MapPoint, n: usize) -> bool
        ensures { result ≡ point_test self.now position point.now n }
    {
        if n >= self.near.len() {
            return false;
        }
        let near = point_near(self.near, n);
        if !self.is_end_right(position, near.number) {
            return false;
        }
        let deviation = way(&place_of(point), &local_of(&near));
        is_tolerated(self.class, &point.tol, &deviation)
    }

    /// Whether the two near points may be at the ends of the mapped line. The tolerance comes first: it
    /// costs less than a look at the front lines.
    #[tactic(auto, using(crate::proofs::NextPoint::swapped))]
    fn line_joins(&self, line: &MapLine, a: &NearPoint, b: &NearPoint) -> bool
        ensures { result ≡ line_test self.now line.now a.now b.now }
    {
        let points = self.rule.points.as_slice();
        let wanted = way(
            &place_in_rule(points, line.i),
            &place_in_rule(points, line.j),
        );
        let deviation = way(&wanted, &way(&local_of(a), &local_of(b)));
        is_tolerated(self.class, &line.tol, &deviation)
            && is_front_line(self.lines, a.number, b.number)
    }

    /// Whether the mapped line may be where its ends are, as far as they are known. Where they were
    /// known before, it may.
    #[tactic(auto, using(crate::proofs::NextPoint::two_before))]
    fn line_holds(&self, line: &MapLine, chosen: &[usize], p: usize) -> bool
        requires { is_met chosen.now (line_tie self.now line.now) ≡ true }
        ensures { result ≡ is_met (chosen.now ++ p ∷ []) (line_tie self.now line.now) }
    {
        let (i, j) = (position(line.i), position(line.j));
        if i < chosen.len() && j < chosen.len() {
            return true;
        }
        match (number_at(chosen, p, i), number_at(chosen, p, j)) {
            (Some(a), Some(b)) => {
                self.line_joins(line, &point_near(self.near, a), &point_near(self.near, b))
            }
            _ => true,
        }
    }
}

/// Whether three near points turn counterclockwise.
fn do_turn(a: &NearPoint, b: &NearPoint, c: &NearPoint) -> bool
    requires a { IsOnGrid a.now.at }
    requires b { IsOnGrid b.now.at }
    requires c { IsOnGrid c.now.at }
    ensures { result ≡ turn_test a.now b.now c.now }
{
    orient(a.at, b.at, c.at) > 0
}

impl<'a> Trying<'a> {
    /// Whether the three points turn counterclockwise, as far as they are known.
    fn turn_holds(&self, turn: &(u32, u32, u32), chosen: &[usize], p: usize) -> bool
        ensures { result ≡ is_met (chosen.now ++ p ∷ []) (turn_tie self.now turn.now) }
    {
        match (
            number_at(chosen, p, position(turn.0)),
            number_at(chosen, p, position(turn.1)),
            number_at(chosen, p, position(turn.2)),
        ) {
            (Some(a), Some(b), Some(c)) => do_turn(
                &point_near(self.near, a),
                &point_near(self.near, b),
                &point_near(self.near, c),
            ),
            _ => true,
        }
    }
}

impl<'a> Trying<'a> {
    /// Whether p may be mapped as the next point, if the chosen ones may be mapped where they are.
    #[tactic(auto, using(crate::proofs::NextPoint::next_point))]
    fn points_hold(&self, chosen: &[usize], p: usize) -> bool
        requires short { length chosen.now < length self.now.rule.points }
        requires fits { list_all (is_met chosen.now) (point_ties self.now 0 self.now.rule.points)
            ≡ true }
        ensures { result ≡
            list_all (is_met (chosen.now ++ p ∷ [])) (point_ties self.now 0 self.now.rule.points) }
    {
        let position = chosen.len();
        self.point_holds(position, &self.rule.points.as_slice()[position], p)
    }

    /// Whether all mapped lines may be where their ends are, as far as they are known.
    #[tactic(auto, using(crate::proofs::NextPoint::first_met, crate::proofs::NextPoint::others_met))]
    fn lines_hold(&self, lines: &[MapLine], chosen: &[usize], p: usize) -> bool
        requires { list_all (is_met chosen.now) (map (line_tie self.now) lines.now) ≡ true }
        ensures { result ≡
            list_all (is_met (chosen.now ++ p ∷ [])) (map (line_tie self.now) lines.now) }
    {
        match lines {
            [] => true,
            [line, others @ ..] => {
                self.line_holds(line, chosen, p) && self.lines_hold(others, chosen, p)
            }
        }
    }

    /// Whether all triples turn counterclockwise, as far as they are known.
    fn turns_hold(&self, turns: &[(u32, u32, u32)], chosen: &[usize], p: usize) -> bool
        ensures { result ≡
            list_all (is_met (chosen.now ++ p ∷ [])) (map (turn_tie self.now) turns.now) }
    {
        match turns {
            [] => true,
            [turn, others @ ..] => {
                self.turn_holds(turn, chosen, p) && self.turns_hold(others, chosen, p)
            }
        }
    }

    /// Whether all mapped lines and all triples may be where their ends are, as far as they are known.
    #[tactic(auto, using(crate::proofs::NextPoint::all_first, crate::proofs::NextPoint::all_not, crate::proofs::NextPoint::lines_of))]
    fn lines_and_turns_hold(&self, chosen: &[usize], p: usize) -> bool
        requires { list_all (is_met chosen.now) (other_ties self.now) ≡ true }
        ensures { result ≡ list_all (is_met (chosen.now ++ p ∷ [])) (other_ties self.now) }
    {
        self.lines_hold(self.rule.lines.as_slice(), chosen, p)
            && self.turns_hold(self.rule.turns.as_slice(), chosen, p)
    }

    /// Whether each test whose points are then known is met with p after the chosen points.
    #[tactic(auto, using(crate::proofs::NextPoint::all_first, crate::proofs::NextPoint::all_not))]
    fn tests_hold(&self, chosen: &[usize], p: usize) -> bool
        requires short { length chosen.now < length self.now.rule.points }
        requires fits { list_all (is_met chosen.now) (point_ties self.now 0 self.now.rule.points)
            ≡ true }
        requires others { list_all (is_met chosen.now) (other_ties self.now) ≡ true }
        ensures { result ≡ list_all (is_met (chosen.now ++ p ∷ [])) (ties self.now) }
    {
        self.points_hold(chosen, p) && self.lines_and_turns_hold(chosen, p)
    }

    /// Whether p may be mapped after the chosen points: no point is mapped twice, and each test whose
    /// points are then known is met.
    #[tactic(auto, using(crate::proofs::NextPoint::points_of, crate::proofs::NextPoint::others_of))]
    pub fn may_follow(&self, chosen: &[usize], p: usize) -> bool
        requires short { length chosen.now < length self.now.rule.points }
        requires fits { fits_so_far (ties self.now) chosen.now ≡ true }
        ensures may { result ≡ true → fits_so_far (ties self.now) (chosen.now ++ p ∷ []) ≡ true }
        ensures may_not { result ≡ false →
            (rest : List ℕ) → fits_so_far (ties self.now) (chosen.now ++ p ∷ rest) ≡ true → ⊥ }
    {
        !chosen.contains(&p) && self.tests_hold(chosen, p)
    }

    /// The numbers of the near points that may be mapped at the position.
    fn region(&self, alloc: Global, position: usize) -> Result<Vec<usize>, AllocError>
        requires { position < length self.now.rule.points }
        ensures { IfOk result (λ v. (point : MappedPoint) (n : ℕ) →
            point_test self.now position (slice_index_or self.now.rule.points position point) n
            ≡ true →
            Contains v.items n) }
    {
        let point = &self.rule.points.as_slice()[position];
        let mut region = Vec::new(alloc);
        for n in 0..self.near.len() {
            if self.point_holds(position, point, n) {
                region.push(n)?;
            }
        }
        Ok(region)
    }

    /// For each of the rule's points, the numbers of the near points that may be mapped there.
    pub fn regions(&self, alloc: Global) -> Result<Vec<Vec<usize>>, AllocError>
        ensures counted { IfOk result (λ v. length v.items ≡ length self.now.rule.points) }
        ensures covers { IfOk result
            (λ v. (b : List ℕ) → length b ≡ length self.now.rule.points →
            fits_so_far (ties self.now) b ≡ true → AreOf v.items b) }
    {
        let mut regions = Vec::new(alloc);
        for position in 0..self.count() {
            regions.push(self.region(alloc, position)?)?;
        }
        Ok(regions)
    }
}
