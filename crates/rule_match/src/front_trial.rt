//! One rule tried on a base line of a front: its points are tested as soon as they are known, and whole
//! assignments by their new points, their zone and their elements.

ghost use Rattle.std.specs.Prelude.{◌≡◌, ◌≤◌, ◌+◌, ◌↔◌, ◌++◌, ℕ, List, length, map, true, false, IfOk, OnOk, IsTrue, IfSome, IfNone};
ghost use Rattle.std.specs.List.{All};
ghost use Rattle.rule_maps.specs.Frame.{IsInRange};
ghost use Rattle.rule_maps.specs.Inert.{IsLive};
ghost use Rattle.state_law.specs.State.{front_edges};
ghost use Rattle.state_law.specs.Gluing.{MayAllBeGlued};
ghost use Rattle.front_chain.specs.Front.{state_of};
ghost use Rattle.admission.specs.declared.refusal.GlueRefusal.TheVariants.{Memory as NoMemory};
ghost use Rattle.rule_match.specs.Candidate.{IsCandidate, elements};
ghost use Rattle.rule_match.specs.Candidate.{mapped as mapped_at};
ghost use Rattle.rule_match.specs.Fitting.{fits_so_far};
ghost use Rattle.rule_match.specs.Trying.{ties, starts};
ghost use Rattle.rule_match.specs.Least.{rank, worst};
ghost use Rattle.rule_match.specs.Walk.{BeginsWith};
ghost use Rattle.rule_match.specs.Noted.{HasExcuse, IsWayNoted};
ghost use Rattle.free_zone.specs.Zone.{IsZone, zone_of};
ghost use Rattle.free_zone.specs.InTheWay.{HasNoLine};
ghost use Rattle.free_zone.specs.InTheWay.{mapping as in_way};
ghost use Rattle.rule_maps.specs.Places.{mapping};
ghost use Rattle.rule_match.specs.declared.progress.Note.{Note as Noted};
ghost use Rattle.rule_match.specs.MoreNotes.{more_excuses};
ghost use Rattle.rule_match.specs.Base.{IsTrying, HasNewPoints, elements_by, numbers_at, attempt_of, setting_at};

use super::base::Base;
use super::few_points::FewPoints;
use super::found::Found;
use super::making::{
    all_numbers, are_different, are_new, made_points, numbered_elements, worst_badness,
};
use super::noting::{note, note_refusal};
use super::progress::Note;
use super::trying::Trying;
use super::walk::Trial;
use admission::{GlueRefusal, admit};
use free_zone::Zone;
use front_chain::Front;
use grid_geom::{Element, Point};
use rule_maps::Compiled;
use std::alloc::{AllocError, Global};
use std::marker::Model;

/// A live rule of quality at most the class, with its number, tried on a base line.
#[derive(Drop)]
pub(crate) struct FrontTrial<'a> {
    base: &'a Base<'a>,
    number: usize,
    rule: &'a Compiled<'a>,
    trying: Trying<'a>,
}

impl<'a> Model for FrontTrial<'a> {
    ghost use Rattle.std.specs.Prelude.{◌≡◌};
    ghost use Rattle.rule_match.specs.Base.{Tried, IsTrying, setting_at};

    ghost Value = { Tried };

    ghost view = { λ t. record { base = t.base.now; number = t.number; rule = t.rule.now } };

    ghost invariant = { λ t.
        IsTrying (record { base = t.base.now; number = t.number; rule = t.rule.now })
        × (t.trying ≡ setting_at
        (record { base = t.base.now; number = t.number; rule = t.rule.now })) };
}

/// The points of the first list, and then those of the second.
fn joined(alloc: Global, first: &[Point], second: &[Point]) -> FewPoints
    requires { length first.now + length second.now ≤ 24 }
    ensures { result ≡ first.now ++ second.now }
{
    let mut all = FewPoints::new(alloc);
    for p in first {
        all.push(*p);
    }
    for p in second {
        all.push(*p);
    }
    all
}

/// Whether elements weren't admitted for want of memory.
fn is_memory(refusal: &GlueRefusal) -> bool
    ensures memory { result ≡ true → refusal.now ≡ NoMemory }
    ensures other { result ≡ false → (refusal.now ≡ NoMemory → ⊥) }
{
    match refusal {
        GlueRefusal::Memory => true,
        _ => false,
    }
}

impl<'a> FrontTrial<'a> {
    /// Tries a rule on a base line.
    pub(crate) fn new(base: &'a Base<'a>, number: usize, rule: &'a Compiled<'a>) -> FrontTrial<'a>
        requires live { IsLive rule.now }
        requires quality { rule.now.quality ≤ base.now.class }
        ensures { result ≡ record { base = base.now; number = number; rule = rule.now } }
    {
        FrontTrial {
            base,
            number,
            rule,
            trying: Trying::new(
                base.class(),
                base.from(),
                base.to(),
                base.near(),
                base.lines(),
                rule.rule(),
            ),
        }
    }

    /// The base line.
    fn base(&self) -> &Base<'a>
        ensures value { result.now ≡ self.now.base }
        ensures trying { IsTrying self.now }
    {
        self.base
    }

    /// The rule.
    fn rule(&self) -> &Compiled<'a>
        ensures value { result.now ≡ self.now.rule }
        ensures trying { IsTrying self.now }
    {
        self.rule
    }

    /// The front.
    fn front(&self) -> &Front
        ensures value { result.now ≡ self.now.base.front }
        ensures trying { IsTrying self.now }
    {
        self.base().front()
    }

    /// The places of the mapped points.
    fn mapped(&self, alloc: Global, chosen: &[usize]) -> FewPoints
        requires complete { length chosen.now ≡ length self.now.rule.points }
        requires fits { fits_so_far (ties (setting_at self.now)) chosen.now ≡ true }
        ensures value { result ≡ mapped_at (state_of self.now.base.front)
            (attempt_of self.now chosen.now) }
        ensures range { All (IsInRange self.now.base.frame) result }
        ensures count { length result ≡ length self.now.rule.points }
        ensures few { length result ≤ 16 }
        ensures trying { IsTrying self.now }
    {
        self.base().places(alloc, chosen)
    }

    /// The zone, where it is on the grid and strictly convex.
    fn zone(&self, alloc: Global, mapped: &[Point]) -> Option<Zone>
        requires count { length mapped.now ≡ length self.now.rule.points }
        requires range { All (IsInRange self.now.base.frame) mapped.now }
        ensures zone { IfSome result (λ z. z ≡
            zone_of (mapping self.now.base.frame self.now.rule mapped.now) self.now.base.class) }
        ensures is_zone { IfSome result IsZone }
        ensures none { IfNone result (¬ (IsZone
            (zone_of (mapping self.now.base.frame self.now.rule mapped.now) self.now.base.class))) }
    {
        let base = self.base();
        Zone::new(alloc, self.rule(), base.frame(), mapped, base.class())
    }

    /// Whether no front line is in the way of the zone. Else the least that is is noted.
    fn has_free_zone(
        &self,
        alloc: Global,
        zone: &Zone,
        numbers: &[u64],
        notes: &mut Vec<Note>,
    ) -> Result<bool, AllocError>
        requires { 1 ≤ length numbers.now }
        ensures kept { OnOk result (BeginsWith notes.new.items notes.old.items) }
        ensures free { IfOk result (λ yes. yes ≡ true →
            HasNoLine zone.now (in_way self.now.base.front self.now.rule numbers.now)) }
        ensures in_way { IfOk result (λ yes. yes ≡ false →
            IsWayNoted self.now zone.now numbers.now notes.new.items) }
    {
        match zone.line_in_way(alloc, self.front(), self.rule(), numbers)? {
            None => Ok(true),
            Some(line) => {
                note(self.base(), line, numbers, notes)?;
                Ok(false)
            }
        }
    }

    /// The new points, where they are on the grid, at no listed place, and different.
    fn made(&self, alloc: Global, chosen: &[usize], mapped: &[Point]) -> Option<FewPoints>
        requires mapped { mapped.now ≡
            mapped_at (state_of self.now.base.front) (attempt_of self.now chosen.now) }
        requires count { length mapped.now ≡ length self.now.rule.points }
        requires range { All (IsInRange self.now.base.frame) mapped.now }
        ensures made { IfSome result (λ v. HasNewPoints self.now chosen.now v) }
        ensures none { IfNone result
            (IsCandidate (state_of self.now.base.front) (attempt_of self.now chosen.now) → ⊥) }
        ensures excused { IfNone result
            ((notes : List Noted) → HasExcuse self.now notes chosen.now) }
    {
        let made = made_points(alloc, self.rule(), self.base().frame(), mapped)?;
        if are_new(self.front(), made.as_slice()) && are_different(made.as_slice()) {
            Some(made)
        } else {
            None
        }
    }

    /// The elements by the front's numbers, new points coming after those that are listed.
    fn elements(
        &self,
        alloc: Global,
        numbers: &[u64],
        placed: &[Point],
    ) -> Result<Vec<Element>, AllocError>
        ensures { IfOk result (λ v. v.items ≡ elements_by self.now numbers.now placed.now) }
    {
        let all = all_numbers(alloc, numbers, self.front().points(), placed)?;
        numbered_elements(
            alloc,
            all.as_slice(),
            self.rule().rule().elements.as_slice(),
        )
    }

    /// Whether the elements may be glued one after another. Else the front lines that refuse them are
    /// noted.
    fn may_glue(
        &self,
        alloc: Global,
        chosen: &[usize],
        numbers: &[u64],
        placed: &[Point],
        notes: &mut Vec<Note>,
    ) -> Result<bool, AllocError>
        requires complete { length chosen.now ≡ length self.now.rule.points }
        requires fits { fits_so_far (ties (setting_at self.now)) chosen.now ≡ true }
        requires numbers { numbers.now ≡ numbers_at self.now.base.near chosen.now }
        requires placed { HasNewPoints self.now chosen.now placed.now }
        ensures kept { OnOk result (BeginsWith notes.new.items notes.old.items) }
        ensures may { IfOk result (λ yes. IsTrue yes ↔
            MayAllBeGlued
            (elements (state_of self.now.base.front) (attempt_of self.now chosen.now))
            (front_edges self.now.base.front.points self.now.base.front.lines)) }
        ensures excused { IfOk result (λ yes. yes ≡ false →
            HasExcuse self.now notes.new.items chosen.now) }
    {
        let elements = self.elements(alloc, numbers, placed)?;
        match admit(alloc, self.front(), placed, elements.as_slice()) {
            Ok(_) => Ok(true),
            Err(refusal) => {
                if is_memory(&refusal) {
                    return Err(AllocError);
                }
                note_refusal(alloc, self.base(), &refusal, numbers, notes)?;
                Ok(false)
            }
        }
    }
}

impl<'a> Trial for FrontTrial<'a> {
    ghost count = { λ t. length t.rule.points };

    ghost fits = { λ t b. fits_so_far (ties (setting_at t)) b ≡ true };

    ghost holds = { λ t b. IsCandidate (state_of t.base.front) (attempt_of t b) };

    ghost reasons = { HasExcuse };

    ghost rank = { λ t b. rank (state_of t.base.front) (attempt_of t b) };

    fn regions(&self, alloc: Global) -> Result<Vec<Vec<usize>>, AllocError> {
        self.trying.regions(alloc)
    }

    fn may_follow(&self, chosen: &[usize], p: usize) -> bool {
        self.trying.may_follow(chosen, p)
    }

    fn find(&self, alloc: Global, chosen: &[usize]) -> Option<Found> {
        let mapped = self.mapped(alloc, chosen);
        let made = made_points(alloc, self.rule(), self.base().frame(), mapped.as_slice())?;
        let places = joined(alloc, mapped.as_slice(), made.as_slice());
        let elements = self.rule().rule().elements.as_slice();
        Some(Found {
            badness: worst_badness(alloc, places.as_slice(), elements),
            rule: self.number,
            points: self.base().numbers(alloc, chosen),
        })
    }

    fn judge(
        &self,
        alloc: Global,
        chosen: &[usize],
        notes: &mut Vec<Note>,
    ) -> Result<bool, AllocError> {
        let mapped = self.mapped(alloc, chosen);
        let Some(made) = self.made(alloc, chosen, mapped.as_slice()) else {
            return Ok(false);
        };
        let Some(zone) = self.zone(alloc, mapped.as_slice()) else {
            return Ok(false);
        };
        let numbers = self.base().numbers(alloc, chosen);
        if !self.has_free_zone(alloc, &zone, numbers.as_slice(), notes)? {
            return Ok(false);
        }
        self.may_glue(alloc, chosen, numbers.as_slice(), made.as_slice(), notes)
    }

    ghost start = { λ t. starts (setting_at t) };

    ghost more = { more_excuses };
}
