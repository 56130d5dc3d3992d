//! What of a front is in the way of a zone.
ghost use Rattle.std.specs.Prelude.{◌≡◌, ◌≢◌, ◌↔◌, ◌⊎◌, length, IsTrue, IsFalse, IfNone, IfSome, IfOk, is_some, true};
ghost use Rattle.std.specs.List.{All, Any, Contains};
ghost use Rattle.state_law.specs.State.{IsListed, point_at};
ghost use Rattle.front_chain.specs.Front.{line_at, is_near};
ghost use Rattle.free_zone.specs.InTheWay.{mapping, nth, mapped_pair, IsMappedLine, IsInside, IsBeside, IsFreePoint, IsFreeLine, HasNoLine, IsLineInWay, IsLeast, IsAnswer};
ghost use Rattle.free_zone.specs.Walked.{IsAtMost, IsCounted, IsPassed, IsFound, IsLinePassed, AreLinesPassed};

use crate::mapped::is_mapped;
use crate::zone::Zone;
use front_chain::Front;
use grid_geom::{apart, in_open};
use rule_maps::Compiled;
use std::alloc::{AllocError as OutOfMemory, Global};

/// What is in the way of a rule.
#[derive(Clone, Copy, Debug, PartialEq, Eq)]
pub enum Blocker {
    /// The front point with this number is in the open zone and is not mapped.
    Point(u64),
    /// The front line with this number is not apart from the zone and is not mapped.
    Line(u64),
}

/// The least numbers in the way, of those looked at so far.
#[derive(Clone, Copy, Debug, PartialEq, Eq)]
struct Found {
    point: Option<u64>,
    line: Option<u64>,
}

/// Whether a number was found, and it is at most n.
fn is_at_most(found: &Option<u64>, n: u64) -> bool
    ensures { IsTrue result ↔ IsAtMost found.now n }
{
    match found {
        Some(least) => *least <= n,
        None => false,
    }
}

/// The least number in the way, after one more was looked at.
fn counted(found: Option<u64>, n: u64, free: bool) -> Option<u64>
    ensures { IsCounted (IsTrue free) (IsFalse free) n found result }
{
    if free {
        return found;
    }
    match found {
        Some(least) => Some(least.min(n)),
        None => Some(n),
    }
}

impl Zone {
    /// Whether the front's point `n` is mapped, or not in the open zone.
    fn is_point_free(&self, front: &Front, mapped: &[u64], n: u64) -> bool
        requires { IsListed (length front.now.points) n }
        ensures free { IsTrue result → Contains mapped.now n ⊎ ¬ (IsInside self.now front.now n) }
        ensures in_way { IsFalse result → ¬ (Contains mapped.now n) ×
            IsInside self.now front.now n }
    {
        mapped.contains(&n) || !in_open(front.point(n), self.corners())
    }

    /// Whether the line with these ends is apart from the zone.
    fn is_beside(&self, front: &Front, ends: &(u64, u64)) -> bool
        requires from { IsListed (length front.now.points) ends.now.0 }
        requires to { IsListed (length front.now.points) ends.now.1 }
        requires different { point_at front.now.points ends.now.0 ≢
            point_at front.now.points ends.now.1 }
        ensures { IsTrue result ↔ IsBeside self.now front.now ends.now }
    {
        apart(front.point(ends.0), front.point(ends.1), self.corners())
    }

    /// Whether the line with these ends is mapped, or apart from the zone.
    fn is_line_free(
        &self,
        front: &Front,
        c: &Compiled<'_>,
        mapped: &[u64],
        ends: &(u64, u64),
    ) -> bool
        requires from { IsListed (length front.now.points) ends.now.0 }
        requires to { IsListed (length front.now.points) ends.now.1 }
        requires different { point_at front.now.points ends.now.0 ≢
            point_at front.now.points ends.now.1 }
        ensures free { IsTrue result → IsMappedLine c.now mapped.now ends.now ⊎
            IsBeside self.now front.now ends.now }
        ensures in_way { IsFalse result → ¬ (IsMappedLine c.now mapped.now ends.now) ×
            ¬ (IsBeside self.now front.now ends.now) }
    {
        is_mapped(c, mapped, ends) || self.is_beside(front, ends)
    }

    /// Looks at one line, and at the point from which it goes.
    fn pass(
        &self,
        found: &Found,
        front: &Front,
        c: &Compiled<'_>,
        mapped: &[u64],
        line: u64,
    ) -> Found
        requires { IsTrue (is_some (line_at front.now.lines line)) }
        ensures { IsPassed self.now (mapping front.now c.now mapped.now) line found.now result }
    {
        let _lines = front.lines();
        let ends = front.line(line).unwrap();
        let point_free = self.is_point_free(front, mapped, ends.0);
        let line_free = self.is_line_free(front, c, mapped, &ends);
        Found {
            point: counted(found.point, ends.0, point_free),
            line: counted(found.line, line, line_free),
        }
    }

    /// The least point and the least line in the way.
    fn found(&self, front: &Front, c: &Compiled<'_>, mapped: &[u64]) -> Found
        ensures { IsFound self.now (mapping front.now c.now mapped.now) result }
    {
        let _lines = front.lines();
        let near = self.bounds();
        let mut found = Found {
            point: None,
            line: None,
        };
        let mut next = front.first_near(&near);
        while let Some(here) = next {
            found = self.pass(&found, front, c, mapped, here.line);
            next = front.next_near(&near, &here);
        }
        found
    }

    /// What is in the way: the least front point in the open zone that is not mapped, else the
    /// least front line that is neither mapped nor apart from the zone. None where there is neither.
    ///
    /// The numbers are those of the front points to which the rule's points are mapped, in the
    /// rule's order. A front line is mapped where it stands at a line of the rule, in the same
    /// direction, whether that leaves or not. It takes no memory.
    pub fn blocked(&self, front: &Front, c: &Compiled<'_>, mapped: &[u64]) -> Option<Blocker>
        ensures { IsAnswer self.now (mapping front.now c.now mapped.now) result }
    {
        let found = self.found(front, c, mapped);
        match (found.point, found.line) {
            (Some(n), _) => Some(Blocker::Point(n)),
            (None, Some(n)) => Some(Blocker::Line(n)),
            (None, None) => None,
        }
    }

    /// The least line in the way, after one more was looked at. A line above one in the way isn't
    /// tested: it is not the least.
    fn pass_line(
        &self,
        least: Option<u64>,
        front: &Front,
        c: &Compiled<'_>,
        mapped: &[u64],
        line: u64,
    ) -> Option<u64>
        requires { is_some (line_at front.now.lines line) ≡ true }
        ensures { IsLinePassed self.now (mapping front.now c.now mapped.now) line least result }
    {
        if is_at_most(&least, line) {
            return least;
        }
        let _lines = front.lines();
        let ends = front.line(line).unwrap();
        let free = self.is_line_free(front, c, mapped, &ends);
        counted(least, line, free)
    }

    /// The least line in the way of those with the numbers.
    fn least_of(
        &self,
        front: &Front,
        c: &Compiled<'_>,
        mapped: &[u64],
        numbers: &[u64],
    ) -> Option<u64>
        requires { All (λ n. is_some (line_at front.now.lines n) ≡ true) numbers.now }
        ensures { AreLinesPassed self.now (mapping front.now c.now mapped.now)
            numbers.now (length numbers.now) result }
    {
        let mut least = None;
        for number in numbers {
            least = self.pass_line(least, front, c, mapped, *number);
        }
        least
    }

    /// The least front line that is neither mapped nor apart from the zone, if there is one.
    ///
    /// Where a front point is in the way so is each line that ends there, so there is none exactly
    /// where nothing is in the way. The lines whose boxes meet the zone's are listed by one walk, so
    /// this is quicker than `blocked` where they are many.
    ///
    /// Errors: want of memory for that list.
    pub fn line_in_way(
        &self,
        alloc: Global,
        front: &Front,
        c: &Compiled<'_>,
        mapped: &[u64],
    ) -> Result<Option<u64>, OutOfMemory>
        ensures least { IfOk result (λ line. IfSome line
            (IsLeast (IsLineInWay self.now (mapping front.now c.now mapped.now)))) }
        ensures none { IfOk result (λ line. IfNone line
            (HasNoLine self.now (mapping front.now c.now mapped.now))) }
    {
        let _lines = front.lines();
        let near = self.bounds();
        let numbers = front.near_lines(alloc, &near)?;
        Ok(self.least_of(front, c, mapped, &numbers))
    }
}
