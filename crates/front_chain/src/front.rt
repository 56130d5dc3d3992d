// The front of a domain as a value that can't be wrong.
ghost use Rattle.std.specs.Prelude.{◌≡◌, ℕ, ◌+◌, ◌<◌, ◌≤◌, List, [], ◌∷◌, ◌++◌, length, Some, None, true, is_some, IfOk, OnOk, IfSome, IsTrue, ◌+ℤ◌};
ghost use Rattle.std.specs.List.{All};
ghost use Rattle.std.specs.Option.{option_map};
ghost use Rattle.grid_geom.specs.declared.RatPoint.{RatPoint};
ghost use Rattle.grid_geom.specs.Bounds.{IsOnGrid};
ghost use Rattle.grid_geom.specs.Area.{shoelace};
ghost use Rattle.grid_geom.specs.Polygon.{sides};
ghost use Rattle.grid_geom.specs.Winding.{wind};
ghost use Rattle.state_law.specs.State.{IsListed, point_at, corners_of, glued};
ghost use Rattle.front_chain.specs.Front.{IsFrontState, IsOpening, IsGluable, AreNear, edges_of, state_of, spare_elements, line_at, number_between, number_above, number_of, is_end, is_near, first_in_walk, near_in_walk, next_in_walk, still_near, numbered_from, idle_points, still_waiting};

use crate::chain::Chain;
use crate::gluing::{element_area, glue_sides};
use crate::opening::{join_lines, list_points, swept_area};
use grid_geom::{Bounds, Element, Point};
use std::alloc::{AllocError as OutOfMemory, Global};
use std::marker::Model;

/// The most lines that an element adds: it has at most so many corners.
const MOST_SIDES: usize = 4;

/// A front line that a walk has met.
#[derive(Clone, Copy, Debug, PartialEq, Eq)]
pub struct Near {
    /// The line's number.
    pub line: u64,
}

/// The line that a walk has met, if it has met one.
fn met(line: Option<u64>) -> Option<Near>
    ensures { option_map (λ near. near.line) result ≡ line }
{
    line.map(|line| Near { line })
}

/// The front of a domain: its points and its directed lines, with the unmeshed region on their left.
#[derive(Drop)]
pub struct Front {
    chain: Chain,
    area: i128,
}

impl Model for Front {
    ghost use Rattle.std.specs.Prelude.{◌≡◌};
    ghost use Rattle.grid_geom.specs.Area.{shoelace};
    ghost use Rattle.front_chain.specs.Front.{FrontState, IsFrontState, edges_of};

    ghost Value = { FrontState };

    ghost view = { λ f. f.chain };

    ghost invariant = { λ f. IsFrontState f.chain × (f.area ≡ shoelace (edges_of f.chain)) };
}

impl Front {
    /// The front of these points, numbered from 1, and these lines between them, numbered in their
    /// order. A point that is no end of a line waits.
    ///
    /// Errors: want of memory, and then there is no front.
    pub fn open(alloc: Global, points: &[Point], lines: &[(u64, u64)]) -> Result<Front, OutOfMemory>
        requires { IsOpening points.now lines.now }
        ensures points { IfOk result (λ f. f.points ≡ points.now) }
        ensures lines { IfOk result (λ f. f.lines ≡ numbered_from 1 lines.now) }
        ensures next { IfOk result (λ f. f.next ≡ 1 + length lines.now) }
        ensures waiting { IfOk result (λ f. f.waiting ≡ idle_points f.lines (length points.now)) }
    {
        let mut chain = Chain::new(alloc);
        chain.reserve(points.len(), lines.len())?;
        list_points(&mut chain, points);
        join_lines(&mut chain, lines);
        chain.use_starts();
        let area = swept_area(points, lines);
        Ok(Front { chain, area })
    }

    /// The number of points.
    pub fn points(&self) -> u64
        ensures count { result ≡ length self.now.points }
        ensures holds { IsFrontState self.now }
    {
        self.chain.points()
    }

    /// The place of the point with this number.
    pub fn point(&self, n: u64) -> Point
        requires { IsListed (length self.now.points) n }
        ensures value { result ≡ point_at self.now.points n }
        ensures on_grid { IsOnGrid result }
    {
        self.chain.point(n)
    }

    /// The number of the point at this place.
    pub fn number_at(&self, p: Point) -> Option<u64>
        ensures { result ≡ number_of self.now.points p }
    {
        self.chain.number_at(p)
    }

    /// The number of lines.
    pub fn lines(&self) -> u64
        ensures count { result ≡ length self.now.lines }
        ensures holds { IsFrontState self.now }
    {
        self.chain.lines()
    }

    /// The number that the next line to join takes.
    pub fn next_number(&self) -> u64
        ensures { result ≡ self.now.next }
    {
        self.chain.next_number()
    }

    /// The ends of the line with this number.
    pub fn line(&self, n: u64) -> Option<(u64, u64)>
        ensures { result ≡ line_at self.now.lines n }
    {
        self.chain.line(n)
    }

    /// The number of the line with these ends.
    pub fn line_between(&self, a: u64, b: u64) -> Option<u64>
        ensures { result ≡ number_between self.now.lines a b }
    {
        self.chain.line_between(a, b)
    }

    /// The least number of a line above this number.
    pub fn next_line(&self, after: u64) -> Option<u64>
        ensures { result ≡ number_above self.now.lines after }
    {
        self.chain.next_line(after)
    }

    /// Whether the point with this number is an end of a line.
    pub fn is_front_point(&self, n: u64) -> bool
        ensures { result ≡ is_end self.now.lines n }
    {
        self.chain.leaves(n)
    }

    /// The numbers of the points that are listed, but were no end of a line and no corner of a glued
    /// element so far. Every other point is an end of a line, or outside the front's region for good.
    pub fn waiting(&self) -> &[u64]
        ensures { result.now ≡ self.now.waiting }
    {
        self.chain.waiting()
    }

    /// Twice the area of the front's region, in square grid steps.
    pub fn area(&self) -> i128
        ensures value { result ≡ shoelace (edges_of self.now) }
        ensures holds { IsFrontState self.now }
    {
        self.area
    }

    /// The first line of the front's walk whose box meets `b`.
    pub fn first_near(&self, b: &Bounds) -> Option<Near>
        ensures first { option_map (λ near. near.line) result ≡ first_in_walk self.now b.now }
        ensures near { IfSome result (λ near. IsTrue (is_near self.now b.now near.line)) }
        ensures all { still_near self.now b.now (option_map (λ near. near.line) result) ≡
            near_in_walk self.now b.now }
    {
        met(self.chain.first_near(b))
    }

    /// The first line of the front's walk after this one whose box meets `b`.
    pub fn next_near(&self, b: &Bounds, after: &Near) -> Option<Near>
        requires { IsTrue (is_near self.now b.now after.now.line) }
        ensures next { option_map (λ near. near.line) result ≡
            next_in_walk self.now b.now after.now.line }
        ensures near { IfSome result (λ near. IsTrue (is_near self.now b.now near.line)) }
        ensures rest { after.now.line ∷ still_near self.now b.now
            (option_map (λ near. near.line) result) ≡
            still_near self.now b.now (Some after.now.line) }
    {
        met(self.chain.next_near(b, after.line))
    }

    /// The numbers of the lines whose boxes meet `b`, in the order of the front's walk: those that
    /// `first_near` and `next_near` meet one after another, at the cost of one walk.
    ///
    /// Errors: want of memory, and then no number is told. The front is only read, so it is as before.
    pub fn near_lines(&self, alloc: Global, b: &Bounds) -> Result<Vec<u64>, OutOfMemory>
        ensures walked { IfOk result (λ v. v.items ≡ near_in_walk self.now b.now) }
        ensures near { IfOk result (λ v. AreNear self.now b.now v.items) }
        ensures there { IfOk result (λ v.
            All (λ n. is_some (line_at self.now.lines n) ≡ true) v.items) }
    {
        let numbers = self.chain.near_lines(alloc, b)?;
        Ok(numbers)
    }

    /// Takes memory for so many more points and elements. Whatever it answers, the points, the lines and
    /// the next line number are as before. Elements whose lines no number could count are want of memory too.
    pub fn reserve(&mut self, points: usize, elements: usize) -> Result<(), OutOfMemory>
        ensures points { self.new.points ≡ self.old.points }
        ensures lines { self.new.lines ≡ self.old.lines }
        ensures next { self.new.next ≡ self.old.next }
        ensures walk { self.new.walk ≡ self.old.walk }
        ensures waiting { self.new.waiting ≡ self.old.waiting }
        ensures room_points { OnOk result (points ≤ self.new.spare_points) }
        ensures room_elements { OnOk result (elements ≤ spare_elements self.new) }
        ensures spare_points { self.old.spare_points ≤ self.new.spare_points }
        ensures spare_elements { spare_elements self.old ≤ spare_elements self.new }
    {
        match elements.checked_mul(MOST_SIDES) {
            Some(lines) => self.chain.reserve(points, lines),
            None => Err(OutOfMemory),
        }
    }

    /// Lists a new place, with the next number. It waits until it is a corner of a glued element.
    pub fn add_point(&mut self, p: Point) -> u64
        requires spare { 0 < self.old.spare_points }
        requires on_grid { IsOnGrid p }
        requires new_place { number_of self.old.points p ≡ None }
        ensures number { result ≡ length self.old.points + 1 }
        ensures points { self.new.points ≡ self.old.points ++ p ∷ [] }
        ensures lines { self.new.lines ≡ self.old.lines }
        ensures next { self.new.next ≡ self.old.next }
        ensures walk { self.new.walk ≡ self.old.walk }
        ensures waiting { self.new.waiting ≡ self.old.waiting ++ result ∷ [] }
        ensures spare_points { self.old.spare_points ≤ self.new.spare_points + 1 }
        ensures spare_elements { spare_elements self.new ≡ spare_elements self.old }
    {
        self.chain.add_point(p)
    }

    /// Glues an element that may be glued: side by side in order, a side that is a front line leaves, and
    /// any other joins reversed with the next number.
    pub fn glue(&mut self, el: &Element)
        requires spare { 0 < spare_elements self.old }
        requires gluable { IsGluable self.old el.now }
        ensures lines { self.new.lines ≡ (glued (state_of self.old) el.now).front }
        ensures next { self.new.next ≡ (glued (state_of self.old) el.now).next }
        ensures points { self.new.points ≡ self.old.points }
        ensures waiting { self.new.waiting ≡ still_waiting self.old.waiting el.now }
        ensures winding { (q : RatPoint) → wind q (edges_of self.old) ≡
            wind q (sides (corners_of self.old.points el.now)) +ℤ wind q (edges_of self.new) }
        ensures spare_points { self.old.spare_points ≤ self.new.spare_points }
        ensures spare_elements { spare_elements self.old ≤ spare_elements self.new + 1 }
    {
        let corners = el.as_slice();
        let taken = element_area(&self.chain, corners);
        glue_sides(&mut self.chain, corners);
        self.chain.use_points(corners);
        self.area -= taken;
    }
}
