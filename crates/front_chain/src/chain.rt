// The points and lines of a front in tables: each is found in one look, and a line joins or leaves at the same cost however long the front is.
ghost use Rattle.std.specs.Prelude.{◌≡◌, ◌+◌, ◌-◌, ◌<◌, ◌≤◌, ◌^◌, nat_eq, true, false, [], ◌∷◌, ◌++◌, length, set, filter, not, Some, None, is_some, IfOk, OnOk, IsTrue};
ghost use Rattle.std.specs.List.{AllByRecursion, list_any};
ghost use Rattle.state_law.specs.State.{IsListed, glue_line, next_after, point_at};
ghost use Rattle.front_chain.specs.Front.{FrontState, IsWalk, line_at, number_between, number_above, number_of, is_near, first_in_walk, near_in_walk, next_in_walk, still_waiting};
ghost use Rattle.front_chain.specs.Tables.{side_at, is_positive};
ghost use Rattle.front_chain.specs.Boxes.{has_line, IsEntered, IsLeft};

use crate::boxes::box_between;
use crate::order::Order;
use crate::side::Side;
use crate::walk::Walk;
use grid_geom::{Bounds, Point};
use indexmap::{IndexMap, IndexSet};
use std::alloc::{AllocError as OutOfMemory, Global};
use std::marker::Model;

/// Points, numbered from 1, and lines between them, numbered in order of making.
#[derive(Drop)]
pub struct Chain {
    // the points, in the order of their numbers
    places: IndexSet<Point>,
    // how many lines leave each point
    leaving: Vec<u64>,
    // the lines by their numbers, in order of making
    order: Order,
    // the number of each line, by its ends
    sides: IndexMap<Side, u64>,
    // the boxes of the lines, in the order of the walk
    walk: Walk,
    // the numbers of the points that no line and no element has had so far
    waiting: Vec<u64>,
}

impl Model for Chain {
    ghost use Rattle.std.specs.Prelude.{ℕ, ◌+◌, ◌-◌, min, length, map};
    ghost use Rattle.std.specs.Vec.{vec_len, vec_capacity};
    ghost use Rattle.indexmap.specs.IndexMap.{get, spare as room_of_map, IsUnique};
    ghost use Rattle.indexmap.specs.IndexSet.{spare as room_of_set};
    ghost use Rattle.front_chain.specs.contracts.side.SidePartialEq.TheImpl.{ghosts as side};
    ghost use Rattle.front_chain.specs.Front.{FrontState, line_at};
    ghost use Rattle.front_chain.specs.Tables.{lines_from, AreTables};
    ghost use Rattle.front_chain.specs.Boxes.{line_of, AreBoxed};

    ghost Value = { FrontState };

    ghost view = { λ c. record {
      points = c.places.keys;
      lines = lines_from 1 c.order.made;
      next = 1 + length c.order.made;
      walk = map line_of c.walk.entries;
      waiting = c.waiting.items;
      spare_points = min (room_of_set c.places)
          (min (vec_capacity c.leaving - vec_len c.leaving)
          (vec_capacity c.waiting - vec_len c.waiting));
      spare_lines = min (room_of_map c.sides) (min c.order.spare c.walk.spare);
    } };

    ghost invariant = { λ c. AreTables c.places.keys c.leaving.items c.order.made
        (λ s. get side.eq c.sides s) ×
        IsUnique side.eq c.sides ×
        AreBoxed c.places.keys (line_at (lines_from 1 c.order.made)) c.walk.entries };
}

/// Whether a line leaves the point with this number, by how many leave each point.
fn is_left(leaving: &[u64], n: u64) -> bool
    ensures { result ≡ is_positive leaving.now n }
{
    n > 0 && n <= leaving.len() as u64 && leaving[n as usize - 1] > 0
}

/// A line joins the lines in order of making and the walk. Tells its number.
fn enlist(order: &mut Order, walk: &mut Walk, side: Side, bounds: Bounds) -> u64
    requires room { 0 < order.old.spare }
    requires walk_room { 0 < walk.old.spare }
    requires absent { list_any (has_line (length order.old.made + 1)) walk.old.entries ≡ false }
    ensures number { result ≡ length order.old.made + 1 }
    ensures small { result < 2 ^ 64 - 1 }
    ensures made { order.new.made ≡ order.old.made ++ Some side ∷ [] }
    ensures entered { IsEntered result bounds walk.old.entries walk.new.entries }
    ensures spare { order.old.spare ≤ order.new.spare + 1 }
    ensures walk_spare { walk.old.spare ≤ walk.new.spare + 1 }
{
    order.push(side);
    let number = order.made();
    walk.enter(number, bounds);
    number
}

/// The line with this number leaves the lines in order of making and the walk.
fn delist(order: &mut Order, walk: &mut Walk, number: u64)
    requires positive { 1 ≤ number }
    requires there { is_some (side_at order.old.made (number - 1)) ≡ true }
    requires walked { list_any (has_line number) walk.old.entries ≡ true }
    ensures made { order.new.made ≡ set order.old.made (number - 1) None }
    ensures left { IsLeft number walk.old.entries walk.new.entries }
    ensures spare { order.old.spare ≤ order.new.spare }
    ensures walk_spare { walk.old.spare ≤ walk.new.spare }
{
    order.take_off(number);
    walk.leave(number);
}

impl Chain {
    /// No point and no line.
    pub fn new(alloc: Global) -> Chain
        ensures points { result.points ≡ [] }
        ensures lines { result.lines ≡ [] }
        ensures next { result.next ≡ 1 }
        ensures walk { result.walk ≡ [] }
        ensures waiting { result.waiting ≡ [] }
    {
        Chain {
            places: IndexSet::new(alloc),
            leaving: Vec::new(alloc),
            order: Order::new(alloc),
            sides: IndexMap::new(alloc),
            walk: Walk::new(alloc),
            waiting: Vec::new(alloc),
        }
    }

    /// The number of points.
    pub fn points(&self) -> u64
        ensures { result ≡ length self.now.points }
    {
        self.places.len() as u64
    }

    /// The number that the next line to join takes.
    pub fn next_number(&self) -> u64
        ensures { result ≡ self.now.next }
    {
        1 + self.order.made()
    }

    /// The ends of the line with this number, if it is there.
    pub fn line(&self, n: u64) -> Option<(u64, u64)>
        ensures { result ≡ line_at self.now.lines n }
    {
        self.order.line(n)
    }

    /// The number of the line with these ends, if it is there.
    pub fn line_between(&self, from: u64, to: u64) -> Option<u64>
        ensures { result ≡ number_between self.now.lines from to }
    {
        self.sides.get(&Side { from, to }).copied()
    }

    /// Takes the line with these ends and this number off the front.
    fn leave(&mut self, side: Side, number: u64)
        requires there { number_between self.old.lines side.from side.to ≡ Some number }
        ensures lines { self.new.lines ≡
            glue_line self.old.lines self.old.next (side.from, side.to) }
        ensures next { self.new.next ≡ self.old.next }
        ensures points { self.new.points ≡ self.old.points }
        ensures waiting { self.new.waiting ≡ self.old.waiting }
        ensures spare_points { self.new.spare_points ≡ self.old.spare_points }
        ensures spare_lines { self.old.spare_lines ≤ self.new.spare_lines }
    {
        self.sides.swap_remove(&side);
        delist(&mut self.order, &mut self.walk, number);
        self.leaving[side.from as usize - 1] -= 1;
    }

    /// Puts a line with these ends at the end of the front, with the next number.
    pub fn join(&mut self, side: Side)
        requires room { 0 < self.old.spare_lines }
        requires from { IsListed (length self.old.points) side.from }
        requires to { IsListed (length self.old.points) side.to }
        requires absent { number_between self.old.lines side.from side.to ≡ None }
        ensures lines { self.new.lines ≡
            self.old.lines ++ (self.old.next, side.from, side.to) ∷ [] }
        ensures next { self.new.next ≡ self.old.next + 1 }
        ensures points { self.new.points ≡ self.old.points }
        ensures waiting { self.new.waiting ≡ self.old.waiting }
        ensures spare_points { self.new.spare_points ≡ self.old.spare_points }
        ensures spare_lines { self.old.spare_lines ≤ self.new.spare_lines + 1 }
    {
        let bounds = box_between(&self.point(side.from), &self.point(side.to));
        let number = enlist(&mut self.order, &mut self.walk, side, bounds);
        self.sides.insert(side, number).unwrap();
        self.leaving[side.from as usize - 1] += 1;
    }

    /// Glues one side: a line with these ends leaves, or else a line joins from its end to its start.
    pub fn glue_side(&mut self, side: Side)
        requires room { 0 < self.old.spare_lines }
        requires from { IsListed (length self.old.points) side.from }
        requires to { IsListed (length self.old.points) side.to }
        requires not_backwards { number_between self.old.lines side.to side.from ≡ None }
        ensures lines { self.new.lines ≡
            glue_line self.old.lines self.old.next (side.from, side.to) }
        ensures next { self.new.next ≡
            next_after self.old.lines self.old.next (side.from, side.to) }
        ensures points { self.new.points ≡ self.old.points }
        ensures waiting { self.new.waiting ≡ self.old.waiting }
        ensures spare_points { self.new.spare_points ≡ self.old.spare_points }
        ensures spare_lines { self.old.spare_lines ≤ self.new.spare_lines + 1 }
    {
        match self.line_between(side.from, side.to) {
            Some(number) => self.leave(side, number),
            None => self.join(Side {
                from: side.to,
                to: side.from,
            }),
        }
    }

    /// Lists a point at the end, with the next number.
    pub fn add_point(&mut self, p: Point) -> u64
        requires room { 0 < self.old.spare_points }
        requires new_place { number_of self.old.points p ≡ None }
        ensures number { result ≡ length self.old.points + 1 }
        ensures points { self.new.points ≡ self.old.points ++ p ∷ [] }
        ensures lines { self.new.lines ≡ self.old.lines }
        ensures next { self.new.next ≡ self.old.next }
        ensures walk { self.new.walk ≡ self.old.walk }
        ensures waiting { self.new.waiting ≡ self.old.waiting ++ result ∷ [] }
        ensures spare_points { self.old.spare_points ≤ self.new.spare_points + 1 }
        ensures spare_lines { self.new.spare_lines ≡ self.old.spare_lines }
    {
        let number = self.places.len() as u64 + 1;
        self.places.insert(p).unwrap();
        self.leaving.push_reserved(0);
        self.waiting.push_reserved(number);
        number
    }

    /// Takes memory for so many more points and lines.
    pub fn reserve(&mut self, points: usize, lines: usize) -> Result<(), OutOfMemory>
        ensures points { self.new.points ≡ self.old.points }
        ensures lines { self.new.lines ≡ self.old.lines }
        ensures next { self.new.next ≡ self.old.next }
        ensures walk { self.new.walk ≡ self.old.walk }
        ensures waiting { self.new.waiting ≡ self.old.waiting }
        ensures room_points { OnOk result (points ≤ self.new.spare_points) }
        ensures room_lines { OnOk result (lines ≤ self.new.spare_lines) }
        ensures spare_points { self.old.spare_points ≤ self.new.spare_points }
        ensures spare_lines { self.old.spare_lines ≤ self.new.spare_lines }
    {
        self.places.reserve(points)?;
        self.leaving.reserve(points)?;
        self.waiting.reserve(points)?;
        self.order.reserve(lines)?;
        self.sides.reserve(lines)?;
        self.walk.reserve(lines)
    }

    /// The number of the point at this place.
    pub fn number_at(&self, p: Point) -> Option<u64>
        ensures { result ≡ number_of self.now.points p }
    {
        self.places.get_index_of(&p).map(|index| index as u64 + 1)
    }

    /// The place of the point with this number.
    pub fn point(&self, n: u64) -> Point
        requires { IsListed (length self.now.points) n }
        ensures { result ≡ point_at self.now.points n }
    {
        let places = self.places.as_slice();
        places[n as usize - 1]
    }

    /// The least number of a line above this number.
    pub fn next_line(&self, after: u64) -> Option<u64>
        ensures { result ≡ number_above self.now.lines after }
    {
        self.order.next_line(after)
    }

    /// Whether a line leaves the point with this number.
    pub fn leaves(&self, n: u64) -> bool
        ensures { result ≡ list_any (λ line. nat_eq line.1 n) self.now.lines }
    {
        is_left(&self.leaving, n)
    }

    /// The number of lines.
    pub fn lines(&self) -> u64
        ensures { result ≡ length self.now.lines }
    {
        self.sides.len() as u64
    }

    /// The numbers of the points that no line and no element has had so far.
    pub fn waiting(&self) -> &[u64]
        ensures { result.now ≡ self.now.waiting }
    {
        &self.waiting
    }

    /// These points wait no longer.
    pub fn use_points(&mut self, used: &[u64])
        ensures waiting { self.new.waiting ≡ still_waiting self.old.waiting used.now }
        ensures walked { IsWalk self.new.walk self.new.lines }
        ensures positive { AllByRecursion (λ line. 1 ≤ line.0) self.new.lines }
        ensures points { self.new.points ≡ self.old.points }
        ensures lines { self.new.lines ≡ self.old.lines }
        ensures next { self.new.next ≡ self.old.next }
        ensures walk { self.new.walk ≡ self.old.walk }
        ensures spare_points { self.old.spare_points ≤ self.new.spare_points }
        ensures spare_lines { self.new.spare_lines ≡ self.old.spare_lines }
    {
        self.waiting.retain(|n| !used.contains(n));
    }

    /// No point waits that a line leaves.
    pub fn use_starts(&mut self)
        ensures waiting { self.new.waiting ≡
            filter (λ n. not (list_any (λ line. nat_eq line.1 n) self.old.lines)) self.old.waiting }
        ensures walked { IsWalk self.new.walk self.new.lines }
        ensures positive { AllByRecursion (λ line. 1 ≤ line.0) self.new.lines }
        ensures points { self.new.points ≡ self.old.points }
        ensures lines { self.new.lines ≡ self.old.lines }
        ensures next { self.new.next ≡ self.old.next }
    {
        let leaving = &self.leaving;
        self.waiting.retain(|n| !is_left(leaving, *n));
    }

    /// The first line of the walk whose box meets `b`.
    pub fn first_near(&self, b: &Bounds) -> Option<u64>
        ensures { result ≡ first_in_walk self.now b.now }
    {
        self.walk.first(b)
    }

    /// The lines whose boxes meet `b`, in the order of the walk.
    pub fn near_lines(&self, alloc: Global, b: &Bounds) -> Result<Vec<u64>, OutOfMemory>
        ensures { IfOk result (λ v. v.items ≡ near_in_walk self.now b.now) }
    {
        let numbers = self.walk.hits(alloc, b)?;
        Ok(numbers)
    }

    /// The first line of the walk after this one whose box meets `b`.
    pub fn next_near(&self, b: &Bounds, after: u64) -> Option<u64>
        requires { IsTrue (is_near self.now b.now after) }
        ensures { result ≡ next_in_walk self.now b.now after }
    {
        self.walk.next(b, after)
    }
}
