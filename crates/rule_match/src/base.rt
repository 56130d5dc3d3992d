//! A front line tried at a class, with its frame and its surroundings: all that the trials of the rules on
//! it share.

ghost use Rattle.std.specs.Prelude.{◌≡◌, ◌≤◌, ◌<◌, length, map, true, is_some, IfOk, pos, ◌+ℤ◌};
ghost use Rattle.std.specs.List.{All};
ghost use Rattle.grid_geom.specs.Bounds.{IsOnGrid, IsWithin};
ghost use Rattle.rule_maps.specs.Frame.{half};
ghost use Rattle.front_chain.specs.Front.{line_at, state_of};
ghost use Rattle.rule_match.specs.Candidate.{IsFrontPair};
ghost use Rattle.rule_match.specs.Trying.{near_at};
ghost use Rattle.rule_match.specs.Base.{IsBaseLine, IsFramed, IsBaseOf, numbers_at};

use super::around::{Scope, Surroundings, surroundings_of};
use super::assignment::Assignment;
use super::few_points::FewPoints;
use super::near::NearPoint;
use super::trying::point_near;
use front_chain::Front;
use grid_geom::{GRID, Point};
use rule_maps::Frame;
use size_field::Sizes;
use std::alloc::{AllocError, Global};
use std::marker::Model;

/// A front line by its numbers, at a class.
#[derive(Drop)]
pub(crate) struct Base<'a> {
    front: &'a Front,
    line: u64,
    from: u64,
    to: u64,
    class: u32,
    frame: Frame,
    around: Surroundings,
    noting: bool,
}

impl<'a> Model for Base<'a> {
    ghost use Rattle.rule_match.specs.Base.{BaseLine, IsBaseLine};

    ghost Value = { BaseLine };

    ghost view = { λ b. record {
      front = b.front.now;
      line = (b.line, b.from, b.to);
      class = b.class;
      frame = b.frame;
      scope = b.around.scope;
      near = b.around.near.items;
      lines = b.around.lines.items;
      noting = b.noting;
    } };

    ghost invariant = { λ b. IsBaseLine
        (record {
          front = b.front.now;
          line = (b.line, b.from, b.to);
          class = b.class;
          frame = b.frame;
          scope = b.around.scope;
          near = b.around.near.items;
          lines = b.around.lines.items;
          noting = b.noting;
        }) };
}

/// The middle of two coordinates, rounded down.
fn middle(a: &i64, b: &i64) -> i64
    requires a { IsWithin GRID a.now }
    requires b { IsWithin GRID b.now }
    ensures value { result ≡ half (a.now +ℤ b.now) }
    ensures on { IsWithin GRID result }
{
    (a + b).div_euclid(2)
}

/// The middle of a line, each coordinate rounded down.
fn middle_of(a: &Point, b: &Point) -> Point
    requires a { IsOnGrid a.now }
    requires b { IsOnGrid b.now }
    ensures x { result.x ≡ half (a.now.x +ℤ b.now.x) }
    ensures y { result.y ≡ half (a.now.y +ℤ b.now.y) }
    ensures on { IsOnGrid result }
{
    Point {
        x: middle(&a.x, &b.x),
        y: middle(&a.y, &b.y),
    }
}

/// The frame of the front line between two points, at the size at its middle.
pub(crate) fn frame_of(front: &Front, sizes: &Sizes, from: u64, to: u64) -> Frame
    requires { IsFrontPair (state_of front.now) (from, to) }
    ensures { IsFramed sizes.now front.now.points from to result }
{
    let _points = front.points();
    let (start, end) = (front.point(from), front.point(to));
    Frame::new(start, end, sizes.at(middle_of(&start, &end)))
}

impl<'a> Base<'a> {
    /// The front line with the number, at a class; which points are looked at; and whether the search is
    /// to note why assignments fail.
    pub(crate) fn new(
        alloc: Global,
        front: &'a Front,
        sizes: &Sizes,
        line: u64,
        class: u32,
        scope: Scope,
        noting: bool,
    ) -> Result<Base<'a>, AllocError>
        requires on_front { is_some (line_at front.now.lines line) ≡ true }
        requires class_least { 1 ≤ class }
        requires class_greatest { class ≤ 16 }
        ensures base { IfOk result (λ b. IsBaseOf sizes.now front.now line class b) }
        ensures scope { IfOk result (λ b. b.scope ≡ scope) }
        ensures noting { IfOk result (λ b. b.noting ≡ noting) }
    {
        let _points = front.points();
        let (from, to) = front.line(line).unwrap();
        let frame = frame_of(front, sizes, from, to);
        let _start = frame.p1();
        let around = surroundings_of(alloc, front, &frame, scope)?;
        Ok(Base {
            front,
            line,
            from,
            to,
            class,
            frame,
            around,
            noting,
        })
    }

    /// The front.
    pub(crate) fn front(&self) -> &Front
        ensures value { result.now ≡ self.now.front }
        ensures base { IsBaseLine self.now }
    {
        self.front
    }

    /// The line's frame.
    pub(crate) fn frame(&self) -> &Frame
        ensures value { result.now ≡ self.now.frame }
        ensures base { IsBaseLine self.now }
    {
        &self.frame
    }

    /// The line's number.
    pub(crate) fn line(&self) -> u64
        ensures { result ≡ self.now.line.0 }
    {
        self.line
    }

    /// The start of the line.
    pub(crate) fn from(&self) -> u64
        ensures { result ≡ self.now.line.1 }
    {
        self.from
    }

    /// The end of the line.
    pub(crate) fn to(&self) -> u64
        ensures { result ≡ self.now.line.2 }
    {
        self.to
    }

    /// The class.
    pub(crate) fn class(&self) -> u32
        ensures { result ≡ self.now.class }
    {
        self.class
    }

    /// Whether the search notes why assignments fail.
    pub(crate) fn is_noting(&self) -> bool
        ensures { result ≡ self.now.noting }
    {
        self.noting
    }

    /// The near points.
    pub(crate) fn near(&self) -> &[NearPoint]
        ensures value { result.now ≡ self.now.near }
        ensures base { IsBaseLine self.now }
    {
        self.around.near.as_slice()
    }

    /// The front lines that begin at near points.
    pub(crate) fn lines(&self) -> &[(u64, u64)]
        ensures { result.now ≡ self.now.lines }
    {
        self.around.lines.as_slice()
    }

    /// The places of near points.
    pub(crate) fn places(&self, alloc: Global, chosen: &[usize]) -> FewPoints
        requires { length chosen.now ≤ 16 }
        ensures { result ≡ map (λ k. (near_at self.now.near k).at) chosen.now }
    {
        let near = self.near();
        let mut places = FewPoints::new(alloc);
        for k in chosen {
            places.push(point_near(near, *k).at);
        }
        places
    }

    /// The numbers of near points.
    pub(crate) fn numbers(&self, alloc: Global, chosen: &[usize]) -> Assignment
        requires { length chosen.now ≤ 16 }
        ensures { result ≡ numbers_at self.now.near chosen.now }
    {
        let near = self.near();
        let mut numbers = Assignment::new(alloc);
        for k in chosen {
            numbers.push(point_near(near, *k).number);
        }
        numbers
    }
}
