//! Rules made fit for use.

ghost use Rattle.std.specs.Prelude.{◌≡◌, ◌≤◌, ◌-◌, length, IfOk, IfSome, IfNone, IsNone, None, Option};
ghost use Rattle.std.specs.List.{All};
ghost use Rattle.grid_geom.specs.Bounds.{IsOnGrid};
ghost use Rattle.rule_reader.specs.Normal.{IsRule};
ghost use Rattle.rule_maps.specs.Frame.{IsInRange};
ghost use Rattle.rule_maps.specs.Places.{mapping, new_point, corner};
ghost use Rattle.rule_maps.specs.Inert.{IsLive, HasState};
ghost use Rattle.rule_maps.specs.Reach.{IsLeeway, IsReachBy, IsReachOf};

use crate::frame::Frame;
use crate::inert::{Inert, state_of};
use crate::placing::put;
use crate::reach::{Leeway, reach_from, reach_of};
use crate::sums::{PlaceConstants, all_constants, mixed, numerators};
use grid_geom::Point;
use rule_reader::Rule;
use std::alloc::{AllocError as OutOfMemory, Global};
use std::marker::Model;

/// A rule with what doesn't depend on a frame, on mapped points or on a class worked out. It is seen as
/// its rule.
#[derive(Debug, Drop)]
pub struct Compiled<'a> {
    rule: &'a Rule,
    new_points: Vec<PlaceConstants>,
    area: Vec<PlaceConstants>,
    limit: Vec<PlaceConstants>,
    inert: Option<Inert>,
    reach: u64,
}

impl<'a> Model for Compiled<'a> {
    ghost use Rattle.rule_reader.specs.declared.rule.Rule.{Rule as RuleText};
    ghost use Rattle.rule_maps.specs.Compiled.{IsCompiled};

    ghost Value = { RuleText };

    ghost view = { λ c. c.rule.now };

    ghost invariant = { λ c. IsCompiled c.rule.now
        (record {
          new_points = c.new_points.items;
          area = c.area.items;
          limit = c.limit.items;
          inert = c.inert;
          reach = c.reach;
        }) };
}

/// Makes a rule fit for use. It takes memory for a few numbers of each mapped point, new point and corner.
pub fn compile<'a>(alloc: Global, rule: &'a Rule) -> Result<Compiled<'a>, OutOfMemory>
    requires { IsRule rule.now }
    ensures { IfOk result (λ c. c ≡ rule.now) }
{
    let points = rule.points.as_slice();
    Ok(Compiled {
        rule,
        new_points: all_constants(alloc, rule.new_points.as_slice(), points)?,
        area: all_constants(alloc, rule.area.as_slice(), points)?,
        limit: all_constants(alloc, rule.limit.as_slice(), points)?,
        inert: state_of(alloc, rule)?,
        reach: reach_of(alloc, rule)?,
    })
}

impl<'a> Compiled<'a> {
    /// The rule.
    pub fn rule(&self) -> &Rule
        ensures value { result.now ≡ self.now }
        ensures rule { IsRule self.now }
    {
        self.rule
    }

    /// Why the rule never applies: the first reason that holds. None where it is live.
    pub fn inert(&self) -> Option<Inert>
        ensures { HasState self.now result }
    {
        self.inert
    }

    /// How far from its line the rule reaches: the least whole number that is at least 13 and no less than
    /// the absolute value of each local coordinate of its new points and corners, wherever the mapped
    /// points are in range.
    pub fn reach(&self) -> u64
        ensures { IsReachOf self.now result }
    {
        self.reach
    }

    /// How far it reaches where each of its mapped points is no farther from its place in the rule than its
    /// leeway: the least whole number that is at least 3 and no less than the absolute value of each local
    /// coordinate of its new points and corners there.
    pub fn reach_by(&self, leeways: &[Leeway]) -> u64
        requires count { length leeways.now ≡ length self.now.points }
        requires leeways { All IsLeeway leeways.now }
        ensures { IsReachBy leeways.now self.now result }
    {
        reach_from(3, self.rule, leeways)
    }

    /// The place of new point `k`, counted from 1, where it is on the grid.
    pub fn new_point(&self, k: usize, f: &Frame, mapped: &[Point]) -> Option<Point>
        requires first { 1 ≤ k }
        requires last { k ≤ length self.now.new_points }
        requires count { length mapped.now ≡ length self.now.points }
        requires range { All (IsInRange f.now) mapped.now }
        ensures placed { IfSome result (λ p. p ≡ new_point (mapping f.now self.now mapped.now) k) }
        ensures on { IfSome result IsOnGrid }
        ensures off { IfNone result (¬ IsOnGrid (new_point (mapping f.now self.now mapped.now) k)) }
    {
        let place = &self.rule.new_points.as_slice()[k - 1];
        put(f, &numerators(&self.new_points[k - 1], place, f, mapped), 1)
    }

    /// The place of corner `k` of the zone at a class, counted from 1, where it is on the grid.
    pub fn corner(&self, k: usize, f: &Frame, mapped: &[Point], class: u32) -> Option<Point>
        requires live { IsLive self.now }
        requires first { 1 ≤ k }
        requires last { k ≤ length self.now.area }
        requires count { length mapped.now ≡ length self.now.points }
        requires range { All (IsInRange f.now) mapped.now }
        requires class_least { 1 ≤ class }
        requires class_greatest { class ≤ 16 }
        ensures placed { IfSome result
            (λ p. p ≡ corner (mapping f.now self.now mapped.now) k class) }
        ensures on { IfSome result IsOnGrid }
        ensures off { IfNone result
            (¬ IsOnGrid (corner (mapping f.now self.now mapped.now) k class)) }
    {
        let place = &self.rule.area.as_slice()[k - 1];
        let wide = numerators(&self.area[k - 1], place, f, mapped);
        let limit = self.rule.limit.as_slice();
        if limit.is_empty() {
            return put(f, &wide, 1);
        }
        let narrow = numerators(&self.limit[k - 1], &limit[k - 1], f, mapped);
        put(f, &mixed(&wide, &narrow, class), 2 * class - 1)
    }
}
