// A part of a tree: a box, and below it the entries whose boxes lie in it.
ghost use Rattle.std.specs.Prelude.{◌≡◌, ◌≤◌, ◌∷◌, ◌++◌, [], ◌↔◌, IsTrue, OnOk, true, false, length, take, filter};
ghost use Rattle.digital_tree.specs.Entries.{is_hit, first_in_walk, next_in, IsInserted, IsRemoved, IsAbsent, IsSpot};
ghost use Rattle.digital_tree.specs.Part.{IsSoundFork};

use super::boxes::{is_within, union};
use super::digits::Digits;
use super::pool::Pool;
use super::{Entry, Key};
use grid_geom::{Bounds, Point, meet};
use std::alloc::AllocError as OutOfMemory;
use std::marker::Model;
use std::mem;

/// Where an entry stands: its key and its box.
#[derive(Clone, Copy)]
pub struct Spot {
    pub key: Key,
    pub bounds: Bounds,
}

/// Entries in a box, seen as their list.
#[cycle(part)]
#[derive(Drop)]
pub struct Part<V> {
    bounds: Bounds,
    below: Below<V>,
}

/// Nothing, one entry whose box is that of the part, or two parts.
#[cycle(part)]
#[derive(Drop)]
enum Below<V> {
    Nothing,
    One(Key, V),
    Two(Box<Fork<V>>),
}

/// Two parts that differ first at a place of their digits: `low` has the digit 0 there.
#[cycle(part)]
#[derive(Drop)]
pub struct Fork<V> {
    place: u32,
    low: Part<V>,
    high: Part<V>,
}

impl<V> Model for Part<V> {
    ghost use Rattle.std.specs.Prelude.{List, length};
    ghost use Rattle.digital_tree.specs.declared.Entry.{Entry as EntryValue};

    ghost Value = { List (EntryValue V) };

    ghost use Rattle.digital_tree.specs.Part.{entries_in, IsSound};

    ghost view = { λ a. entries_in a.bounds a.below };

    ghost invariant = { λ a. IsSound a.bounds a.below };

    ghost size = { length };

    ghost use Rattle.digital_tree.specs.Falls.{depth_le-length};

    ghost size_decreases = { λ a h. depth_le-length a.bounds a.below h };
}

impl<V: Copy> Fork<V> {
    /// A fork without entries.
    pub fn blank() -> Fork<V> {
        Fork {
            place: 0,
            low: Part::new(),
            high: Part::new(),
        }
    }
}

impl<V: Copy> Part<V> {
    /// The part without entries.
    pub fn new() -> Part<V>
        ensures { result ≡ [] }
    {
        let corner = Point { x: 0, y: 0 };
        Part {
            bounds: Bounds {
                lo: corner,
                hi: corner,
            },
            below: Below::Nothing,
        }
    }

    /// The part of one entry.
    fn of(entry: Entry<V>) -> Part<V>
        ensures { result ≡ entry ∷ [] }
    {
        Part {
            bounds: entry.bounds,
            below: Below::One(entry.key, entry.value),
        }
    }

    /// Whether there are no entries.
    fn is_empty(&self) -> bool
        ensures { IsTrue result ↔ (self.now ≡ []) }
    {
        match &self.below {
            Below::Nothing => true,
            Below::One(_, _) => false,
            Below::Two(_) => false,
        }
    }

    /// The key of the first entry whose box meets `b`.
    pub fn first_hit(&self, b: &Bounds) -> Option<Key>
        ensures { result ≡ first_in_walk b.now self.now }
    {
        if !meet(&self.bounds, b) {
            return None;
        }
        match &self.below {
            Below::Nothing => None,
            Below::One(key, _) => Some(*key),
            Below::Two(fork) => match fork.low.first_hit(b) {
                Some(key) => Some(key),
                None => fork.high.first_hit(b),
            },
        }
    }

    /// Appends the entries whose boxes meet `b`.
    pub fn push_hits(&self, b: &Bounds, hits: &mut Vec<Entry<V>>) -> Result<(), OutOfMemory>
        ensures begins { take (length hits.old.items) hits.new.items ≡ hits.old.items }
        ensures all { OnOk result
            (hits.new.items ≡ hits.old.items ++ filter (is_hit b.now) self.now) }
    {
        if !meet(&self.bounds, b) {
            return Ok(());
        }
        match &self.below {
            Below::Nothing => Ok(()),
            Below::One(key, value) => {
                hits.push(Entry {
                    key: *key,
                    bounds: self.bounds,
                    value: *value,
                })?;
                Ok(())
            }
            Below::Two(fork) => {
                fork.low.push_hits(b, hits)?;
                fork.high.push_hits(b, hits)?;
                Ok(())
            }
        }
    }

    /// None where the spot's entry isn't here, else the key of the first entry after it whose box
    /// meets `b`.
    pub fn next_hit(&self, b: &Bounds, spot: &Spot) -> Option<Option<Key>>
        ensures { IsSpot spot.now.key spot.now.bounds self.now →
            result ≡ next_in b.now spot.now.key self.now }
    {
        if !is_within(&spot.bounds, &self.bounds) {
            return None;
        }
        match &self.below {
            Below::Nothing => None,
            Below::One(key, _) => { if *key == spot.key { Some(None) } else { None } }
            Below::Two(fork) => match fork.low.next_hit(b, spot) {
                None => fork.high.next_hit(b, spot),
                Some(Some(key)) => Some(Some(key)),
                Some(None) => Some(fork.high.first_hit(b)),
            },
        }
    }

    /// The digits of an entry to which the digits of a new one lead.
    pub fn alike(&self, digits: &Digits) -> Digits {
        match &self.below {
            Below::Nothing => *digits,
            Below::One(key, _) => Digits::of(*key, &self.bounds),
            Below::Two(fork) => {
                if digits.is_high(fork.place) {
                    fork.high.alike(digits)
                } else {
                    fork.low.alike(digits)
                }
            }
        }
    }

    /// Puts in an entry, whose digits differ first at `place` from those of the entries that they
    /// lead to. Takes no memory but the given fork.
    pub fn insert(&mut self, entry: Entry<V>, digits: &Digits, place: u32, fork: Box<Fork<V>>)
        ensures { IsInserted entry self.old self.new }
    {
        match &mut self.below {
            Below::Nothing => {
                *self = Part::of(entry);
            }
            Below::Two(here) if here.place <= place => {
                self.bounds = union(&self.bounds, &entry.bounds);
                if digits.is_high(here.place) {
                    here.high.insert(entry, digits, place, fork);
                } else {
                    here.low.insert(entry, digits, place, fork);
                }
            }
            _ => self.split(entry, digits, place, fork),
        }
    }

    /// Makes a fork of the part and of an entry.
    fn split(&mut self, entry: Entry<V>, digits: &Digits, place: u32, fork: Box<Fork<V>>)
        requires { 1 ≤ length self.old }
        ensures { IsInserted entry self.old self.new }
    {
        let bounds = union(&self.bounds, &entry.bounds);
        let old = mem::replace(self, Part::new());
        let new = Part::of(entry);
        let both = if digits.is_high(place) {
            Part::of_two(
                bounds,
                Fork {
                    place,
                    low: old,
                    high: new,
                },
                fork,
            )
        } else {
            Part::of_two(
                bounds,
                Fork {
                    place,
                    low: new,
                    high: old,
                },
                fork,
            )
        };
        *self = both;
    }

    /// The part of two sides, which go where the given fork was.
    fn of_two(bounds: Bounds, sides: Fork<V>, mut fork: Box<Fork<V>>) -> Part<V>
        requires { IsSoundFork bounds sides }
        ensures { result ≡ sides.low ++ sides.high }
    {
        *fork = sides;
        Part {
            bounds,
            below: Below::Two(fork),
        }
    }

    /// Takes out the spot's entry, and tells whether it was there. A fork that is no longer needed
    /// goes to the pool.
    pub fn remove(&mut self, spot: &Spot, pool: &mut Pool<V>) -> bool
        ensures removed { result ≡ true → IsRemoved spot.now.key self.old self.new }
        ensures absent { result ≡ false → IsSpot spot.now.key spot.now.bounds self.old →
            IsAbsent spot.now.key self.old }
        ensures same { result ≡ false → self.new ≡ self.old }
        ensures pool { pool.old ≤ pool.new }
    {
        if !is_within(&spot.bounds, &self.bounds) {
            return false;
        }
        match mem::replace(&mut self.below, Below::Nothing) {
            Below::Nothing => false,
            Below::One(key, value) => {
                let is_it = key == spot.key;
                if !is_it {
                    self.below = Below::One(key, value);
                }
                is_it
            }
            Below::Two(mut fork) => {
                let was_here = fork.low.remove(spot, pool) || fork.high.remove(spot, pool);
                if fork.low.is_empty() {
                    *self = mem::replace(&mut fork.high, Part::new());
                    pool.give(fork);
                } else if fork.high.is_empty() {
                    *self = mem::replace(&mut fork.low, Part::new());
                    pool.give(fork);
                } else {
                    self.below = Below::Two(fork);
                }
                was_here
            }
        }
    }
}
