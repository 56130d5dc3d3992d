// The tree: its entries, room for more, and the walks.
ghost use Rattle.std.specs.Prelude.{◌≡◌, ◌≤◌, ◌+◌, [], ◌++◌, length, take, filter, OnOk, OnErr, IfOk, OnSome, IfNone};
ghost use Rattle.std.specs.List.{find};
ghost use Rattle.std.specs.Option.{option_map};
ghost use Rattle.digital_tree.specs.Entries.{has_key, held, is_hit, first_in_walk, next_in_walk};
ghost use Rattle.digital_tree.specs.Entries.{AreDifferent, IsInserted, IsRemoved, IsAbsent};

use super::digits::Digits;
use super::part::{Part, Spot};
use super::pool::Pool;
use super::{Entry, Key};
use grid_geom::Bounds;
use slab::Slab;
use std::alloc::{AllocError as OutOfMemory, Global};
use std::marker::Model;

/// Boxes with values, seen as the list of the entries in the order of the tree's walk, and as the
/// number of entries that may still be put in without memory.
///
/// The entries are the leaves of a binary tree whose nodes hold the least box around theirs or a
/// larger one. Where two entries' digits differ first, a node parts them, so that a walk over the
/// boxes that meet a small one, an insertion and a removal each cost about the tree's height.
#[derive(Drop)]
pub struct Tree<V> {
    alloc: Global,
    root: Part<V>,
    kept: Slab<(Bounds, V)>,
    pool: Pool<V>,
}

impl<V> Model for Tree<V> {
    ghost use Rattle.std.specs.Prelude.{◌-◌, min};
    ghost use Rattle.slab.specs.Slab.{slab_len};
    ghost use Rattle.digital_tree.specs.Entries.{TreeState};
    ghost use Rattle.digital_tree.specs.Kept.{AreKept};

    ghost Value = { TreeState V };

    ghost view = { λ a. record {
      entries = a.root;
      spare = min a.pool (a.kept.capacity - slab_len a.kept);
    } };

    ghost invariant = { λ a. AreKept a.root a.kept };
}

impl<V: Copy> Tree<V> {
    /// The tree without entries. Takes no memory.
    pub fn new(alloc: Global) -> Tree<V>
        ensures { result ≡ record { entries = []; spare = 0 } }
    {
        Tree {
            alloc,
            root: Part::new(),
            kept: Slab::new(alloc),
            pool: Pool::new(alloc),
        }
    }

    /// Puts in a box with a value, and tells its key. Without memory the entries are as before.
    pub fn insert(&mut self, b: Bounds, v: V) -> Result<Key, OutOfMemory>
        ensures free { IfOk result (λ k. IsAbsent k self.old.entries) }
        ensures inserted { IfOk result (λ k. IsInserted
            (record { key = k; bounds = b; value = v }) self.old.entries self.new.entries) }
        ensures same { OnErr result (self.new.entries ≡ self.old.entries) }
        ensures spare { self.old.spare ≤ self.new.spare + 1 }
    {
        self.reserve(1)?;
        Ok(self.insert_reserved(b, v))
    }

    /// Takes memory for `n` more entries. Whatever it answers, the entries are as before.
    pub fn reserve(&mut self, n: usize) -> Result<(), OutOfMemory>
        ensures room { OnOk result (n ≤ self.new.spare) }
        ensures same { self.new.entries ≡ self.old.entries }
        ensures spare { self.old.spare ≤ self.new.spare }
    {
        self.kept.reserve(n)?;
        self.pool.reserve(self.alloc, n)
    }

    /// Puts in a box with a value, and tells its key. Takes no memory.
    pub fn insert_reserved(&mut self, b: Bounds, v: V) -> Key
        requires { 1 ≤ self.old.spare }
        ensures free { IsAbsent result self.old.entries }
        ensures inserted { IsInserted
            (record { key = result; bounds = b; value = v }) self.old.entries self.new.entries }
        ensures spare { self.old.spare ≤ self.new.spare + 1 }
    {
        let fork = self.pool.take().unwrap();
        let key = Key {
            slot: self.kept.insert_reserved((b, v)),
        };
        let digits = Digits::of(key, &b);
        let place = digits.first_difference(&self.root.alike(&digits));
        let entry = Entry {
            key,
            bounds: b,
            value: v,
        };
        self.root.insert(entry, &digits, place, fork);
        key
    }

    /// Takes out an entry, and tells its box and its value. None where the key isn't there. Takes
    /// no memory.
    pub fn remove(&mut self, k: Key) -> Option<(Bounds, V)>
        ensures value { result ≡ option_map held (find (has_key k) self.old.entries) }
        ensures removed { OnSome result (IsRemoved k self.old.entries self.new.entries) }
        ensures absent { IfNone result (self.new.entries ≡ self.old.entries) }
        ensures spare { self.old.spare ≤ self.new.spare }
    {
        match self.kept.try_remove(k.slot) {
            None => None,
            Some(held) => {
                let spot = Spot {
                    key: k,
                    bounds: held.0,
                };
                let _was_here = self.root.remove(&spot, &mut self.pool);
                Some(held)
            }
        }
    }

    /// The key of the first entry of the walk whose box meets `b`. Takes no memory.
    pub fn first_hit(&self, b: &Bounds) -> Option<Key>
        ensures { result ≡ first_in_walk b.now self.now.entries }
    {
        self.root.first_hit(b)
    }

    /// The key of the first entry after that with key `after` whose box meets `b`. None where no
    /// entry has the key `after`. Takes no memory.
    pub fn next_hit(&self, b: &Bounds, after: Key) -> Option<Key>
        ensures { result ≡ next_in_walk b.now after self.now.entries }
    {
        match self.kept.get(after.slot) {
            None => None,
            Some((bounds, _)) => {
                let spot = Spot {
                    key: after,
                    bounds: *bounds,
                };
                self.root.next_hit(b, &spot).flatten()
            }
        }
    }

    /// Appends the entries whose boxes meet `b`, in the order of the walk: a walk all at once, which
    /// costs less than one hit after another. Without memory only some of them are appended.
    pub fn push_hits(&self, b: &Bounds, hits: &mut Vec<Entry<V>>) -> Result<(), OutOfMemory>
        ensures begins { take (length hits.old.items) hits.new.items ≡ hits.old.items }
        ensures all { OnOk result
            (hits.new.items ≡ hits.old.items ++ filter (is_hit b.now) self.now.entries) }
    {
        self.root.push_hits(b, hits)
    }

    /// The box and the value of the entry with this key. Takes no memory.
    pub fn get(&self, k: Key) -> Option<(Bounds, V)>
        ensures value { result ≡ option_map held (find (has_key k) self.now.entries) }
        ensures different { AreDifferent self.now.entries }
    {
        self.kept.get(k.slot).copied()
    }
}
