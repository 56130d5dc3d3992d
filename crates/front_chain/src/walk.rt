// The walk over a front's lines: their boxes in a tree, and the key of each line's box by the line's number.
ghost use Rattle.std.specs.Prelude.{◌≡◌, ◌+◌, ◌≤◌, false, true, [], map, filter, IfOk, OnOk};
ghost use Rattle.std.specs.List.{find, list_any, after_first};
ghost use Rattle.std.specs.Option.{option_map};
ghost use Rattle.digital_tree.specs.Entries.{has_key, is_hit};
ghost use Rattle.front_chain.specs.Boxes.{line_of, has_line, IsEntered, IsLeft};

use digital_tree::{Key, Tree};
use grid_geom::Bounds;
use indexmap::IndexMap;
use std::alloc::{AllocError as OutOfMemory, Global};
use std::marker::Model;

/// Lines by their numbers, each with its box, in the order of the tree.
#[derive(Drop)]
pub struct Walk {
    tree: Tree<u64>,
    // under which key of the tree the box of the line with a number stands
    keys: IndexMap<u64, Key>,
}

impl Model for Walk {
    ghost use Rattle.std.specs.Prelude.{ℕ, min, nat_eq};
    ghost use Rattle.indexmap.specs.IndexMap.{get, spare as room_of_map, IsUnique};
    ghost use Rattle.digital_tree.specs.Entries.{TreeState};
    ghost use Rattle.front_chain.specs.Boxes.{AreKeyed};

    ghost Value = { TreeState ℕ };

    ghost view = { λ w. record {
      entries = w.tree.entries;
      spare = min w.tree.spare (room_of_map w.keys);
    } };

    ghost invariant = { λ w. AreKeyed (λ n. get nat_eq w.keys n) w.tree.entries ×
        IsUnique nat_eq w.keys };
}

impl Walk {
    /// No line.
    pub fn new(alloc: Global) -> Walk
        ensures { result.entries ≡ [] }
    {
        Walk {
            tree: Tree::new(alloc),
            keys: IndexMap::new(alloc),
        }
    }

    /// Takes memory for so many more lines.
    pub fn reserve(&mut self, lines: usize) -> Result<(), OutOfMemory>
        ensures same { self.new.entries ≡ self.old.entries }
        ensures room { OnOk result (lines ≤ self.new.spare) }
        ensures spare { self.old.spare ≤ self.new.spare }
    {
        self.tree.reserve(lines)?;
        self.keys.reserve(lines)
    }

    /// The line with this number and this box joins.
    pub fn enter(&mut self, line: u64, bounds: Bounds)
        requires room { 1 ≤ self.old.spare }
        requires absent { list_any (has_line line) self.old.entries ≡ false }
        ensures entered { IsEntered line bounds self.old.entries self.new.entries }
        ensures spare { self.old.spare ≤ self.new.spare + 1 }
    {
        let key = self.tree.insert_reserved(bounds, line);
        self.keys.insert(line, key).unwrap();
    }

    /// The line with this number leaves.
    pub fn leave(&mut self, line: u64)
        requires there { list_any (has_line line) self.old.entries ≡ true }
        ensures left { IsLeft line self.old.entries self.new.entries }
        ensures spare { self.old.spare ≤ self.new.spare }
    {
        let key = self.keys.swap_remove(&line).unwrap();
        self.tree.remove(key).unwrap();
    }

    /// The line whose box stands under this key.
    fn line_at(&self, key: Key) -> Option<u64>
        ensures { result ≡ option_map line_of (find (has_key key) self.now.entries) }
    {
        match self.tree.get(key) {
            None => None,
            Some((_, line)) => Some(line),
        }
    }

    /// The first line whose box meets `b`.
    pub fn first(&self, b: &Bounds) -> Option<u64>
        ensures { result ≡ option_map line_of (find (is_hit b.now) self.now.entries) }
    {
        match self.tree.first_hit(b) {
            None => None,
            Some(key) => self.line_at(key),
        }
    }

    /// The lines whose boxes meet `b`, in the order of the tree.
    pub fn hits(&self, alloc: Global, b: &Bounds) -> Result<Vec<u64>, OutOfMemory>
        ensures { IfOk result
            (λ v. v.items ≡ map line_of (filter (is_hit b.now) self.now.entries)) }
    {
        let mut hits = Vec::new(alloc);
        self.tree.push_hits(b, &mut hits)?;
        hits.iter().map(|hit| hit.value).collect(alloc)
    }

    /// The first line after the one with number `after` whose box meets `b`.
    pub fn next(&self, b: &Bounds, after: u64) -> Option<u64>
        requires { list_any (has_line after) self.now.entries ≡ true }
        ensures { result ≡ option_map line_of
            (find (is_hit b.now) (after_first (has_line after) self.now.entries)) }
    {
        let here = self.keys.get(&after).unwrap();
        match self.tree.next_hit(b, *here) {
            None => None,
            Some(key) => self.line_at(key),
        }
    }
}
