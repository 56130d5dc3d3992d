//! Which boxes of a set meet a given box?
//!
//! 1. A tree is seen as the list of its entries, each a key, a box and a value, in the order of its
//!    walk. No two entries have one key.
//! 2. An insertion puts its entry at a place of the tree's choice. Insertions and removals keep the
//!    order of all other entries.
//! 3. Where it chooses, it goes by the digits of the boxes' coordinates: boxes that are near each other
//!    stand near each other in the walk (Bonet and Peraire 1991).
#![tactic(auto)]

mod boxes;
mod digits;
pub mod laws;
mod part;
mod pool;
mod tree;

use grid_geom::Bounds;
pub use std::alloc::AllocError as OutOfMemory;
pub use tree::Tree;

/// What an entry is called by as long as it is in its tree.
#[derive(Clone, Copy, Debug, PartialEq, Eq)]
pub struct Key {
    pub slot: usize,
}

/// A box that is kept under a key, and what belongs to it.
#[derive(Clone, Copy)]
pub struct Entry<V> {
    pub key: Key,
    pub bounds: Bounds,
    pub value: V,
}
