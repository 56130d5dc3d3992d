// The sizes of a domain.
ghost use Rattle.std.specs.Prelude.{◌≡◌, ◌≤◌, ℕ, [], ◌∷◌, ◌++◌, OnOk, OnErr};
ghost use Rattle.grid_geom.specs.Bounds.{IsOnGrid};
ghost use Rattle.grid_geom.specs.declared.Point.{Point as AnyPoint};
ghost use Rattle.geom_check.specs.Geometry.{IsSource};
ghost use Rattle.size_field.specs.Size.{least_size, size_at, AreLimits};

use super::query::{Query, Way};
use super::tree::Tree;
use geom_check::Source;
use grid_geom::{LONGEST, Point};
use std::alloc::{AllocError as OutOfMemory, Global};
use std::marker::Model;

/// How long edges may be at the points of a domain: a greatest size, and sources from which sizes
/// grow with the distance. Seen as the greatest size, the grading and the list of the sources.
///
/// The sources stand in a tree of boxes too, but for those at the greatest size or above, which have
/// no effect: to ask for a size takes about a logarithm of their number.
#[derive(Drop)]
pub struct Sizes {
    alloc: Global,
    greatest: u64,
    grading: u32,
    sources: Vec<Source>,
    tree: Tree,
}

impl Model for Sizes {
    ghost use Rattle.size_field.specs.Size.{SizeField};

    ghost Value = { SizeField };

    ghost use Rattle.size_field.specs.Kept.{AreKept};

    ghost view = { λ a. record { greatest = a.greatest; grading = a.grading; sources = a.sources.items } };

    ghost invariant = { λ a. AreKept
        (record { greatest = a.greatest; grading = a.grading; sources = a.sources.items }) a.tree };
}

impl Sizes {
    /// The sizes without a source: everywhere the greatest size. `grading` is by how many thousandths
    /// of the distance sizes grow. Takes no memory.
    pub fn new(alloc: Global, greatest: u64, grading: u32) -> Sizes
        requires { AreLimits greatest grading }
        ensures { result ≡ record { greatest = greatest; grading = grading; sources = [] } }
    {
        Sizes {
            alloc,
            greatest,
            grading,
            sources: Vec::new(alloc),
            tree: Tree::new(),
        }
    }

    /// Adds a source at the end of the list.
    pub fn add(&mut self, source: Source) -> Result<(), OutOfMemory>
        requires { IsSource source }
        ensures added { OnOk result
            (self.new ≡ record self.old { sources = self.old.sources ++ source ∷ [] }) }
        ensures same { OnErr result (self.new ≡ self.old) }
    {
        self.sources.reserve(1)?;
        insert_below(&mut self.tree, self.alloc, self.greatest, source)?;
        self.sources.push_reserved(source);
        Ok(())
    }

    /// The size at a point: the least of the greatest size and of what the sources leave there.
    /// Takes no memory.
    pub fn at(&self, at: Point) -> u64
        requires { IsOnGrid at }
        ensures size { result ≡ size_at self.now at }
        ensures least { 1 ≤ result }
        ensures most { result ≤ self.now.greatest }
        ensures small { result ≤ LONGEST }
    {
        let query = Query {
            at,
            grading: self.grading,
        };
        self.tree.least(&query, Way::to(&at), self.greatest)
    }

    /// The least of a length, which is at most the greatest size, and of what the sources leave at a
    /// point. Takes no memory.
    pub(crate) fn below(&self, at: &Point, length: u64) -> u64
        requires at { IsOnGrid at.now }
        requires length { length ≤ self.now.greatest }
        ensures { result ≡ least_size self.now.grading at.now length self.now.sources }
    {
        let query = Query {
            at: *at,
            grading: self.grading,
        };
        self.tree.least(&query, Way::to(at), length)
    }
}

/// Adds a source to a tree, unless its size is the greatest or above.
fn insert_below(
    tree: &mut Tree,
    alloc: Global,
    greatest: u64,
    source: Source,
) -> Result<(), OutOfMemory>
    requires { IsSource source }
    ensures added { OnOk result
        ((grading : ℕ) (q : AnyPoint) →
        least_size grading q greatest tree.new
        ≡ least_size grading q greatest (source ∷ tree.old)) }
    ensures same { OnErr result (tree.new ≡ tree.old) }
{
    if source.h < greatest {
        tree.insert(alloc, source, Way::to(&source.at))
    } else {
        Ok(())
    }
}
