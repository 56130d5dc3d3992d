// Sources in a tree that divides by the bits of their coordinates.
ghost use Rattle.std.specs.Prelude.{◌≡◌, ◌≤◌, ◌∷◌, [], ◌↔◌, IsTrue, OnOk, OnErr};
ghost use Rattle.grid_geom.specs.Bounds.{IsOnGrid};
ghost use Rattle.size_field.specs.Size.{least_size};
ghost use Rattle.size_field.specs.Tree.{sources_of, IsAdded, IsSoundBranch};

use super::MOST_GRADING;
use super::boxes::{extended, nearest};
use super::query::{Query, Way};
use geom_check::Source;
use grid_geom::{Bounds, LONGEST, Point};
use std::alloc::{AllocError as OutOfMemory, Global};
use std::marker::Model;

/// Sources, seen as their list.
#[cycle(tree)]
#[derive(Drop)]
pub struct Tree {
    root: Option<Box<Branch>>,
}

/// A source, and the sources below it on two sides. The box holds all of them, and none has a size
/// below the least.
#[cycle(tree)]
#[derive(Drop)]
struct Branch {
    here: Source,
    bounds: Bounds,
    least: u64,
    low: Tree,
    high: Tree,
}

impl Model for Tree {
    ghost use Rattle.std.specs.Prelude.{List, length};
    ghost use Rattle.geom_check.specs.declared.kinds.Source.{Source as SourceValue};

    ghost Value = { List SourceValue };

    ghost use Rattle.size_field.specs.Tree.{sources_in, IsSound};

    ghost view = { λ a. sources_in a.root };

    ghost invariant = { λ a. IsSound a.root };

    ghost size = { length };

    ghost use Rattle.std.proofs.Common.{arith, length-append};

    ghost size_decreases = { λ a h. Prim.grind (arith, length-append) };
}

impl Tree {
    /// The tree without sources. Takes no memory.
    pub fn new() -> Tree
        ensures { result ≡ [] }
    {
        Tree { root: None }
    }

    /// The least of `found` and of the sizes that the sources leave at a point, to which `way` goes.
    pub fn least(&self, query: &Query, way: Way, found: u64) -> u64
        requires at { IsOnGrid query.now.at }
        requires grading { query.now.grading ≤ MOST_GRADING }
        ensures { result ≡ least_size query.now.grading query.now.at found self.now }
    {
        match &self.root {
            None => found,
            Some(branch) => {
                let bound = query.size(&Source {
                    at: nearest(&branch.bounds, &query.at),
                    h: branch.least,
                });
                if found <= bound {
                    return found;
                }
                let here = found.min(query.size(&branch.here));
                if way.is_high() {
                    let near = branch.high.least(query, way.rest(), here);
                    branch.low.least(query, way.rest(), near)
                } else {
                    let near = branch.low.least(query, way.rest(), here);
                    branch.high.least(query, way.rest(), near)
                }
            }
        }
    }

    /// Adds a source, to which `way` goes. Of two sources at one place only the lesser size counts.
    pub fn insert(&mut self, alloc: Global, source: Source, way: Way) -> Result<(), OutOfMemory>
        requires on_grid { IsOnGrid source.at }
        requires small { source.h ≤ LONGEST }
        ensures added { OnOk result (IsAdded source self.old self.new) }
        ensures same { OnErr result (self.new ≡ self.old) }
    {
        match &mut self.root {
            None => {
                self.root = Some(Box::new(alloc, Branch::of(source))?);
            }
            Some(branch) => {
                if is_one(&branch.here.at, &source.at) {
                    branch.here.h = branch.here.h.min(source.h);
                } else if way.is_high() {
                    branch.high.insert(alloc, source, way.rest())?;
                } else {
                    branch.low.insert(alloc, source, way.rest())?;
                }
                branch.bounds = extended(&branch.bounds, &source.at);
                branch.least = branch.least.min(source.h);
            }
        }
        Ok(())
    }
}

/// Whether two points are one.
fn is_one(a: &Point, b: &Point) -> bool
    ensures { IsTrue result ↔ (a.now ≡ b.now) }
{
    a == b
}

impl Branch {
    /// The branch of one source.
    fn of(source: Source) -> Branch
        requires on_grid { IsOnGrid source.at }
        requires small { source.h ≤ LONGEST }
        ensures sources { sources_of result ≡ source ∷ [] }
        ensures sound { IsSoundBranch result }
    {
        Branch {
            here: source,
            bounds: Bounds {
                lo: source.at,
                hi: source.at,
            },
            least: source.h,
            low: Tree::new(),
            high: Tree::new(),
        }
    }
}
