// Points numbered from 1 by first occurrence.
ghost use Rattle.std.specs.Prelude.{◌≡◌, ℕ, ◌+◌, ◌<◌, ◌≤◌, ◌^◌, [], length, IfOk, OnOk};
ghost use Rattle.mesh_run.specs.Numbering.{by_first_occurrence, ends_of, is_among, number_in, with_point};

use grid_geom::{Edge, Point};
use indexmap::IndexSet;
use std::alloc::{AllocError as OutOfMemory, Global};
use std::marker::Model;

/// Different points, each with its place in the list, counted from 1, as its number.
#[derive(Drop)]
pub struct Numbering {
    points: IndexSet<Point>,
}

impl Model for Numbering {
    ghost use Rattle.std.specs.Prelude.{List};
    ghost use Rattle.grid_geom.specs.declared.Point.{Point as GridPoint};

    ghost Value = { List GridPoint };

    ghost view = { λ n. n.points.keys };
}

impl Numbering {
    /// No point.
    pub fn new(alloc: Global) -> Numbering
        ensures { result ≡ [] }
    {
        Numbering {
            points: IndexSet::new(alloc),
        }
    }

    /// Lists the point, unless it is there.
    pub fn add(&mut self, point: Point) -> Result<(), OutOfMemory>
        ensures { OnOk result (self.new ≡ with_point self.old point) }
    {
        self.points.insert(point)?;
        Ok(())
    }

    /// The number of the point, or one past the last number where it isn't listed.
    pub fn number_of(&self, point: Point) -> u64
        ensures { result ≡ number_in self.now point }
    {
        let count = self.points.len();
        match self.points.get_index_of(&point) {
            Some(index) => index as u64 + 1,
            None => count as u64 + 1,
        }
    }

    /// Whether the point is listed.
    pub fn has(&self, point: Point) -> bool
        ensures { result ≡ is_among self.now point }
    {
        self.points.contains(&point)
    }

    /// How many points are listed.
    pub fn count(&self) -> usize
        ensures count { result ≡ length self.now }
        ensures small { result < 2 ^ 63 }
    {
        self.points.len()
    }

    /// The points by their numbers.
    pub fn points(&self, alloc: Global) -> Result<Vec<Point>, OutOfMemory>
        ensures { IfOk result (λ v. v.items ≡ self.now) }
    {
        self.points.as_slice().to_vec(alloc)
    }
}

/// The points by first occurrence.
pub fn numbering_of(alloc: Global, points: &[Point]) -> Result<Numbering, OutOfMemory>
    ensures { IfOk result (λ n. n ≡ by_first_occurrence points.now) }
{
    let mut numbering = Numbering::new(alloc);
    for point in points {
        numbering.add(*point)?;
    }
    Ok(numbering)
}

/// The ends of edges by first occurrence, start before end.
pub fn numbering_of_ends(alloc: Global, edges: &[Edge]) -> Result<Numbering, OutOfMemory>
    ensures { IfOk result (λ n. n ≡ by_first_occurrence (ends_of edges.now)) }
{
    let mut numbering = Numbering::new(alloc);
    for edge in edges {
        numbering.add(edge.a)?;
        numbering.add(edge.b)?;
    }
    Ok(numbering)
}
