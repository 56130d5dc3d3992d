// Whether a list of edges is closed.
ghost use Rattle.std.specs.Prelude.{◌≡◌, ◌↔◌, IfOk, IsTrue, map};
ghost use Rattle.grid_geom.specs.Closed.{IsClosed};

use super::{Edge, OutOfMemory};
use std::alloc::Global;

/// The places where the edges start, in their order.
fn start_places(alloc: Global, edges: &[Edge]) -> Result<Vec<(i64, i64)>, OutOfMemory>
    ensures { IfOk result (λ v. v.items ≡ map (λ e. (e.a.x, e.a.y)) edges.now) }
{
    edges.iter().map(|edge| (edge.a.x, edge.a.y)).collect(alloc)
}

/// The places where the edges end, in their order.
fn end_places(alloc: Global, edges: &[Edge]) -> Result<Vec<(i64, i64)>, OutOfMemory>
    ensures { IfOk result (λ v. v.items ≡ map (λ e. (e.b.x, e.b.y)) edges.now) }
{
    edges.iter().map(|edge| (edge.b.x, edge.b.y)).collect(alloc)
}

/// Whether at each point as many edges leave as arrive. Takes memory for the edges' ends and time for
/// sorting them, and fails only for want of memory.
pub fn closed(alloc: Global, edges: &[Edge]) -> Result<bool, OutOfMemory>
    ensures { IfOk result (λ closed. IsTrue closed ↔ IsClosed edges.now) }
{
    let mut starts = start_places(alloc, edges)?;
    let mut ends = end_places(alloc, edges)?;
    starts.sort_unstable();
    ends.sort_unstable();
    Ok(starts == ends)
}
