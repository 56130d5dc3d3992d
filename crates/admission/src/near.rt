// The lines of a front: those near a box, and how often all of them wind round a point.
ghost use Rattle.std.specs.Prelude.{◌≡◌, ◌∷◌, All, Some, true, IfOk, is_some};
ghost use Rattle.grid_geom.specs.Bounds.{IsMeasured};
ghost use Rattle.grid_geom.specs.Winding.{wind};
ghost use Rattle.front_chain.specs.Front.{line_at, number_above, edges_of};
ghost use Rattle.admission.specs.Triangles.{IsLineOnGrid};
ghost use Rattle.admission.specs.Around.{drawn, drawn_at, numbers_of, ahead, IsThere, lines_near, numbers_near};

use crate::triangle::Line;
use front_chain::Front;
use grid_geom::{Bounds, Edge, RatPoint};
use std::alloc::{AllocError as OutOfMemory, Global};
use wind_law::crossing;

/// The number of the least line above a number, where there is one.
fn above(front: &Front, after: u64) -> Option<u64>
    ensures value { result ≡ number_above front.now.lines after }
    ensures there { IsThere front.now.lines result }
{
    front.next_line(after)
}

/// The number of the first line, where there is one.
fn first_of(front: &Front) -> Option<u64>
    ensures all { ahead front.now.lines result ≡ front.now.lines }
    ensures there { IsThere front.now.lines result }
{
    let _lines = front.lines();
    above(front, 0)
}

/// The front line with this number, with the places of its ends.
fn line_of(front: &Front, n: u64) -> Line
    requires { is_some (line_at front.now.lines n) ≡ true }
    ensures first { ahead front.now.lines (Some n) ≡
        numbers_of result ∷ ahead front.now.lines (number_above front.now.lines n) }
    ensures number { result.number ≡ n }
    ensures at { result ≡ drawn_at front.now n }
    ensures drawn { result ≡ drawn front.now.points (numbers_of result) }
    ensures on_grid { IsLineOnGrid result }
{
    let _points = front.points();
    let (from, to) = front.line(n).unwrap();
    Line {
        number: n,
        from,
        to,
        a: front.point(from),
        b: front.point(to),
    }
}

/// The numbers of the lines near a box, rising.
fn numbers_near(alloc: Global, front: &Front, near: &Bounds) -> Result<Vec<u64>, OutOfMemory>
    ensures value { IfOk result (λ v. v.items ≡ numbers_near near.now front.now) }
    ensures there { IfOk result (λ v.
        All (λ n. is_some (line_at front.now.lines n) ≡ true) v.items) }
{
    let _lines = front.lines();
    let mut numbers = front.near_lines(alloc, near)?;
    numbers.sort_unstable();
    Ok(numbers)
}

/// The lines of the front near a box, in order of making.
pub fn lines_near(alloc: Global, front: &Front, near: &Bounds) -> Result<Vec<Line>, OutOfMemory>
    ensures { IfOk result (λ v. v.items ≡ lines_near near.now front.now.points front.now.lines) }
{
    let _lines = front.lines();
    let numbers = numbers_near(alloc, front, near)?;
    let mut lines = Vec::with_capacity(alloc, numbers.len())?;
    for n in &numbers {
        lines.push(line_of(front, *n))?;
    }
    Ok(lines)
}

/// How often all lines of the front wind round q.
pub fn winding_of(front: &Front, q: &RatPoint) -> i128
    requires { IsMeasured q.now }
    ensures { result ≡ wind q.now (edges_of front.now) }
{
    let _count = front.lines();
    let mut sum = 0;
    let mut next = first_of(front);
    while let Some(n) = next {
        let line = line_of(front, n);
        sum += crossing(
            &Edge {
                a: line.a,
                b: line.b,
            },
            q,
        ) as i128;
        next = above(front, n);
    }
    sum
}
