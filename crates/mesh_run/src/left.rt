// What is left of a front when its run is over.
ghost use Rattle.std.specs.Prelude.{◌≡◌, ◌∷◌, Some, IfOk, is_some, true};
ghost use Rattle.front_chain.specs.Front.{line_at, number_above};
ghost use Rattle.admission.specs.Around.{ahead, IsThere};

use front_chain::Front;
use grid_geom::Point;
use std::alloc::{AllocError as OutOfMemory, Global};

/// The points of the front, by their numbers.
pub fn points_of(alloc: Global, front: &Front) -> Result<Vec<Point>, OutOfMemory>
    ensures { IfOk result (λ v. v.items ≡ front.now.points) }
{
    let count = front.points();
    let mut points = Vec::new(alloc);
    for index in 0..count {
        points.push(front.point(index + 1))?;
    }
    Ok(points)
}

/// The number of the first line, if there is one.
fn first_line(front: &Front) -> Option<u64>
    ensures all { ahead front.now.lines result ≡ front.now.lines }
    ensures there { IsThere front.now.lines result }
{
    let _lines = front.lines();
    front.next_line(0)
}

/// The number of the line after this one, if there is one.
fn line_after(front: &Front, line: u64) -> Option<u64>
    ensures value { result ≡ number_above front.now.lines line }
    ensures there { IsThere front.now.lines result }
{
    front.next_line(line)
}

/// The line with this number, with the numbers of its ends.
fn row_of(front: &Front, line: u64) -> (u64, u64, u64)
    requires { is_some (line_at front.now.lines line) ≡ true }
    ensures { ahead front.now.lines (Some line)
        ≡ result ∷ ahead front.now.lines (number_above front.now.lines line) }
{
    let _lines = front.lines();
    let (from, to) = front.line(line).unwrap();
    (line, from, to)
}

/// The lines of the front, by rising number.
pub fn rows_of(alloc: Global, front: &Front) -> Result<Vec<(u64, u64, u64)>, OutOfMemory>
    ensures { IfOk result (λ v. v.items ≡ front.now.lines) }
{
    let mut rows = Vec::new(alloc);
    let mut next = first_line(front);
    while let Some(line) = next {
        rows.push(row_of(front, line))?;
        next = line_after(front, line);
    }
    Ok(rows)
}
