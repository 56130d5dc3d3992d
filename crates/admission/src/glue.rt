// Sides glued to a list of lines.
ghost use Rattle.std.specs.Prelude.{◌≡◌, ◌+◌, ◌^◌, ◌<◌, ◌≤◌, IfOk, OnOk, position};
ghost use Rattle.admission.specs.Around.{glue_drawn, next_drawn, is_along, glue_shape, next_shape, side_between};

use crate::shapes::Shape;
use crate::triangle::Line;
use grid_geom::Point;
use std::alloc::AllocError as OutOfMemory;

/// The place in the list of the line that goes the way of the side.
fn place_of(lines: &[Line], side: &Line) -> Option<usize>
    ensures { result ≡ position (is_along side.now) lines.now }
{
    lines
        .iter()
        .position(|line| line.from == side.from && line.to == side.to)
}

/// Glues a side: the line that goes its way leaves, or else a line joins from its end to its start,
/// with the next number. The next number after that is answered.
fn glue_side(lines: &mut Vec<Line>, next: u64, side: &Line) -> Result<u64, OutOfMemory>
    requires { next + 1 < 2 ^ 64 }
    ensures lines { OnOk result (lines.new.items ≡ glue_drawn lines.old.items next side.now) }
    ensures next { IfOk result (λ n. n ≡ next_drawn lines.old.items next side.now) }
    ensures small { IfOk result (λ n. n ≤ next + 1) }
{
    match place_of(lines, side) {
        Some(i) => {
            lines.remove(i);
            Ok(next)
        }
        None => {
            lines.push(Line {
                number: next,
                from: side.to,
                to: side.from,
                a: side.b,
                b: side.a,
            })?;
            Ok(next + 1)
        }
    }
}

/// The side between two corners.
fn side(i: u64, a: Point, j: u64, b: Point) -> Line
    ensures { result ≡ side_between i a j b }
{
    Line {
        number: 0,
        from: i,
        to: j,
        a,
        b,
    }
}

/// Glues the sides of an element in order. The next number after that is answered.
///
/// Errors: want of memory, and then the first sides may be glued and the others not.
pub fn glue_sides(lines: &mut Vec<Line>, next: u64, shape: &Shape) -> Result<u64, OutOfMemory>
    requires { next + 3 < 2 ^ 64 }
    ensures lines { OnOk result (lines.new.items ≡ glue_shape lines.old.items next shape.now) }
    ensures next { IfOk result (λ n. n ≡ next_shape lines.old.items next shape.now) }
{
    let t = shape.t;
    let second = glue_side(lines, next, &side(shape.i, t.a, shape.j, t.b))?;
    let third = glue_side(lines, second, &side(shape.j, t.b, shape.k, t.c))?;
    let after = glue_side(lines, third, &side(shape.k, t.c, shape.i, t.a))?;
    Ok(after)
}
