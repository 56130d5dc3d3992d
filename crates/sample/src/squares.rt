//! The generated geometry: n times n unit squares, each a domain.

ghost use Rattle.std.specs.Prelude.{◌≡◌, ◌+◌, ◌≤◌, IfOk, IfErr};
ghost use Rattle.geom_check.specs.Shift.{length_at};
ghost use Rattle.geom_check.specs.Geometry.{IsGeometryOf, IsLength};
ghost use Rattle.geom_check.specs.declared.refusal.GeomRefusal.TheVariants.{Memory as NoMemory};
ghost use Rattle.sample.specs.Squares.{point_number, square_number, above, below, west, east};
ghost use Rattle.sample.specs.Squares.{whole, point_row, across, up, in_rows, squares, part_length};

use geom_check::{GeomRefusal, Geometry, check};
use in2d_reader::{MaterialRows, PointRow, PointRows, RawGeometry, SegmentRow, SegmentRows};
use std::alloc::{AllocError as OutOfMemory, Global};
use word_scan::Dec;

/// A whole number as a decimal.
fn whole(n: u32) -> Dec
    ensures { result ≡ whole n }
{
    Dec {
        digits: n as i128,
        scale: 0,
    }
}

/// The number of the point in column i of row j.
fn point_number(n: u32, i: u32, j: u32) -> u32
    requires n { n ≤ 8 }
    requires i { i ≤ 81 }
    requires j { j ≤ 81 }
    ensures { result ≡ point_number n i j }
{
    j * (n + 1) + i + 1
}

/// The number of the square in column i of row j.
fn square_number(n: u32, i: u32, j: u32) -> u32
    requires n { n ≤ 8 }
    requires i { i ≤ 81 }
    requires j { j ≤ 81 }
    ensures { result ≡ square_number n i j }
{
    j * n + i + 1
}

/// The point in column i of row j.
fn point(n: u32, i: u32, j: u32) -> PointRow
    requires n { n ≤ 8 }
    requires i { i ≤ 81 }
    requires j { j ≤ 81 }
    ensures { result ≡ point_row n i j }
{
    PointRow {
        number: point_number(n, i, j),
        x: whole(i),
        y: whole(j),
        maxh: None,
    }
}

/// The segment to the right from the point in column i of row j.
fn across(n: u32, i: u32, j: u32) -> SegmentRow
    requires n { n ≤ 8 }
    requires i { i ≤ 80 }
    requires j { j ≤ 80 }
    ensures { result ≡ across n i j }
{
    SegmentRow {
        left: if j == n { 0 } else { square_number(n, i, j) },
        right: if j == 0 {
            0
        } else {
            square_number(n, i, j - 1)
        },
        p: point_number(n, i, j),
        q: point_number(n, i + 1, j),
        bc: None,
        maxh: None,
    }
}

/// The segment upwards from the point in column i of row j.
fn up(n: u32, i: u32, j: u32) -> SegmentRow
    requires n { n ≤ 8 }
    requires i { i ≤ 80 }
    requires j { j ≤ 80 }
    ensures { result ≡ up n i j }
{
    SegmentRow {
        left: if i == 0 {
            0
        } else {
            square_number(n, i - 1, j)
        },
        right: if i == n { 0 } else { square_number(n, i, j) },
        p: point_number(n, i, j),
        q: point_number(n, i, j + 1),
        bc: None,
        maxh: None,
    }
}

/// The points, row by row.
fn points(alloc: Global, n: u32) -> Result<Vec<PointRow>, OutOfMemory>
    requires { n ≤ 8 }
    ensures { IfOk result (λ rows. rows.items ≡ in_rows (point_row n) (n + 1) (n + 1)) }
{
    let columns = n + 1;
    let mut rows = Vec::new(alloc);
    for k in 0..columns * columns {
        rows.push(point(n, k % columns, k / columns))?;
    }
    Ok(rows)
}

/// The segments across, row by row.
fn all_across(alloc: Global, n: u32) -> Result<Vec<SegmentRow>, OutOfMemory>
    requires least { 1 ≤ n }
    requires greatest { n ≤ 8 }
    ensures { IfOk result (λ rows. rows.items ≡ in_rows (across n) n (n + 1)) }
{
    let mut rows = Vec::new(alloc);
    for k in 0..n * (n + 1) {
        rows.push(across(n, k % n, k / n))?;
    }
    Ok(rows)
}

/// The segments upwards, row by row.
fn all_up(alloc: Global, n: u32) -> Result<Vec<SegmentRow>, OutOfMemory>
    requires { n ≤ 8 }
    ensures { IfOk result (λ rows. rows.items ≡ in_rows (up n) (n + 1) n) }
{
    let columns = n + 1;
    let mut rows = Vec::new(alloc);
    for k in 0..columns * n {
        rows.push(up(n, k % columns, k / columns))?;
    }
    Ok(rows)
}

/// The file of n times n unit squares: the points row by row; the segments across row by row, and
/// those upwards row by row, each with the squares on its sides; no sizes and no names.
///
/// # Errors
///
/// No memory was left.
pub fn rows(alloc: Global, n: u32) -> Result<RawGeometry, OutOfMemory>
    requires least { 1 ≤ n }
    requires greatest { n ≤ 8 }
    ensures { IfOk result (λ rows. rows ≡ squares n) }
{
    let points = points(alloc, n)?;
    let mut segments = all_across(alloc, n)?;
    let mut upwards = all_up(alloc, n)?;
    segments.append(&mut upwards)?;
    Ok(RawGeometry {
        number: whole(1),
        points: PointRows::from_vec(points),
        segments: SegmentRows::from_vec(segments),
        materials: MaterialRows::from_vec(Vec::new(alloc)),
    })
}

/// The geometry of n times n unit squares, on the grid.
///
/// # Errors
///
/// No memory was left: the geometry is accepted.
pub fn geometry(alloc: Global, n: u32) -> Result<Geometry, GeomRefusal>
    requires least { 1 ≤ n }
    requires greatest { n ≤ 8 }
    ensures geometry { IfOk result (IsGeometryOf (squares n)) }
    ensures unit { IfOk result (λ geometry. 64 ≤ length_at geometry.shift (whole 1)) }
    ensures refused { IfErr result (λ refusal. refusal ≡ NoMemory) }
{
    let rows = rows(alloc, n)?;
    check(alloc, &rows)
}

/// The length of a part of a square's side, of which there are so many, in grid steps, rounded
/// downwards.
pub fn part_of_side(geometry: &Geometry, parts: u64) -> u64
    requires unit { 64 ≤ length_at geometry.now.shift (whole 1) }
    requires least { 1 ≤ parts }
    requires greatest { parts ≤ 16 }
    ensures value { result ≡ part_length geometry.now.shift parts }
    ensures bounds { IsLength result }
{
    geometry.length_in_steps(&whole(1)) / parts
}
