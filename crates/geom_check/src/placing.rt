// The rows of a file moved to the grid.
ghost use Rattle.std.specs.Prelude.{◌≡◌, ℕ, ◌≤◌, length, All, IfOk, IfSome, IfNone, IfErr, negsuc};
ghost use Rattle.std.specs.Ordering.{nat_cmp};
ghost use Rattle.std.specs.BTreeMap as tree;
ghost use Rattle.geom_check.specs.Shift.{FitsRow, IsShift, IsScale};
ghost use Rattle.geom_check.specs.Placed.{IsReadable, IsReadablePoint, IsReadableSegment, row_in, points_of, segments_from, segments_of, IsPlaced};
ghost use Rattle.geom_check.specs.Refused.{IsFirstFailing, IsPlaceRefusal};

use crate::kinds::{Segment, Segments};
use crate::limits::{COARSEST, FINEST, MOST_ROWS};
use crate::refusal::GeomRefusal;
use crate::scale::Scale;
use grid_geom::{Point, Points};
use in2d_reader::{PointRow, RawGeometry, SegmentRow};
use std::alloc::{AllocError as OutOfMemory, Global};
use std::collections::BTreeMap;

/// The number, from 1, of the first row with a coordinate that is too large.
fn too_large(scale: &Scale, rows: &[PointRow]) -> Option<u64>
    requires readable { All IsReadablePoint rows.now }
    requires scale { IsScale scale.now }
    ensures found { IfSome result (λ n. IsFirstFailing (FitsRow scale.now.shift) rows.now n) }
    ensures none { IfNone result (All (FitsRow scale.now.shift) rows.now) }
{
    for (i, row) in rows.iter().enumerate() {
        if scale.place(row).is_none() {
            return Some(i as u64 + 1);
        }
    }
    None
}

/// The finest scale at which each point fits: the coarsest, unless a finer one does.
fn finest(rows: &[PointRow]) -> Scale
    requires readable { All IsReadablePoint rows.now }
    requires coarsest { All (FitsRow COARSEST) rows.now }
    ensures { IsShift result.shift rows.now }
{
    for down in 0..(FINEST - COARSEST) as u32 {
        let scale = Scale {
            shift: FINEST - down as i32,
        };
        if too_large(&scale, rows).is_none() {
            return scale;
        }
    }
    Scale { shift: COARSEST }
}

/// The points on the grid.
fn points(alloc: Global, scale: &Scale, rows: &[PointRow]) -> Result<Vec<Point>, OutOfMemory>
    requires readable { All IsReadablePoint rows.now }
    requires scale { IsScale scale.now }
    requires fits { All (FitsRow scale.now.shift) rows.now }
    ensures { IfOk result (λ v. v.items ≡ points_of scale.now.shift rows.now) }
{
    let mut points = Vec::with_capacity(alloc, rows.len())?;
    for row in rows {
        points.push(scale.place(row).unwrap())?;
    }
    Ok(points)
}

/// The row, from 1, of each point's number.
fn row_numbers(alloc: Global, points: &[PointRow]) -> Result<BTreeMap<u32, usize>, OutOfMemory>
    ensures { IfOk result (λ map. (number : ℕ) → tree.get nat_cmp map number
        ≡ row_in points.now number) }
{
    let mut rows = BTreeMap::new(alloc);
    for i in (0..points.len()).rev() {
        rows.insert(points[i].number, i + 1)?;
    }
    Ok(rows)
}

/// The segments on the grid, with their ends by rows.
fn segments(
    alloc: Global,
    scale: &Scale,
    points: &[PointRow],
    rows: &[SegmentRow],
) -> Result<Vec<Segment>, OutOfMemory>
    requires few { length rows.now ≤ MOST_ROWS }
    requires readable { All (IsReadableSegment points.now) rows.now }
    requires scale { IsScale scale.now }
    ensures { IfOk result (λ v. v.items ≡ segments_from scale.now.shift points.now 1 rows.now) }
{
    let numbers = row_numbers(alloc, points)?;
    let mut segments = Vec::with_capacity(alloc, rows.len())?;
    for (i, row) in rows.iter().enumerate() {
        segments.push(Segment {
            left: row.left,
            right: row.right,
            p: numbers.get(&row.p).copied().unwrap(),
            q: numbers.get(&row.q).copied().unwrap(),
            bc: row.bc.unwrap_or(i as u32 + 1),
            maxh: scale.size(row.maxh),
        })?;
    }
    Ok(segments)
}

/// The points and segments of a file on the grid, in the order of their rows.
#[derive(Debug, Drop)]
pub struct Placed {
    /// A unit of 64 grid steps is 10 ^ -`shift` of the file's lengths.
    pub shift: i32,
    pub points: Points,
    pub segments: Segments,
}

/// Moves a geometry to the grid, at the finest shift at which each coordinate fits.
///
/// # Errors
///
/// `TooLarge` with the least row, where a coordinate doesn't fit at the coarsest shift; `Memory`.
pub fn place(alloc: Global, raw: &RawGeometry) -> Result<Placed, GeomRefusal>
    requires { IsReadable raw.now }
    ensures placed { IfOk result (λ placed. IsPlaced raw.now placed) }
    ensures refused { IfErr result (λ refusal. IsPlaceRefusal raw.now refusal) }
{
    let rows = raw.points.as_slice();
    if let Some(point) = too_large(&Scale { shift: COARSEST }, rows) {
        return Err(GeomRefusal::TooLarge { point });
    }
    let scale = finest(rows);
    Ok(Placed {
        shift: scale.shift,
        points: Points::from_vec(points(alloc, &scale, rows)?),
        segments: Segments::from_vec(segments(alloc, &scale, rows, raw.segments.as_slice())?),
    })
}
