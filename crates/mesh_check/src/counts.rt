// How many sides have each point as their lesser end, and where their keys begin in a list of all.
use crate::keys::POINTS;
use std::alloc::{AllocError as OutOfMemory, Global};
use vol_format::{EdgeRow, MeshElement};

/// Counts a side at its lesser end. All whose ends have no room in a key are counted together.
fn count_side(counts: &mut Vec<usize>, from: u64, to: u64) -> Result<(), OutOfMemory> {
    let lesser = from.min(to).min(POINTS) as usize;
    if lesser < counts.len() {
        counts[lesser] = counts[lesser].wrapping_add(1);
    } else {
        counts.resize(lesser, 0)?;
        counts.push(1)?;
    }
    Ok(())
}

/// Counts the sides from `from` by the rest of the corners and on to `first`.
fn count_way(
    counts: &mut Vec<usize>,
    first: u64,
    from: u64,
    rest: &[u64],
) -> Result<(), OutOfMemory> {
    match rest {
        [] => count_side(counts, from, first),
        [to, after @ ..] => {
            count_side(counts, from, *to)?;
            count_way(counts, first, *to, after)
        }
    }
}

/// Counts the sides of the elements.
fn count_elements(counts: &mut Vec<usize>, elements: &[MeshElement]) -> Result<(), OutOfMemory> {
    for element in elements {
        if let [first, rest @ ..] = element.corners.as_slice() {
            count_way(counts, *first, *first, rest)?;
        }
    }
    Ok(())
}

/// Counts the edges of boundaries.
fn count_rows(counts: &mut Vec<usize>, rows: &[EdgeRow]) -> Result<(), OutOfMemory> {
    for row in rows {
        if row.left > 0 {
            count_side(counts, row.a, row.b)?;
        }
        if row.right > 0 {
            count_side(counts, row.a, row.b)?;
        }
    }
    Ok(())
}

/// Puts sums in the place of numbers, each of those before it, and returns that of all.
fn sum_up(counts: &mut Vec<usize>) -> usize {
    let mut sum = 0usize;
    for i in 0..counts.len() {
        let count = counts[i];
        counts[i] = sum;
        sum = sum.wrapping_add(count);
    }
    sum
}

/// Where the keys of each lesser end begin in a list of the keys of all sides of the elements and edges
/// of boundaries, and how many keys there are.
pub fn beginnings(
    alloc: Global,
    elements: &[MeshElement],
    rows: &[EdgeRow],
) -> Result<(Vec<usize>, usize), OutOfMemory> {
    let mut counts = Vec::new(alloc);
    count_elements(&mut counts, elements)?;
    count_rows(&mut counts, rows)?;
    let all = sum_up(&mut counts);
    Ok((counts, all))
}
