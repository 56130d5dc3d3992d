// Sides of elements and edges of boundaries, by the numbers of their points, counted domain by domain.
ghost use Rattle.std.specs.Prelude.{◌≡◌, ◌++◌, ◌∷◌, [], ◌≤◌, map, length, OnOk, IfOk};
ghost use Rattle.state_law.specs.State.{number_sides, number_way};
ghost use Rattle.mesh_check.specs.Balance.{side_of, element_sides, row_sides, turned, side_count};

use std::alloc::{AllocError as OutOfMemory, Global};
use vol_format::{EdgeRow, MeshElement};

/// A side of a domain's element, or an edge of its boundary, from one point to another by their
/// numbers. Sides are ordered by their domains, then by their starts, then by their ends.
#[derive(Clone, Copy, Debug, PartialEq, Eq, PartialOrd, Ord)]
pub struct Side {
    pub domain: u32,
    pub from: u64,
    pub to: u64,
}

/// Appends the sides from `from` by the rest of the corners and on to `first`.
fn push_way(
    sides: &mut Vec<Side>,
    domain: u32,
    first: u64,
    from: u64,
    rest: &[u64],
) -> Result<(), OutOfMemory>
    ensures { OnOk result (sides.new.items
        ≡ sides.old.items ++ map (side_of domain) (number_way first from rest.now)) }
{
    match rest {
        [] => sides.push(Side {
            domain,
            from,
            to: first,
        })?,
        [to, after @ ..] => {
            sides.push(Side {
                domain,
                from,
                to: *to,
            })?;
            push_way(sides, domain, first, *to, after)?;
        }
    }
    Ok(())
}

/// Appends the sides of an element.
fn push_sides(sides: &mut Vec<Side>, domain: u32, corners: &[u64]) -> Result<(), OutOfMemory>
    ensures { OnOk result (sides.new.items
        ≡ sides.old.items ++ map (side_of domain) (number_sides corners.now)) }
{
    match corners {
        [] => {}
        [first, rest @ ..] => push_way(sides, domain, *first, *first, rest)?,
    }
    Ok(())
}

/// The sides of all elements.
pub fn sides_of_elements(alloc: Global, elements: &[MeshElement]) -> Result<Vec<Side>, OutOfMemory>
    ensures { IfOk result (λ v. v.items ≡ element_sides elements.now) }
{
    let mut sides = Vec::with_capacity(alloc, elements.len().saturating_mul(3))?;
    for element in elements {
        push_sides(&mut sides, element.domain, element.corners.as_slice())?;
    }
    Ok(sides)
}

/// Appends an edge row as it stands for the domain on its left, and turned for the domain on its right.
fn push_row(sides: &mut Vec<Side>, row: &EdgeRow) -> Result<(), OutOfMemory>
    ensures { OnOk result (sides.new.items ≡ sides.old.items ++ row_sides (row.now ∷ [])) }
{
    if row.left > 0 {
        sides.push(Side {
            domain: row.left,
            from: row.a,
            to: row.b,
        })?;
    }
    if row.right > 0 {
        sides.push(Side {
            domain: row.right,
            from: row.b,
            to: row.a,
        })?;
    }
    Ok(())
}

/// The edge rows round each domain, each with the domain on its left.
pub fn sides_of_rows(alloc: Global, rows: &[EdgeRow]) -> Result<Vec<Side>, OutOfMemory>
    ensures { IfOk result (λ v. v.items ≡ row_sides rows.now) }
{
    let mut sides = Vec::new(alloc);
    for row in rows {
        push_row(&mut sides, row)?;
    }
    Ok(sides)
}

/// A side the other way.
pub fn turned(side: Side) -> Side
    ensures { result ≡ turned side }
{
    Side {
        domain: side.domain,
        from: side.to,
        to: side.from,
    }
}

/// The first sides, and then the others turned.
pub fn with_turned(alloc: Global, first: &[Side], others: &[Side]) -> Result<Vec<Side>, OutOfMemory>
    ensures { IfOk result (λ v. v.items ≡ first.now ++ map turned others.now) }
{
    let mut sides = Vec::with_capacity(alloc, first.len().saturating_add(others.len()))?;
    for side in first {
        sides.push(*side)?;
    }
    for side in others {
        sides.push(turned(*side))?;
    }
    Ok(sides)
}

/// How often a side stands in a list.
pub fn count(sides: &[Side], side: &Side) -> usize
    ensures count { result ≡ side_count side.now sides.now }
    ensures bound { result ≤ length sides.now }
{
    let mut count = 0;
    for other in sides {
        count += (*other == *side) as usize;
    }
    count
}
