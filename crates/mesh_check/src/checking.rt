// The whole check of a mesh.
ghost use Rattle.std.specs.Prelude.{◌≡◌, ℕ, ◌<◌, true, length, slice_index_or, All, IsTrue, IfOk, IfSome, IfNone};
ghost use Rattle.geom_check.specs.Accepted.{ArePlacesDifferent};
ghost use Rattle.geom_check.specs.Refused.{IsLeastPair};
ghost use Rattle.mesh_check.specs.Parts.{NamesItsPoints};
ghost use Rattle.mesh_check.specs.Spots.{AreSpots};
ghost use Rattle.mesh_check.specs.Whole.{DoRowsWalk, HasDomainOf, IsTurned, DoesHang, IsChained};
ghost use Rattle.mesh_check.specs.Verdict.{IsLeastChain, IsVerdict};

use crate::difference::{Difference, least_difference};
use crate::elements::{first_foreign, first_not_turned};
use crate::hanging::hanging;
use crate::rows::row_fault;
use crate::spots::{Spot, same_place, sorted_spots};
use crate::tight::{are_all, passed_over};
use crate::verdict::Verdict;
use geom_check::Geometry;
use std::alloc::{AllocError as OutOfMemory, Global};
use vol_format::Mesh;

/// The least pair of points at one place.
fn place_fault(_g: &Geometry, m: &Mesh, spots: &[Spot]) -> Option<Verdict>
    requires { AreSpots m.now.points spots.now }
    ensures some { IfSome result (IsVerdict _g.now m.now) }
    ensures none { IfNone result (ArePlacesDifferent m.now.points) }
{
    let (i, j) = same_place(m.points.as_slice(), spots)?;
    Some(Verdict::SamePlace { i, j })
}

/// The first edge row by which the rows don't walk the segments.
fn edge_fault(g: &Geometry, m: &Mesh) -> Option<Verdict>
    requires names { NamesItsPoints m.now }
    requires places { ArePlacesDifferent m.now.points }
    ensures some { IfSome result (IsVerdict g.now m.now) }
    ensures none { IfNone result (DoRowsWalk g.now m.now) }
{
    let row = row_fault(g, m)?;
    Some(Verdict::Edges { row })
}

/// The least element of no domain.
fn domain_fault(g: &Geometry, m: &Mesh) -> Option<Verdict>
    requires places { ArePlacesDifferent m.now.points }
    requires rows { DoRowsWalk g.now m.now }
    ensures some { IfSome result (IsVerdict g.now m.now) }
    ensures none { IfNone result (All (HasDomainOf g.now.domains) m.now.elements) }
{
    let element = first_foreign(g.domains(), m.elements.as_slice())?;
    Some(Verdict::Domain { element })
}

/// The least element that is not positively turned.
fn turn_fault(alloc: Global, g: &Geometry, m: &Mesh) -> Result<Option<Verdict>, OutOfMemory>
    requires names { NamesItsPoints m.now }
    requires places { ArePlacesDifferent m.now.points }
    requires rows { DoRowsWalk g.now m.now }
    requires domains { All (HasDomainOf g.now.domains) m.now.elements }
    ensures some { IfOk result (λ found. IfSome found (IsVerdict g.now m.now)) }
    ensures none { IfOk result (λ found. IfNone found
        (All (IsTurned m.now.points) m.now.elements)) }
{
    match first_not_turned(alloc, m.points.as_slice(), m.elements.as_slice())? {
        Some(element) => Ok(Some(Verdict::Turned { element })),
        None => Ok(None),
    }
}

/// The least domain and pair of points between which elements and boundary differ.
fn least_chain(alloc: Global, g: &Geometry, m: &Mesh) -> Result<Option<Difference>, OutOfMemory>
    requires names { NamesItsPoints m.now }
    requires places { ArePlacesDifferent m.now.points }
    requires domains { All (HasDomainOf g.now.domains) m.now.elements }
    ensures some { IfOk result (λ found. IfSome found (λ d. IsLeastChain m.now
        d.side.domain d.side.from d.side.to d.elements d.edges)) }
    ensures none { IfOk result (λ found. IfNone found
        ((domain : ℕ) → 0 < domain → IsChained m.now domain)) }
{
    let _domains = g.domains();
    least_difference(alloc, m.elements.as_slice(), m.edges.as_slice())
}

/// Which points needn't be searched for in open sides. Where elements and boundaries agree and no point
/// is in an open edge row, these are the corners of elements.
fn spared_points(
    alloc: Global,
    g: &Geometry,
    m: &Mesh,
    chain: &Option<Difference>,
) -> Result<Vec<bool>, OutOfMemory>
    requires names { NamesItsPoints m.now }
    requires places { ArePlacesDifferent m.now.points }
    requires rows { DoRowsWalk g.now m.now }
    requires domains { All (HasDomainOf g.now.domains) m.now.elements }
    requires turned { All (IsTurned m.now.points) m.now.elements }
    requires chained { IfNone chain.now ((domain : ℕ) → 0 < domain → IsChained m.now domain) }
    ensures long { IfOk result (λ v. length v.items ≡ length m.now.points) }
    ensures unhung { IfOk result (λ v. (i k : ℕ) → i < length m.now.points →
        slice_index_or v.items i true ≡ true → ¬ DoesHang m.now.points m.now.elements i k) }
{
    let _domains = g.domains();
    let passed = passed_over(alloc, m, chain.is_none())?;
    Ok(passed)
}

/// The numbers of the least point in an open side and of the least such element.
fn hanging_point(
    alloc: Global,
    g: &Geometry,
    m: &Mesh,
    chain: &Option<Difference>,
) -> Result<Option<(u64, u64)>, OutOfMemory>
    requires names { NamesItsPoints m.now }
    requires places { ArePlacesDifferent m.now.points }
    requires rows { DoRowsWalk g.now m.now }
    requires domains { All (HasDomainOf g.now.domains) m.now.elements }
    requires turned { All (IsTurned m.now.points) m.now.elements }
    requires chained { IfNone chain.now ((domain : ℕ) → 0 < domain → IsChained m.now domain) }
    ensures found { IfOk result (λ found. IfSome found
        (λ pair. IsLeastPair (DoesHang m.now.points m.now.elements) pair.0 pair.1)) }
    ensures none { IfOk result (λ found. IfNone found
        ((i k : ℕ) → ¬ DoesHang m.now.points m.now.elements i k)) }
{
    let points = m.points.as_slice();
    let elements = m.elements.as_slice();
    let spared = spared_points(alloc, g, m, chain)?;
    let passed = spared.as_slice();
    if are_all(passed) {
        return Ok(None);
    }
    hanging(alloc, points, passed, elements)
}

/// The verdict on a mesh that has none of the first four faults.
fn side_verdict(alloc: Global, g: &Geometry, m: &Mesh) -> Result<Verdict, OutOfMemory>
    requires names { NamesItsPoints m.now }
    requires places { ArePlacesDifferent m.now.points }
    requires rows { DoRowsWalk g.now m.now }
    requires domains { All (HasDomainOf g.now.domains) m.now.elements }
    requires turned { All (IsTurned m.now.points) m.now.elements }
    ensures { IfOk result (IsVerdict g.now m.now) }
{
    let chain = least_chain(alloc, g, m)?;
    if let Some((point, element)) = hanging_point(alloc, g, m, &chain)? {
        return Ok(Verdict::Hanging { point, element });
    }
    match chain {
        Some(chain) => Ok(Verdict::Chain {
            domain: chain.side.domain as u64,
            from: chain.side.from,
            to: chain.side.to,
            elements: chain.elements,
            edges: chain.edges,
        }),
        None => Ok(Verdict::Whole),
    }
}

/// The verdict on a mesh for a geometry: its first fault, in the order of `Verdict`, at its least place,
/// or that it is whole.
///
/// The numbers in the mesh are those of its points, and these are on the grid. Takes memory for the points
/// and the sides in their order, and for a tree of the edge rows; and where a point is no corner or is in
/// an edge row, or sides don't agree, for one of the points that are searched for. Takes near-linear time
/// where few points are in the box of an edge row or an element.
///
/// # Errors
///
/// Want of memory alone.
pub fn check_mesh(alloc: Global, g: &Geometry, m: &Mesh) -> Result<Verdict, OutOfMemory>
    requires { NamesItsPoints m.now }
    ensures { IfOk result (IsVerdict g.now m.now) }
{
    let spots = sorted_spots(alloc, m.points.as_slice())?;
    if let Some(fault) = place_fault(g, m, &spots) {
        return Ok(fault);
    }
    if let Some(fault) = edge_fault(g, m) {
        return Ok(fault);
    }
    if let Some(fault) = domain_fault(g, m) {
        return Ok(fault);
    }
    if let Some(fault) = turn_fault(alloc, g, m)? {
        return Ok(fault);
    }
    side_verdict(alloc, g, m)
}
