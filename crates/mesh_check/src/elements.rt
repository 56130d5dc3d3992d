// The domains of elements, and whether elements are positively turned.
ghost use Rattle.std.specs.Prelude.{◌≡◌, ◌↔◌, length, All, Any, IsTrue, IfOk, IfSome, IfNone};
ghost use Rattle.grid_geom.specs.Bounds.{IsOnGrid};
ghost use Rattle.grid_geom.specs.Polygon.{IsStrictlyConvex};
ghost use Rattle.state_law.specs.State.{IsListed, corners_of};
ghost use Rattle.geom_check.specs.Refused.{IsFirstFailing};
ghost use Rattle.mesh_check.specs.Whole.{HasDomainOf, IsTurned};

use crate::rows::place;
use geom_check::Domain;
use grid_geom::{Point, strictly_convex};
use std::alloc::{AllocError as OutOfMemory, Global};
use vol_format::MeshElement;

/// Whether one of the domains has the number.
fn is_named(domains: &[Domain], number: u32) -> bool
    ensures { IsTrue result ↔ Any (λ d. d.number ≡ number) domains.now }
{
    domains.iter().any(|domain| domain.number == number)
}

/// The number, from 1, of the first element whose domain is none of these.
pub fn first_foreign(domains: &[Domain], elements: &[MeshElement]) -> Option<u64>
    ensures found { IfSome result (λ n. IsFirstFailing (HasDomainOf domains.now) elements.now n) }
    ensures none { IfNone result (All (HasDomainOf domains.now) elements.now) }
{
    for (i, element) in elements.iter().enumerate() {
        if !is_named(domains, element.domain) {
            return Some(i as u64 + 1);
        }
    }
    None
}

/// The corners of an element, by their numbers.
pub fn polygon(alloc: Global, points: &[Point], corners: &[u64]) -> Result<Vec<Point>, OutOfMemory>
    requires listed { All (IsListed (length points.now)) corners.now }
    requires on_grid { All IsOnGrid points.now }
    ensures corners { IfOk result (λ v. v.items ≡ corners_of points.now corners.now) }
    ensures on_grid { IfOk result (λ v. All IsOnGrid v.items) }
{
    let mut polygon = Vec::with_capacity(alloc, corners.len())?;
    for corner in corners {
        polygon.push(place(points, *corner))?;
    }
    Ok(polygon)
}

/// Whether the corners of an element are strictly convex. Those of a triangle take no memory.
fn is_turned(alloc: Global, points: &[Point], corners: &[u64]) -> Result<bool, OutOfMemory>
    requires listed { All (IsListed (length points.now)) corners.now }
    requires on_grid { All IsOnGrid points.now }
    ensures { IfOk result (λ turned.
        IsTrue turned ↔ IsStrictlyConvex (corners_of points.now corners.now)) }
{
    if let [a, b, c] = corners {
        let triangle = [place(points, *a), place(points, *b), place(points, *c)];
        return Ok(strictly_convex(&triangle));
    }
    let polygon = polygon(alloc, points, corners)?;
    Ok(strictly_convex(&polygon))
}

/// The number, from 1, of the first element that is not positively turned.
pub fn first_not_turned(
    alloc: Global,
    points: &[Point],
    elements: &[MeshElement],
) -> Result<Option<u64>, OutOfMemory>
    requires on_grid { All IsOnGrid points.now }
    requires corners { All (λ e. All (IsListed (length points.now)) e.corners) elements.now }
    ensures found { IfOk result (λ found. IfSome found
        (λ n. IsFirstFailing (IsTurned points.now) elements.now n)) }
    ensures none { IfOk result (λ found. IfNone found (All (IsTurned points.now) elements.now)) }
{
    for (i, element) in elements.iter().enumerate() {
        if !is_turned(alloc, points, element.corners.as_slice())? {
            return Ok(Some(i as u64 + 1));
        }
    }
    Ok(None)
}
