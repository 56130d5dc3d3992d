// The whole check, on meshes of the unit square: one that is whole, and each of the six faults.
//
//   3 --- 4
//   |   / |
//   | /   |
//   1 --- 2
ghost use Rattle.std.specs.Prelude.{◌≤◌};

use crate::named::names_its_points;
use grid_geom::{Element, Point, Points};
use mesh_check::{Verdict, check_mesh};
use sample::geometry;
use std::alloc::{AllocError as OutOfMemory, Global};
use std::test::*;
use vol_format::{EdgeRow, EdgeRows, Mesh, MeshElement, MeshElements};

/// The shift of the unit square.
const SHIFT: i32 = 4;

fn at(x: i64, y: i64) -> Point {
    Point { x, y }
}

// An edge row of this segment, with domain 1 on one side and nothing on the other.
fn row(segment: u32, a: u64, b: u64, left: u32) -> EdgeRow
    requires { left ≤ 1 }
{
    EdgeRow {
        bc: segment,
        a,
        b,
        left,
        right: 1 - left,
        segment,
    }
}

// The corners of the unit square.
fn corners() -> [Point; 4] {
    [
        at(0, 0),
        at(640_000, 0),
        at(0, 640_000),
        at(640_000, 640_000),
    ]
}

// The sides of the square in the order of its segments, as these go.
fn sides() -> [EdgeRow; 4] {
    [
        row(1, 1, 2, 1),
        row(2, 3, 4, 0),
        row(3, 1, 3, 0),
        row(4, 2, 4, 1),
    ]
}

fn elements(alloc: Global, rows: &[(u32, [u64; 3])]) -> Result<MeshElements, OutOfMemory> {
    let mut elements = Vec::new(alloc);
    for (domain, corners) in rows {
        elements.push(MeshElement {
            domain: *domain,
            corners: Element::from_vec(corners.to_vec(alloc)?),
        })?;
    }
    Ok(MeshElements::from_vec(elements))
}

// The verdict on the mesh of these points, edge rows and elements for the unit square.
fn verdict(
    alloc: Global,
    points: &[Point],
    rows: &[EdgeRow],
    triangles: &[(u32, [u64; 3])],
) -> Result<Verdict, Fail> {
    let square = geometry(alloc, 1).ok().ok_or("the square is accepted")?;
    let mesh = Mesh {
        shift: SHIFT,
        points: Points::from_vec(points.to_vec(alloc)?),
        edges: EdgeRows::from_vec(rows.to_vec(alloc)?),
        elements: elements(alloc, triangles)?,
    };
    if !names_its_points(&mesh) {
        return Err("the mesh names its points".into());
    }
    Ok(check_mesh(alloc, &square, &mesh)?)
}

// The verdict where these elements stand on the corners and sides of the square.
fn verdict_on(alloc: Global, triangles: &[(u32, [u64; 3])]) -> Result<Verdict, Fail> {
    verdict(alloc, &corners(), &sides(), triangles)
}

// The verdict where the square is cut in two, and has these points more.
fn verdict_with(alloc: Global, more: &[Point]) -> Result<Verdict, Fail> {
    let mut points = corners().to_vec(alloc)?;
    points.extend_from_slice(more)?;
    let halves = [(1, [1, 2, 4]), (1, [1, 4, 3])];
    verdict(alloc, &points, &sides(), &halves)
}

#[test]
fn two_halves_are_whole(rt: HostRuntime) -> Result<(), Fail> {
    let halves = [(1, [1, 2, 4]), (1, [1, 4, 3])];
    assert_eq!(rt; verdict_on(rt.alloc(), &halves)?, Verdict::Whole);
    Ok(())
}

#[test]
fn two_points_at_one_place_are_told(rt: HostRuntime) -> Result<(), Fail> {
    let told = Verdict::SamePlace { i: 2, j: 5 };
    assert_eq!(rt; verdict_with(rt.alloc(), &[at(640_000, 0)])?, told);
    Ok(())
}

#[test]
fn a_point_on_the_cut_hangs(rt: HostRuntime) -> Result<(), Fail> {
    let told = Verdict::Hanging {
        point: 5,
        element: 1,
    };
    assert_eq!(rt; verdict_with(rt.alloc(), &[at(320_000, 320_000)])?, told);
    Ok(())
}

#[test]
fn a_point_in_a_side_of_the_square_hangs(rt: HostRuntime) -> Result<(), Fail> {
    let told = Verdict::Hanging {
        point: 5,
        element: 2,
    };
    assert_eq!(rt; verdict_with(rt.alloc(), &[at(1, 640_000)])?, told);
    Ok(())
}

#[test]
fn the_least_point_and_its_least_element_are_told(rt: HostRuntime) -> Result<(), Fail> {
    let more = [at(1, 2), at(640_000, 5), at(7, 7), at(1, 640_000)];
    let told = Verdict::Hanging {
        point: 6,
        element: 1,
    };
    assert_eq!(rt; verdict_with(rt.alloc(), &more)?, told);
    Ok(())
}

#[test]
fn a_point_that_hangs_is_told_before_a_chain(rt: HostRuntime) -> Result<(), Fail> {
    let [a, b, c, d] = corners();
    let points = [a, b, c, d, at(5, 5)];
    let told = Verdict::Hanging {
        point: 5,
        element: 1,
    };
    assert_eq!(rt;
        verdict(rt.alloc(), &points, &sides(), &[(1, [1, 4, 3])])?,
        told
    );
    Ok(())
}

#[test]
fn a_point_in_an_element_is_no_fault(rt: HostRuntime) -> Result<(), Fail> {
    assert_eq!(rt; verdict_with(rt.alloc(), &[at(1, 2)])?, Verdict::Whole);
    Ok(())
}

#[test]
fn a_row_that_goes_backwards_is_told(rt: HostRuntime) -> Result<(), Fail> {
    let [first, _, third, fourth] = sides();
    let rows = [first, row(2, 4, 3, 1), third, fourth];
    let halves = [(1, [1, 2, 4]), (1, [1, 4, 3])];
    let told = Verdict::Edges { row: 2 };
    assert_eq!(rt; verdict(rt.alloc(), &corners(), &rows, &halves)?, told);
    Ok(())
}

#[test]
fn the_row_past_the_last_is_told_where_one_is_missing(rt: HostRuntime) -> Result<(), Fail> {
    let halves = [(1, [1, 2, 4]), (1, [1, 4, 3])];
    let told = Verdict::Edges { row: 4 };
    assert_eq!(rt;
        verdict(rt.alloc(), &corners(), &sides()[..3], &halves)?,
        told
    );
    Ok(())
}

#[test]
fn an_element_of_no_domain_is_told(rt: HostRuntime) -> Result<(), Fail> {
    let halves = [(1, [1, 2, 4]), (2, [1, 4, 3])];
    let told = Verdict::Domain { element: 2 };
    assert_eq!(rt; verdict_on(rt.alloc(), &halves)?, told);
    Ok(())
}

#[test]
fn an_element_that_is_not_turned_is_told(rt: HostRuntime) -> Result<(), Fail> {
    let halves = [(1, [1, 2, 4]), (1, [1, 3, 4])];
    let told = Verdict::Turned { element: 2 };
    assert_eq!(rt; verdict_on(rt.alloc(), &halves)?, told);
    Ok(())
}

#[test]
fn a_missing_element_leaves_a_chain(rt: HostRuntime) -> Result<(), Fail> {
    let told = Verdict::Chain {
        domain: 1,
        from: 1,
        to: 3,
        elements: 0,
        edges: -1,
    };
    assert_eq!(rt; verdict_on(rt.alloc(), &[(1, [1, 2, 4])])?, told);
    Ok(())
}
