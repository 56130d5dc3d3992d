//! Parts of the check, worked by hand on small meshes.

use crate::difference::{Difference, least_difference};
use crate::elements::first_foreign;
use crate::near::{box_at, box_of};
use crate::sides::Side;
use crate::spots::{same_place, sorted_spots};
use geom_check::Domain;
use grid_geom::{Bounds, Element, Point};
use std::alloc::{AllocError as OutOfMemory, Global};
use std::test::Fail;
use vol_format::{EdgeRow, MeshElement};

const fn at(x: i64, y: i64) -> Point {
    Point { x, y }
}

fn triangle(
    alloc: Global,
    domain: u32,
    a: u64,
    b: u64,
    c: u64,
) -> Result<MeshElement, OutOfMemory> {
    let corners = Element::from_vec(vec![in alloc; a, b, c]?);
    Ok(MeshElement { domain, corners })
}

fn row(a: u64, b: u64) -> EdgeRow {
    EdgeRow {
        bc: 1,
        a,
        b,
        left: 1,
        right: 0,
        segment: 1,
    }
}

#[test]
fn the_first_element_of_no_domain_is_told(rt: HostRuntime) -> Result<(), Fail> {
    let domains = [
        Domain {
            number: 1,
            maxh: None,
        },
        Domain {
            number: 4,
            maxh: None,
        },
    ];
    let elements = [
        triangle(rt.alloc(), 4, 1, 2, 3)?,
        triangle(rt.alloc(), 2, 1, 2, 3)?,
        triangle(rt.alloc(), 3, 1, 2, 3)?,
    ];
    assert_eq!(rt; first_foreign(&domains, &elements), Some(2));
    assert_eq!(rt; first_foreign(&domains, &elements[..1]), None);
    Ok(())
}

#[test]
fn the_least_two_points_at_one_place_are_told(rt: HostRuntime) -> Result<(), Fail> {
    let points = [at(1, 0), at(0, 0), at(0, 1), at(0, 0), at(1, 0), at(0, 0)];
    let spots = sorted_spots(rt.alloc(), &points)?;
    assert_eq!(rt; same_place(&points, &spots), Some((1, 5)));
    Ok(())
}

#[test]
fn different_places_are_told_apart(rt: HostRuntime) -> Result<(), Fail> {
    let points = [at(0, 1), at(1, 0), at(-1, 0), at(0, -1)];
    let spots = sorted_spots(rt.alloc(), &points)?;
    assert_eq!(rt; same_place(&points, &spots), None);
    Ok(())
}

#[test]
fn the_least_side_that_differs_is_told(rt: HostRuntime) -> Result<(), Fail> {
    let elements = [triangle(rt.alloc(), 1, 1, 2, 3)?];
    let rows = [row(1, 2), row(3, 1)];
    let side = Side {
        domain: 1,
        from: 2,
        to: 3,
    };
    assert_eq!(rt;
        least_difference(rt.alloc(), &elements, &rows)?,
        Some(Difference {
            side,
            elements: 1,
            edges: 0
        })
    );
    Ok(())
}

#[test]
fn sides_of_a_whole_boundary_agree(rt: HostRuntime) -> Result<(), Fail> {
    let elements = [triangle(rt.alloc(), 1, 1, 2, 3)?];
    let rows = [row(1, 2), row(2, 3), row(3, 1)];
    assert_eq!(rt; least_difference(rt.alloc(), &elements, &rows)?, None);
    Ok(())
}

#[test]
fn a_box_holds_the_corners(rt: HostRuntime) {
    let bounds = Bounds {
        lo: at(-2, -1),
        hi: at(3, 4),
    };
    assert_eq!(rt; box_of(&[at(3, 0), at(-2, 4), at(0, -1)]), bounds);
    assert_eq!(rt; box_of(&[at(3, 0)]), box_at(at(3, 0)));
}
