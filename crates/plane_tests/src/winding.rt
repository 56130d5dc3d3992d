// Values from outside: winding numbers that can be seen in a drawing, and the half-open rule worked out by hand.
ghost use Rattle.grid_geom.specs.Bounds.{IsOnGrid};
ghost use Rattle.wind_law.specs.Grid.{AreOnGrid};

use grid_geom::{Edge, GREATEST_DENOMINATOR, GREATEST_NUMERATOR, GRID, Point, RatPoint};
use std::test::Fail;
use wind_law::{closed, winding};

/// The sides of a triangle of grid points.
fn triangle(a: Point, b: Point, c: Point) -> [Edge; 3]
    requires a_on { IsOnGrid a }
    requires b_on { IsOnGrid b }
    requires c_on { IsOnGrid c }
    ensures { AreOnGrid result }
{
    [Edge { a, b }, Edge { a: b, b: c }, Edge { a: c, b: a }]
}

/// The triangle (0, 0), (640000, 0), (0, 640000), counterclockwise.
fn boundary() -> [Edge; 3]
    ensures { AreOnGrid result }
{
    triangle(
        Point { x: 0, y: 0 },
        Point { x: 640_000, y: 0 },
        Point { x: 0, y: 640_000 },
    )
}

#[test]
fn winds_once_round_inner_points(rt: HostRuntime) {
    let edges = boundary();
    assert_eq!(rt;
        winding(
            &edges,
            &RatPoint {
                x: 640_000,
                y: 640_000,
                k: 3
            }
        ),
        1,
        "inside"
    );
    assert_eq!(rt;
        winding(&edges, &RatPoint { x: -1, y: 1, k: 1 }),
        0,
        "left of it"
    );
    assert_eq!(rt;
        winding(
            &edges,
            &RatPoint {
                x: 640_000,
                y: 1,
                k: 1
            }
        ),
        0,
        "right of it"
    );
}

/// Where a corner is at the height of the point, one of the two edges there counts.
#[test]
fn winds_once_at_a_corners_height(rt: HostRuntime) {
    let edges = triangle(
        Point { x: 0, y: 0 },
        Point { x: 4, y: 2 },
        Point { x: 0, y: 4 },
    );
    assert_eq!(rt;
        winding(&edges, &RatPoint { x: 1, y: 2, k: 1 }),
        1,
        "inside"
    );
    assert_eq!(rt;
        winding(&edges, &RatPoint { x: 5, y: 2, k: 1 }),
        0,
        "right of the corner"
    );
    assert_eq!(rt;
        winding(&edges, &RatPoint { x: -1, y: 2, k: 1 }),
        0,
        "left of it"
    );
    let backwards = triangle(
        Point { x: 0, y: 4 },
        Point { x: 4, y: 2 },
        Point { x: 0, y: 0 },
    );
    assert_eq!(rt;
        winding(&backwards, &RatPoint { x: 1, y: 2, k: 1 }),
        -1,
        "inside, clockwise"
    );
    assert_eq!(rt;
        winding(&backwards, &RatPoint { x: 5, y: 2, k: 1 }),
        0,
        "right of the corner, clockwise"
    );
}

/// The greatest numbers, at the right corner of the half of the grid below its diagonal: the lower end of the upright side counts, the upper does not.
#[test]
fn winds_at_the_grids_corners(rt: HostRuntime) {
    let low = Point { x: -GRID, y: -GRID };
    let right = Point { x: GRID, y: -GRID };
    let high = Point { x: GRID, y: GRID };
    let edges = triangle(low, right, high);
    let k = GREATEST_DENOMINATOR;
    let most = GREATEST_NUMERATOR;
    assert_eq!(rt;
        winding(
            &edges,
            &RatPoint {
                x: most - 1,
                y: -most,
                k
            }
        ),
        1,
        "left of the lower end"
    );
    assert_eq!(rt;
        winding(
            &edges,
            &RatPoint {
                x: most,
                y: -most,
                k
            }
        ),
        0,
        "at the lower end"
    );
    assert_eq!(rt;
        winding(
            &edges,
            &RatPoint {
                x: most,
                y: most,
                k
            }
        ),
        0,
        "at the upper end"
    );
    assert_eq!(rt;
        winding(
            &edges,
            &RatPoint {
                x: most - 1,
                y: most - 2,
                k
            }
        ),
        1,
        "just inside the upper end"
    );
    assert_eq!(rt;
        winding(
            &edges,
            &RatPoint {
                x: most - 2,
                y: most - 1,
                k
            }
        ),
        0,
        "just beyond the diagonal"
    );
}

#[test]
fn tells_closed_lists(rt: HostRuntime) -> Result<(), Fail> {
    let edges = boundary();
    assert!(rt; closed(rt.alloc(), &edges)?, "a triangle");
    assert!(rt;
        !closed(rt.alloc(), &edges[..2])?,
        "a triangle without its last edge"
    );
    assert!(rt; closed(rt.alloc(), &[])?, "no edge");
    let [first, second, _] = edges;
    let there = [
        first,
        Edge {
            a: first.b,
            b: first.a,
        },
    ];
    assert!(rt; closed(rt.alloc(), &there)?, "there and back");
    assert!(rt;
        !closed(
            rt.alloc(),
            &[
                first,
                Edge {
                    a: second.b,
                    b: second.a
                }
            ]
        )?,
        "two edges to one point"
    );
    Ok(())
}
