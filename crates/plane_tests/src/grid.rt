// The calls at the bounds of what they take, and the predicates against a plain search for a common rational point on a small grid.
ghost use Rattle.std.specs.Prelude.{◌<◌};
ghost use Rattle.std.specs.List.{All};
ghost use Rattle.grid_geom.specs.Bounds.{IsOnGrid};

use grid_geom::{
    Point, RatPoint, apart, double_area, in_open, isqrt, on_grid, on_open, orient, orient_rat,
    round_div, segments_meet, strictly_convex, tangle,
};
use std::process::Abort;

const G: i64 = 1_048_576;

#[test]
fn grid_ends_at_its_bound(rt: HostRuntime) {
    let cases = [
        ((G, -G), true),
        ((G + 1, 0), false),
        ((0, -G - 1), false),
        ((i64::MIN, 0), false),
        ((0, i64::MAX), false),
    ];
    for ((x, y), want) in cases {
        assert_eq!(rt; on_grid(Point { x, y }), want, "at {x} {y}");
    }
}

#[test]
fn orientation_at_the_bounds(rt: HostRuntime) {
    let a = Point {
        x: -1_048_576,
        y: -1_048_576,
    };
    let b = Point {
        x: 1_048_576,
        y: -1_048_576,
    };
    let c = Point {
        x: 1_048_576,
        y: 1_048_576,
    };
    // 2^42
    assert_eq!(rt; orient(a, b, c), 4_398_046_511_104);
    assert_eq!(rt; orient(b, a, c), -4_398_046_511_104);
    // 2^91 + 2^41, and 2^92
    let high = RatPoint {
        x: -1_180_591_620_717_411_303_424,
        y: 1_180_591_620_717_411_303_424,
        k: 1,
    };
    assert_eq!(rt;
        orient_rat(a, b, &high),
        2_475_880_078_570_762_748_821_504_000
    );
    let far = RatPoint {
        x: 1_180_591_620_717_411_303_424,
        y: 1_180_591_620_717_411_303_424,
        k: 1_125_899_906_842_624,
    };
    assert_eq!(rt;
        orient_rat(a, b, &far),
        4_951_760_157_141_521_099_596_496_896
    );
    // four times the square of 2^20, doubled
    assert_eq!(rt;
        double_area(&[
            a,
            b,
            c,
            Point {
                x: -1_048_576,
                y: 1_048_576
            }
        ]),
        8_796_093_022_208
    );
}

#[test]
fn roots_and_quotients(rt: HostRuntime) {
    assert_eq!(rt; isqrt(0), 0);
    assert_eq!(rt; isqrt(3), 1);
    assert_eq!(rt; isqrt(4), 2);
    // 2^100 - 1 and 2^100
    assert_eq!(rt;
        isqrt(1_267_650_600_228_229_401_496_703_205_375),
        1_125_899_906_842_623
    );
    assert_eq!(rt;
        isqrt(1_267_650_600_228_229_401_496_703_205_376),
        1_125_899_906_842_624
    );
    assert_eq!(rt; round_div(7, 2), 4);
    assert_eq!(rt; round_div(-7, 2), -3);
    assert_eq!(rt; round_div(-8, 3), -3);
    assert_eq!(rt; round_div(-7, 3), -2);
    // 2^125 over 1, over 2^90, and -2^125 over 3
    assert_eq!(rt;
        round_div(42_535_295_865_117_307_932_921_825_928_971_026_432, 1),
        42_535_295_865_117_307_932_921_825_928_971_026_432
    );
    assert_eq!(rt;
        round_div(
            42_535_295_865_117_307_932_921_825_928_971_026_432,
            1_237_940_039_285_380_274_899_124_224
        ),
        34_359_738_368
    );
    assert_eq!(rt;
        round_div(-42_535_295_865_117_307_932_921_825_928_971_026_432, 3),
        -14_178_431_955_039_102_644_307_275_309_657_008_811
    );
}

// The grid of three by three points, by numbers from 0 to 8.
fn point(n: u32) -> Point
    requires { n < 9 }
    ensures { IsOnGrid result }
{
    Point {
        x: i64::from(n % 3),
        y: i64::from(n / 3),
    }
}

// Two lines of this grid cross in a point of either segment that is at a whole number of 840ths of its length.
const PARTS: i64 = 840;

// The place t/840 of the way from a to b, in 840ths of a grid unit.
fn place(t: i64, a: Point, b: Point) -> Point {
    Point {
        x: a.x
            .wrapping_mul(PARTS)
            .wrapping_add(t.wrapping_mul(b.x.wrapping_sub(a.x))),
        y: a.y
            .wrapping_mul(PARTS)
            .wrapping_add(t.wrapping_mul(b.y.wrapping_sub(a.y))),
    }
}

// The plain cross product of the ways from a to b and from a to p, for p in 840ths.
fn cross(p: Point, a: Point, b: Point) -> i64 {
    let (x, y) = (a.x.wrapping_mul(PARTS), a.y.wrapping_mul(PARTS));
    let along = b.x.wrapping_sub(a.x).wrapping_mul(p.y.wrapping_sub(y));
    along.wrapping_sub(b.y.wrapping_sub(a.y).wrapping_mul(p.x.wrapping_sub(x)))
}

// Whether p, in 840ths, is on the closed segment c-d.
fn is_on(p: Point, c: Point, d: Point) -> bool {
    let (low, high) = (place(0, c, d), place(PARTS, c, d));
    cross(p, c, d) == 0
        && low.x.min(high.x) <= p.x
        && p.x <= low.x.max(high.x)
        && low.y.min(high.y) <= p.y
        && p.y <= low.y.max(high.y)
}

// How many places of a-b are on c-d, and whether each of them is an end of both.
fn shared(a: Point, b: Point, c: Point, d: Point) -> (u32, bool) {
    let mut places: u32 = 0;
    let mut ends = true;
    for t in 0..841u32 {
        let p = place(i64::from(t), a, b);
        if is_on(p, c, d) {
            places = places.saturating_add(1);
            ends &= (t == 0 || t == 840) && (p == place(0, c, d) || p == place(PARTS, c, d));
        }
    }
    (places, ends)
}

#[test]
fn segments_against_a_search(rt: HostRuntime) {
    for first in 0..81u32 {
        let (a, b) = (point(first % 9), point(first / 9));
        for second in 0..81u32 {
            let (c, d) = (point(second % 9), point(second / 9));
            let (places, ends) = shared(a, b, c, d);
            assert_eq!(rt;
                segments_meet(a, b, c, d),
                places > 0,
                "at {first} and {second}"
            );
            if a != b && c != d {
                assert_eq!(rt;
                    tangle(a, b, c, d),
                    places > 1 || (places == 1 && !ends),
                    "at {first} and {second}"
                );
                assert_eq!(rt;
                    on_open(c, a, b),
                    is_on(place(0, c, d), a, b) && c != a && c != b,
                    "at {first} and {second}"
                );
            }
        }
    }
}

// Whether some place of a-b is strictly left of each side.
fn enters(a: Point, b: Point, corners: &[Point]) -> bool {
    for t in 0..841u32 {
        let p = place(i64::from(t), a, b);
        let mut inside = true;
        for i in 0..corners.len() {
            inside &= cross(p, corners[i], corners[(i + 1) % corners.len()]) > 0;
        }
        if inside {
            return true;
        }
    }
    false
}

// Compares the polygon's calls with the search, for each segment of the grid.
fn check_polygon(rt: &impl Abort, corners: &[Point])
    requires { All IsOnGrid corners.now }
{
    assert!(rt; strictly_convex(corners));
    for ends in 0..81u32 {
        let (a, b) = (point(ends % 9), point(ends / 9));
        if a != b && strictly_convex(corners) {
            assert_eq!(rt; apart(a, b, corners), !enters(a, b, corners), "at {ends}");
        } else {
            assert_eq!(rt; in_open(a, corners), enters(a, a, corners), "at {ends}");
        }
    }
}

#[test]
fn polygons_against_a_search(rt: HostRuntime) {
    check_polygon(
        &rt,
        &[
            Point { x: 0, y: 0 },
            Point { x: 2, y: 1 },
            Point { x: 1, y: 2 },
        ],
    );
    check_polygon(
        &rt,
        &[
            Point { x: 0, y: 0 },
            Point { x: 2, y: 0 },
            Point { x: 2, y: 2 },
            Point { x: 0, y: 2 },
        ],
    );
    let six = [
        Point { x: 0, y: 0 },
        Point { x: 1, y: 0 },
        Point { x: 2, y: 1 },
        Point { x: 2, y: 2 },
        Point { x: 1, y: 2 },
        Point { x: 0, y: 1 },
    ];
    check_polygon(&rt, &six);
    // a corner on a side, and the other way round
    assert_eq!(rt;
        strictly_convex(&[
            Point { x: 0, y: 0 },
            Point { x: 1, y: 0 },
            Point { x: 2, y: 0 },
            Point { x: 0, y: 2 }
        ]),
        false
    );
    assert_eq!(rt;
        strictly_convex(&[
            Point { x: 0, y: 0 },
            Point { x: 1, y: 2 },
            Point { x: 2, y: 1 }
        ]),
        false
    );
}
