//! The twelve rules as tables, in units of 1/10,000.

use rule_reader::{MapLine, MapPoint, Triple};

/// A new point or a corner: its place x, y, and how much of the second point's deviation in x, of the
/// third point's in x, and of the third point's in y it follows.
#[derive(Clone, Copy)]
pub struct Corner(pub i32, pub i32, pub i32, pub i32, pub i32);

/// A rule without triples of points that must turn.
#[derive(Clone, Copy)]
pub struct Plan<'a> {
    pub name: &'a [u8],
    pub quality: u32,
    pub points: &'a [MapPoint],
    pub lines: &'a [MapLine],
    pub new_points: &'a [Corner],
    pub new_lines: &'a [(u32, u32)],
    pub area: &'a [Corner],
    pub limit: &'a [Corner],
    pub elements: &'a [(u64, u64, u64)],
}

/// The weights of a tolerance where a rule gives none.
const USUAL: Triple = Triple {
    f1: 10_000,
    f2: 0,
    f3: 10_000,
};

const LOOSE: Triple = Triple {
    f1: 3_000,
    f2: 0,
    f3: 3_000,
};

const LOOSEST: Triple = Triple {
    f1: 500,
    f2: 0,
    f3: 500,
};

// the ends of the base, and the places of a third point
const BASE_START: MapPoint = MapPoint {
    x: 0,
    y: 0,
    tol: USUAL,
};

const BASE_END: MapPoint = MapPoint {
    x: 10_000,
    y: 0,
    tol: USUAL,
};

const OVER: MapPoint = MapPoint {
    x: 5_000,
    y: 8_660,
    tol: USUAL,
};

const OVER_LOOSE: MapPoint = MapPoint {
    x: 5_000,
    y: 8_660,
    tol: LOOSE,
};

const OVER_LOOSEST: MapPoint = MapPoint {
    x: 5_000,
    y: 8_660,
    tol: LOOSEST,
};

const WEST: MapPoint = MapPoint {
    x: -5_000,
    y: 8_660,
    tol: USUAL,
};

const EAST: MapPoint = MapPoint {
    x: 15_000,
    y: 8_660,
    tol: USUAL,
};

// the base, and the lines from its end and to its start
const BASE: MapLine = MapLine {
    i: 1,
    j: 2,
    tol: USUAL,
    del: true,
};

const FROM_END: MapLine = MapLine {
    i: 2,
    j: 3,
    tol: USUAL,
    del: true,
};

const FROM_END_LOOSE: MapLine = MapLine {
    i: 2,
    j: 3,
    tol: LOOSE,
    del: true,
};

const TO_START: MapLine = MapLine {
    i: 3,
    j: 1,
    tol: USUAL,
    del: true,
};

const TO_START_LOOSE: MapLine = MapLine {
    i: 3,
    j: 1,
    tol: LOOSE,
    del: true,
};

// the corners at the ends of the base and at the third point, and half way from the ends to it
const FIRST: Corner = Corner(0, 0, 0, 0, 0);

const SECOND: Corner = Corner(10_000, 0, 10_000, 0, 0);

const THIRD: Corner = Corner(5_000, 8_660, 0, 10_000, 10_000);

const LEFT_HALF: Corner = Corner(2_500, 4_330, 0, 5_000, 5_000);

const RIGHT_HALF: Corner = Corner(7_500, 4_330, 5_000, 5_000, 5_000);

// the third points of the rules with two triangles
const WEST_END: Corner = Corner(-5_000, 8_660, 0, 10_000, 10_000);

const EAST_END: Corner = Corner(15_000, 8_660, 0, 10_000, 10_000);

// new points over the base, lower and lower, and beside a third point
const NEW: Corner = Corner(5_000, 8_660, 5_000, 0, 0);

const LOWER: Corner = Corner(5_000, 6_000, 5_000, 0, 0);

const LOWEST: Corner = Corner(5_000, 3_500, 5_000, 0, 0);

const BESIDE_WEST: Corner = Corner(5_000, 8_660, 5_000, 5_000, 5_000);

const BESIDE_EAST: Corner = Corner(5_000, 8_660, 0, 5_000, 5_000);

// the triangle over the base, as a zone and as an element
const TRIANGLE: &[Corner] = &[FIRST, SECOND, THIRD];

const ELEMENT: &[(u64, u64, u64)] = &[(1, 2, 3)];

// the lines from the base's start to the third point, and from there to its end
const BOTH_SIDES: &[(u32, u32)] = &[(1, 3), (3, 2)];

/// A new point over the base.
const FREE_1: Plan<'static> = Plan {
    name: b"Free Triangle (1)",
    quality: 1,
    points: &[BASE_START, BASE_END],
    lines: &[BASE],
    new_points: &[NEW],
    new_lines: BOTH_SIDES,
    area: &[
        FIRST,
        SECOND,
        Corner(15_000, 7_000, 5_000, 0, 0),
        Corner(5_000, 15_000, 5_000, 0, 0),
        Corner(-5_000, 7_000, 5_000, 0, 0),
    ],
    limit: &[FIRST, SECOND, NEW, NEW, NEW],
    elements: ELEMENT,
};

/// A lower new point over the base, from class 5 on.
const FREE_5: Plan<'static> = Plan {
    name: b"Free Triangle (5)",
    quality: 5,
    points: &[BASE_START, BASE_END],
    lines: &[BASE],
    new_points: &[LOWER],
    new_lines: BOTH_SIDES,
    area: &[
        FIRST,
        SECOND,
        Corner(9_000, 6_000, 5_000, 0, 0),
        Corner(5_000, 9_000, 5_000, 0, 0),
        Corner(1_000, 6_000, 5_000, 0, 0),
    ],
    limit: &[FIRST, SECOND, LOWER, LOWER, LOWER],
    elements: ELEMENT,
};

/// A new point close to the base, from class 9 on.
const FREE_9: Plan<'static> = Plan {
    name: b"Free Triangle (9)",
    quality: 9,
    points: &[BASE_START, BASE_END],
    lines: &[BASE],
    new_points: &[LOWEST],
    new_lines: BOTH_SIDES,
    area: &[
        FIRST,
        SECOND,
        Corner(8_000, 3_000, 5_000, 0, 0),
        Corner(5_000, 5_000, 5_000, 0, 0),
        Corner(2_000, 3_000, 5_000, 0, 0),
    ],
    limit: &[FIRST, SECOND, LOWEST, LOWEST, LOWEST],
    elements: ELEMENT,
};

/// Three lines that are the sides of a triangle.
const CLOSE: Plan<'static> = Plan {
    name: b"Close",
    quality: 1,
    points: &[BASE_START, BASE_END, OVER],
    lines: &[BASE, FROM_END, TO_START],
    new_points: &[],
    new_lines: &[],
    area: TRIANGLE,
    limit: &[],
    elements: ELEMENT,
};

/// Closes the corner at the left of the base.
const LEFT: Plan<'static> = Plan {
    name: b"Left",
    quality: 1,
    points: &[BASE_START, BASE_END, OVER],
    lines: &[BASE, TO_START],
    new_points: &[],
    new_lines: &[(3, 2)],
    area: &[
        FIRST,
        SECOND,
        Corner(11_000, 7_500, 5_000, 5_000, 5_000),
        THIRD,
    ],
    limit: &[FIRST, SECOND, RIGHT_HALF, THIRD],
    elements: ELEMENT,
};

/// Closes the corner at the right of the base.
const RIGHT: Plan<'static> = Plan {
    name: b"Right",
    quality: 1,
    points: &[BASE_START, BASE_END, OVER],
    lines: &[BASE, FROM_END],
    new_points: &[],
    new_lines: &[(1, 3)],
    area: &[FIRST, SECOND, THIRD, Corner(-1_000, 7_500, 0, 5_000, 5_000)],
    limit: &[FIRST, SECOND, THIRD, LEFT_HALF],
    elements: ELEMENT,
};

/// Takes a point of the front that stands over the base.
const POINT: Plan<'static> = Plan {
    name: b"Point",
    quality: 1,
    points: &[BASE_START, BASE_END, OVER],
    lines: &[BASE],
    new_points: &[],
    new_lines: BOTH_SIDES,
    area: &[
        FIRST,
        SECOND,
        Corner(11_000, 6_000, 5_000, 5_000, 5_000),
        THIRD,
        Corner(-1_000, 6_000, 0, 5_000, 5_000),
    ],
    limit: &[FIRST, SECOND, RIGHT_HALF, THIRD, LEFT_HALF],
    elements: ELEMENT,
};

/// Two triangles in a wide corner at the left of the base.
const TWO_LEFT: Plan<'static> = Plan {
    name: b"Two at the left",
    quality: 1,
    points: &[BASE_START, BASE_END, WEST],
    lines: &[BASE, TO_START],
    new_points: &[BESIDE_WEST],
    new_lines: &[(4, 2), (3, 4)],
    area: &[
        FIRST,
        SECOND,
        Corner(14_000, 9_000, 5_000, 5_000, 5_000),
        Corner(5_000, 16_000, 5_000, 5_000, 5_000),
        WEST_END,
    ],
    limit: &[FIRST, SECOND, BESIDE_WEST, BESIDE_WEST, WEST_END],
    elements: &[(1, 2, 4), (1, 4, 3)],
};

/// Two triangles in a wide corner at the right of the base.
const TWO_RIGHT: Plan<'static> = Plan {
    name: b"Two at the right",
    quality: 1,
    points: &[BASE_START, BASE_END, EAST],
    lines: &[BASE, FROM_END],
    new_points: &[BESIDE_EAST],
    new_lines: &[(1, 4), (4, 3)],
    area: &[
        FIRST,
        SECOND,
        EAST_END,
        Corner(5_000, 16_000, 0, 5_000, 5_000),
        Corner(-4_000, 9_000, 0, 5_000, 5_000),
    ],
    limit: &[FIRST, SECOND, EAST_END, BESIDE_EAST, BESIDE_EAST],
    elements: &[(1, 2, 4), (2, 3, 4)],
};

/// Closes the corner at the left, with loose tolerances, from class 6 on.
const LEFT_6: Plan<'static> = Plan {
    name: b"Left (6)",
    quality: 6,
    points: &[BASE_START, BASE_END, OVER_LOOSE],
    lines: &[BASE, TO_START_LOOSE],
    new_points: &[],
    new_lines: &[(3, 2)],
    area: TRIANGLE,
    limit: &[],
    elements: ELEMENT,
};

/// Closes the corner at the right, with loose tolerances, from class 6 on.
const RIGHT_6: Plan<'static> = Plan {
    name: b"Right (6)",
    quality: 6,
    points: &[BASE_START, BASE_END, OVER_LOOSE],
    lines: &[BASE, FROM_END_LOOSE],
    new_points: &[],
    new_lines: &[(1, 3)],
    area: TRIANGLE,
    limit: &[],
    elements: ELEMENT,
};

/// Takes any point of the front near the base, from class 8 on.
const ANY_POINT: Plan<'static> = Plan {
    name: b"Any point",
    quality: 8,
    points: &[BASE_START, BASE_END, OVER_LOOSEST],
    lines: &[BASE],
    new_points: &[],
    new_lines: BOTH_SIDES,
    area: TRIANGLE,
    limit: &[],
    elements: ELEMENT,
};

/// The twelve rules, in their order.
pub const PLANS: [Plan<'static>; 12] = [
    FREE_1, FREE_5, FREE_9, CLOSE, LEFT, RIGHT, POINT, TWO_LEFT, TWO_RIGHT, LEFT_6, RIGHT_6,
    ANY_POINT,
];
