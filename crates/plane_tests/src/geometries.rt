// Geometries that are accepted, with what is kept of them, and one refusal of each kind.
use crate::readable::is_readable;
use geom_check::{Domain, GeomRefusal, Geometry, Segment, Source, check};
use grid_geom::{Point, RatPoint};
use in2d_reader::read_in2d;
use std::alloc::Global;
use std::test::*;

// What the check says of the geometry that a text writes.
fn checked(alloc: Global, text: &[u8]) -> Result<Result<Geometry, GeomRefusal>, Fail> {
    let raw = read_in2d(alloc, text).ok().ok_or("the text is a geometry")?;
    if !is_readable(&raw) {
        return Err("the text is within the ranges".into());
    }
    Ok(check(alloc, &raw))
}

/// The geometry that a text writes.
pub fn accepted(alloc: Global, text: &[u8]) -> Result<Geometry, Fail> {
    Ok(
        checked(alloc, text)?
            .ok()
            .ok_or("the geometry is accepted")?,
    )
}

fn refusal(alloc: Global, text: &[u8]) -> Result<Option<GeomRefusal>, Fail> {
    Ok(checked(alloc, text)?.err())
}

#[test]
fn coordinates_round_half_away_from_zero(rt: HostRuntime) -> Result<(), Fail> {
    let text = b"splinecurves2dv2 1 points 1 16384.4999 0.5 2 -2.49 2.5 3 -.5 -249e-2
          segments 1 0 2 1 2 1 0 2 2 3 1 0 2 3 1";
    let geometry = accepted(rt.alloc(), text)?;
    assert_eq!(rt; geometry.shift(), 0);
    let places = [
        Point {
            x: 1_048_576,
            y: 64,
        },
        Point { x: -128, y: 192 },
        Point { x: -64, y: -128 },
    ];
    assert!(rt; geometry.points() == places.as_slice());
    // the next coordinate doesn't fit there, and at a tenth the other two points are one
    let coarser = b"splinecurves2dv2 1 points 1 16384.5 0.5 2 -2.49 2.5 3 -.5 -249e-2
          segments 1 0 2 1 2 1 0 2 2 3 1 0 2 3 1";
    assert!(rt; refusal(rt.alloc(), coarser)? == Some(GeomRefusal::SamePlace { i: 2, j: 3 }));
    Ok(())
}

#[test]
fn coordinates_of_extreme_numbers(rt: HostRuntime) -> Result<(), Fail> {
    let fine = b"splinecurves2dv2 1 points 1 0e99 1e-99 2 16384e-8 0 3 -1e-99 16384e-8
          segments 1 0 2 1 2 1 0 2 2 3 1 0 2 3 1";
    let geometry = accepted(rt.alloc(), fine)?;
    assert_eq!(rt; geometry.shift(), 8);
    let places = [
        Point { x: 0, y: 0 },
        Point { x: 1_048_576, y: 0 },
        Point { x: 0, y: 1_048_576 },
    ];
    assert!(rt; geometry.points() == places.as_slice());
    let coarse = b"splinecurves2dv2 1 points 1 0 0 2 16384499999 0 3 0 1e10
          segments 1 0 2 1 2 1 0 2 2 3 1 0 2 3 1";
    assert_eq!(rt; accepted(rt.alloc(), coarse)?.shift(), -6);
    let past = b"splinecurves2dv2 1 points 1 0 0 2 16384500000 0 3 0 1e99
          segments 1 0 2 1 2 1 0 2 2 3 1 0 2 3 1";
    assert!(rt; refusal(rt.alloc(), past)? == Some(GeomRefusal::TooLarge { point: 2 }));
    Ok(())
}

#[test]
fn sizes_round_down(rt: HostRuntime) -> Result<(), Fail> {
    let text = b"splinecurves2dv2 1 points 1 0 0 -maxh=1 2 1 0 -maxh=199e-7 3 1 1 -maxh=1e-99
          4 .5 1 -maxh=1e99 5 0 1 -maxh=0 6 0 .5 -maxh=-1
          segments 1 0 2 1 2 1 0 2 2 3 1 0 2 3 4 1 0 2 4 5 1 0 2 5 6 1 0 2 6 1";
    let geometry = accepted(rt.alloc(), text)?;
    let [whole, small, least, greatest] = geometry.flagged() else {
        return Err("four points have a size".into());
    };
    assert_eq!(rt; (whole.h, small.h), (640_000, 12));
    assert_eq!(rt; (least.h, greatest.h), (1, 2_097_152));
    Ok(())
}

#[test]
fn square_with_a_hole(rt: HostRuntime) -> Result<(), Fail> {
    let text = b"splinecurves2dv2 1 points 1 0 0 2 3 0 3 3 3 4 0 3 5 1 1 6 2 1 7 2 2 8 1 2
          segments 1 0 2 1 2 1 0 2 2 3 1 0 2 3 4 1 0 2 4 1 0 1 2 5 6 0 1 2 6 7 0 1 2 7 8 0 1 2 8 5";
    let geometry = accepted(rt.alloc(), text)?;
    assert_eq!(rt; geometry.shift(), 3);
    assert_eq!(rt; geometry.points().len(), 8);
    assert!(rt;
        geometry.points().get(6)
            == Some(&Point {
                x: 128_000,
                y: 128_000
            })
    );
    assert_eq!(rt; geometry.segments().len(), 8);
    assert!(rt; geometry.flagged().is_empty());
    assert!(rt;
        geometry.domains()
            == [Domain {
                number: 1,
                maxh: None
            }]
            .as_slice()
    );
    Ok(())
}

#[test]
fn two_touching_loops(rt: HostRuntime) -> Result<(), Fail> {
    let text = b"splinecurves2dv2 1 points 1 0 0 2 2 0 3 1 1 4 2 2 5 0 2
          segments 1 0 2 1 2 1 0 2 2 3 1 0 2 3 1 1 0 2 3 4 1 0 2 4 5 1 0 2 5 3";
    let geometry = accepted(rt.alloc(), text)?;
    assert_eq!(rt; geometry.shift(), 3);
    assert!(rt;
        geometry.domains()
            == [Domain {
                number: 1,
                maxh: None
            }]
            .as_slice()
    );
    Ok(())
}

#[test]
fn sizes_and_domains(rt: HostRuntime) -> Result<(), Fail> {
    let text = b"splinecurves2dv2 1 points 4 0 0 -maxh=0.5 7 3 0 -maxh=0 9 3 3 2 0 3 -maxh=0.25
          segments 3 0 2 4 7 3 0 2 7 9 3 1 2 9 4 1 0 2 9 2 -maxh=0.1 1 0 2 2 4 -bc=7
          materials 3 steel -maxh=0.5 1 air -maxh=1 3 steel -maxh=0.25 2 lead -maxh=9";
    let geometry = accepted(rt.alloc(), text)?;
    let corner = Point { x: 0, y: 0 };
    let last = Point { x: 0, y: 192_000 };
    assert!(rt;
        geometry.flagged()
            == [
                Source {
                    at: corner,
                    h: 32_000
                },
                Source {
                    at: last,
                    h: 16_000
                }
            ]
            .as_slice()
    );
    let first = Domain {
        number: 1,
        maxh: Some(64_000),
    };
    let second = Domain {
        number: 3,
        maxh: Some(16_000),
    };
    assert!(rt; geometry.domains() == [first, second].as_slice());
    let fourth = Segment {
        left: 1,
        right: 0,
        p: 3,
        q: 4,
        bc: 4,
        maxh: Some(6_400),
    };
    assert!(rt; geometry.segments().get(3) == Some(&fourth));
    let fifth = Segment {
        left: 1,
        right: 0,
        p: 4,
        q: 1,
        bc: 7,
        maxh: None,
    };
    assert!(rt; geometry.segments().get(4) == Some(&fifth));
    Ok(())
}

#[test]
fn last_row_without_a_size(rt: HostRuntime) -> Result<(), Fail> {
    let text = b"splinecurves2dv2 1 points 1 0 0 2 1 0 3 0 1 segments 1 0 2 1 2 1 0 2 2 3 1 0 2 3 1
          materials 1 steel -maxh=0.5 1 steel";
    let geometry = accepted(rt.alloc(), text)?;
    assert!(rt;
        geometry.domains()
            == [Domain {
                number: 1,
                maxh: None
            }]
            .as_slice()
    );
    Ok(())
}

#[test]
fn faults_of_rows(rt: HostRuntime) -> Result<(), Fail> {
    let alloc = rt.alloc();
    let no_domain = b"splinecurves2dv2 1 points 1 0 0 2 0 0 segments 0 0 2 1 2";
    assert!(rt; refusal(alloc, no_domain)? == Some(GeomRefusal::NoDomain));
    let too_large = b"splinecurves2dv2 1 points 1 0 0 2 0 1e11 3 0 -1e11 segments 1 0 2 1 2";
    assert!(rt; refusal(alloc, too_large)? == Some(GeomRefusal::TooLarge { point: 2 }));
    let same_place = b"splinecurves2dv2 1 points 5 0 0 6 1 0 3 1e0 0 segments 1 1 2 5 6 1 0 2 3 3";
    assert!(rt; refusal(alloc, same_place)? == Some(GeomRefusal::SamePlace { i: 2, j: 3 }));
    let both_sides =
        b"splinecurves2dv2 1 points 1 0 0 2 1 0 3 0 1 segments 1 0 2 1 1 1 1 2 2 3 1 1 2 3 1";
    assert!(rt; refusal(alloc, both_sides)? == Some(GeomRefusal::SameSides { segment: 2 }));
    let no_length =
        b"splinecurves2dv2 1 points 1 0 0 2 1 0 3 0 1 segments 1 0 2 1 2 1 0 2 2 2 1 0 2 3 1";
    assert!(rt; refusal(alloc, no_length)? == Some(GeomRefusal::NoLength { segment: 2 }));
    Ok(())
}

#[test]
fn faults_of_pairs(rt: HostRuntime) -> Result<(), Fail> {
    let alloc = rt.alloc();
    let bow_tie = b"splinecurves2dv2 1 points 1 0 0 2 1 1 3 1 0 4 0 1
          segments 1 0 2 1 2 1 0 2 2 3 1 0 2 3 4 1 0 2 4 1";
    assert!(rt; refusal(alloc, bow_tie)? == Some(GeomRefusal::Meet { i: 1, j: 3 }));
    let end_in_a_middle = b"splinecurves2dv2 1 points 1 0 0 2 2 0 3 0 2 4 1 0
          segments 1 0 2 1 2 1 0 2 2 3 1 0 2 3 1 1 2 2 3 4";
    assert!(rt; refusal(alloc, end_in_a_middle)? == Some(GeomRefusal::Meet { i: 1, j: 4 }));
    let side_missing = b"splinecurves2dv2 1 points 1 0 0 2 1 0 3 0 1 segments 1 0 2 1 2 1 0 2 2 3";
    assert!(rt;
        refusal(alloc, side_missing)?
            == Some(GeomRefusal::OpenAt {
                point: 1,
                domain: 1
            })
    );
    Ok(())
}

#[test]
fn faults_of_winding_numbers(rt: HostRuntime) -> Result<(), Fail> {
    let alloc = rt.alloc();
    let clockwise =
        b"splinecurves2dv2 1 points 1 0 0 2 1 0 3 0 1 segments 1 0 2 1 3 1 0 2 3 2 1 0 2 2 1";
    let in_the_triangle = RatPoint {
        x: 160_000,
        y: 320_000,
        k: 1,
    };
    assert!(rt;
        refusal(alloc, clockwise)?
            == Some(GeomRefusal::Side {
                domain: 1,
                at: in_the_triangle
            })
    );
    let wrong_label = b"splinecurves2dv2 1 points 1 0 0 2 3 0 3 3 3 4 0 3 5 1 1 6 2 1 7 2 2 8 1 2
          segments 1 0 2 1 2 1 0 2 2 3 1 0 2 3 4 1 0 2 4 1 2 0 2 5 6 2 0 2 6 7 2 0 2 7 8 2 0 2 8 5";
    let in_the_hole = RatPoint {
        x: 96_000,
        y: 96_000,
        k: 1,
    };
    assert!(rt; refusal(alloc, wrong_label)? == Some(GeomRefusal::Overlap { at: in_the_hole }));
    let inside_twice = b"splinecurves2dv2 1 points 1 0 0 2 3 0 3 3 3 4 0 3 5 1 1 6 2 1 7 2 2 8 1 2
          segments 1 0 2 1 2 1 0 2 2 3 1 0 2 3 4 1 0 2 4 1 1 0 2 5 6 1 0 2 6 7 1 0 2 7 8 1 0 2 8 5";
    assert!(rt;
        refusal(alloc, inside_twice)?
            == Some(GeomRefusal::Side {
                domain: 1,
                at: in_the_hole
            })
    );
    Ok(())
}
