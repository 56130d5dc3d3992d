// Sizes at points and pieces of edges, worked out by hand.
ghost use Rattle.size_field.specs.Size.{AreLimits};

use crate::geometries::accepted;
use geom_check::Source;
use grid_geom::{LONGEST, Point};
use size_field::{Piece, Pieces, Sizes, cut};
use std::alloc::Global;
use std::test::Fail;

#[test]
fn sizes_grow_from_their_sources(rt: HostRuntime) -> Result<(), Fail> {
    let origin = Point { x: 0, y: 0 };
    let right = Point { x: 640_000, y: 0 };
    let middle = Point { x: 320_000, y: 0 };
    let mut sizes = Sizes::new(rt.alloc(), LONGEST, 300);
    assert_eq!(rt; sizes.at(middle), 2_097_152);
    sizes.add(Source {
        at: origin,
        h: 640_000,
    })?;
    sizes.add(Source {
        at: right,
        h: 640_000,
    })?;
    // 640000, and 300 thousandths of 320000
    assert_eq!(rt; sizes.at(middle), 736_000);
    // of two sources at one place the lesser counts
    sizes.add(Source { at: right, h: 1 })?;
    assert_eq!(rt; sizes.at(middle), 96_001);
    assert_eq!(rt; sizes.at(right), 1);
    // 300 thousandths of 3 and of 4, rounded down
    assert_eq!(rt; sizes.at(Point { x: 639_997, y: -2 }), 1);
    assert_eq!(rt; sizes.at(Point { x: 640_001, y: 4 }), 2);
    Ok(())
}

// The pieces of the geometry that a text writes, where none may be longer than this.
fn pieces_of(alloc: Global, text: &[u8], most: u64) -> Result<Pieces, Fail>
    requires { AreLimits most 0 }
{
    let geometry = accepted(alloc, text)?;
    Ok(cut(alloc, &geometry, most, 0)?)
}

#[test]
fn edges_are_halved(rt: HostRuntime) -> Result<(), Fail> {
    let triangle = b"splinecurves2dv2 1 points 1 0 0 2 1 0 3 0 1
          segments 1 0 2 1 2 1 0 2 2 3 1 0 2 3 1";
    let right = Point { x: 640_000, y: 0 };
    let middle = Point {
        x: 320_000,
        y: 320_000,
    };
    let halves = pieces_of(rt.alloc(), triangle, 320_000)?;
    let [_, _, first, second, _, _] = halves.as_slice() else {
        return Err("each of three segments is halved".into());
    };
    assert_eq!(rt;
        *first,
        Piece {
            segment: 2,
            a: right,
            b: middle
        }
    );
    assert_eq!(rt; (second.segment, second.a), (2, middle));
    // as long as its bound is not longer
    assert_eq!(rt;
        pieces_of(rt.alloc(), triangle, 640_000)?.as_slice().len(),
        3
    );
    Ok(())
}

// At six halvings of 192 steps the next middle is off the grid; the upright side is halved eight
// times, and not a ninth time.
#[test]
fn edges_are_halved_no_further(rt: HostRuntime) -> Result<(), Fail> {
    let narrow = b"splinecurves2dv2 1 points 1 0 0 2 3 0 3 0 16384
          segments 1 0 2 1 2 1 0 2 2 3 1 0 2 3 1";
    let pieces = pieces_of(rt.alloc(), narrow, 1)?;
    assert_eq!(rt; pieces.as_slice().len(), 64 + 64 + 256);
    Ok(())
}
