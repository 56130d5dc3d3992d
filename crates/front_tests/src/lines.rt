// Values from outside, worked by hand on the two fronts.
use crate::fronts::{ring, triangle};
use grid_geom::{Bounds, Element, Point};
use std::test::Fail;

#[test]
fn looks_up_what_is_there(rt: HostRuntime) -> Result<(), Fail> {
    let front = triangle(rt.alloc())?;
    assert_eq!(rt; front.lines(), 3);
    assert_eq!(rt; front.line(2), Some((2, 3)));
    assert_eq!(rt; front.line(4), None);
    assert_eq!(rt; front.line_between(3, 1), Some(3));
    assert_eq!(rt; front.line_between(1, 3), None);
    assert_eq!(rt; front.next_line(1), Some(2));
    assert_eq!(rt; front.next_line(3), None);
    assert_eq!(rt; front.number_at(Point { x: 0, y: 640_000 }), Some(3));
    assert_eq!(rt; front.number_at(Point { x: 1, y: 1 }), None);
    assert!(rt; front.is_front_point(1));
    assert_eq!(rt; front.area(), 409_600_000_000);
    Ok(())
}

#[test]
fn the_only_element_leaves_nothing(rt: HostRuntime) -> Result<(), Fail> {
    let mut front = triangle(rt.alloc())?;
    front.reserve(0, 1)?;
    front.glue(&Element::from_vec(vec![in rt.alloc(); 1, 2, 3]?));
    assert_eq!(rt; front.lines(), 0);
    assert_eq!(rt; front.area(), 0);
    assert_eq!(rt; front.next_line(0), None);
    assert!(rt; !front.is_front_point(1));
    Ok(())
}

#[test]
fn a_walk_meets_the_near_lines(rt: HostRuntime) -> Result<(), Fail> {
    let front = triangle(rt.alloc())?;
    // the box in the corner at the second point meets lines 1 and 2 alone
    let corner = Bounds {
        lo: Point { x: 600_000, y: -1 },
        hi: Point { x: 700_000, y: 1 },
    };
    let mut met = 0;
    if let Some(first) = front.first_near(&corner) {
        met += first.line;
        if let Some(second) = front.next_near(&corner, &first) {
            met += 10 * second.line;
            assert!(rt; front.next_near(&corner, &second).is_none());
        }
    }
    assert!(rt; met == 12 || met == 21);
    let numbers = front.near_lines(rt.alloc(), &corner)?;
    assert!(rt; numbers.len() == 2 && numbers.contains(&1) && numbers.contains(&2));
    Ok(())
}

#[test]
fn a_hole_takes_from_the_area(rt: HostRuntime) -> Result<(), Fail> {
    let front = ring(rt.alloc())?;
    assert_eq!(rt; front.lines(), 8);
    assert_eq!(rt; front.area(), 65_536_000_000);
    assert_eq!(rt; front.line_between(6, 5), Some(5));
    assert_eq!(rt; front.line_between(5, 6), None);
    assert_eq!(rt; front.next_line(8), None);
    assert!(rt; front.is_front_point(7));
    Ok(())
}
