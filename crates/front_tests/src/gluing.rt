// Elements that may be glued to the two fronts, and ones that may not.
use crate::fronts::{ring, triangle};
use admission::{GlueRefusal, admit};
use grid_geom::{Element, Point};
use std::test::Fail;

#[test]
fn admits_the_only_element_once(rt: HostRuntime) -> Result<(), Fail> {
    let front = triangle(rt.alloc())?;
    let once = [Element::from_vec(vec![in rt.alloc(); 1, 2, 3]?)];
    assert!(rt; admit(rt.alloc(), &front, &[], &once).is_ok());
    let twice = [
        Element::from_vec(vec![in rt.alloc(); 1, 2, 3]?),
        Element::from_vec(vec![in rt.alloc(); 1, 2, 3]?),
    ];
    match admit(rt.alloc(), &front, &[], &twice) {
        Err(refusal) => assert_eq!(rt;
            refusal,
            GlueRefusal::Outside {
                element: 2,
                winding: 0
            }
        ),
        Ok(_) => assert!(rt; false),
    }
    Ok(())
}

#[test]
fn refuses_a_corner_on_a_line_and_a_turned_element(rt: HostRuntime) -> Result<(), Fail> {
    let front = triangle(rt.alloc())?;
    let made = [Point {
        x: 320_000,
        y: 320_000,
    }];
    let half = [Element::from_vec(vec![in rt.alloc(); 1, 2, 4]?)];
    match admit(rt.alloc(), &front, &made, &half) {
        Err(refusal) => assert_eq!(rt;
            refusal,
            GlueRefusal::CornerOnLine {
                element: 1,
                line: 2
            }
        ),
        Ok(_) => assert!(rt; false),
    }
    let turned = [Element::from_vec(vec![in rt.alloc(); 1, 3, 2]?)];
    match admit(rt.alloc(), &front, &[], &turned) {
        Err(refusal) => assert_eq!(rt; refusal, GlueRefusal::Turned { element: 1 }),
        Ok(_) => assert!(rt; false),
    }
    Ok(())
}

#[test]
fn refuses_a_corner_on_a_line_of_the_hole(rt: HostRuntime) -> Result<(), Fail> {
    let front = ring(rt.alloc())?;
    let made = [Point {
        x: 96_000,
        y: 64_000,
    }];
    let touching = [Element::from_vec(vec![in rt.alloc(); 1, 2, 9]?)];
    match admit(rt.alloc(), &front, &made, &touching) {
        Err(refusal) => assert_eq!(rt;
            refusal,
            GlueRefusal::CornerOnLine {
                element: 1,
                line: 5
            }
        ),
        Ok(_) => assert!(rt; false),
    }
    Ok(())
}

#[test]
fn refuses_what_covers_the_hole(rt: HostRuntime) -> Result<(), Fail> {
    let front = ring(rt.alloc())?;
    let covering = [Element::from_vec(vec![in rt.alloc(); 1, 2, 3]?)];
    match admit(rt.alloc(), &front, &[], &covering) {
        Err(refusal) => assert_eq!(rt;
            refusal,
            GlueRefusal::Met {
                element: 1,
                line: 5
            }
        ),
        Ok(_) => assert!(rt; false),
    }
    Ok(())
}

#[test]
fn glues_what_is_admitted(rt: HostRuntime) -> Result<(), Fail> {
    let mut front = ring(rt.alloc())?;
    let elements = [Element::from_vec(vec![in rt.alloc(); 1, 2, 5]?)];
    match admit(rt.alloc(), &front, &[], &elements) {
        Err(_) => assert!(rt; false),
        Ok(_) => {
            front.reserve(0, 1)?;
            front.glue(&elements[0]);
            assert_eq!(rt; front.lines(), 9);
            assert_eq!(rt; front.next_line(1), Some(2));
            assert_eq!(rt; front.line(9), Some((5, 2)));
            assert_eq!(rt; front.line_between(1, 5), Some(10));
            assert_eq!(rt; front.area(), 53_248_000_000);
        }
    }
    Ok(())
}
