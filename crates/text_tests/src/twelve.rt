//! What is held, against its text.

use crate::twelve_text::TWELVE;
use rule_reader::{print_rules, read_rules};
use sample::{geometry, twelve_rules};
use std::test::Fail;

#[test]
fn the_text_of_the_twelve_rules(rt: HostRuntime) -> Result<(), Fail> {
    let read = read_rules(rt.alloc(), TWELVE)
        .ok()
        .ok_or("the text is admitted")?;
    assert_eq!(rt; read.as_slice().len(), 12);
    let held = twelve_rules(rt.alloc())?;
    let text = print_rules(rt.alloc(), &read)?;
    let same = print_rules(rt.alloc(), &held)?;
    assert!(rt; text == same);
    Ok(())
}

#[test]
fn two_squares_each_way(rt: HostRuntime) -> Result<(), Fail> {
    let squares = geometry(rt.alloc(), 2)
        .ok()
        .ok_or("the squares are accepted")?;
    assert_eq!(rt; squares.shift(), 3);
    assert_eq!(rt; squares.points().len(), 9);
    assert_eq!(rt; squares.segments().len(), 12);
    assert_eq!(rt; squares.domains().len(), 4);
    Ok(())
}
