// Hits of small sets of boxes, worked out by hand.

use digital_tree::Tree;
use grid_geom::{Bounds, Point};
use std::alloc::{AllocError as OutOfMemory, Global};
use std::test::Fail;

/// The square of this size with its least corner at (x, y).
fn square(x: u32, y: u32, size: u32) -> Bounds {
    let (x, y) = (i64::from(x), i64::from(y));
    let size = i64::from(size);
    Bounds {
        lo: Point { x, y },
        hi: Point {
            x: x + size,
            y: y + size,
        },
    }
}

/// How many entries a walk meets, at most 100.
fn hits(tree: &Tree<u32>, b: &Bounds) -> u32 {
    let mut next = tree.first_hit(b);
    for met in 0..100u32 {
        match next {
            None => return met,
            Some(key) => next = tree.next_hit(b, key),
        }
    }
    100
}

/// Sixty-four squares in eight rows, 100 apart.
fn board(alloc: Global) -> Result<Tree<u32>, OutOfMemory> {
    let mut tree = Tree::new(alloc);
    for place in 0..64u32 {
        tree.insert(square(place % 8 * 100, place / 8 * 100, 50), place)?;
    }
    Ok(tree)
}

#[test]
fn of_two_boxes_each_is_met_where_it_is(rt: HostRuntime) -> Result<(), Fail> {
    let mut tree = Tree::new(rt.alloc());
    let first = tree.insert(square(0, 0, 2), 'a')?;
    let second = tree.insert(square(5, 5, 1), 'b')?;
    assert_eq!(rt; tree.first_hit(&square(1, 1, 2)), Some(first));
    assert_eq!(rt; tree.next_hit(&square(1, 1, 2), first), None);
    assert_eq!(rt; tree.remove(first), Some((square(0, 0, 2), 'a')));
    assert_eq!(rt; tree.first_hit(&square(1, 1, 2)), None);
    assert_eq!(rt; tree.first_hit(&square(5, 5, 0)), Some(second));
    assert_eq!(rt; tree.remove(first), None);
    assert_eq!(rt; tree.get(second), Some((square(5, 5, 1), 'b')));
    Ok(())
}

#[test]
fn boxes_that_touch_are_met(rt: HostRuntime) -> Result<(), Fail> {
    let mut tree = Tree::new(rt.alloc());
    let only = tree.insert(square(0, 0, 2), ())?;
    assert_eq!(rt; tree.first_hit(&square(2, 2, 1)), Some(only));
    assert_eq!(rt; tree.first_hit(&square(3, 2, 1)), None);
    Ok(())
}

#[test]
fn a_walk_meets_each_hit_once(rt: HostRuntime) -> Result<(), Fail> {
    let mut tree = board(rt.alloc())?;
    assert_eq!(rt; hits(&tree, &square(0, 0, 1_000)), 64);
    assert_eq!(rt; hits(&tree, &square(100, 100, 250)), 9);
    assert_eq!(rt; hits(&tree, &square(60, 60, 30)), 0);
    // one of the nine goes, and one that stands on another comes
    if let Some(key) = tree.first_hit(&square(200, 200, 1)) {
        assert!(rt; tree.remove(key).is_some());
    }
    assert_eq!(rt; hits(&tree, &square(100, 100, 250)), 8);
    tree.insert(square(300, 300, 50), 64)?;
    assert_eq!(rt; hits(&tree, &square(300, 300, 0)), 2);
    assert_eq!(rt; hits(&tree, &square(100, 100, 250)), 9);
    Ok(())
}

#[test]
fn what_is_reserved_is_there(rt: HostRuntime) -> Result<(), Fail> {
    let mut tree = Tree::new(rt.alloc());
    tree.reserve(3)?;
    let first = tree.insert_reserved(square(0, 0, 1), 1u32);
    let second = tree.insert_reserved(square(0, 0, 1), 2);
    let third = tree.insert_reserved(square(0, 0, 1), 3);
    assert_eq!(rt; hits(&tree, &square(1, 1, 0)), 3);
    assert!(rt; first != second && second != third && third != first);
    Ok(())
}
