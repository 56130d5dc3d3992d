// Lists of numbers, and lists of lists, keep their items and are equal where these are.

use crate::List;
use std::test::Fail;

#[test]
fn lists_keep_their_items(rt: HostRuntime) -> Result<(), Fail> {
    let alloc = rt.alloc();
    let numbers = List::from_vec(vec![in alloc; 1u64, 2]?);
    assert_eq!(rt; numbers.as_slice(), [1, 2].as_slice());
    let same = List::from_vec(vec![in alloc; 1u64, 2]?);
    assert!(rt; numbers == same);
    let other = List::from_vec(vec![in alloc; 1u64, 3]?);
    assert!(rt; numbers != other);
    let lists = List::from_vec(vec![in alloc; numbers, other]?);
    assert_eq!(rt; lists.as_slice().len(), 2);
    assert_eq!(rt; same.into_vec().as_slice(), [1, 2].as_slice());
    Ok(())
}
