//! The smallest run.

use mesh_run::{End, NoGate};
use sample_run::mesh_squares;
use std::test::Fail;

#[test]
fn one_square(rt: HostRuntime) -> Result<(), Fail> {
    let made = mesh_squares(&rt, rt.alloc(), 1, 1, &NoGate)
        .ok()
        .ok_or("nothing is refused")?;
    assert!(rt;
        made.line.as_slice()
            == b"done domains 1 applications 2 points 4 elements 2 front 0\n".as_slice()
    );
    assert_eq!(rt; made.end, End::Done);
    Ok(())
}
