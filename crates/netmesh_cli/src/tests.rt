//! Calls over folders and sinks in memory that fail where they are told to, and over ones that never fail.
//! Expected texts are written out by hand. The folders of `examples` show the program as it is used.
use crate::{NoGate, netmesh};
use folder_io::{FolderMem, FolderSure, SinkMem, SinkSure};
use std::alloc::{AllocError, Global};
use std::test::Fail;

const TRIANGLE: &str = "splinecurves2dv2
1
points
1 0 0
2 1 0
3 0 1
segments
1 0 2 1 2
1 0 2 2 3
1 0 2 3 1
";

const LOG: &str = "netmeshlog 1
run 4 2097152 300 10 -
domain 1 3 3 0 3 stuck
p 0 0
p 640000 0
p 0 640000
l 1 2
l 2 3
l 3 1
f 1 1 2
f 2 2 3
f 3 3 1
end
";

const MESH: &str = "mesh3d
dimension
2
geomtype
0
surfaceelements
0
volumeelements
0
edgesegmentsgi2
3
1 0 1 2 0 0 1 0 1 0 1 0
2 0 2 3 0 0 1 0 2 0 2 0
3 0 3 1 0 0 1 0 3 0 3 0
points
3
0.0000000000 0.0000000000 0
1.0000000000 0.0000000000 0
0.0000000000 1.0000000000 0
endmesh
";

const LINE: &str = "stuck domains 1 applications 0 points 3 elements 0 front 3\n";

fn text(alloc: Global, text: &str) -> Result<String, AllocError> {
    String::from_str(alloc, text)
}

fn bytes(alloc: Global, text: &str) -> Result<Vec<u8>, AllocError> {
    text.as_bytes().to_vec(alloc)
}

/// The words of a call of `mesh`.
fn mesh_words(alloc: Global) -> Result<Vec<String>, AllocError> {
    let mut words = Vec::new(alloc);
    for word in ["mesh", "g", "r", "m", "l"] {
        words.push(text(alloc, word)?)?;
    }
    Ok(words)
}

/// A folder that holds these texts as the geometry and the rules.
fn folder(
    alloc: Global,
    geometry: &str,
    rules: &str,
    fail: &[u64],
) -> Result<FolderMem, AllocError> {
    let names = [text(alloc, "g")?, text(alloc, "r")?];
    let files = [bytes(alloc, geometry)?, bytes(alloc, rules)?];
    FolderMem::holding(alloc, &names, &files, fail)
}

#[test]
fn a_triangle_is_meshed_over_what_never_fails(rt: HostRuntime) -> Result<(), Fail> {
    let alloc = rt.alloc();
    let names = [text(alloc, "g")?, text(alloc, "r")?];
    let files = [bytes(alloc, TRIANGLE)?, bytes(alloc, " \t\r\n")?];
    let mut held = FolderSure::holding(alloc, &names, &files)?;
    let mut out = SinkSure::new(alloc);
    let outcome = netmesh(
        &rt,
        alloc,
        &mesh_words(alloc)?,
        &mut held,
        &mut out,
        &NoGate,
    );
    assert_eq!(rt; outcome.status(), 1);
    assert_eq!(rt; held.get("l"), Some(LOG.as_bytes()));
    assert_eq!(rt; held.get("m"), Some(MESH.as_bytes()));
    assert_eq!(rt; out.written(), LINE.as_bytes());
    Ok(())
}

#[test]
fn a_failed_take_of_the_rules_is_named(rt: HostRuntime) -> Result<(), Fail> {
    let alloc = rt.alloc();
    let mut held = folder(alloc, TRIANGLE, "", &[2])?;
    let mut out = SinkMem::new(alloc, &[])?;
    let outcome = netmesh(
        &rt,
        alloc,
        &mesh_words(alloc)?,
        &mut held,
        &mut out,
        &NoGate,
    );
    assert_eq!(rt; outcome.status(), 5);
    assert_eq!(rt; out.written(), b"refused folder 1 r\n".as_slice());
    assert_eq!(rt; held.get("l"), None);
    Ok(())
}

#[test]
fn a_failed_put_of_the_log_leaves_the_mesh_unput(rt: HostRuntime) -> Result<(), Fail> {
    let alloc = rt.alloc();
    let mut held = folder(alloc, TRIANGLE, "", &[3])?;
    let mut out = SinkMem::new(alloc, &[])?;
    let outcome = netmesh(
        &rt,
        alloc,
        &mesh_words(alloc)?,
        &mut held,
        &mut out,
        &NoGate,
    );
    assert_eq!(rt; outcome.status(), 5);
    assert_eq!(rt; out.written(), b"refused folder 1 l\n".as_slice());
    assert_eq!(rt; held.faults(), 1);
    assert_eq!(rt; held.last(), "l");
    assert_eq!(rt; held.get("m"), None);
    Ok(())
}

#[test]
fn an_answer_that_is_not_taken_leaves_what_was_put(rt: HostRuntime) -> Result<(), Fail> {
    let alloc = rt.alloc();
    let mut held = folder(alloc, TRIANGLE, "", &[])?;
    let mut out = SinkMem::new(alloc, &[1])?;
    let outcome = netmesh(
        &rt,
        alloc,
        &mesh_words(alloc)?,
        &mut held,
        &mut out,
        &NoGate,
    );
    assert_eq!(rt; outcome.status(), 6);
    assert_eq!(rt; held.get("l"), Some(LOG.as_bytes()));
    assert_eq!(rt; held.get("m"), Some(MESH.as_bytes()));
    Ok(())
}
