//! Each kind of sentence once, as a person reads it.
use fault_text::{File, Refused, sentence};
use std::alloc::{AllocError, Global};
use std::io::ErrorKind;
use std::test::Fail;

const PLATE: &[u8] =
    b"splinecurves2dv2\n1 # comment\npoints\n7 0 0 -maxh=1\n8 1 0\n9\t0 x2\nsegments\n";

const SHAPE: &[u8] =
    b"splinecurves2dv2 1 points\n7 0 0\n8 1 0 -x\n9 0 1\nsegments\n1 0 2 7 8\n1 0 2 8 9 -bc=2\n1 0 2 9 7\n";

fn plate(text: &[u8]) -> File<'_> {
    File {
        name: "plate.in2d",
        text,
    }
}

#[test]
fn a_word_is_shown_with_its_line_and_column(rt: HostRuntime) -> Result<(), Fail> {
    let file = plate(PLATE);
    let said = sentence(
        rt.alloc(),
        &Refused::In2d {
            file,
            numbers: &[2, 13],
        },
    )?;
    assert_eq!(rt;
        said.as_str(),
        "plate.in2d:6:5: refused: 'x2' is no number\n"
    );
    let said = sentence(
        rt.alloc(),
        &Refused::In2d {
            file,
            numbers: &[1, 15],
        },
    )?;
    assert_eq!(rt;
        said.as_str(),
        "plate.in2d: refused: the file ends where a word is needed\n"
    );
    Ok(())
}

#[test]
fn rows_are_shown_with_their_own_numbers_and_lines(rt: HostRuntime) -> Result<(), Fail> {
    let file = plate(SHAPE);
    let said = sentence(
        rt.alloc(),
        &Refused::Geometry {
            file,
            numbers: &[6, 1, 3],
        },
    )?;
    assert_eq!(rt;
        said.as_str(),
        "plate.in2d:6:1: refused: segment 1 and segment 3 (line 8) share more than one common end\n"
    );
    let said = sentence(
        rt.alloc(),
        &Refused::Geometry {
            file,
            numbers: &[7, 2, 1],
        },
    )?;
    assert_eq!(rt;
        said.as_str(),
        "plate.in2d:3:1: refused: the boundary of domain 1 is open at point '8'\n"
    );
    Ok(())
}

#[test]
fn a_place_is_shown_in_the_lengths_of_the_file(rt: HostRuntime) -> Result<(), Fail> {
    let file = plate(SHAPE);
    let numbers = [9, 160_000, 320_000, 1];
    let said = sentence(
        rt.alloc(),
        &Refused::Geometry {
            file,
            numbers: &numbers,
        },
    )?;
    assert_eq!(rt;
        said.as_str(),
        "plate.in2d: refused: two domains overlap at (0.2500000000, 0.5000000000)\n"
    );
    Ok(())
}

#[test]
fn what_is_no_printable_sign_is_made_visible(rt: HostRuntime) -> Result<(), Fail> {
    let file = File {
        name: "a.rul",
        text: b"rule \"Free\"\n  quality 1\n rule\x07",
    };
    let said = sentence(
        rt.alloc(),
        &Refused::Rules {
            file,
            numbers: &[5, 1],
        },
    )?;
    assert_eq!(rt;
        said.as_str(),
        "a.rul:1:1: refused: rule 1 has four or more loose starts\n"
    );
    let said = sentence(
        rt.alloc(),
        &Refused::Folder {
            name: "b\x1b",
            fault: 3,
            limit: 1_048_576,
            reason: None,
        },
    )?;
    assert_eq!(rt; said.as_str(), "b\\x1b: refused: there is no such file\n");
    Ok(())
}

/// What is said of the words of a line, which single spaces part.
fn said_of(alloc: Global, line: &str, fault: u32) -> Result<String, AllocError> {
    let mut words = Vec::new(alloc);
    for word in line.split(' ') {
        words.push(String::from_str(alloc, word)?)?;
    }
    sentence(
        alloc,
        &Refused::Words {
            words: &words,
            fault,
        },
    )
}

#[test]
fn words_are_answered_by_the_form_of_their_verb(rt: HostRuntime) -> Result<(), Fail> {
    let said = said_of(rt.alloc(), "geom --maxh", 3)?;
    assert_eq!(rt;
        said.as_str(),
        "netmesh: refused: '--maxh', word 2, can't stand there; the form is geom GEOMETRY\n"
    );
    Ok(())
}

#[test]
fn a_number_and_a_name_at_fault_are_shown(rt: HostRuntime) -> Result<(), Fail> {
    let said = said_of(rt.alloc(), "gen 8 17", 4)?;
    assert_eq!(rt;
        said.as_str(),
        "netmesh: refused: '17', word 3, is out of range, or no number; the form is gen N M: N is 1 to 8, M 1 to 16\n"
    );
    let said = said_of(rt.alloc(), "mesh g r x --class 3 x", 5)?;
    assert_eq!(rt;
        said.as_str(),
        "netmesh: refused: 'x', word 7, is LOG, and MESH has the same name\n"
    );
    Ok(())
}

/// What is said of a file that failed for this reason.
fn said_of_folder(alloc: Global, reason: ErrorKind) -> Result<String, AllocError> {
    sentence(
        alloc,
        &Refused::Folder {
            name: "m",
            fault: 1,
            limit: 1_048_576,
            reason: Some(reason),
        },
    )
}

#[test]
fn the_reason_of_the_system_is_added(rt: HostRuntime) -> Result<(), Fail> {
    let said = said_of_folder(rt.alloc(), ErrorKind::StorageFull)?;
    assert_eq!(rt;
        said.as_str(),
        "m: refused: the file can't be read or written: the disk is full\n"
    );
    let said = said_of_folder(rt.alloc(), ErrorKind::QuotaExceeded)?;
    assert_eq!(rt;
        said.as_str(),
        "m: refused: the file can't be read or written: quota exceeded\n"
    );
    Ok(())
}

#[test]
fn a_state_that_a_log_does_not_have_is_named(rt: HostRuntime) -> Result<(), Fail> {
    let file = File {
        name: "a.netmeshlog",
        text: b"netmeshlog 1\n",
    };
    let said = sentence(
        rt.alloc(),
        &Refused::Log {
            file,
            numbers: &[4, 1, 2],
        },
    )?;
    assert_eq!(rt;
        said.as_str(),
        "a.netmeshlog: refused: the log has no step 2 of domain 1\n"
    );
    Ok(())
}
