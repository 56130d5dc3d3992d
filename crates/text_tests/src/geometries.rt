// What is read of geometries' texts, printed and refused.
use in2d_reader::{Dec, In2dRefusal, print_in2d, read_in2d};
use std::alloc::{AllocError, Global};
use std::fmt::Write;
use std::test::*;

fn dec(digits: i128, scale: i32) -> Dec {
    Dec { digits, scale }
}

#[test]
fn flags_and_materials(rt: HostRuntime) -> Result<(), Fail> {
    let text =
        b"splinecurves2dv2 4 # grid\npoints\n24 -4e2 2e2 -maxh=1 -maxh=2.5 -Maxh=3\n27 0 0 -bc=x\nsegments\n1 0 2 24 27 -bc=7 -maxh=-1\n1 0 2 27 24\nmaterials 1 m#1 -maxh=1 64 points";
    let raw = read_in2d(rt.alloc(), text)
        .ok()
        .ok_or("the text is derived")?;
    assert!(rt; raw.number == dec(4, 0));
    let [a, b] = raw.points.as_slice() else {
        return Err("there are two points".into());
    };
    assert!(rt; a.number == 24 && a.x == dec(-4, 2) && a.maxh == Some(dec(25, -1)));
    assert!(rt; b.number == 27 && b.maxh == None);
    let [first, second] = raw.segments.as_slice() else {
        return Err("there are two segments".into());
    };
    assert!(rt; first.bc == Some(7) && first.maxh == Some(dec(-1, 0)));
    assert!(rt; second.p == 27 && second.bc == None);
    let [m, n] = raw.materials.as_slice() else {
        return Err("there are two materials".into());
    };
    assert!(rt; m.domain == 1 && m.maxh == Some(dec(1, 0)));
    assert_eq!(rt; m.name.as_slice(), b"m#1".as_slice());
    assert_eq!(rt; n.name.as_slice(), b"points".as_slice());
    Ok(())
}

fn refusal(rt: &HostRuntime, text: &[u8]) -> Option<In2dRefusal> {
    read_in2d(rt.alloc(), text).err()
}

#[test]
fn refusals(rt: HostRuntime) {
    let syntax = |word: u64| Some(In2dRefusal::Syntax { word });
    let number = |word: u64| Some(In2dRefusal::Number { word });
    assert!(rt; refusal(&rt, b"") == syntax(1));
    assert!(rt; refusal(&rt, b"splinecurves2dv2 0") == syntax(3));
    assert!(rt; refusal(&rt, b"splinecurves2dv2 0 points -maxh=1") == syntax(4));
    assert!(rt; refusal(&rt, b"splinecurves2dv2 0 points segments 65 0 2 1 1") == syntax(5));
    assert!(rt; refusal(&rt, b"splinecurves2dv2 0 points segments 1 65 2 1 1") == number(6));
    assert!(rt; refusal(&rt, b"splinecurves2dv2 0 points segments 1 0 02 1 1") == number(7));
    assert!(rt; refusal(&rt, b"splinecurves2dv2 0 points 1 0 0 -maxh=x segments") == number(7));
    let curved = b"splinecurves2dv2 0 points 1 0 0 segments 1 0 2 1 1 1 0 3 1 1 1";
    assert!(rt; refusal(&rt, curved) == Some(In2dRefusal::Curved { segment: 2 }));
    let twice = b"splinecurves2dv2 0 points 1 0 0 01 x";
    assert!(rt; refusal(&rt, twice) == Some(In2dRefusal::NumberTwice { word: 7 }));
    let unknown = b"splinecurves2dv2 0 points 1 0 0 segments 1 0 2 1 1 1 0 2 1 2";
    assert!(rt; refusal(&rt, unknown) == Some(In2dRefusal::UnknownPoint { segment: 2 }));
}

/// The text of so many points with different numbers, and what follows them.
fn points(alloc: Global, count: u64, rest: &str) -> Result<String, AllocError> {
    let mut text = String::new(alloc);
    text.push_str("splinecurves2dv2 0 points")?;
    for number in 1..=count {
        write!(text, " {number} 0 0")?;
    }
    text.push_str(rest)?;
    Ok(text)
}

#[test]
fn limits(rt: HostRuntime) -> Result<(), Fail> {
    let too_many = |what: u64| Some(In2dRefusal::TooMany { what });
    let past = points(rt.alloc(), 4_097, "")?;
    assert!(rt; refusal(&rt, past.as_bytes()) == too_many(1));
    let full = points(rt.alloc(), 4_096, " 1")?;
    assert!(rt; refusal(&rt, full.as_bytes()) == too_many(1));
    let twice = points(rt.alloc(), 4_095, " 1")?;
    assert!(rt; refusal(&rt, twice.as_bytes()) == Some(In2dRefusal::NumberTwice { word: 12_289 }));
    let mut segments = points(rt.alloc(), 1, " segments")?;
    for _ in 0..4_096 {
        segments.push_str(" 1 0 2 1 1")?;
    }
    assert!(rt; refusal(&rt, segments.as_bytes()) == None);
    segments.push_str(" 1")?;
    assert!(rt; refusal(&rt, segments.as_bytes()) == too_many(2));
    Ok(())
}

#[test]
fn normal_text(rt: HostRuntime) -> Result<(), Fail> {
    let text =
        b"splinecurves2dv2 +2e1\tpoints 1 255.0E+2 264e2 2 63e2 -138.0E+2 -maxh=-.05 segments\n1 0 2 1 2 -maxh=4046e-1 -bc=11 0 1 2 2 1 materials 1 m#1";
    let normal =
        b"splinecurves2dv2\n2e1\npoints\n1 2550e1 264e2\n2 63e2 -1380e1 -maxh=-0.05\nsegments\n1 0 2 1 2 -bc=11 -maxh=404.6\n0 1 2 2 1\nmaterials\n1 m#1\n";
    let raw = read_in2d(rt.alloc(), text)
        .ok()
        .ok_or("the text is derived")?;
    let printed = print_in2d(rt.alloc(), &raw)?;
    assert_eq!(rt; printed.as_slice(), normal.as_slice());
    Ok(())
}
