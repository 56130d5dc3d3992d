//! What is read, printed and refused.

ghost use Rattle.std.specs.Prelude.{◌≤◌, length};

use crate::rule_texts::{HALF, TWO};
use rule_reader::{RuleRefusal, Rules, Triple, print_rules, read_rules};
use std::alloc::Global;
use std::test::Fail;

/// The rules of a text.
fn read(alloc: Global, text: &[u8]) -> Result<Rules, Fail> {
    let rules = read_rules(alloc, text).ok().ok_or("the text is admitted")?;
    Ok(rules)
}

/// The normal text of the rules of a text.
fn normal(alloc: Global, text: &[u8]) -> Result<Vec<u8>, Fail> {
    match read_rules(alloc, text) {
        Ok(rules) => {
            let text = print_rules(alloc, &rules)?;
            Ok(text)
        }
        Err(_) => Err("the text is admitted".into()),
    }
}

/// Where this part first stands in a text, or the text's end.
fn place_of(text: &[u8], part: &[u8]) -> usize
    ensures { result ≤ length text.now }
{
    for start in 0..text.len() {
        if text[start..].starts_with(part) {
            return start;
        }
    }
    text.len()
}

#[test]
fn the_rules_of_a_text(rt: HostRuntime) -> Result<(), Fail> {
    let rules = read(rt.alloc(), TWO)?;
    let [free, left_6] = rules.as_slice() else {
        return Err("there are two rules".into());
    };
    assert_eq!(rt; free.name.as_slice(), b"Free Triangle (1)".as_slice());
    assert_eq!(rt; free.quality, 1);
    assert_eq!(rt; free.limit.as_slice().len(), 5);
    let [new] = free.new_points.as_slice() else {
        return Err("the first rule has one new point".into());
    };
    assert!(rt; new.x == 5000 && new.y == 8660);
    let [term] = new.row_x.as_slice() else {
        return Err("its first row has one term".into());
    };
    assert!(rt; term.coefficient == 5000 && !term.of_y && term.point == 2);
    assert_eq!(rt; new.row_y.as_slice().len(), 0);
    assert_eq!(rt; left_6.name.as_slice(), b"Left (6)".as_slice());
    assert_eq!(rt; left_6.quality, 6);
    assert_eq!(rt; left_6.new_lines.as_slice(), [(3, 2)].as_slice());
    let [_, line] = left_6.lines.as_slice() else {
        return Err("the second rule has two lines".into());
    };
    assert!(rt;
        line.i == 3
            && line.j == 1
            && line.del
            && line.tol
                == Triple {
                    f1: 3000,
                    f2: 0,
                    f3: 3000
                }
    );
    Ok(())
}

#[test]
fn printed_and_read_again(rt: HostRuntime) -> Result<(), Fail> {
    let text = normal(rt.alloc(), TWO)?;
    let again = normal(rt.alloc(), &text)?;
    assert!(rt; text.as_slice() == again.as_slice());
    let (first, _) = TWO.split_at(place_of(TWO, b"\nrule"));
    let one = normal(rt.alloc(), first)?;
    assert!(rt; text.starts_with(&one));
    Ok(())
}

#[test]
fn normal_text(rt: HostRuntime) -> Result<(), Fail> {
    let half = normal(rt.alloc(), HALF)?;
    assert!(rt; half.as_slice() == HALF);
    let other = normal(
        rt.alloc(),
        b"tolfak 0.5 rule \"A\" orientations (2, 1, 2); maplines (1, 2) del { +.05, -.5, 1000. }; mappoints (-1.50, 00.12345) del; (16, -0);
newpoints (0, 0) { -2 X 1, 0.25 Y2 }; endrule",
    )?;
    assert!(rt;
        other.as_slice()
            == b"rule \"A\"
quality 1
mappoints
(-1.5, 0.1235) { 1, 0, 1 };
(16, 0) { 1, 0, 1 };
maplines
(1, 2) { 0.05, -0.5, 1000 } del;
newpoints
(0, 0) { -2 X1, 0.25 Y2 } { };
orientations
(2, 1, 2);
endrule
"
                .as_slice()
    );
    Ok(())
}

fn refusal(rt: &HostRuntime, text: &[u8]) -> Option<RuleRefusal> {
    read_rules(rt.alloc(), text).err()
}

/// The first text, the part so often, and the last text.
fn repeated(
    alloc: Global,
    first: &[u8],
    part: &[u8],
    times: usize,
    last: &[u8],
) -> Result<Vec<u8>, Fail> {
    let mut text = Vec::new(alloc);
    text.extend_from_slice(first)?;
    for _ in 0..times {
        text.extend_from_slice(part)?;
    }
    text.extend_from_slice(last)?;
    Ok(text)
}

#[test]
fn refusals(rt: HostRuntime) -> Result<(), Fail> {
    let fourth = refusal(&rt, b"rule \"A\" elements (1, 2, 3, 1); endrule");
    assert!(rt; fourth == Some(RuleRefusal::Syntax { word: 10 }));
    let missing = refusal(&rt, b"rule \"A\" quality");
    assert!(rt; missing == Some(RuleRefusal::Syntax { word: 4 }));
    let negative = refusal(&rt, b"rule \"A\" quality -1 endrule");
    assert!(rt; negative == Some(RuleRefusal::Number { word: 4 }));
    let great = refusal(&rt, b"rule \"A\" newpoints (0, 0) { 17 X1 }; endrule");
    assert!(rt; great == Some(RuleRefusal::Number { word: 10 }));
    assert!(rt; refusal(&rt, b"tolfak 0.5 # and nothing more").is_none());
    Ok(())
}

#[test]
fn wrong_indices(rt: HostRuntime) -> Result<(), Fail> {
    let bad = |word: u64| Some(RuleRefusal::BadIndex { rule: 1, word });
    assert!(rt; refusal(&rt, b"rule \"A\" endrule") == bad(3));
    let points = b"rule \"A\" mappoints (0, 0); (1, 0); maplines";
    let back = repeated(rt.alloc(), points, b" (2, 1);", 1, b" endrule")?;
    assert!(rt; refusal(&rt, &back) == bad(18));
    let past = repeated(
        rt.alloc(),
        points,
        b" (1, 2);",
        1,
        b" newlines (1, 3); endrule",
    )?;
    assert!(rt; refusal(&rt, &past) == bad(27));
    Ok(())
}

/// The limit that a text passes: the first text, and the part so often.
fn passed(rt: &HostRuntime, first: &[u8], part: &[u8], times: usize) -> Result<(u64, u64), Fail> {
    let text = repeated(rt.alloc(), first, part, times, b"")?;
    match refusal(rt, &text) {
        Some(RuleRefusal::TooMany { rule, what }) => Ok((rule, what)),
        _ => Err("a limit is passed".into()),
    }
}

#[test]
fn limits(rt: HostRuntime) -> Result<(), Fail> {
    assert!(rt; passed(&rt, b"rule \"A\" mappoints", b" (0, 0);", 17)? == (1, 2));
    assert!(rt; passed(&rt, b"rule \"A\" maplines", b" (1, 2);", 17)? == (1, 3));
    assert!(rt; passed(&rt, b"rule \"A\" newpoints", b" (0, 0);", 9)? == (1, 4));
    assert!(rt; passed(&rt, b"rule \"A\" newlines", b" (1, 2);", 25)? == (1, 5));
    assert!(rt; passed(&rt, b"rule \"A\" freearea", b" (0, 0);", 25)? == (1, 6));
    assert!(rt; passed(&rt, b"rule \"A\" freearea2", b" (0, 0);", 25)? == (1, 7));
    assert!(rt; passed(&rt, b"rule \"A\" elements", b" (1, 2, 3);", 9)? == (1, 8));
    assert!(rt; passed(&rt, b"rule \"A\" orientations", b" (1, 2, 3);", 17)? == (1, 9));
    assert!(rt; passed(&rt, b"rule \"A\" newpoints (0, 0) { 1 X1", b", 1 X1", 32)? == (1, 10));
    Ok(())
}

#[test]
fn limits_of_names_and_rules(rt: HostRuntime) -> Result<(), Fail> {
    let rule = b"mappoints (0, 0); (1, 0); maplines (1, 2); endrule rule \"A\"\n";
    assert!(rt; passed(&rt, b"rule \"A\"", rule, 256)? == (257, 1));
    let name = repeated(rt.alloc(), b"rule \"", b"A", 201, b"\"")?;
    assert!(rt; refusal(&rt, &name) == Some(RuleRefusal::TooMany { rule: 1, what: 11 }));
    let shorter = repeated(rt.alloc(), b"rule \"", b"A", 200, b"\"")?;
    assert!(rt; refusal(&rt, &shorter) == Some(RuleRefusal::Syntax { word: 3 }));
    Ok(())
}

#[test]
fn loose_starts(rt: HostRuntime) -> Result<(), Fail> {
    let (points, others) = HALF.split_at(place_of(HALF, b"maplines"));
    let three = repeated(rt.alloc(), points, b"(2, 2);\n", 3, others)?;
    assert!(rt; refusal(&rt, &three).is_none());
    let four = repeated(rt.alloc(), points, b"(2, 2);\n", 4, others)?;
    assert!(rt; refusal(&rt, &four) == Some(RuleRefusal::TooLoose { rule: 1 }));
    Ok(())
}
