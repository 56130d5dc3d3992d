//! The words of calls, as values. The lines of `examples/words` show what is refused.
use call_words::{Command, MeshOptions, WordsFault, first_at_fault, first_misfit, read_words};
use std::alloc::{AllocError, Global};
use std::test::Fail;
use word_scan::Dec;

/// The words of a line, which single spaces part.
fn words_of(alloc: Global, line: &str) -> Result<Vec<String>, AllocError> {
    let mut words = Vec::new(alloc);
    for word in line.split(' ') {
        words.push(String::from_str(alloc, word)?)?;
    }
    Ok(words)
}

#[test]
fn no_word_is_no_verb(rt: HostRuntime) -> Result<(), Fail> {
    let words = Vec::new(rt.alloc());
    assert!(rt; read_words(rt.alloc(), &words)?.err() == Some(WordsFault::NoVerb));
    Ok(())
}

#[test]
fn names_and_options_of_a_mesh(rt: HostRuntime) -> Result<(), Fail> {
    let words = words_of(rt.alloc(), "mesh --maxh=0.5 g --class 3 r -- -m --steps")?;
    let read = match read_words(rt.alloc(), &words)? {
        Ok(Command::Mesh(call)) => Some(call),
        _ => None,
    };
    let Some(call) = read else {
        assert!(rt; false);
        return Ok(());
    };
    assert_eq!(rt; call.geometry, "g");
    assert_eq!(rt; call.rules, "r");
    assert_eq!(rt; call.mesh, "-m");
    assert_eq!(rt; call.log, "--steps");
    let options = MeshOptions {
        maxh: Some(Dec {
            digits: 5,
            scale: -1,
        }),
        grading: None,
        class: Some(3),
        steps: None,
    };
    assert!(rt; call.options == options);
    Ok(())
}

#[test]
fn the_first_word_that_can_not_stand_is_numbered(rt: HostRuntime) -> Result<(), Fail> {
    let twice = words_of(rt.alloc(), "mesh g r --class 1 m --class=1 l")?;
    let short = words_of(rt.alloc(), "mesh g --maxh")?;
    assert_eq!(rt; (first_misfit(&twice), first_misfit(&short)), (7, 4));
    Ok(())
}

#[test]
fn the_first_word_at_fault_is_numbered(rt: HostRuntime) -> Result<(), Fail> {
    let class = words_of(rt.alloc(), "mesh g r x x --class 17")?;
    assert_eq!(rt;
        (first_at_fault(&class, false), first_at_fault(&class, true)),
        (7, 5)
    );
    let step = words_of(rt.alloc(), "view l -- 64 -1")?;
    assert_eq!(rt; (first_at_fault(&step, false), first_misfit(&step)), (5, 6));
    Ok(())
}
