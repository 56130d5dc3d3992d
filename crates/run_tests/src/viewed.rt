// A log is read and each of its states is viewed, and of any other text the word at fault is named.

use run_log::{LogRefusal, View, read_log, view};
use std::test::*;

const LOG: &[u8] =
    b"netmeshlog 1\nrun 4 2097152 300 10 -\ndomain 1 3 3 1 0 done\np 0 0\np 640000 0\np 0 640000\nl 1 2\nl 2 3\nl 3 1\na 1 1 1 3 1 2 3 0 1 3 1 2 3\nend\n";

// Two lines from 1 to 2, both without a partner: the first of them leaves.
const TWICE: &[u8] =
    b"netmeshlog 1 run -6 1 0 1 0 domain 64 2 2 1 2 stopped p -1048576 0 p 0 1048576 l 1 2 l 1 2 a 16 1 256 0 1 -7 0 1 3 1 2 3 f 2 1 2 f 1 3 2 end";

// Lines between 1 and 2 leave, the first of two before the other, and a line between them comes back.
const BACK: &[u8] =
    b"netmeshlog 1 run 4 2097152 300 10 - domain 1 3 2 4 0 stuck p 0 0 p 640000 0 p 0 640000 l 1 2 l 1 2 a 1 1 1 0 0 1 3 1 2 3 a 1 2 1 0 0 1 3 1 2 3 a 1 3 1 0 0 1 3 2 1 3 a 1 7 1 0 0 1 3 1 2 3 end";

/// What `text` shows of this domain after `k` applications.
fn shown(rt: &HostRuntime, text: &[u8], domain: u32, k: u64) -> Result<View, LogRefusal> {
    view(rt.alloc(), &read_log(rt.alloc(), text)?, domain, k)
}

#[test]
fn states_are_shown(rt: HostRuntime) -> Result<(), Fail> {
    let opened = shown(&rt, LOG, 1, 0).ok().ok_or("the log has its opening")?;
    assert!(rt; opened.elements == 0);
    assert_eq!(rt;
        opened.front.as_slice(),
        [(1, 1, 2), (2, 2, 3), (3, 3, 1)].as_slice()
    );
    let last = shown(&rt, LOG, 1, 1)
        .ok()
        .ok_or("the log has one application")?;
    assert!(rt; last.elements == 1 && last.front.as_slice().is_empty());
    let twice = shown(&rt, TWICE, 64, 1)
        .ok()
        .ok_or("the log has one application")?;
    assert_eq!(rt;
        twice.front.as_slice(),
        [(2, 1, 2), (3, 3, 2), (4, 1, 3)].as_slice()
    );
    Ok(())
}

/// The front lines of the first domain of `BACK` after `k` applications.
fn lines_after(rt: &HostRuntime, k: u64) -> Result<View, Fail> {
    Ok(shown(rt, BACK, 1, k).ok().ok_or("the log has the state")?)
}

#[test]
fn lines_come_back_between_ends_that_they_left(rt: HostRuntime) -> Result<(), Fail> {
    let twice_left = lines_after(&rt, 2)?;
    assert!(rt; twice_left.elements == 2);
    assert_eq!(rt;
        twice_left.front.as_slice(),
        [(3, 3, 2), (4, 1, 3), (5, 3, 2), (6, 1, 3)].as_slice()
    );
    assert_eq!(rt;
        lines_after(&rt, 3)?.front.as_slice(),
        [(5, 3, 2), (6, 1, 3), (7, 1, 2)].as_slice()
    );
    assert_eq!(rt;
        lines_after(&rt, 4)?.front.as_slice(),
        [(5, 3, 2), (6, 1, 3), (8, 3, 2), (9, 1, 3)].as_slice()
    );
    Ok(())
}

/// Why no state is shown.
fn refusal(rt: &HostRuntime, text: &[u8], domain: u32, k: u64) -> Option<LogRefusal> {
    shown(rt, text, domain, k).err()
}

#[test]
fn states_that_are_not_there(rt: HostRuntime) {
    let none = |domain: u32, step: u64| Some(LogRefusal::NoState { domain, step });
    assert!(rt; refusal(&rt, LOG, 1, 2) == none(1, 2));
    assert!(rt; refusal(&rt, LOG, 2, 0) == none(2, 0));
    assert!(rt; refusal(&rt, TWICE, 63, 1) == none(63, 1));
    assert!(rt; refusal(&rt, BACK, 1, u64::MAX) == none(1, u64::MAX));
}

#[test]
fn words_at_fault(rt: HostRuntime) {
    let syntax = |word: u64| Some(LogRefusal::Syntax { word });
    let number = |word: u64| Some(LogRefusal::Number { word });
    let index = |word: u64| Some(LogRefusal::BadIndex { word });
    let head = |text: &[u8]| refusal(&rt, text, 1, 0);
    assert!(rt; head(&LOG[..LOG.len() - 4]) == syntax(48));
    assert!(rt; head(b"netmeshlog") == syntax(2));
    assert!(rt; head(b"netmeshlog 2") == number(2));
    assert!(rt; head(b"netmeshlog 1 run -7") == number(4));
    assert!(rt; head(b"netmeshlog 1 run 0 1 0 1 - end end") == syntax(10));
    assert!(rt; head(b"netmeshlog 1 run 0 1 0 1 - domain 1 0 0 0 0 done domain 1") == number(17));
    assert!(rt; head(b"netmeshlog 1 run 0 1 0 1 - domain 1 1 1 0 0 Done") == syntax(15));
    assert!(rt; head(b"netmeshlog 1 run 0 1 0 1 - domain 1 999999999 1 0 0 done p") == syntax(17));
    assert!(rt; head(b"netmeshlog 1 run 0 1 0 1 - domain 1 0 1 0 0 done l x 1") == number(17));
    assert!(rt; head(b"netmeshlog 1 run 0 1 0 1 - domain 1 0 1 0 0 done l 1 1") == index(17));
}
