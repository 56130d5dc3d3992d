use super::*;
use std::test::*;

#[test]
fn words_of_a_text(rt: HostRuntime) {
    let text = b"\t# no word\n ab#c  # d\r\n-1e2";
    let mut scanner = Scanner::new(text, Style::Spaced);
    let first = Word {
        at: 1,
        from: 12,
        to: 16,
        kind: Kind::Plain,
    };
    assert!(rt; scanner.next() == Ok(first));
    assert_eq!(rt; scanner.bytes(first), b"ab#c".as_slice());
    let second = Word {
        at: 2,
        from: 23,
        to: 27,
        kind: Kind::Plain,
    };
    assert!(rt; scanner.next() == Ok(second));
    assert!(rt; scanner.next() == Err(ScanRefusal::End));
    assert!(rt; scanner.next() == Err(ScanRefusal::End));
}

#[test]
fn whole_numbers(rt: HostRuntime) {
    assert!(rt; whole(b"999999", 999_999) == Some(999_999));
    assert!(rt; whole(b"1000000", 999_999) == None);
    assert!(rt; whole(b"0000000000007", 7) == Some(7));
    assert!(rt; whole(b"00000000000007", 7) == None);
    assert!(rt; whole(b"+7", 7) == None);
    assert!(rt; whole(b"", 7) == None);
}

#[test]
fn decimals(rt: HostRuntime) {
    let dec = |digits: i128, scale: i32| Some(Dec { digits, scale });
    assert!(rt; decimal(b"-138.0E+2") == dec(-1380, 1));
    assert!(rt; decimal(b"34e-9") == dec(34, -9));
    assert!(rt; decimal(b"5.") == dec(5, 0));
    assert!(rt; decimal(b"+.5") == dec(5, -1));
    assert!(rt; decimal(b"-0") == dec(0, 0));
    assert!(rt; decimal(b".") == None);
    assert!(rt; decimal(b"1.2.3") == None);
    assert!(rt; decimal(b"1e100") == None);
    assert!(rt; decimal(b".1e-99") == None);
    assert!(rt; decimal(b"1234567890123456789012345678901") == None);
}
