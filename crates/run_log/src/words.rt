//! What a single word of a log says.

ghost use Rattle.std.specs.Prelude.{◌≡◌, ◌≤◌, ◌^◌, IfSome};
ghost use Rattle.std.specs.Str.{bytes_eq};
ghost use Rattle.run_log.specs.Numbers.{whole_in, signed_in, limit_of, end_of, others_of, no_point};
ghost use Rattle.word_scan.specs.Numerals.{whole_of};

use crate::refusal::LogRefusal;
use mesh_run::End;
use word_scan::whole;

/// The greatest number of thirteen digits.
pub const GREATEST_WHOLE: u64 = 9_999_999_999_999;

/// The greatest number of applications that a log may name.
const MOST_STEPS: u64 = 1_000_000_000_000;

/// A whole number from `least` to `greatest`.
pub fn whole_in(word: &[u8], least: u64, greatest: u64) -> Option<u64>
    ensures value { result ≡ whole_in least greatest word.now }
    ensures range { IfSome result (λ n. (least ≤ n) × (n ≤ greatest)) }
{
    whole(word, greatest).filter(|n| least <= *n)
}

/// A whole number from `-least` to `greatest`, with a `-` before it where it is below 0.
pub fn signed_in(word: &[u8], least: u32, greatest: u32) -> Option<i32>
    requires least { least ≤ 2 ^ 30 }
    requires greatest { greatest ≤ 2 ^ 30 }
    ensures { result ≡ signed_in least greatest word.now }
{
    match word {
        [] => None,
        [b'-', digits @ ..] => Some(-(whole(digits, u64::from(least))? as i32)),
        _ => Some(whole(word, u64::from(greatest))? as i32),
    }
}

/// A number of applications, or `-` where there is no limit.
pub fn limit_of(word: &[u8]) -> Option<Option<u64>>
    ensures { result ≡ limit_of word.now }
{
    match word {
        b"-" => Some(None),
        _ => Some(Some(whole(word, MOST_STEPS)?)),
    }
}

/// Whether the word is this text.
pub fn is(word: &[u8], text: &[u8]) -> bool
    ensures { result ≡ bytes_eq word.now text.now }
{
    word == text
}

/// How a run ended.
pub fn end_of(word: &[u8]) -> Option<End>
    ensures { result ≡ end_of word.now }
{
    if is(word, b"done") {
        Some(End::Done)
    } else if is(word, b"stuck") {
        Some(End::Stuck)
    } else if is(word, b"stopped") {
        Some(End::Stopped)
    } else {
        None
    }
}

/// Whether another run follows, or the log ends.
pub fn others_of(word: &[u8]) -> Option<bool>
    ensures { result ≡ others_of word.now }
{
    if is(word, b"domain") {
        Some(true)
    } else if is(word, b"end") {
        Some(false)
    } else {
        None
    }
}

/// The refusal of a word, number `at`, that is not the number of a point.
pub fn no_point(word: &[u8], at: u64) -> LogRefusal
    ensures { result ≡ no_point (whole_of word.now 9999999999999) at }
{
    match whole(word, GREATEST_WHOLE) {
        None => LogRefusal::Number { word: at },
        Some(_) => LogRefusal::BadIndex { word: at },
    }
}
