//! Tokens: marks, texts, numbers and names.

ghost use Rattle.std.specs.Prelude.{◌≡◌, ℕ, ◌+◌, ◌<◌, ◌≤◌, [], length, drop, IfSome, IfOk, IfErr};
ghost use Rattle.word_scan.specs.Tokens.{is_mark, text_len, closed, name_len, number_len, token_at, Past, put_first, tokens_from};

use crate::decimals::{digits, fraction, sign};
use crate::scanner::{Kind, ScanRefusal, Word};
use crate::spaced::gap_end;

/// How many bytes come first that may stand in a text: no quotation mark and no line feed.
fn text_len(bytes: &[u8]) -> usize
    ensures value { result ≡ text_len bytes.now }
    ensures inside { result ≤ length bytes.now }
{
    let mut end = 0;
    while end < bytes.len() && bytes[end] != b'"' && bytes[end] != b'\n' {
        end += 1;
    }
    end
}

/// How many bytes stand inside a text that ends among these, where its second quotation mark is among them.
fn closed(bytes: &[u8]) -> Option<usize>
    ensures value { result ≡ closed bytes.now }
    ensures inside { IfSome result (λ n. n < length bytes.now) }
{
    let len = text_len(bytes);
    if len == bytes.len() {
        return None;
    }
    if bytes[len] == b'"' { Some(len) } else { None }
}

/// How many letters and digits come first.
fn name_len(bytes: &[u8]) -> usize
    ensures value { result ≡ name_len bytes.now }
    ensures inside { result ≤ length bytes.now }
{
    let mut end = 0;
    while end < bytes.len() && bytes[end].is_ascii_alphanumeric() {
        end += 1;
    }
    end
}

/// How many bytes a number has that comes first.
fn number_len(bytes: &[u8]) -> Option<usize>
    ensures value { result ≡ number_len bytes.now }
    ensures inside { IfSome result (λ n. (0 < n) × (n ≤ length bytes.now)) }
{
    let (_, unsigned) = sign(bytes);
    let (front, rest) = digits(unsigned);
    let (behind, rest) = fraction(rest);
    if front.is_empty() && behind.is_empty() {
        None
    } else {
        Some(bytes.len() - rest.len())
    }
}

/// The kind of the token that comes first, and how many bytes it has: the longest that the bytes
/// begin with.
#[tactic(auto, unfolding(crate::specs::Tokens::token_at))]
pub fn token(bytes: &[u8]) -> Option<(Kind, usize)>
    ensures value { result ≡ token_at bytes.now }
    ensures inside { IfSome result (λ token. (0 < token.1) × (token.1 ≤ length bytes.now)) }
{
    match bytes {
        [] => None,
        [b'(' | b')' | b'{' | b'}' | b',' | b';', ..] => Some((Kind::Mark, 1)),
        [b'"', rest @ ..] => {
            let len = closed(rest)?;
            Some((Kind::Text, len + 2))
        }
        [first, rest @ ..] if first.is_ascii_alphabetic() => Some((Kind::Name, name_len(rest) + 1)),
        [_, ..] => {
            let len = number_len(bytes)?;
            Some((Kind::Number, len))
        }
    }
}

/// The token that comes next from `start` on, with this number.
pub fn next(text: &[u8], start: usize, at: usize) -> Result<Word, ScanRefusal>
    requires { start ≤ length text.now }
    ensures given { IfOk result
        (λ word. tokens_from (Past 0) at start (drop start text.now)
        ≡ put_first word (tokens_from (Past 0) (at + 1) word.to (drop word.to text.now))) }
    ensures number { IfOk result (λ word. word.at ≡ at) }
    ensures begins { IfOk result (λ word. (start ≤ word.from) × (word.from < word.to)) }
    ensures ends { IfOk result (λ word. word.to ≤ length text.now) }
    ensures refused { IfErr result
        (λ refusal. tokens_from (Past 0) at start (drop start text.now) ≡ ([], refusal)) }
{
    let from = gap_end(text, start);
    if from == text.len() {
        return Err(ScanRefusal::End);
    }
    match token(&text[from..]) {
        None => Err(ScanRefusal::BadWord { at: at as u64 }),
        Some((kind, len)) => Ok(Word {
            at,
            from,
            to: from + len,
            kind,
        }),
    }
}
