//! What a single word says.

ghost use Rattle.std.specs.Prelude.{◌≡◌, option_map, Result};
ghost use Rattle.std.specs.Str.{bytes_eq};
ghost use Rattle.in2d_reader.specs.Words.{is_flag, is_name, behind, size_in, number_in, from_one};
ghost use Rattle.word_scan.specs.Numerals.{whole_of};
ghost use Rattle.word_scan.specs.Decimals.{decimal_of};
ghost use Rattle.in2d_reader.specs.declared.refusal.In2dRefusal.TheVariants.{Syntax, Number};
ghost use Rattle.in2d_reader.specs.Steps.{or_else, size_after, number_after};

use crate::refusal::In2dRefusal;
use word_scan::{Dec, decimal, whole};

/// Whether the word is this text.
pub fn is(word: &[u8], text: &[u8]) -> bool
    ensures { result ≡ bytes_eq word.now text.now }
{
    word == text
}

/// A flag is a word of `-`, a letter, and whatever follows.
#[tactic(auto, unfolding(crate::specs::Words::is_flag))]
pub fn is_flag(word: &[u8]) -> bool
    ensures { result ≡ is_flag word.now }
{
    match word {
        [b'-', letter, ..] => letter.is_ascii_alphabetic(),
        _ => false,
    }
}

/// A name is a word that doesn't begin with `-`.
#[tactic(auto, unfolding(crate::specs::Words::is_name))]
pub fn is_name(word: &[u8]) -> bool
    ensures { result ≡ is_name word.now }
{
    match word {
        [b'-', ..] => false,
        _ => true,
    }
}

/// What stands behind these bytes, where the word begins with them.
#[tactic(auto, unfolding(crate::specs::Words::behind))]
fn behind<'a>(front: &[u8], word: &'a [u8]) -> Option<&'a [u8]>
    ensures { option_map (λ text. text.now) result ≡ behind front.now word.now }
{
    match front {
        [] => Some(word),
        [byte, front @ ..] => match word {
            [first, rest @ ..] if first == byte => behind(front, rest),
            _ => None,
        },
    }
}

/// The size after a flag, where `before` is the one before it.
#[tactic(auto, unfolding(crate::specs::Words::size_in, crate::specs::Words::maxh_text))]
pub fn size_after(before: Option<Dec>, at: u64, word: &[u8]) -> Result<Option<Dec>, In2dRefusal>
    ensures { result ≡ size_after before at (size_in word.now) }
{
    let Some(text) = behind(b"-maxh=", word) else {
        return Ok(before);
    };
    match decimal(text) {
        Some(size) => Ok(Some(size)),
        None => Err(In2dRefusal::Number { word: at }),
    }
}

/// The boundary condition after a flag, where `before` is the one before it.
#[tactic(auto, unfolding(crate::specs::Words::number_in, crate::specs::Words::bc_text))]
pub fn number_after(before: Option<u32>, at: u64, word: &[u8]) -> Result<Option<u32>, In2dRefusal>
    ensures { result ≡ number_after before at (number_in word.now) }
{
    let Some(text) = behind(b"-bc=", word) else {
        return Ok(before);
    };
    match from_one(text, 999_999) {
        Some(number) => Ok(Some(number)),
        None => Err(In2dRefusal::Number { word: at }),
    }
}

/// A whole number from 1.
pub fn from_one(word: &[u8], greatest: u32) -> Option<u32>
    ensures { result ≡ from_one (whole_of word.now greatest) }
{
    match whole(word, u64::from(greatest)) {
        None | Some(0) => None,
        Some(number) => Some(number as u32),
    }
}

/// A whole number inside a row.
pub fn whole_inside(word: &[u8], greatest: u32, at: u64) -> Result<u32, In2dRefusal>
    ensures { result ≡ or_else (whole_of word.now greatest) (Number at) }
{
    match whole(word, u64::from(greatest)) {
        None => Err(In2dRefusal::Number { word: at }),
        Some(number) => Ok(number as u32),
    }
}

/// A whole number at a row's start.
pub fn whole_first(word: &[u8], greatest: u32, at: u64) -> Result<u32, In2dRefusal>
    ensures { result ≡ or_else (whole_of word.now greatest) (Syntax at) }
{
    match whole(word, u64::from(greatest)) {
        None => Err(In2dRefusal::Syntax { word: at }),
        Some(number) => Ok(number as u32),
    }
}

/// A decimal inside a row, or that of the file.
pub fn decimal_inside(word: &[u8], at: u64) -> Result<Dec, In2dRefusal>
    ensures { result ≡ or_else (decimal_of word.now) (Number at) }
{
    match decimal(word) {
        None => Err(In2dRefusal::Number { word: at }),
        Some(value) => Ok(value),
    }
}
