//! Reading one word.

ghost use Rattle.std.specs.Prelude.{◌≡◌, ◌≤◌, option_map, unsigned_abs, IfSome, IfOk};
ghost use Rattle.std.specs.Str.{bytes_eq};
ghost use Rattle.word_scan.specs.Scan.{words_of};
ghost use Rattle.word_scan.specs.Numerals.{whole_of, is_whole};
ghost use Rattle.word_scan.specs.Decimals.{decimal_of};
ghost use Rattle.grid_geom.specs.declared.TheConstants.{GRID};
ghost use Rattle.vol_format.specs.Reading.{NeedWord, NeedNumber, NeedPoint, NeedCount, NeedPlace, asked, asked_at, ended_at, from_least, place_in, Taken, GivesAt, at_start};

use crate::coordinate;
use crate::refusal::{MOST_ROWS, VolRefusal};
use std::marker::Model;
use word_scan::{Scanner, Style, decimal, whole};

/// The greatest number that thirteen digits write.
const GREATEST_WHOLE: u64 = 9_999_999_999_999;

/// A place in a text, seen as how many decimals its coordinates have, the number of the next word, and
/// the words that are left.
#[derive(Drop)]
pub struct Reader<'a> {
    scanner: Scanner<'a>,
    at: u64,
    places: u32,
}

impl<'a> Model for Reader<'a> {
    ghost use Rattle.std.specs.Prelude.{◌+◌, ◌<◌, ◌≤◌, ◌^◌, length, map};
    ghost use Rattle.word_scan.specs.Bytes.{bytes_of};
    ghost use Rattle.vol_format.specs.Reading.{State};

    ghost Value = { State };

    ghost view = { λ r. record {
      places = r.places;
      at = r.at;
      left = map (bytes_of r.scanner.text) r.scanner.left;
    } };

    ghost invariant = { λ r. (r.places ≤ 14) × (r.at + length r.scanner.left < 2 ^ 64) };
}

/// The whole number that a word writes, from the least to the greatest.
fn number_in(word: &[u8], least: u64, greatest: u64) -> Option<u64>
    ensures value { result ≡ from_least least (whole_of word.now greatest) }
    ensures small { IfSome result (λ n. n ≤ greatest) }
{
    match whole(word, greatest) {
        Some(number) if least <= number => Some(number),
        _ => None,
    }
}

/// Whether a word is a whole number.
fn is_whole(word: &[u8]) -> bool
    ensures { result ≡ is_whole word.now }
{
    whole(word, GREATEST_WHOLE).is_some()
}

/// The coordinate that a word writes, up to the greatest, where coordinates have so many decimals.
fn place_in(word: &[u8], places: u32, greatest: u64) -> Option<i64>
    requires few { places ≤ 14 }
    requires small { greatest ≤ unsigned_abs GRID }
    ensures { result ≡ place_in places greatest (decimal_of word.now) }
{
    match decimal(word) {
        Some(d) => coordinate::place(&d, places, greatest),
        None => None,
    }
}

impl<'a> Reader<'a> {
    /// At the first word of a text whose coordinates have so many decimals.
    pub fn new(text: &'a [u8], places: u32) -> Self
        requires { places ≤ 14 }
        ensures { result ≡ at_start places (words_of text.now) }
    {
        Reader {
            scanner: Scanner::new(text, Style::Spaced),
            at: 1,
            places,
        }
    }

    /// The number of the word that comes next.
    pub fn at(&self) -> u64
        ensures { result ≡ self.now.at }
    {
        self.at
    }

    /// The word that comes next, if one is left.
    pub fn next(&mut self) -> Option<&'a [u8]>
        ensures { Taken (option_map (λ word. word.now) result) self.old self.new }
    {
        match self.scanner.next() {
            Ok(word) => {
                self.at += 1;
                Some(self.scanner.bytes(word))
            }
            Err(_) => None,
        }
    }

    /// This word; Syntax where another stands.
    #[tactic(auto, unfolding(crate::specs::Reading::asked))]
    pub fn said(&mut self, text: &[u8]) -> Result<(), VolRefusal>
        ensures { GivesAt (λ x. x) result self.new (asked (NeedWord text.now) self.old) }
    {
        let at = self.at();
        match self.next() {
            Some(word) if word == text => Ok(()),
            _ => Err(VolRefusal::Syntax { word: at }),
        }
    }

    /// A whole number from the least to the greatest.
    #[tactic(auto, unfolding(crate::specs::Reading::asked))]
    pub fn number(&mut self, least: u64, greatest: u64) -> Result<u64, VolRefusal>
        ensures step { GivesAt (λ x. x) result self.new
            (asked (NeedNumber least greatest) self.old) }
        ensures small { IfOk result (λ n. n ≤ greatest) }
    {
        let at = self.at();
        let Some(word) = self.next() else {
            return Err(VolRefusal::Syntax { word: at });
        };
        number_in(word, least, greatest).ok_or(VolRefusal::Number { word: at })
    }

    /// The number of a point, which may not be there.
    #[tactic(auto, unfolding(crate::specs::Reading::asked))]
    pub fn point_number(&mut self) -> Result<u64, VolRefusal>
        ensures { GivesAt (λ x. x) result self.new (asked NeedPoint self.old) }
    {
        let at = self.at();
        let Some(word) = self.next() else {
            return Err(VolRefusal::Syntax { word: at });
        };
        whole(word, MOST_ROWS).ok_or(VolRefusal::Number { word: at })
    }

    /// How many rows follow.
    #[tactic(auto, unfolding(crate::specs::Reading::asked))]
    pub fn count(&mut self) -> Result<u64, VolRefusal>
        ensures { GivesAt (λ x. x) result self.new (asked NeedCount self.old) }
    {
        let at = self.at();
        let Some(word) = self.next() else {
            return Err(VolRefusal::Syntax { word: at });
        };
        match whole(word, MOST_ROWS) {
            Some(number) => Ok(number),
            None if is_whole(word) => Err(VolRefusal::TooMany { word: at }),
            None => Err(VolRefusal::Number { word: at }),
        }
    }

    /// A coordinate up to the greatest.
    #[tactic(auto, unfolding(crate::specs::Reading::asked))]
    pub fn place(&mut self, greatest: u64) -> Result<i64, VolRefusal>
        requires { greatest ≤ unsigned_abs GRID }
        ensures { GivesAt (λ x. x) result self.new (asked (NeedPlace greatest) self.old) }
    {
        let at = self.at;
        let places = self.places;
        let Some(word) = self.next() else {
            return Err(VolRefusal::Syntax { word: at });
        };
        place_in(word, places, greatest).ok_or(VolRefusal::Number { word: at })
    }

    /// Refuses the word that comes next, if one is left.
    pub fn end(&mut self) -> Result<(), VolRefusal>
        ensures { result ≡ ended_at tt self.old.at self.old.left }
    {
        let at = self.at();
        match self.next() {
            None => Ok(()),
            Some(_) => Err(VolRefusal::Syntax { word: at }),
        }
    }
}
