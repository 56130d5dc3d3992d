//! A place in the text of a log, and the words that are needed there.

ghost use Rattle.std.specs.Prelude.{◌≡◌, ◌+◌, ◌≤◌, ◌^◌, ◌∷◌, [], length, map, IfOk, IfErr, OnOk};
ghost use Rattle.word_scan.specs.Bytes.{bytes_of};
ghost use Rattle.word_scan.specs.Scan.{words_of};
ghost use Rattle.run_log.specs.Reading.{State, Gives, word_at};
ghost use Rattle.run_log.specs.Numbers.{fixed_need, number_need, signed_need, point_need, limit_need, end_need, others_need};

use crate::refusal::LogRefusal;
use crate::words;
use mesh_run::End;
use std::marker::Model;
use word_scan::{Scanner, Style};

/// A place in a text: the words that are left, and the number of the next one.
#[derive(Drop)]
pub struct Reader<'a> {
    scanner: Scanner<'a>,
    at: u64,
}

impl<'a> Model for Reader<'a> {
    ghost use Rattle.std.specs.Prelude.{◌+◌, ◌≤◌, ◌^◌, length, map};
    ghost use Rattle.word_scan.specs.Bytes.{bytes_of};
    ghost use Rattle.run_log.specs.Reading.{State};

    ghost Value = { State };

    ghost view = { λ r. record { left = map (bytes_of r.scanner.text) r.scanner.left; at = r.at } };

    ghost invariant = { λ r. r.at + length r.scanner.left ≤ 2 ^ 63 };
}

impl<'a> Reader<'a> {
    /// A reader at the start of a text.
    pub fn new(text: &'a [u8]) -> Self
        ensures { result ≡ record { left = words_of text.now; at = 1 } }
    {
        Reader {
            scanner: Scanner::new(text, Style::Spaced),
            at: 1,
        }
    }

    /// The number of the next word.
    pub fn at(&self) -> u64
        ensures { result ≡ self.now.at }
    {
        self.at
    }

    /// The next word; Syntax where none is left.
    pub fn next(&mut self) -> Result<&'a [u8], LogRefusal>
        ensures word { IfOk result (λ word. self.old.left ≡ word.now ∷ self.new.left) }
        ensures at { OnOk result (self.new.at ≡ self.old.at + 1) }
        ensures none { IfErr result
            (λ e. (self.old.left ≡ []) × (e ≡ LogRefusal.Syntax self.old.at)) }
    {
        match self.scanner.next() {
            Ok(word) => {
                self.at += 1;
                Ok(self.scanner.bytes(word))
            }
            Err(_) => Err(LogRefusal::Syntax { word: self.at }),
        }
    }

    /// This word, and no other; else Syntax.
    #[tactic(auto, unfolding(crate::specs::Numbers::fixed_need))]
    pub fn fixed(&mut self, text: &[u8]) -> Result<(), LogRefusal>
        ensures { Gives result self.new (word_at (fixed_need text.now) self.old) }
    {
        let at = self.at;
        let word = self.next()?;
        if words::is(word, text) {
            Ok(())
        } else {
            Err(LogRefusal::Syntax { word: at })
        }
    }

    /// A whole number from `least` to `greatest`; else Number.
    #[tactic(auto, unfolding(crate::specs::Numbers::number_need))]
    pub fn number(&mut self, least: u64, greatest: u64) -> Result<u64, LogRefusal>
        ensures value { Gives result self.new (word_at (number_need least greatest) self.old) }
        ensures range { IfOk result (λ n. (least ≤ n) × (n ≤ greatest)) }
    {
        let at = self.at;
        let word = self.next()?;
        words::whole_in(word, least, greatest).ok_or(LogRefusal::Number { word: at })
    }

    /// A whole number from `-least` to `greatest`; else Number.
    #[tactic(auto, unfolding(crate::specs::Numbers::signed_need))]
    pub fn signed(&mut self, least: u32, greatest: u32) -> Result<i32, LogRefusal>
        requires least { least ≤ 2 ^ 30 }
        requires greatest { greatest ≤ 2 ^ 30 }
        ensures { Gives result self.new (word_at (signed_need least greatest) self.old) }
    {
        let at = self.at;
        let word = self.next()?;
        words::signed_in(word, least, greatest).ok_or(LogRefusal::Number { word: at })
    }

    /// The number of one of so many points; else BadIndex where it is a whole number, and Number where
    /// it is none.
    #[tactic(auto, unfolding(crate::specs::Numbers::point_need))]
    pub fn point(&mut self, points: u64) -> Result<u64, LogRefusal>
        ensures { Gives result self.new (word_at (point_need points) self.old) }
    {
        let at = self.at;
        let word = self.next()?;
        match words::whole_in(word, 1, points) {
            Some(point) => Ok(point),
            None => Err(words::no_point(word, at)),
        }
    }

    /// A number of applications, or `-`; else Number.
    #[tactic(auto, unfolding(crate::specs::Numbers::limit_need))]
    pub fn limit(&mut self) -> Result<Option<u64>, LogRefusal>
        ensures { Gives result self.new (word_at limit_need self.old) }
    {
        let at = self.at;
        let word = self.next()?;
        words::limit_of(word).ok_or(LogRefusal::Number { word: at })
    }

    /// How a run ended; else Syntax.
    #[tactic(auto, unfolding(crate::specs::Numbers::end_need))]
    pub fn end(&mut self) -> Result<End, LogRefusal>
        ensures { Gives result self.new (word_at end_need self.old) }
    {
        let at = self.at;
        let word = self.next()?;
        words::end_of(word).ok_or(LogRefusal::Syntax { word: at })
    }

    /// Whether another run follows, or the log ends; else Syntax.
    #[tactic(auto, unfolding(crate::specs::Numbers::others_need))]
    pub fn others(&mut self) -> Result<bool, LogRefusal>
        ensures { Gives result self.new (word_at others_need self.old) }
    {
        let at = self.at;
        let word = self.next()?;
        words::others_of(word).ok_or(LogRefusal::Syntax { word: at })
    }
}
