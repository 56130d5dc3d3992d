//! The words of a text, one after another.

ghost use Rattle.std.specs.Prelude.{◌≡◌, ◌+◌, ◌≤◌, ◌∷◌, [], List, length, IfOk, IfErr, OnOk, OnErr, map};
ghost use Rattle.word_scan.specs.Scan.{scan_from};
ghost use Rattle.word_scan.specs.Bytes.{bytes_of};
ghost use Rattle.word_scan.specs.Parts.{Reads};
ghost use Rattle.word_scan.specs.TokenParts.{TokenReads};

use crate::{spaced, tokens};
use std::marker::Model;

/// How a text is cut into words.
#[derive(Clone, Copy, Debug, PartialEq, Eq)]
pub enum Style {
    /// Words stand between white space and comments.
    Spaced,
    /// Words are marks, texts, numbers and names, with white space and comments between them or
    /// nothing at all.
    Tokens,
}

/// What sort of word it is. In the spaced style every word is plain.
#[derive(Clone, Copy, Debug, PartialEq, Eq)]
pub enum Kind {
    Plain,
    Text,
    Mark,
    Number,
    Name,
}

/// A word of a text. `at` is its number, from 1 on, and its bytes are those from `from` up to before
/// `to`.
#[derive(Clone, Copy, Debug, PartialEq, Eq)]
pub struct Word {
    pub at: usize,
    pub from: usize,
    pub to: usize,
    pub kind: Kind,
}

/// Why no word was given.
#[derive(Clone, Copy, Debug, PartialEq, Eq)]
pub enum ScanRefusal {
    /// What stands in the place of the word of this number is no word of the style.
    BadWord { at: u64 },
    /// No word is left.
    End,
}

/// A place in a text. It is seen as the text, the words that are left, and the refusal that comes
/// after them.
#[derive(Debug, Drop)]
pub struct Scanner<'a> {
    text: &'a [u8],
    style: Style,
    place: usize,
    taken: usize,
}

impl<'a> Model for Scanner<'a> {
    ghost use Rattle.std.specs.Prelude.{◌+◌, ◌≤◌, length};
    ghost use Rattle.word_scan.specs.Scan.{Scan, scan_from};

    ghost Value = { Scan };

    ghost view = { λ s. scan_from s.style s.text.now s.place (s.taken + 1) };

    ghost invariant = { λ s. (s.place ≤ length s.text.now) × (s.taken ≤ s.place) };
}

impl<'a> Scanner<'a> {
    /// A scanner at the start of a text.
    pub fn new(text: &'a [u8], style: Style) -> Self
        ensures start { result ≡ scan_from style text.now 0 1 }
        ensures text { result.text ≡ text.now }

        // In the spaced style the words are those of the text, and a scanner ends by End.
        ensures spaced { style ≡ Style.Spaced → Reads text.now result.left }
        ensures ending { style ≡ Style.Spaced → result.ending ≡ ScanRefusal.End }

        // In the tokens style the words are the text's tokens, up to its end or to where no token stands.
        ensures tokens { style ≡ Style.Tokens → TokenReads text.now result.left result.ending }
    {
        Scanner {
            text,
            style,
            place: 0,
            taken: 0,
        }
    }

    /// The next word. A refusal leaves the scanner as it was.
    pub fn next(&mut self) -> Result<Word, ScanRefusal>
        // The word is the first that is left, and the others are left then.
        ensures word { IfOk result (λ word. self.old.left ≡ word ∷ self.new.left) }
        ensures text { OnOk result (self.new.text ≡ self.old.text) }
        ensures ending { OnOk result (self.new.ending ≡ self.old.ending) }
        ensures inside { IfOk result
            (λ word. (word.from ≤ word.to) × (word.to ≤ length self.old.text)) }

        // A refusal comes exactly where no word is left.
        ensures refused { IfErr result
            (λ refusal. (self.old.left ≡ []) × (refusal ≡ self.old.ending)) }
        ensures unchanged { OnErr result (self.new ≡ self.old) }
    {
        match self.style {
            Style::Spaced => {
                let from = spaced::gap_end(self.text, self.place);
                if from == self.text.len() {
                    return Err(ScanRefusal::End);
                }
                let to = spaced::word_end(self.text, from);
                self.place = to;
                self.taken += 1;
                Ok(Word {
                    at: self.taken,
                    from,
                    to,
                    kind: Kind::Plain,
                })
            }
            Style::Tokens => {
                let word = tokens::next(self.text, self.place, self.taken + 1)?;
                self.place = word.to;
                self.taken += 1;
                Ok(word)
            }
        }
    }

    /// The bytes of a word of this text.
    pub fn bytes(&self, word: Word) -> &'a [u8]
        requires begins { word.from ≤ word.to }
        requires ends { word.to ≤ length self.now.text }
        ensures { result.now ≡ bytes_of self.now.text word }
    {
        &self.text[word.from..word.to]
    }
}
