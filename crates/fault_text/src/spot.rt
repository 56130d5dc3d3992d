//! Where a word of a file stands.

ghost use Rattle.std.specs.Prelude.{◌≡◌, ◌-◌, ◌≤◌, IfSome, IfNone, None, slice_get};
ghost use Rattle.fault_text.specs.Spots.{words, cursor_behind, IsSpot};

use word_scan::{Scanner, Style};

/// A place in a text, as people count: line and column, both from 1. A column is a byte.
#[derive(Clone, Copy, Debug, PartialEq, Eq)]
pub struct Cursor {
    pub line: usize,
    pub column: usize,
}

/// A word of a text, with the place of its first byte.
#[derive(Clone, Copy, Debug)]
pub struct Spot<'a> {
    pub at: Cursor,
    pub word: &'a [u8],
}

/// The word with this number, from 1, of a text that is cut into words in this style, and where it
/// stands; none where the text has no such word.
pub fn spot_of<'a>(text: &'a [u8], style: Style, number: usize) -> Option<Spot<'a>>
    ensures found { IfSome result (λ spot. IsSpot style text.now number spot) }
    ensures only { IfNone result
        (1 ≤ number → slice_get (words style text.now) (number - 1) ≡ None) }
{
    if number == 0 {
        return None;
    }
    let mut before = number - 1;
    let mut scanner = Scanner::new(text, style);
    while let Ok(word) = scanner.next() {
        if before == 0 {
            return Some(Spot {
                at: cursor_behind(&text[..word.from]),
                word: &text[word.from..word.to],
            });
        }
        before -= 1;
    }
    None
}

/// Where the next byte stands behind these bytes, which begin the text.
fn cursor_behind(before: &[u8]) -> Cursor
    ensures { result ≡ cursor_behind before.now }
{
    let mut cursor = Cursor { line: 1, column: 1 };
    for byte in before {
        if *byte == b'\n' {
            cursor = Cursor {
                line: cursor.line + 1,
                column: 1,
            };
        } else {
            cursor.column += 1;
        }
    }
    cursor
}
