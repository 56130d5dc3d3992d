//! The tokens of a rule file.

ghost use Rattle.std.specs.Prelude.{◌≡◌, IfOk, map};
ghost use Rattle.rule_reader.specs.Words.{seen, tok_from, words_of};

use std::alloc::{AllocError, Global};
use word_scan::{Kind, ScanRefusal, Scanner, Style};

/// A token with its bytes; those of a text stand without the quotation marks.
#[derive(Clone, Copy)]
pub enum Token<'a> {
    Mark(u8),
    Text(&'a [u8]),
    Number(&'a [u8]),
    Name(&'a [u8]),
    /// What is no token.
    Bad,
}

/// The token of a kind with these bytes.
fn token_of(kind: Kind, bytes: &[u8]) -> Token<'_>
    ensures { seen result ≡ tok_from kind bytes.now }
{
    match (kind, bytes) {
        (Kind::Mark, [mark, ..]) => Token::Mark(*mark),
        (Kind::Text, [_, inside @ .., _]) => Token::Text(inside),
        (Kind::Number, _) => Token::Number(bytes),
        (Kind::Name, _) => Token::Name(bytes),
        _ => Token::Bad,
    }
}

/// The tokens of a text, from left to right, up to the first place where no token stands. That place
/// counts as one that is bad.
pub fn tokens(alloc: Global, text: &[u8]) -> Result<Vec<Token<'_>>, AllocError>
    ensures { IfOk result (λ tokens. map seen tokens.items ≡ words_of text.now) }
{
    let mut scanner = Scanner::new(text, Style::Tokens);
    let mut tokens = Vec::new(alloc);
    loop {
        match scanner.next() {
            Ok(word) => tokens.push(token_of(word.kind, scanner.bytes(word)))?,
            Err(ScanRefusal::BadWord { .. }) => {
                tokens.push(Token::Bad)?;
                return Ok(tokens);
            }
            Err(ScanRefusal::End) => return Ok(tokens),
        }
    }
}
