//! Laws of words, tokens and decimals, over the definitions alone.

ghost use Rattle.std.specs.Prelude.{◌≡◌, ◌++◌, ℕ, List, length, take, drop, Some, None};
ghost use Rattle.word_scan.specs.declared.scanner.Kind.{Kind};
ghost use Rattle.word_scan.specs.declared.decimals.Dec.{Dec};
ghost use Rattle.word_scan.specs.Parts.{Part, AreParts, spelling, runs, Reads};
ghost use Rattle.word_scan.specs.Scan.{spaced_words, words_of};
ghost use Rattle.word_scan.specs.TokenParts.{IsLongest, HasNoToken, TokenReads};
ghost use Rattle.word_scan.specs.Tokens.{Past, token_at, tokens_from};
ghost use Rattle.word_scan.specs.Decimals.{DecimalParts, IsDecimal, value, decimal_of};
ghost use Rattle.word_scan.specs.Decimals.{spelling as decimal_spelling};

/// The words of a text in the spaced style are those of its parts: white space, comments and words; and
/// a text of parts has just their words.
pub fn words_of_parts()
    ensures reads { (text : List ℕ) → Reads text (spaced_words text) }
    ensures words { (parts : List Part) → AreParts parts → words_of (spelling parts) ≡ runs parts }
{}

/// What is found at the front of a text is the longest token that stands there, and none is found
/// exactly where no front of the text is a token.
pub fn longest_token()
    ensures found { (text : List ℕ) (kind : Kind) (len : ℕ) → token_at text ≡ Some (kind, len)
        → IsLongest kind (take len text) (drop len text) }
    ensures only { (kind : Kind) (bytes more : List ℕ) → IsLongest kind bytes more
        → token_at (bytes ++ more) ≡ Some (kind, length bytes) }
    ensures none { (text : List ℕ) → token_at text ≡ None → HasNoToken text }
    ensures missing { (text : List ℕ) → HasNoToken text → token_at text ≡ None }
{}

/// The tokens of a text and the refusal after them are those of its parts: white space, comments and
/// longest tokens, up to the end or to where no token stands.
pub fn tokens_of_parts()
    ensures { (text : List ℕ)
        → TokenReads text (tokens_from (Past 0) 1 0 text).0 (tokens_from (Past 0) 1 0 text).1 }
{}

/// The decimal of a word is the value of parts that spell it and make a decimal, where there are such parts.
pub fn decimal_of_parts()
    ensures found { (word : List ℕ) (dec : Dec) → decimal_of word ≡ Some dec
        → (parts : DecimalParts) × IsDecimal parts × (word ≡ decimal_spelling parts) ×
        (dec ≡ value parts) }
    ensures only { (parts : DecimalParts) → IsDecimal parts
        → decimal_of (decimal_spelling parts) ≡ Some (value parts) }
{}
