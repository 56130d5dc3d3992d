//! Words between white space and comments.

ghost use Rattle.std.specs.Prelude.{◌≡◌, ℕ, ◌+◌, ◌<◌, ◌≤◌, ◌∷◌, length, drop, slice_index};
ghost use Rattle.word_scan.specs.Bytes.{is_white, plain};
ghost use Rattle.word_scan.specs.Tokens.{InRemark, Past, tokens_from};
ghost use Rattle.word_scan.specs.Scan.{Between, InNote, words_from, StartsWord};

/// White space is space, tab, carriage return and line feed.
fn is_white(byte: u8) -> bool
    ensures { result ≡ is_white byte }
{
    matches!(byte, b' ' | b'\t' | b'\r' | b'\n')
}

/// Where the comment ends whose bytes stand from `start` on: at the next line feed, or at the end.
fn note_end(text: &[u8], start: usize) -> usize
    requires { start ≤ length text.now }
    ensures from { start ≤ result }
    ensures within { result ≤ length text.now }
    ensures same { (at : ℕ) → words_from InNote at start (drop start text.now)
        ≡ words_from Between at result (drop result text.now) }
    ensures tokens { (at : ℕ) →
        tokens_from InRemark at start (drop start text.now)
        ≡ tokens_from (Past 0) at result (drop result text.now) }
{
    let mut end = start;
    while end < text.len() && text[end] != b'\n' {
        end += 1;
    }
    end
}

/// Where the white space and the comments that stand at `start` end.
pub fn gap_end(text: &[u8], start: usize) -> usize
    requires { start ≤ length text.now }
    ensures from { start ≤ result }
    ensures within { result ≤ length text.now }
    ensures same { (at : ℕ) → words_from Between at start (drop start text.now)
        ≡ words_from Between at result (drop result text.now) }
    ensures tokens { (at : ℕ) →
        tokens_from (Past 0) at start (drop start text.now)
        ≡ tokens_from (Past 0) at result (drop result text.now) }
    ensures word { StartsWord (drop result text.now) }
{
    let mut end = start;
    while end < text.len() {
        if is_white(text[end]) {
            end += 1;
        } else if text[end] == b'#' {
            end = note_end(text, end + 1);
        } else {
            return end;
        }
    }
    end
}

/// Where the word that begins at `start` ends.
pub fn word_end(text: &[u8], start: usize) -> usize
    requires inside { start < length text.now }
    requires word { StartsWord (drop start text.now) }
    ensures after { start < result }
    ensures within { result ≤ length text.now }
    ensures word { (at : ℕ) → words_from Between at start (drop start text.now)
        ≡ plain at start result ∷ words_from Between (at + 1) result (drop result text.now) }
{
    let mut end = start + 1;
    while end < text.len() && !is_white(text[end]) {
        end += 1;
    }
    end
}
