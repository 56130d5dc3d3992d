//! Reading a geometry.

ghost use Rattle.std.specs.Prelude.{◌≡◌, ◌≢◌, ◌⊎◌, IfOk, IfErr, MatchResult};
ghost use Rattle.word_scan.specs.Scan.{words_of};
ghost use Rattle.in2d_reader.specs.Normal.{CanPrint};
ghost use Rattle.in2d_reader.specs.Refusals.{Gives, Refuses};
ghost use Rattle.in2d_reader.specs.Grammar.{Derives, Fits};
ghost use Rattle.in2d_reader.specs.declared.geometry.RawGeometry.{RawGeometry};
ghost use Rattle.in2d_reader.specs.declared.refusal.In2dRefusal.{In2dRefusal};
ghost use Rattle.in2d_reader.specs.Steps.{geometry_of};

use crate::geometry::RawGeometry;
use crate::reader::Reader;
use crate::refusal::In2dRefusal;
use std::alloc::Global;
use word_scan::{Scanner, Style};

/// The geometry that a text writes, or the refusal at its first word that doesn't fit.
pub fn read_in2d(alloc: Global, bytes: &[u8]) -> Result<RawGeometry, In2dRefusal>
    // What is read is derived by the grammar, and within the limits, with known points.
    ensures found { IfOk result (λ raw. Derives (words_of bytes.now) raw × Fits raw) }

    // It can be printed.
    ensures printable { IfOk result CanPrint }

    // Each such text is read, unless memory runs out, and has no other value.
    ensures only { (raw : RawGeometry) → Derives (words_of bytes.now) raw → Fits raw
        → MatchResult result (λ read. read ≡ raw) (λ e. e ≡ In2dRefusal.Memory) }

    // A refusal stands at the first word that doesn't fit, and its kind says what this word stands for,
    // which limit it passes, or which point is not there.
    ensures refused { IfErr result (Refuses (words_of bytes.now)) }

    // Each text that is refused so is refused, unless memory runs out, and has no other refusal.
    ensures refused_only { (f : In2dRefusal) → f ≢ In2dRefusal.Memory
        → Refuses (words_of bytes.now) f
        → MatchResult result (λ read. ⊥) (λ e. (e ≡ f) ⊎ (e ≡ In2dRefusal.Memory)) }

    // What is returned is what reading word by word gives.
    ensures exact { Gives (λ raw. raw) result (geometry_of (words_of bytes.now)) }
{
    read_words(alloc, bytes)
}

/// Reads the words one after another.
#[tactic(auto, unfolding(crate::specs::Steps::geometry_of, crate::specs::Steps::steps))]
fn read_words(alloc: Global, bytes: &[u8]) -> Result<RawGeometry, In2dRefusal>
    ensures { Gives (λ raw. raw) result (geometry_of (words_of bytes.now)) }
{
    let mut scanner = Scanner::new(bytes, Style::Spaced);
    let mut reader = Reader::new(alloc);
    let mut at = 1;
    while let Ok(word) = scanner.next() {
        reader.take(alloc, at, &bytes[word.from..word.to])?;
        at += 1;
    }
    reader.finish(alloc, at)
}
