//! The numbers among the words of a call.

ghost use Rattle.std.specs.Prelude.{◌≡◌, ℕ, Option, IfOk, IfErr};
ghost use Rattle.std.specs.Option.{option_copied};
ghost use Rattle.word_scan.specs.declared.decimals.Dec.{Dec};
ghost use Rattle.call_words.specs.declared.command.MeshOptions.{MeshOptions};
ghost use Rattle.call_words.specs.WordsRead.{given_of};
ghost use Rattle.call_words.specs.Commands.{IsWholeFrom, IsSize, HasValue, AreOptions};

use super::WordsFault;
use super::command::MeshOptions;
use super::settings::Settings;
use word_scan::{Dec, decimal, whole};

/// The whole number from `least` to `greatest` that the word writes.
pub fn whole_from(word: &str, least: u64, greatest: u64) -> Result<u64, WordsFault>
    ensures ok { IfOk result (IsWholeFrom least greatest word.now) }
    ensures fault { IfErr result (λ fault. (fault ≡ WordsFault.Value)
        × ((n : ℕ) → ¬ IsWholeFrom least greatest word.now n)) }
{
    match whole(word.as_bytes(), greatest) {
        None => Err(WordsFault::Value),
        Some(number) => {
            if number < least {
                return Err(WordsFault::Value);
            }
            Ok(number)
        }
    }
}

/// The decimal above 0 that the word writes.
fn size(word: &str) -> Result<Dec, WordsFault>
    ensures ok { IfOk result (IsSize word.now) }
    ensures fault { IfErr result (λ fault. (fault ≡ WordsFault.Value)
        × ((size : Dec) → ¬ IsSize word.now size)) }
{
    match decimal(word.as_bytes()) {
        None => Err(WordsFault::Value),
        Some(size) => {
            if size.digits < 1 {
                return Err(WordsFault::Value);
            }
            Ok(size)
        }
    }
}

/// The decimal above 0 that an option is set to, where it is set.
fn size_if_set(word: Option<&str>) -> Result<Option<Dec>, WordsFault>
    ensures ok { IfOk result (HasValue IsSize (option_copied word.entry)) }
    ensures fault { IfErr result (λ fault. (fault ≡ WordsFault.Value)
        × ((value : Option Dec) → ¬ HasValue IsSize (option_copied word.entry) value)) }
{
    match word {
        None => Ok(None),
        Some(word) => {
            let size = size(word)?;
            Ok(Some(size))
        }
    }
}

/// The whole number that an option is set to, where it is set.
fn whole_if_set(word: Option<&str>, least: u64, greatest: u64) -> Result<Option<u64>, WordsFault>
    ensures ok { IfOk result (HasValue (IsWholeFrom least greatest) (option_copied word.entry)) }
    ensures fault { IfErr result (λ fault. (fault ≡ WordsFault.Value)
        × ((value : Option ℕ)
        → ¬ HasValue (IsWholeFrom least greatest) (option_copied word.entry) value)) }
{
    match word {
        None => Ok(None),
        Some(word) => {
            let number = whole_from(word, least, greatest)?;
            Ok(Some(number))
        }
    }
}

/// The values of the options.
pub fn options_of(settings: &Settings) -> Result<MeshOptions, WordsFault>
    ensures ok { IfOk result (AreOptions (given_of settings.now)) }
    ensures fault { IfErr result (λ fault. (fault ≡ WordsFault.Value)
        × ((options : MeshOptions) → ¬ AreOptions (given_of settings.now) options)) }
{
    let maxh = size_if_set(settings.maxh)?;
    let grading = whole_if_set(settings.grading, 0, 10_000)?;
    let class = whole_if_set(settings.class, 1, 16)?;
    let steps = whole_if_set(settings.steps, 0, 1_000_000_000_000)?;
    Ok(MeshOptions {
        maxh,
        grading,
        class,
        steps,
    })
}
