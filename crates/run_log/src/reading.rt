//! Reading a log.

ghost use Rattle.std.specs.Prelude.{◌≡◌, ◌⊎◌, IfOk, IfErr, MatchResult};
ghost use Rattle.word_scan.specs.Scan.{words_of};
ghost use Rattle.run_log.specs.declared.log.Log.{Log};
ghost use Rattle.run_log.specs.declared.refusal.LogRefusal.{LogRefusal};
ghost use Rattle.run_log.specs.Grammar.{options, log, Reads, Refuses};
ghost use Rattle.run_log.specs.Reading.{Gives, Answers, read, whole_read};
ghost use Rattle.run_log.specs.View.{AreRising};

use crate::log::Log;
use crate::reader::Reader;
use crate::refusal::LogRefusal;
use crate::runs::domains;
use grid_geom::LONGEST;
use mesh_run::Options;
use std::alloc::Global;

/// The options that the run was made with.
#[tactic(auto, unfolding(crate::specs::Grammar::options, crate::specs::Reading::read))]
fn options(reader: &mut Reader<'_>) -> Result<Options, LogRefusal>
    ensures { Gives result reader.new (read options reader.old) }
{
    let greatest = reader.number(1, LONGEST)?;
    let grading = reader.number(0, 10_000)? as u32;
    let last = reader.number(1, 16)? as u32;
    let limit = reader.limit()?;
    Ok(Options {
        greatest,
        grading,
        last,
        limit,
    })
}

/// A log, up to the word `end`.
#[tactic(auto, using(crate::proofs::Steps::log_reads), unfolding(crate::proofs::Steps::log_at))]
fn log(alloc: Global, reader: &mut Reader<'_>) -> Result<Log, LogRefusal>
    ensures read { Gives result reader.new (read log reader.old) }
    ensures rising { IfOk result (λ log. AreRising log.domains) }
{
    reader.fixed(b"netmeshlog")?;
    reader.number(1, 1)?;
    reader.fixed(b"run")?;
    let shift = reader.signed(6, 8)?;
    let options = options(reader)?;
    let domains = domains(alloc, reader)?;
    Ok(Log {
        shift,
        options,
        domains,
    })
}

/// The log that a text is, with no word behind it.
fn whole(alloc: Global, bytes: &[u8]) -> Result<Log, LogRefusal>
    ensures read { Answers result (whole_read log (words_of bytes.now)) }
    ensures rising { IfOk result (λ log. AreRising log.domains) }
{
    let mut reader = Reader::new(bytes);
    let log = log(alloc, &mut reader)?;
    let at = reader.at();
    match reader.next() {
        Ok(_) => Err(LogRefusal::Syntax { word: at }),
        Err(_) => Ok(log),
    }
}

/// What a log says, or the refusal at its first word that can't stand where it stands.
pub fn read_log(alloc: Global, bytes: &[u8]) -> Result<Log, LogRefusal>
    // What is read is what the grammar says of the words.
    ensures found { IfOk result (λ log. Reads (words_of bytes.now) log) }

    // Each log is read, unless memory runs out, and has no other value.
    ensures only { (log : Log) → Reads (words_of bytes.now) log
        → MatchResult result (λ read. read ≡ log) (λ e. e ≡ LogRefusal.Memory) }

    // A refusal stands at the first word that can't stand where it stands, or is missing, and is of its
    // kind.
    ensures refused { IfErr result
        (λ e. (e ≡ LogRefusal.Memory) ⊎ Refuses (words_of bytes.now) e) }

    // Each text that is refused so is refused, unless memory runs out, and has no other refusal.
    ensures refused_only { (f : LogRefusal) → Refuses (words_of bytes.now) f
        → MatchResult result (λ read. ⊥) (λ e. (e ≡ f) ⊎ (e ≡ LogRefusal.Memory)) }

    // Domain numbers rise, so that the log can be viewed.
    ensures rising { IfOk result (λ log. AreRising log.domains) }
{
    whole(alloc, bytes)
}
