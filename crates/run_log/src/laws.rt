//! Laws of the grammar of logs, over the definitions alone.

ghost use Rattle.std.specs.Prelude.{◌≡◌, ◌⊎◌, ◌<◌, ◌++◌, ℕ, suc, true, List, length, take};
ghost use Rattle.run_log.specs.declared.log.Log.{Log};
ghost use Rattle.run_log.specs.declared.refusal.LogRefusal.{LogRefusal};
ghost use Rattle.run_log.specs.Form.{Word};
ghost use Rattle.std.specs.List.{list_any};
ghost use Rattle.mesh_run.specs.declared.WholeRun.{WholeRun};
ghost use Rattle.mesh_run.specs.declared.domain_run.DomainRun.{DomainRun};
ghost use Rattle.state_law.specs.State.{AreRising, does_join, glue_line};
ghost use Rattle.run_log.specs.View.{front_after, LeastLeaves};
ghost use Rattle.run_log.specs.Grammar.{word_of, Reads, Refuses};
ghost use Rattle.run_log.specs.Log.{log_text};
ghost use Rattle.run_log.specs.Ranges.{InRanges, log_of};
ghost use Rattle.word_scan.specs.Scan.{words_of};

/// No list of words says two things.
pub fn one_value()
    ensures { (words : List Word) (a b : Log) → Reads words a → Reads words b → a ≡ b }
{}

/// No list of words has two refusals, one that is a log has none, and any other has one.
pub fn one_refusal()
    ensures one { (words : List Word) (e f : LogRefusal)
        → Refuses words e → Refuses words f → e ≡ f }
    ensures none { (words : List Word) (said : Log) (e : LogRefusal)
        → Reads words said → ¬ Refuses words e }
    ensures each { (words : List Word)
        → ((said : Log) × Reads words said) ⊎ ((e : LogRefusal) × Refuses words e) }
{}

/// A refusal names a word: with it no log goes on, whatever follows; or it names the one behind the last,
/// where the text ends too early.
pub fn first_fault()
    ensures { (words : List Word) (e : LogRefusal) → Refuses words e → (k : ℕ)
        × (word_of e ≡ suc k) × (((k < length words) × ((rest : List Word) (said : Log)
        → ¬ Reads (take (suc k) words ++ rest) said)) ⊎ (k ≡ length words)) }
{}

/// The text that is written of a run is a log that says the run's shift, its options and its domains'
/// runs, where their numbers are in the ranges of a log.
pub fn read_again()
    ensures { (w : WholeRun) → InRanges (log_of w) → Reads (words_of (log_text w)) (log_of w) }
{}

/// The numbers of a view's lines rise, and are below the next one. So where lines go the way of a side
/// that is glued, that of the least number leaves.
pub fn least_leaves()
    ensures rising { (run : DomainRun) (k : ℕ) → (next : ℕ) × AreRising (front_after run k) next }
    ensures least { (front : List (ℕ × ℕ × ℕ)) (next : ℕ) (side : ℕ × ℕ) → AreRising front next
        → list_any (λ line. does_join line side) front ≡ true
        → LeastLeaves front side (glue_line front next side) }
{}
