//! Laws of the grammar and of refusals, over the definitions alone.

ghost use Rattle.std.specs.Prelude.{◌≡◌, ◌≢◌, ◌+◌, ◌<◌, ℕ, List, length};
ghost use Rattle.std.specs.List.{AllByRecursion};
ghost use Rattle.rule_reader.specs.declared.fault.RuleRefusal.{RuleRefusal};
ghost use Rattle.rule_reader.specs.declared.fault.RuleRefusal.TheVariants.{Memory};
ghost use Rattle.rule_reader.specs.declared.rule.MapLine.{MapLine};
ghost use Rattle.rule_reader.specs.declared.rule.Rule.{Rule};
ghost use Rattle.rule_reader.specs.Words.{Tok};
ghost use Rattle.rule_reader.specs.Grammar.{Admits};
ghost use Rattle.rule_reader.specs.Refusals.{Refuses};
ghost use Rattle.rule_reader.specs.Graph.{HasEnds, OneOfEach};
ghost use Rattle.rule_reader.specs.Verdict.{loose_starts};

/// No list of words has two values.
pub fn one_value()
    ensures { (words : List Tok) (a b : List Rule) → Admits words a → Admits words b → a ≡ b }
{}

/// No text has two refusals, want of memory aside, and a text that is a file has none.
pub fn one_refusal()
    ensures one { (words : List Tok) (e f : RuleRefusal) → e ≢ Memory → f ≢ Memory
        → Refuses words e → Refuses words f → e ≡ f }
    ensures none { (words : List Tok) (rules : List Rule) (f : RuleRefusal) → f ≢ Memory
        → Admits words rules → ¬ Refuses words f }
{}

/// The loose starts are the parts of the graph but that of point 1: one less than the points of which each
/// part has one. There are such points.
pub fn loose_starts_count()
    ensures counted { (points : ℕ) (lines : List MapLine) (starts : List ℕ) → 0 < points
        → AllByRecursion (HasEnds points) lines → OneOfEach points lines starts
        → loose_starts points lines + 1 ≡ length starts }
    ensures there { (points : ℕ) (lines : List MapLine) → AllByRecursion (HasEnds points) lines
        → (starts : List ℕ) × OneOfEach points lines starts }
{}
