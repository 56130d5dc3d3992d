//! Reading a whole text.

ghost use Rattle.std.specs.Prelude.{◌≡◌, ◌≢◌, ◌⊎◌, ◌+◌, ◌-◌, ◌≤◌, ℕ, List, IfOk, IfErr, MatchResult, length, map};
ghost use Rattle.rule_reader.specs.declared.fault.RuleRefusal.{RuleRefusal};
ghost use Rattle.rule_reader.specs.Words.{seen, words_of};
ghost use Rattle.rule_reader.specs.Reading.{Gives};
ghost use Rattle.rule_reader.specs.declared.rule.Rule.{Rule};
ghost use Rattle.rule_reader.specs.Grammar.{Admits, IsReadAs};
ghost use Rattle.rule_reader.specs.Refusals.{Refuses};
ghost use Rattle.rule_reader.specs.Normal.{CanPrint};
ghost use Rattle.rule_reader.specs.Sections.{tolfak_at, rules_at, file_at, refusal_of, IsReading};

use crate::fault::{Fault, RuleRefusal, Stop};
use crate::lists::Rules;
use crate::numbers::GREATEST;
use crate::reader::Reader;
use crate::rule::Rule;
use crate::sections::rule;
use crate::tokens::{Token, tokens};
use std::alloc::Global;

/// How many rules a file has at most.
const RULES: usize = 256;

/// A number that has no effect, if one is there.
#[tactic(auto, unfolding(crate::specs::Sections::tolfak_at))]
fn tolfak(reader: &mut Reader<'_>) -> Result<(), Stop>
    ensures { Gives (λ x. x) result reader.new (tolfak_at reader.old) }
{
    if reader.is_at(b"tolfak") {
        reader.name(b"tolfak")?;
        reader.number(GREATEST)?;
    }
    Ok(())
}

/// The rules that come next.
fn rules(alloc: Global, reader: &mut Reader<'_>) -> Result<Vec<Rule>, Stop>
    ensures { Gives (λ x. x.items) result reader.new (rules_at 0 256 reader.old) }
{
    let mut rules = Vec::new(alloc);
    while reader.is_at(b"rule") {
        let number = rules.len() as u64 + 1;
        if rules.len() == RULES {
            return Err(Stop::Fault(Fault::TooMany {
                rule: number,
                what: 1,
            }));
        }
        reader.begin(number);
        let next = rule(alloc, reader)?;
        rules.push(next)?;
    }
    Ok(rules)
}

/// The rules that are left, up to the end.
#[tactic(auto, unfolding(crate::specs::Sections::file_at))]
fn file(alloc: Global, reader: &mut Reader<'_>) -> Result<Vec<Rule>, Stop>
    ensures { Gives (λ x. x.items) result reader.new (file_at reader.old) }
{
    tolfak(reader)?;
    let rules = rules(alloc, reader)?;
    if reader.left() > 0 {
        return Err(reader.syntax());
    }
    Ok(rules)
}

/// The number of the word where so many words of these are left.
fn word(tokens: &[Token<'_>], left: usize) -> u64
    ensures { result ≡ length tokens.now - left + 1 }
{
    tokens.len().saturating_sub(left) as u64 + 1
}

/// Why a text with these words is refused.
fn refusal(tokens: &[Token<'_>], stop: Stop) -> RuleRefusal
    ensures { result ≡ refusal_of (length tokens.now) stop }
{
    match stop {
        Stop::Memory => RuleRefusal::Memory,
        Stop::Fault(Fault::Syntax { left }) => {
            let word = word(tokens, left);
            RuleRefusal::Syntax { word }
        }
        Stop::Fault(Fault::Number { left }) => {
            let word = word(tokens, left);
            RuleRefusal::Number { word }
        }
        Stop::Fault(Fault::TooMany { rule, what }) => RuleRefusal::TooMany { rule, what },
        Stop::Fault(Fault::BadIndex { rule, left }) => {
            let word = word(tokens, left);
            RuleRefusal::BadIndex { rule, word }
        }
        Stop::Fault(Fault::TooLoose { rule }) => RuleRefusal::TooLoose { rule },
    }
}

/// The rules that these tokens are.
fn read(alloc: Global, tokens: &[Token<'_>]) -> Result<Rules, RuleRefusal>
    ensures { IsReading result (map seen tokens.now) }
{
    let mut reader = Reader::new(alloc, tokens);
    match file(alloc, &mut reader) {
        Ok(rules) => Ok(Rules::from_vec(rules)),
        Err(stop) => Err(refusal(tokens, stop)),
    }
}

/// The rules of a text.
fn text(alloc: Global, bytes: &[u8]) -> Result<Rules, RuleRefusal>
    ensures { IsReading result (words_of bytes.now) }
{
    match tokens(alloc, bytes) {
        Ok(tokens) => read(alloc, &tokens),
        Err(_) => Err(RuleRefusal::Memory),
    }
}

/// The rules of a text in the form of NETGEN's planar rule files (Schöberl 1997).
///
/// A text that is none is refused at the first word from left to right with which no text goes on, or where
/// a limit is passed or a rule is wrong, as [`RuleRefusal`] says.
pub fn read_rules(alloc: Global, bytes: &[u8]) -> Result<Rules, RuleRefusal>
    // What is read is what the grammar says of the words.
    ensures found { IfOk result (λ rules. Admits (words_of bytes.now) rules) }
    // What the grammar says of the words is read, unless memory runs out.
    ensures only { (rules : List Rule) → Admits (words_of bytes.now) rules → IsReadAs result rules }
    // What is refused stands at the first word with which no text goes on, or at the first rule that is
    // wrong, and is of its kind.
    ensures refused { IfErr result (Refuses (words_of bytes.now)) }
    // Each text that is refused so is refused, unless memory runs out, and has no other refusal.
    ensures refused_only { (f : RuleRefusal) → f ≢ RuleRefusal.Memory
        → Refuses (words_of bytes.now) f
        → MatchResult result (λ rules. ⊥) (λ e. (e ≡ f) ⊎ (e ≡ RuleRefusal.Memory)) }
    // What is read can be printed.
    ensures printable { IfOk result CanPrint }
    // Which refusal it is: the first fault that is met.
    ensures exact { IsReading result (words_of bytes.now) }
{
    text(alloc, bytes)
}
