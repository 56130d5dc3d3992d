//! The verb `rules`: takes a rule file, and shows which of its rules are live, and the normal text of them all.

ghost use Rattle.std.specs.Prelude.{◌≡◌, ◌≤◌, ◌++◌, [], Option, IfOk, IfErr, OnOk};
ghost use Rattle.std.specs.Fmt.{decimal};
ghost use Rattle.folder_io.specs.Causes.{Told};
ghost use Rattle.rule_reader.specs.Normal.{CanPrint};
ghost use Rattle.rule_maps.specs.declared.inert.Inert.{Inert as InertValue};
ghost use Rattle.rule_maps.specs.Inert.{HasState};
ghost use Rattle.netmesh_cli.specs.Listed.{state_word, state_line, AreStateLines, IsListing};
ghost use Rattle.netmesh_cli.specs.Jobs.{RulesJob, AreListed, IsShown, made_of};
ghost use Rattle.netmesh_cli.specs.Served.{MakeRefused};

use super::made::Made;
use super::rule_file::take_rules;
use super::{Outcome, Refusal};
use folder_io::Folder;
use rule_maps::{Compiled, Inert, RuleSet};
use rule_reader::{Rules, print_rules};
use std::alloc::{AllocError, Global};

/// The word for a rule's state.
fn state_word(state: Option<Inert>) -> &'static [u8]
    ensures { result.now ≡ state_word state }
{
    match state {
        None => b"live",
        Some(Inert::Unbalanced) => b"unbalanced",
        Some(Inert::BaseKept) => b"basekept",
        Some(Inert::NoElement) => b"noelement",
        Some(Inert::IdlePoint) => b"idlepoint",
        Some(Inert::BadZone) => b"badzone",
    }
}

/// Adds a whole number.
fn push_number(alloc: Global, text: &mut Vec<u8>, number: u64) -> Result<(), AllocError>
    ensures { OnOk result (text.new.items ≡ text.old.items ++ decimal number) }
{
    let digits = format!(in alloc; "{number}")?;
    text.extend_from_slice(digits.as_bytes())?;
    Ok(())
}

/// Adds the line of a rule: its number, its state, and its name.
fn push_state(
    alloc: Global,
    text: &mut Vec<u8>,
    number: u64,
    rule: &Compiled,
) -> Result<(), AllocError>
    ensures { OnOk result ((state : Option InertValue) × HasState rule.now state
        × (text.new.items ≡ text.old.items ++ state_line number state rule.now)) }
{
    push_number(alloc, text, number)?;
    text.extend_from_slice(b" ")?;
    text.extend_from_slice(state_word(rule.inert()))?;
    text.extend_from_slice(b" \"")?;
    text.extend_from_slice(rule.rule().name.as_slice())?;
    text.extend_from_slice(b"\"\n")?;
    Ok(())
}

/// The line of each rule, numbered from 1.
fn state_lines(alloc: Global, rules: &RuleSet) -> Result<Vec<u8>, AllocError>
    ensures { IfOk result (λ text. AreStateLines rules.now text.items) }
{
    let mut text = Vec::new(alloc);
    for k in 0..rules.count() {
        push_state(alloc, &mut text, k as u64 + 1, rules.get(k + 1))?;
    }
    Ok(text)
}

/// The text that is shown of rules.
fn listing(alloc: Global, rules: &Rules) -> Result<Vec<u8>, AllocError>
    requires { CanPrint rules.now }
    ensures { IfOk result (λ text. IsListing rules.now text.items) }
{
    let mut text = state_lines(alloc, &RuleSet::new(alloc, rules)?)?;
    text.extend_from_slice(b"\n")?;
    text.extend_from_slice(&print_rules(alloc, rules)?)?;
    Ok(text)
}

/// What `rules` makes of the rules that it takes: their listing, and no file.
pub fn make_rules<'a, F: Folder>(
    alloc: Global,
    name: &'a str,
    folder: &mut F,
) -> Result<Made<'a>, Refusal>
    ensures held { (F.state folder.new).held ≡ (F.state folder.old).held }
    ensures made { IfOk result (λ made. Told (F.state folder.old).held
        (λ files. AreListed name.entry.now files (made_of made))) }
    ensures puts { IfOk result (λ made. made.puts.items ≡ []) }
    ensures ending { IfOk result (λ made. IsShown made.outcome) }
    ensures refused { IfErr result (MakeRefused
        (RulesJob name.entry.now) (F.state folder.old) (F.state folder.new)) }
    ensures rises { (F.state folder.old).faults ≤ (F.state folder.new).faults }
{
    let rules = take_rules(alloc, folder, name)?;
    let answer = listing(alloc, &rules)?;
    Ok(Made {
        puts: Vec::new(alloc),
        answer,
        outcome: Outcome::Shown,
    })
}
