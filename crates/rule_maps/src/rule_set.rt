//! The rules of a file, made fit for use.

ghost use Rattle.std.specs.Prelude.{◌≡◌, ◌≤◌, ◌-◌, length, slice_index_or, IfOk};
ghost use Rattle.rule_reader.specs.declared.rule.Rule.{Rule as RuleText};
ghost use Rattle.rule_reader.specs.Normal.{CanPrint};

use crate::compiled::{Compiled, compile};
use rule_reader::Rules;
use std::alloc::{AllocError as OutOfMemory, Global};
use std::marker::Model;

/// The rules of a file, made fit for use, in their order. It is seen as the list of its rules.
#[derive(Debug, Drop)]
pub struct RuleSet<'a> {
    rules: Vec<Compiled<'a>>,
}

impl<'a> Model for RuleSet<'a> {
    ghost use Rattle.std.specs.Prelude.{List};
    ghost use Rattle.rule_reader.specs.declared.rule.Rule.{Rule as RuleText};

    ghost Value = { List RuleText };

    ghost view = { λ s. s.rules.items };
}

impl<'a> RuleSet<'a> {
    /// Makes each of these rules fit for use.
    pub fn new(alloc: Global, rules: &'a Rules) -> Result<RuleSet<'a>, OutOfMemory>
        requires { CanPrint rules.now }
        ensures { IfOk result (λ s. s ≡ rules.now) }
    {
        let mut compiled = Vec::new(alloc);
        for rule in rules.as_slice() {
            compiled.push(compile(alloc, rule)?)?;
        }
        Ok(RuleSet { rules: compiled })
    }

    /// How many rules there are.
    pub fn count(&self) -> usize
        ensures { result ≡ length self.now }
    {
        self.rules.len()
    }

    /// Rule `k`, counted from 1.
    pub fn get(&self, k: usize) -> &Compiled<'a>
        requires first { 1 ≤ k }
        requires last { k ≤ length self.now }
        ensures { (d : RuleText) → slice_index_or self.now (k - 1) d ≡ result.now }
    {
        &self.rules[k - 1]
    }
}
