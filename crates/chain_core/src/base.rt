ghost use Rattle.chain_core.specs.Moves.{next_named};
ghost use Rattle.chain_core.specs.Rest.{rule_at};
ghost use Rattle.chain_core.specs.Seen.{rules_of};
ghost use Rattle.std.specs.Prelude.{◌≡◌, suc, length, drop, IfOk};

use grid_model::{Rules, Text};
use std::alloc::{AllocError, Global};

/// Rules in the order of their text. What they mean is `rules_of`.
#[derive(Drop)]
pub struct RuleBase {
    rules: Rules,
}

impl RuleBase {
    /// These rules. Fails for want of memory alone.
    pub fn new(_alloc: Global, rules: Rules) -> Result<RuleBase, AllocError>
        ensures { IfOk result (λ base. base.rules ≡ rules) }
    {
        Ok(RuleBase { rules })
    }

    /// Them, lent.
    pub fn rules(&self) -> &Rules
        ensures { result.now ≡ self.now.rules }
    {
        &self.rules
    }

    /// How many steps the rule at this place has, and 0 where there is none.
    pub fn steps(&self, rule: usize) -> usize
        ensures { result ≡ length (rule_at (rules_of self.now) rule).steps }
    {
        match self.rules.as_slice().get(rule) {
            Some(rule) => rule.steps.as_slice().len(),
            None => 0,
        }
    }

    /// The place of the first rule of this name from a place on, in the order of the text.
    pub fn first_from(&self, name: &Text, from: usize) -> Option<usize>
        ensures { result ≡ next_named (rules_of self.now) name.now from }
    {
        let rules = self.rules.as_slice();
        let mut at = from;
        while at < rules.len() {
            if rules[at].name.is_same(name) {
                return Some(at);
            }
            at += 1;
        }
        None
    }

    /// The place of the first rule of this name behind a place.
    pub fn next_after(&self, name: &Text, rule: usize) -> Option<usize>
        ensures { result ≡ next_named (rules_of self.now) name.now (suc rule) }
    {
        if rule < self.rules.as_slice().len() {
            self.first_from(name, rule + 1)
        } else {
            None
        }
    }
}
