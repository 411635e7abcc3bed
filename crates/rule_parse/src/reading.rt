ghost use Rattle.grid_model.specs.Parsed.{rule_of};
ghost use Rattle.rule_lex.specs.Seen.{meaning_of};
ghost use Rattle.rule_parse.specs.Readers.{finish, read, new_progress};
ghost use Rattle.rule_parse.specs.Seen.{progress_of, TakesToken};
ghost use Rattle.std.specs.Prelude.{◌≡◌, IfOk, map, option_map};

use crate::drafts::{Draft, RuleStage, RuleTaken};
use grid_model::{Rule, Rules};
use rule_lex::Value;
use std::alloc::{AllocError, Global};

/// What is read of rules so far.
#[derive(Drop)]
pub struct Reading {
    pub rules: Vec<Rule>,
    /// What is read of the next.
    pub draft: Draft,
}

impl Reading {
    /// Nothing is read. It takes no memory.
    pub fn new(alloc: Global) -> Reading
        ensures { progress_of result ≡ new_progress }
    {
        Reading {
            rules: Vec::new(alloc),
            draft: Draft::new(alloc),
        }
    }

    /// Takes the next token, and says whether it may stand there. Fails for want of memory alone.
    pub fn take(&mut self, alloc: Global, at: u64, value: Value) -> Result<bool, AllocError>
        ensures { IfOk result (λ taken. TakesToken (read (progress_of self.old) (at, meaning_of value.entry)) taken (progress_of self.new)) }
    {
        match self.draft.take(alloc, at, value)? {
            RuleTaken::Refused => Ok(false),
            RuleTaken::Goes => Ok(true),
            RuleTaken::Ends(rule) => {
                self.rules.push(rule)?;
                Ok(true)
            }
        }
    }

    /// The rules, if they may end here. It takes no memory.
    pub fn finish(self) -> Option<Rules>
        ensures { option_map (λ rules. map rule_of rules) result ≡ finish (progress_of self) }
    {
        let Reading { rules, draft } = self;
        let stage = draft.stage;
        drop(draft);
        match stage {
            RuleStage::Start => Some(Rules::from_vec(rules)),
            _ => {
                drop(rules);
                None
            }
        }
    }
}
