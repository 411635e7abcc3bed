ghost use Rattle.grid_model.specs.Parsed.{term_of, call_of, step_of, rule_of};
ghost use Rattle.rule_lex.specs.Seen.{meaning_of};
ghost use Rattle.rule_parse.specs.declared.drafts.RuleStage.TheVariants as stage;
ghost use Rattle.rule_parse.specs.Readers.{RuleRead, begin_call, begin_recovery, end_step, in_call, in_condition, new_draft, read_call};
ghost use Rattle.rule_parse.specs.Readers.{read_rule, read_rule_at, read_term, step_with, to, whole_call, whole_rule};
ghost use Rattle.rule_parse.specs.Seen.{calling_of, draft_of, reader_of, TakesRule};
ghost use Rattle.std.specs.Prelude.{◌≡◌, IfOk, Some, option_map};

use crate::calling::Calling;
use crate::expressions::{Reader, Taken};
use grid_model::{Call0, Expr, Rule, Step, Steps, Text, Texts};
use rule_lex::{Symbol, Value};
use std::alloc::{AllocError, Global};
use std::mem;

/// What has to come next in a rule.
#[derive(Clone, Copy)]
pub enum RuleStage {
    /// Its name.
    Start,
    /// The parenthesis before its parameters.
    Named,
    /// A parameter, or the parenthesis behind them.
    FirstParam,
    /// A parameter.
    Param,
    /// A comma, or the parenthesis behind the parameters.
    BehindParam,
    /// The brace before its body.
    Head,
    /// `on`, a step or the closing brace.
    Opened,
    /// The parenthesis before the condition.
    On,
    /// More of the condition.
    Condition,
    /// The brace before the steps of a rule with a condition.
    BehindCondition,
    /// A step, or the closing brace.
    Steps,
    /// More of a step.
    Call,
    /// The closing brace of a rule with a condition.
    BehindSteps,
}

/// What is read of a rule so far.
#[derive(Drop)]
pub struct Draft {
    pub stage: RuleStage,
    pub at: u64,
    pub name: Text,
    pub params: Vec<Text>,
    pub cond: Option<Expr>,
    pub steps: Vec<Step>,
    /// The condition that is being read.
    pub reader: Reader,
    /// The call that a recovery is for.
    pub first: Option<Call0>,
    /// The call that is being read.
    pub calling: Calling,
}

/// What a token did to a rule.
#[derive(Drop)]
pub enum RuleTaken {
    /// It may not stand there.
    Refused,
    /// It is one more token of it.
    Goes,
    /// It is the last of this rule.
    Ends(Rule),
}

/// A call as a step, or as the recovery of the one before it.
fn step_with(first: Option<Call0>, call: Call0) -> Step
    ensures { step_of result ≡ step_with (option_map call_of first) (call_of call) }
{
    match first {
        None => {
            let at = call.at;
            Step {
                call,
                recovery: None,
                at,
            }
        }
        Some(first) => {
            let at = first.at;
            Step {
                call: first,
                recovery: Some(call),
                at,
            }
        }
    }
}

impl Draft {
    /// Nothing is read. It takes no memory.
    pub fn new(alloc: Global) -> Draft
        ensures { draft_of result ≡ new_draft }
    {
        Draft {
            stage: RuleStage::Start,
            at: 0,
            name: Text::from_vec(Vec::new(alloc)),
            params: Vec::new(alloc),
            cond: None,
            steps: Vec::new(alloc),
            reader: Reader::new(alloc),
            first: None,
            calling: Calling::new(alloc),
        }
    }

    /// What is read of it as a rule.
    fn into_rule(self) -> Rule
        ensures { RuleRead.ends (rule_of result) ≡ whole_rule (draft_of self) }
    {
        let Draft {
            at,
            name,
            params,
            cond,
            steps,
            reader,
            first,
            calling,
            ..
        } = self;
        drop(reader);
        drop(first);
        drop(calling);
        Rule {
            name,
            params: Texts::from_vec(params),
            cond,
            steps: Steps::from_vec(steps),
            at,
        }
    }

    /// Goes to a stage.
    fn go(&mut self, stage: RuleStage) -> RuleTaken
        ensures { TakesRule (to stage (draft_of self.old)) result (draft_of self.new) }
    {
        self.stage = stage;
        RuleTaken::Goes
    }

    /// Ends the rule, and then nothing is read.
    fn end(&mut self, alloc: Global) -> RuleTaken
        ensures { TakesRule (whole_rule (draft_of self.old)) result (draft_of self.new) }
    {
        let draft = mem::replace(self, Draft::new(alloc));
        RuleTaken::Ends(draft.into_rule())
    }

    /// Takes the name of the rule.
    fn take_name(&mut self, alloc: Global, at: u64, value: Value) -> Result<RuleTaken, AllocError>
        ensures { IfOk result (λ taken. TakesRule (read_rule_at stage.Start (draft_of self.old) at (meaning_of value.entry)) taken (draft_of self.new)) }
    {
        match value {
            Value::Name(name) => {
                self.name = Text::copy_of(alloc, name)?;
                self.at = at;
                Ok(self.go(RuleStage::Named))
            }
            _ => Ok(RuleTaken::Refused),
        }
    }

    /// Takes the parenthesis before the parameters.
    fn take_named(&mut self, value: Value) -> RuleTaken
        ensures { TakesRule (read_rule_at stage.Named (draft_of self.old) 0 (meaning_of value.entry)) result (draft_of self.new) }
    {
        match value {
            Value::Symbol(Symbol::OpenParenthesis) => self.go(RuleStage::FirstParam),
            _ => RuleTaken::Refused,
        }
    }

    /// Takes a parameter.
    fn take_param(&mut self, alloc: Global, value: Value) -> Result<RuleTaken, AllocError>
        ensures { IfOk result (λ taken. TakesRule (read_rule_at stage.Param (draft_of self.old) 0 (meaning_of value.entry)) taken (draft_of self.new)) }
    {
        match value {
            Value::Param(name) => {
                self.params.push(Text::copy_of(alloc, name)?)?;
                Ok(self.go(RuleStage::BehindParam))
            }
            _ => Ok(RuleTaken::Refused),
        }
    }

    /// Takes a parameter, or the parenthesis behind none.
    fn take_first_param(&mut self, alloc: Global, value: Value) -> Result<RuleTaken, AllocError>
        ensures { IfOk result (λ taken. TakesRule (read_rule_at stage.FirstParam (draft_of self.old) 0 (meaning_of value.entry)) taken (draft_of self.new)) }
    {
        match value {
            Value::Symbol(Symbol::CloseParenthesis) => Ok(self.go(RuleStage::Head)),
            _ => self.take_param(alloc, value),
        }
    }

    /// Takes what stands behind a parameter.
    fn take_behind_param(&mut self, value: Value) -> RuleTaken
        ensures { TakesRule (read_rule_at stage.BehindParam (draft_of self.old) 0 (meaning_of value.entry)) result (draft_of self.new) }
    {
        match value {
            Value::Symbol(Symbol::Comma) => self.go(RuleStage::Param),
            Value::Symbol(Symbol::CloseParenthesis) => self.go(RuleStage::Head),
            _ => RuleTaken::Refused,
        }
    }

    /// Takes the brace before the body.
    fn take_head(&mut self, value: Value) -> RuleTaken
        ensures { TakesRule (read_rule_at stage.Head (draft_of self.old) 0 (meaning_of value.entry)) result (draft_of self.new) }
    {
        match value {
            Value::Symbol(Symbol::OpenBrace) => self.go(RuleStage::Opened),
            _ => RuleTaken::Refused,
        }
    }

    /// Begins a call.
    fn begin_call(&mut self, alloc: Global, at: u64, name: &[u8]) -> Result<RuleTaken, AllocError>
        ensures { IfOk result (λ taken. TakesRule (begin_call (draft_of self.old) at name.now) taken (draft_of self.new)) }
    {
        self.calling.begin(alloc, at, name)?;
        Ok(self.go(RuleStage::Call))
    }

    /// Takes the first token of the body.
    fn take_opened(&mut self, alloc: Global, at: u64, value: Value) -> Result<RuleTaken, AllocError>
        ensures { IfOk result (λ taken. TakesRule (read_rule_at stage.Opened (draft_of self.old) at (meaning_of value.entry)) taken (draft_of self.new)) }
    {
        match value {
            Value::Name(name) => self.begin_call(alloc, at, name),
            Value::Symbol(Symbol::On) => Ok(self.go(RuleStage::On)),
            Value::Symbol(Symbol::CloseBrace) => Ok(self.end(alloc)),
            _ => Ok(RuleTaken::Refused),
        }
    }

    /// Takes the parenthesis before the condition.
    fn take_on(&mut self, alloc: Global, value: Value) -> RuleTaken
        ensures { TakesRule (read_rule_at stage.On (draft_of self.old) 0 (meaning_of value.entry)) result (draft_of self.new) }
    {
        match value {
            Value::Symbol(Symbol::OpenParenthesis) => {
                self.reader.clear(alloc);
                self.go(RuleStage::Condition)
            }
            _ => RuleTaken::Refused,
        }
    }

    /// Takes the next token of the condition.
    fn take_condition(
        &mut self,
        alloc: Global,
        at: u64,
        value: Value,
    ) -> Result<RuleTaken, AllocError>
        ensures { IfOk result (λ taken. TakesRule (in_condition (draft_of self.old) (read_term (reader_of self.old.reader) (at, meaning_of value.entry))) taken
            (draft_of self.new)) }
    {
        match self.reader.take(alloc, at, value)? {
            Taken::Refused => Ok(RuleTaken::Refused),
            Taken::Comma(arg) => {
                drop(arg);
                Ok(RuleTaken::Refused)
            }
            Taken::Goes => Ok(RuleTaken::Goes),
            Taken::Close(cond) => {
                drop(mem::replace(&mut self.cond, Some(cond)));
                self.reader.clear(alloc);
                Ok(self.go(RuleStage::BehindCondition))
            }
        }
    }

    /// Takes the brace before the steps of a rule with a condition.
    fn take_behind_condition(&mut self, value: Value) -> RuleTaken
        ensures { TakesRule (read_rule_at stage.BehindCondition (draft_of self.old) 0 (meaning_of value.entry)) result (draft_of self.new) }
    {
        match value {
            Value::Symbol(Symbol::OpenBrace) => self.go(RuleStage::Steps),
            _ => RuleTaken::Refused,
        }
    }

    /// Takes the first token of a step, or the brace behind the steps.
    fn take_step(&mut self, alloc: Global, at: u64, value: Value) -> Result<RuleTaken, AllocError>
        ensures { IfOk result (λ taken. TakesRule (read_rule_at stage.Steps (draft_of self.old) at (meaning_of value.entry)) taken (draft_of self.new)) }
    {
        match value {
            Value::Name(name) => self.begin_call(alloc, at, name),
            Value::Symbol(Symbol::CloseBrace) => match self.cond {
                None => Ok(self.end(alloc)),
                Some(_) => Ok(self.go(RuleStage::BehindSteps)),
            },
            _ => Ok(RuleTaken::Refused),
        }
    }

    /// Takes the semicolon behind a step.
    fn end_step(&mut self, alloc: Global) -> Result<RuleTaken, AllocError>
        ensures { IfOk result (λ taken. TakesRule (end_step (draft_of self.old) (whole_call (calling_of self.old.calling))) taken (draft_of self.new)) }
    {
        match self.calling.finish(alloc) {
            None => Ok(RuleTaken::Refused),
            Some(call) => {
                let step = step_with(self.first.take(), call);
                self.steps.push(step)?;
                Ok(self.go(RuleStage::Steps))
            }
        }
    }

    /// Takes `:::` behind a call.
    fn begin_recovery(&mut self, alloc: Global) -> RuleTaken
        ensures { TakesRule (begin_recovery (draft_of self.old) (option_map call_of self.old.first) (whole_call (calling_of self.old.calling))) result
            (draft_of self.new) }
    {
        if self.first.is_some() {
            return RuleTaken::Refused;
        }
        match self.calling.finish(alloc) {
            None => RuleTaken::Refused,
            Some(call) => {
                drop(mem::replace(&mut self.first, Some(call)));
                RuleTaken::Goes
            }
        }
    }

    /// Takes the next token of a call.
    fn take_in_call(
        &mut self,
        alloc: Global,
        at: u64,
        value: Value,
    ) -> Result<RuleTaken, AllocError>
        ensures { IfOk result
            (λ took. TakesRule (in_call (draft_of self.old) (read_call (calling_of self.old.calling) (at, meaning_of value.entry))) took (draft_of self.new)) }
    {
        if self.calling.take(alloc, at, value)? {
            return Ok(RuleTaken::Goes);
        }
        Ok(RuleTaken::Refused)
    }

    /// Takes the next token of a step.
    fn take_call(&mut self, alloc: Global, at: u64, value: Value) -> Result<RuleTaken, AllocError>
        ensures { IfOk result (λ taken. TakesRule (read_rule_at stage.Call (draft_of self.old) at (meaning_of value.entry)) taken (draft_of self.new)) }
    {
        match value {
            Value::Symbol(Symbol::Semicolon) => self.end_step(alloc),
            Value::Symbol(Symbol::Recovery) => Ok(self.begin_recovery(alloc)),
            _ => self.take_in_call(alloc, at, value),
        }
    }

    /// Takes the closing brace of a rule with a condition.
    fn take_behind_steps(&mut self, alloc: Global, value: Value) -> RuleTaken
        ensures { TakesRule (read_rule_at stage.BehindSteps (draft_of self.old) 0 (meaning_of value.entry)) result (draft_of self.new) }
    {
        match value {
            Value::Symbol(Symbol::CloseBrace) => self.end(alloc),
            _ => RuleTaken::Refused,
        }
    }

    /// Takes the next token. Fails for want of memory alone.
    pub fn take(&mut self, alloc: Global, at: u64, value: Value) -> Result<RuleTaken, AllocError>
        ensures { IfOk result (λ taken. TakesRule (read_rule (draft_of self.old) (at, meaning_of value.entry)) taken (draft_of self.new)) }
    {
        match self.stage {
            RuleStage::Start => self.take_name(alloc, at, value),
            RuleStage::Named => Ok(self.take_named(value)),
            RuleStage::FirstParam => self.take_first_param(alloc, value),
            RuleStage::Param => self.take_param(alloc, value),
            RuleStage::BehindParam => Ok(self.take_behind_param(value)),
            RuleStage::Head => Ok(self.take_head(value)),
            RuleStage::Opened => self.take_opened(alloc, at, value),
            RuleStage::On => Ok(self.take_on(alloc, value)),
            RuleStage::Condition => self.take_condition(alloc, at, value),
            RuleStage::BehindCondition => Ok(self.take_behind_condition(value)),
            RuleStage::Steps => self.take_step(alloc, at, value),
            RuleStage::Call => self.take_call(alloc, at, value),
            RuleStage::BehindSteps => Ok(self.take_behind_steps(alloc, value)),
        }
    }
}
