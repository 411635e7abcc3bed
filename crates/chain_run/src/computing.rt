//! What the machine asks for that no doer does: conditions, and the arguments of steps.
ghost use Rattle.chain_core.specs.Answers.{scope_in, step_at};
ghost use Rattle.chain_core.specs.Rest.{rule_at};
ghost use Rattle.chain_core.specs.Seen.{rules_of};
ghost use Rattle.chain_run.specs.Steps.{FitsFail, FitsInt64, FitsInt64Alone, IsStep, terms_of};
ghost use Rattle.grid_model.specs.Checks.{first_fault, rules_faults};
ghost use Rattle.grid_model.specs.Grid.{Grid};
ghost use Rattle.grid_model.specs.Parsed.{call_of, plain_rule, plain_step, rule_of, shape_of, step_of};
ghost use Rattle.grid_model.specs.Values.{holds, size_now};
ghost use Rattle.rule_cond.specs.Scopes.{HasScopeSize, env_of, scope_seen};
ghost use Rattle.std.specs.Prelude.{◌≡◌, ◌<◌, ◌^◌, None, IfOk, length, map};

use chain_core::{Event, Frames, RuleBase};
use grid_model::{Call0, Expr, Form, Rule, Step};
use rule_cond::{ComputeError, Env, Scope, compute, holds};
use std::alloc::{AllocError, Global};

/// The rule at this place.
fn rule_at(rules: &RuleBase, rule: usize) -> &Rule
    requires { rule < length (rules_of rules.now) }
    ensures { plain_rule (rule_of result.now) ≡ rule_at (rules_of rules.now) rule }
{
    let rules = rules.rules().as_slice();
    &rules[rule]
}

/// The step at this place of the rule at that place. In rules without a fault a `fail` has no argument, or a number.
fn step_at(rules: &RuleBase, rule: usize, step: usize) -> &Step
    requires { step < length (rule_at (rules_of rules.now) rule).steps }
    ensures step { plain_step (step_of result.now) ≡ step_at (rule_at (rules_of rules.now) rule) step }
    ensures fails { first_fault (rules_faults (map rule_of rules.now.rules)) ≡ None → FitsFail (call_of result.now.call) }
{
    let rules = rules.rules().as_slice();
    let steps = rules[rule].steps.as_slice();
    &steps[step]
}

/// Looks at the expression: what is written as a number has 64 bits.
fn look_at(expr: &Expr)
    ensures { FitsInt64 (shape_of expr.now.form) }
{
    if let Form::Number(number) = &expr.form {
        let _number = *number;
    }
}

/// Looks at an argument that stands alone.
fn look_at_alone(call: &Call0)
    ensures { FitsInt64Alone (terms_of call.now.args) }
{
    match call.args.as_slice() {
        [arg] => look_at(arg),
        _ => {}
    }
}

/// Looks at the size of the scope, which has 64 bits.
fn look_at_size(scope: &Scope)
    ensures { scope.now.size < 2 ^ 64 }
{
    let _size = scope.size;
}

/// The step with its arguments, and those of its recovery, in a scope. Fails for want of memory alone.
fn compute_in(alloc: Global, step: &Step, scope: &Scope) -> Result<Event, AllocError>
    requires { FitsFail (call_of step.now.call) }
    ensures { IfOk result (λ event. (g : Grid) → HasScopeSize scope.now g → IsStep (scope_seen scope.now) g (plain_step (step_of step.now)) event) }
{
    look_at_alone(&step.call);
    look_at_size(scope);
    let call = match compute(alloc, &step.call, scope) {
        Ok(call) => call,
        Err(ComputeError::LongText) => return Ok(Event::LongText),
        Err(ComputeError::Memory) => return Err(AllocError),
    };
    match &step.recovery {
        None => Ok(Event::Computed {
            call,
            recovery: None,
        }),
        Some(recovery) => match compute(alloc, recovery, scope) {
            Ok(recovery) => Ok(Event::Computed {
                call,
                recovery: Some(recovery),
            }),
            Err(ComputeError::LongText) => Ok(Event::LongText),
            Err(ComputeError::Memory) => Err(AllocError),
        },
    }
}

/// Whether the condition of the rule holds, where `$dataSize` is this. Fails for want of memory alone.
pub(crate) fn test<'a>(
    alloc: Global,
    frames: &'a Frames,
    rules: &'a RuleBase,
    env: &'a Env,
    rule: usize,
    size: u64,
) -> Result<bool, AllocError>
    requires { rule < length (rules_of rules.now) }
    ensures { IfOk result (λ truth. (g : Grid) → size_now (env_of env.now) g ≡ size →
        holds (scope_in (rules_of rules.now) (env_of env.now) frames.now rule) g (rule_at (rules_of rules.now) rule).cond ≡ truth) }
{
    let rule = rule_at(rules, rule);
    let scope = Scope {
        env,
        params: &rule.params,
        args: frames.args(),
        size,
    };
    holds(alloc, &rule.cond, &scope)
}

/// The step of the rule with its arguments, where `$dataSize` is this. Fails for want of memory alone.
pub(crate) fn compute_step<'a>(
    alloc: Global,
    frames: &'a Frames,
    rules: &'a RuleBase,
    env: &'a Env,
    place: (usize, usize),
    size: u64,
) -> Result<Event, AllocError>
    requires there { place.1 < length (rule_at (rules_of rules.now) place.0).steps }
    requires checked { first_fault (rules_faults (map rule_of rules.now.rules)) ≡ None }
    ensures { IfOk result (λ event. (g : Grid) → size_now (env_of env.now) g ≡ size →
        IsStep (scope_in (rules_of rules.now) (env_of env.now) frames.now place.0) g (step_at (rule_at (rules_of rules.now) place.0) place.1) event) }
{
    let (at, step) = place;
    let step = step_at(rules, at, step);
    let rule = rule_at(rules, at);
    let scope = Scope {
        env,
        params: &rule.params,
        args: frames.args(),
        size,
    };
    compute_in(alloc, step, &scope)
}
