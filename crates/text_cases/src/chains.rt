// The machine of chains, played: micro-services are noted by their first argument, and answer by it.
ghost use Rattle.chain_core.specs.Answers.{IsUsable};
ghost use Rattle.chain_core.specs.Seen.{rules_of};

use crate::playing::unknown;
use crate::services::call_of;
use crate::traces::in_runs;
use chain_core::{Action, Event, Frames, RuleBase, Start};
use grid_model::{Call, Call0, Expr, Failure, Form, Refusal, Rule, Step, Text, Texts};
use rule_parse::read_rules;
use std::alloc::{AllocError, Global};

pub(crate) fn play(
    alloc: Global,
    call: &str,
    rules: &[u8],
    what: &[u8],
) -> Result<String, AllocError> {
    match call {
        "point" => start(alloc, rules, Start::Point(Text::copy_of(alloc, what)?)),
        "exec" => start(alloc, rules, Start::Exec(call_of(alloc, what)?)),
        _ => unknown(alloc),
    }
}

// How what is to be run over these rules ends, and what is noted of it.
fn start(alloc: Global, rules: &[u8], what: Start) -> Result<String, AllocError> {
    match read_rules(alloc, rules) {
        Ok(rules) => show(alloc, &RuleBase::new(alloc, rules)?, what),
        Err(error) => format!(in alloc; "{error:?}"),
    }
}

fn show(alloc: Global, rules: &RuleBase, what: Start) -> Result<String, AllocError> {
    let mut trace = Vec::new(alloc);
    let outcome = outcome_of(alloc, rules, what, &mut trace)?;
    let noted = in_runs(alloc, &trace)?;
    format!(in alloc; "{outcome}{noted}")
}

// How it ends. There is no end for want of memory, or of an end within a million actions.
fn outcome_of(
    alloc: Global,
    rules: &RuleBase,
    what: Start,
    trace: &mut Vec<u8>,
) -> Result<String, AllocError> {
    let mut frames = Frames::new(alloc);
    let mut ran = 0;
    let mut action = frames.start(alloc, rules, what)?;
    for _ in 0..1_000_000 {
        if let Action::End(outcome) = &action {
            return format!(in alloc; "{outcome:?}");
        }
        let event = answer(alloc, rules, &frames, &action, trace, &mut ran)?;
        action = frames.next(alloc, rules, event)?;
    }
    Err(AllocError)
}

// What comes of an action.
fn answer(
    alloc: Global,
    rules: &RuleBase,
    frames: &Frames,
    action: &Action,
    trace: &mut Vec<u8>,
    ran: &mut i64,
) -> Result<Event, AllocError> {
    match action {
        Action::Test { rule } => Ok(Event::Tested(is_true(rules, *rule))),
        Action::Eval { rule, step } => eval(alloc, rules, frames.args(), *rule, *step, *ran),
        Action::Run(call) => {
            note(trace, b"", first(call))?;
            if *ran < 1000 {
                *ran += 1;
            }
            Ok(Event::Ran(answered(first(call))))
        }
        Action::Undo => undone(frames, trace),
        Action::End(_) => Ok(Event::LongText),
    }
}

// Whether the condition, which is a truth or none, holds.
fn is_true(rules: &RuleBase, rule: usize) -> bool {
    match rules.rules().as_slice().get(rule) {
        None => false,
        Some(rule) => match &rule.cond {
            None => true,
            Some(cond) => match &cond.form {
                Form::Truth(holds) => *holds,
                _ => false,
            },
        },
    }
}

// The step of the rule with its arguments; `long` is too long.
fn eval(
    alloc: Global,
    rules: &RuleBase,
    args: &Texts,
    rule: usize,
    step: usize,
    ran: i64,
) -> Result<Event, AllocError> {
    match rules.rules().as_slice().get(rule) {
        None => Ok(Event::LongText),
        Some(rule) => match rule.steps.as_slice().get(step) {
            None => Ok(Event::LongText),
            Some(step) => eval_step(alloc, step, rule, args, ran),
        },
    }
}

fn eval_step(
    alloc: Global,
    step: &Step,
    rule: &Rule,
    args: &Texts,
    ran: i64,
) -> Result<Event, AllocError> {
    let call = computed(alloc, &step.call, rule, args, ran)?;
    if first(&call) == b"long".as_slice() {
        return Ok(Event::LongText);
    }
    let recovery = match &step.recovery {
        None => None,
        Some(recovery) => Some(computed(alloc, recovery, rule, args, ran)?),
    };
    Ok(Event::Computed { call, recovery })
}

// A call with its arguments.
fn computed(
    alloc: Global,
    call: &Call0,
    rule: &Rule,
    args: &Texts,
    ran: i64,
) -> Result<Call, AllocError> {
    let mut values = Vec::new(alloc);
    for expr in call.args.as_slice() {
        values.push(value(alloc, expr, rule, args, ran)?)?;
    }
    Ok(Call {
        name: Text::copy_of(alloc, call.name.as_slice())?,
        args: Texts::from_vec(values),
    })
}

// An argument: a session variable is how many micro-services were run.
fn value(
    alloc: Global,
    expr: &Expr,
    rule: &Rule,
    args: &Texts,
    ran: i64,
) -> Result<Text, AllocError> {
    match &expr.form {
        Form::Text(text) => Text::copy_of(alloc, text.as_slice()),
        Form::Number(n) => number(alloc, *n),
        Form::Session(_, _) => number(alloc, ran),
        Form::Param(_, name) => Text::copy_of(alloc, argument(rule, args, name)),
        _ => Text::copy_of(alloc, b""),
    }
}

fn number(alloc: Global, number: i64) -> Result<Text, AllocError> {
    Ok(Text::from_vec(number.to_string(alloc)?.into_bytes()))
}

// The argument of the parameter of this name, and nothing where there is none.
fn argument<'a>(rule: &Rule, args: &'a Texts, name: &Text) -> &'a [u8] {
    for (param, arg) in rule.params.as_slice().iter().zip(args.as_slice()) {
        if param.is_same(name) {
            return arg.as_slice();
        }
    }
    b""
}

// The first argument, and nothing without one.
fn first(call: &Call) -> &[u8] {
    match call.args.as_slice() {
        [] => b"",
        [arg, ..] => arg.as_slice(),
    }
}

// A call is refused at `x`, and stopped at `s`.
fn answered(arg: &[u8]) -> Result<(), Failure> {
    match arg {
        [b'x'] => Err(Failure::Refused(Refusal::NoObject)),
        [b's'] => Err(Failure::Stopped),
        _ => Ok(()),
    }
}

// What comes of the last recovery.
fn undone(frames: &Frames, trace: &mut Vec<u8>) -> Result<Event, AllocError> {
    match frames.undo().as_slice().last() {
        None => Ok(Event::Undone(None)),
        Some(call) => {
            note(trace, b"-", first(call))?;
            Ok(Event::Undone(answered(first(call)).err()))
        }
    }
}

// Notes a call.
fn note(trace: &mut Vec<u8>, sign: &[u8], arg: &[u8]) -> Result<(), AllocError> {
    trace.extend_from_slice(sign)?;
    trace.extend_from_slice(arg)?;
    trace.extend_from_slice(b" ")
}
