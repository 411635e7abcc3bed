ghost use Rattle.grid_model.specs.Parsed.{plain, plain_call, plain_rule, plain_step, term_of, call_of, step_of, rule_of};
ghost use Rattle.rule_parse.specs.Printed.{as_operand, behind_comma, body_tokens, call_tokens, expr_tokens, in_braces, in_parentheses};
ghost use Rattle.rule_parse.specs.Printed.{is_operation, print_rule, print_rules, recovery_tokens, rule_tokens, step_tokens, with_commas};
ghost use Rattle.rule_parse.specs.Grammar.{SpellsRules};
ghost use Rattle.rule_parse.specs.RuleTexts.{IsReadAgain, IsTextOf};
ghost use Rattle.rule_parse.specs.Seen.{arg_tokens, open_tokens, param_tokens, spread, steps_tokens};
ghost use Rattle.rule_lex.specs.Tokens.{RuleToken as Meaning};
ghost use Rattle.std.specs.Prelude.{◌≡◌, [], ◌∷◌, ◌++◌, ℕ, List, flat_map, map, option_map, IfOk, OnOk};

use crate::symbols::sign_of;
use crate::tokens::{put_name, put_number, put_param, put_session, put_symbol, put_text};
use grid_model::{Call0, Expr, Form, Rule, Rules, Step, Text};
use rule_lex::Symbol;
use std::alloc::{AllocError, Global};

/// Whether an expression has an operator.
fn is_operation(expr: &Expr) -> bool
    ensures { result ≡ is_operation (plain (term_of expr.now)) }
{
    matches!(expr.form, Form::Not(_) | Form::Applied(_, _, _))
}

/// Adds the tokens of an operand.
#[cycle(printing)]
fn put_operand(out: &mut Vec<u8>, alloc: Global, expr: &Expr) -> Result<(), AllocError>
    ensures { OnOk result (out.new.items ≡ out.old.items ++ spread (as_operand (plain (term_of expr.now)) (expr_tokens (plain (term_of expr.now))))) }
{
    if !is_operation(expr) {
        return put_expr(out, alloc, expr);
    }
    put_symbol(out, Symbol::OpenParenthesis)?;
    put_expr(out, alloc, expr)?;
    put_symbol(out, Symbol::CloseParenthesis)
}

/// Adds the tokens of an expression.
#[cycle(printing)]
fn put_expr(out: &mut Vec<u8>, alloc: Global, expr: &Expr) -> Result<(), AllocError>
    ensures { OnOk result (out.new.items ≡ out.old.items ++ spread (expr_tokens (plain (term_of expr.now)))) }
{
    match &expr.form {
        Form::Text(text) => put_text(out, text.as_slice()),
        Form::Number(number) => put_number(out, alloc, *number),
        Form::Truth(true) => put_symbol(out, Symbol::True),
        Form::Truth(false) => put_symbol(out, Symbol::False),
        Form::Param(_, name) => put_param(out, name.as_slice()),
        Form::Session(_, name) => put_session(out, name.as_slice()),
        Form::Not(operand) => {
            put_symbol(out, Symbol::Not)?;
            put_operand(out, alloc, operand)
        }
        Form::Applied(operator, left, right) => {
            put_operand(out, alloc, left)?;
            put_symbol(out, sign_of(*operator))?;
            put_operand(out, alloc, right)
        }
    }
}

/// Adds the tokens of arguments that others stand before.
fn put_more_args(out: &mut Vec<u8>, alloc: Global, args: &[Expr]) -> Result<(), AllocError>
    ensures { OnOk result (out.new.items ≡ out.old.items ++ spread (flat_map behind_comma (arg_tokens args.now))) }
{
    for arg in args {
        put_symbol(out, Symbol::Comma)?;
        put_expr(out, alloc, arg)?;
    }
    Ok(())
}

/// Adds the tokens of the arguments of a call.
fn put_args(out: &mut Vec<u8>, alloc: Global, args: &[Expr]) -> Result<(), AllocError>
    ensures { OnOk result (out.new.items ≡ out.old.items ++ spread (with_commas (arg_tokens args.now))) }
{
    if args.is_empty() {
        return Ok(());
    }
    put_expr(out, alloc, &args[0])?;
    put_more_args(out, alloc, &args[1..])
}

/// Adds the tokens of a call.
fn put_call(out: &mut Vec<u8>, alloc: Global, call: &Call0) -> Result<(), AllocError>
    ensures { OnOk result (out.new.items ≡ out.old.items ++ spread (call_tokens (plain_call (call_of call.now)))) }
{
    put_name(out, call.name.as_slice())?;
    put_symbol(out, Symbol::OpenParenthesis)?;
    put_args(out, alloc, call.args.as_slice())?;
    put_symbol(out, Symbol::CloseParenthesis)
}

/// Adds the tokens of a step.
fn put_step(out: &mut Vec<u8>, alloc: Global, step: &Step) -> Result<(), AllocError>
    ensures { OnOk result (out.new.items ≡ out.old.items ++ spread (step_tokens (plain_step (step_of step.now)))) }
{
    put_call(out, alloc, &step.call)?;
    if let Some(recovery) = &step.recovery {
        put_symbol(out, Symbol::Recovery)?;
        put_call(out, alloc, recovery)?;
    }
    put_symbol(out, Symbol::Semicolon)
}

/// Adds the tokens of steps.
fn put_steps(out: &mut Vec<u8>, alloc: Global, steps: &[Step]) -> Result<(), AllocError>
    ensures { OnOk result (out.new.items ≡ out.old.items ++ spread (steps_tokens steps.now)) }
{
    for step in steps {
        put_step(out, alloc, step)?;
    }
    Ok(())
}

/// Adds the tokens of parameters that others stand before.
fn put_more_params(out: &mut Vec<u8>, params: &[Text]) -> Result<(), AllocError>
    ensures { OnOk result (out.new.items ≡ out.old.items ++ spread (flat_map behind_comma (param_tokens params.now))) }
{
    for param in params {
        put_symbol(out, Symbol::Comma)?;
        put_param(out, param.as_slice())?;
    }
    Ok(())
}

/// Adds the tokens of the parameters of a rule.
fn put_params(out: &mut Vec<u8>, params: &[Text]) -> Result<(), AllocError>
    ensures { OnOk result (out.new.items ≡ out.old.items ++ spread (with_commas (param_tokens params.now))) }
{
    if params.is_empty() {
        return Ok(());
    }
    put_param(out, params[0].as_slice())?;
    put_more_params(out, &params[1..])
}

/// Adds the tokens between the braces of a rule.
fn put_body(out: &mut Vec<u8>, alloc: Global, rule: &Rule) -> Result<(), AllocError>
    ensures { OnOk result (out.new.items ≡ out.old.items ++ spread
        (body_tokens (option_map plain (option_map term_of rule.now.cond)) (map plain_step (map step_of rule.now.steps)))) }
{
    match &rule.cond {
        None => put_steps(out, alloc, rule.steps.as_slice()),
        Some(cond) => {
            put_symbol(out, Symbol::On)?;
            put_symbol(out, Symbol::OpenParenthesis)?;
            put_expr(out, alloc, cond)?;
            put_symbol(out, Symbol::CloseParenthesis)?;
            put_symbol(out, Symbol::OpenBrace)?;
            put_steps(out, alloc, rule.steps.as_slice())?;
            put_symbol(out, Symbol::CloseBrace)
        }
    }
}

/// Adds the tokens of a rule up to the brace that ends it.
fn put_open_rule(out: &mut Vec<u8>, alloc: Global, rule: &Rule) -> Result<(), AllocError>
    ensures { OnOk result (out.new.items ≡ out.old.items ++ spread (open_tokens (plain_rule (rule_of rule.now)))) }
{
    put_name(out, rule.name.as_slice())?;
    put_symbol(out, Symbol::OpenParenthesis)?;
    put_params(out, rule.params.as_slice())?;
    put_symbol(out, Symbol::CloseParenthesis)?;
    put_symbol(out, Symbol::OpenBrace)?;
    put_body(out, alloc, rule)
}

/// Adds the line of a rule.
fn put_rule(out: &mut Vec<u8>, alloc: Global, rule: &Rule) -> Result<(), AllocError>
    ensures { OnOk result (out.new.items ≡ out.old.items ++ print_rule (plain_rule (rule_of rule.now))) }
{
    put_open_rule(out, alloc, rule)?;
    out.push(b'}')?;
    out.push(b'\n')?;
    Ok(())
}

/// The text of rules: each in a line, as its tokens with one space between each two. An operand that has an operator
/// itself stands in parentheses, every call has its parentheses, and texts stand between `"`.
///
/// # Errors
///
/// Fails for want of memory alone.
pub fn print_rules(alloc: Global, rules: &Rules) -> Result<Text, AllocError>
    ensures printed { IfOk result (λ printed. printed ≡ print_rules (map plain_rule (map rule_of rules.now))) }
    // It spells the same rules, if some text does.
    ensures again { (text : List ℕ) → IsTextOf SpellsRules text (map rule_of rules.now) → IfOk result (λ printed. IsReadAgain printed (map rule_of rules.now)) }
{
    let mut out = Vec::new(alloc);
    for rule in rules.as_slice() {
        put_rule(&mut out, alloc, rule)?;
    }
    Ok(Text::from_vec(out))
}
