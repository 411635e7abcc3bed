ghost use Rattle.grid_model.specs.Parsed.{plain, term_of};
ghost use Rattle.grid_model.specs.RuleText.{session};
ghost use Rattle.grid_model.specs.Values.{text_of, text_value};
ghost use Rattle.rule_cond.specs.Scopes.{HasScopeSize, holds_on, value_on};
ghost use Rattle.rule_cond.specs.Seen.{value_of};
ghost use Rattle.rule_cond.specs.Sizes.{value_in};
ghost use Rattle.grid_model.specs.Grid.{Grid};
ghost use Rattle.std.specs.Prelude.{◌≡◌, ◌++◌, IfOk, OnOk};

use crate::names::{Session, argument, session_named};
use crate::operators::{by_operator, is_true, put, put_number};
use crate::scope::Scope;
use crate::value::Value;
use grid_model::{Expr, Form, Operator, Text};
use std::alloc::{AllocError, Global};

/// A text, as a value.
fn text_value(alloc: Global, text: &[u8]) -> Result<Value, AllocError>
    ensures { IfOk result (λ v. value_of v ≡ text_value text.now) }
{
    Ok(Value::Text(Text::copy_of(alloc, text)?))
}

/// Adds what a session variable is.
fn put_session(
    out: &mut Vec<u8>,
    alloc: Global,
    name: &[u8],
    scope: &Scope,
) -> Result<(), AllocError>
    ensures { OnOk result (out.new.items ≡ out.old.items ++ text_of (value_in scope.now (session name.now))) }
{
    match session_named(scope, name) {
        Session::Text(text) => put(out, text),
        Session::Size => put_number(out, alloc, i128::from(scope.size)),
    }
}

/// Adds the text of an expression, or its number in decimal form.
pub fn put_text(
    out: &mut Vec<u8>,
    alloc: Global,
    expr: &Expr,
    scope: &Scope,
) -> Result<(), AllocError>
    ensures { OnOk result (out.new.items ≡ out.old.items ++ text_of (value_in scope.now (plain (term_of expr.now)))) }
{
    match &expr.form {
        Form::Text(text) => put(out, text.as_slice()),
        Form::Number(number) => put_number(out, alloc, i128::from(*number)),
        Form::Truth(_) => Ok(()),
        Form::Param(_, name) => put(
            out,
            argument(
                scope.params.as_slice(),
                scope.args.as_slice(),
                name.as_slice(),
            ),
        ),
        Form::Session(_, name) => put_session(out, alloc, name.as_slice(), scope),
        Form::Not(_) => Ok(()),
        Form::Applied(Operator::Join, left, right) => {
            put_text(out, alloc, left, scope)?;
            put_text(out, alloc, right, scope)
        }
        Form::Applied(_, _, _) => Ok(()),
    }
}

/// The value of an expression, by the size of the scope alone.
fn value(alloc: Global, expr: &Expr, scope: &Scope) -> Result<Value, AllocError>
    ensures { IfOk result (λ v. value_of v ≡ value_in scope.now (plain (term_of expr.now))) }
{
    match &expr.form {
        Form::Text(text) => text_value(alloc, text.as_slice()),
        Form::Number(number) => Ok(Value::Number(i128::from(*number))),
        Form::Truth(truth) => Ok(Value::Truth(*truth)),
        Form::Param(_, name) => text_value(
            alloc,
            argument(
                scope.params.as_slice(),
                scope.args.as_slice(),
                name.as_slice(),
            ),
        ),
        Form::Session(_, name) => match session_named(scope, name.as_slice()) {
            Session::Text(text) => text_value(alloc, text),
            Session::Size => Ok(Value::Number(i128::from(scope.size))),
        },
        Form::Not(operand) => {
            let operand = value(alloc, operand, scope)?;
            Ok(Value::Truth(!is_true(&operand)))
        }
        Form::Applied(Operator::Join, left, right) => {
            let mut text = Vec::new(alloc);
            put_text(&mut text, alloc, left, scope)?;
            put_text(&mut text, alloc, right, scope)?;
            Ok(Value::Text(Text::from_vec(text)))
        }
        Form::Applied(operator, left, right) => {
            let left = value(alloc, left, scope)?;
            let right = value(alloc, right, scope)?;
            Ok(Value::Truth(by_operator(alloc, *operator, left, right)?))
        }
    }
}

/// The value of an expression in a scope, on every grid on which its size is that of the scope. Every expression has one:
/// where an operator is not made for the types of its operands, it takes their texts, of which that of a truth is empty,
/// and what is no truth counts as false. Fails for want of memory alone.
pub fn eval(alloc: Global, expr: &Expr, scope: &Scope) -> Result<Value, AllocError>
    ensures { IfOk result (λ v. (g : Grid) → HasScopeSize scope.now g → value_of v ≡ value_on scope.now g expr.now) }
{
    value(alloc, expr, scope)
}

/// Whether a condition holds in a scope, on every grid on which its size is that of the scope. A rule without one always
/// applies. Fails for want of memory alone.
pub fn holds(alloc: Global, cond: &Option<Expr>, scope: &Scope) -> Result<bool, AllocError>
    ensures { IfOk result (λ truth. (g : Grid) → HasScopeSize scope.now g → truth ≡ holds_on scope.now g cond.now) }
{
    match cond {
        None => Ok(true),
        Some(expr) => {
            let value = value(alloc, expr, scope)?;
            Ok(is_true(&value))
        }
    }
}
