ghost use Rattle.std.specs.Prelude.{◌≡◌, false, IfOk, IsErrOf};
ghost use Rattle.grid_model.specs.Completing.{IsOfGrid};
ghost use Rattle.grid_model.specs.Grid.{Grid};
ghost use Rattle.grid_model.specs.Obeying.{exec_scope, no_env};
ghost use Rattle.grid_model.specs.Parsed.{call_of, plain_call, shape_of};
ghost use Rattle.grid_model.specs.Refusing.{Or};
ghost use Rattle.grid_model.specs.RowGrids.{user_name};
ghost use Rattle.grid_model.specs.RuleText.{CallText};
ghost use Rattle.grid_model.specs.Values.{computed, is_short};
ghost use Rattle.grid_model.specs.declared.refusal.Refusal.{Refusal as RefusalOf};
ghost use Rattle.chain_core.specs.Seen.{plain_rules};
ghost use Rattle.chain_run.specs.Steps.{FitsFail, FitsInt64, FitsInt64Alone, terms_of};
ghost use Rattle.rule_cond.specs.Scopes.{env_of};
ghost use Rattle.rule_parse.specs.RuleOrders.{ReadsCall};
ghost use Rattle.cmd_run.specs.Calls.{IsComputed, IsReadSo, unchecked, unread};

use grid_model::{Call, Call0, Expr, Form, PlanError, Refusal, Rules, Text, Texts};
use grid_tables::Tables;
use rule_check::{RuleError as CheckError, check_call};
use rule_cond::{ComputeError, Env, Scope, compute};
use rule_parse::{RuleError, read_call};
use std::alloc::{AllocError, Global};

/// The call that a text spells, which may be made by itself where there are these rules. Refused as `BadRule`, and fails for
/// want of memory.
pub(crate) fn call_from(alloc: Global, rules: &Rules, text: &Text) -> Result<Call0, PlanError>
    ensures is { (call : Or CallText) → ReadsCall (plain_rules rules.now) text.now call → IsReadSo call result }
    ensures of_grid { (r : RefusalOf) → IsErrOf result (PlanError.Refused r) → IsOfGrid r }
    ensures fits { IfOk result (λ call. FitsFail (call_of call)) }
{
    let call = match read_call(alloc, text.as_slice()) {
        Ok(call) => call,
        Err(error) => return Err(unread(error)),
    };
    match check_call(alloc, rules, &call) {
        Ok(()) => Ok(call),
        Err(error) => Err(unchecked(error)),
    }
}

// Why a text that is read so is refused.
fn unread(error: RuleError) -> PlanError
    ensures { result ≡ unread error }
{
    match error {
        RuleError::BadRule { at, cause } => PlanError::Refused(Refusal::BadRule { at, cause }),
        RuleError::Memory => PlanError::Memory,
    }
}

// Why a call that is looked at so is refused.
fn unchecked(error: CheckError) -> PlanError
    ensures { result ≡ unchecked error }
{
    match error {
        CheckError::Bad { at, cause } => PlanError::Refused(Refusal::BadRule { at, cause }),
        CheckError::Memory => PlanError::Memory,
    }
}

// The name of this user. Fails for want of memory alone.
fn name_of(alloc: Global, tables: &Tables, user: u32) -> Result<Text, AllocError>
    ensures { IfOk result (λ name. name ≡ user_name tables.now user) }
{
    match tables.user(user) {
        Some(row) => Text::copy_of(alloc, row.name.as_slice()),
        None => Ok(Text::from_vec(Vec::new(alloc))),
    }
}

/// The session variables of a call by itself that this user makes. Fails for want of memory alone.
pub(crate) fn env_by(alloc: Global, tables: &Tables, user: u32) -> Result<Env, AllocError>
    ensures { IfOk result (λ env. env_of env ≡ no_env (user_name tables.now user)) }
{
    let user = name_of(alloc, tables, user)?;
    Ok(Env {
        user,
        obj: Text::from_vec(Vec::new(alloc)),
        coll: Text::from_vec(Vec::new(alloc)),
        resc: Text::from_vec(Vec::new(alloc)),
        put_size: None,
    })
}

/// The call with its arguments, as the user of these session variables makes it by itself. `LongText` comes where one of
/// them is too long, whatever the grid.
pub(crate) fn computed_call(alloc: Global, call: &Call0, env: &Env) -> Result<Call, ComputeError>
    requires env { env_of env.now ≡ no_env env.now.user }
    requires fits { FitsFail (call_of call.now) }
    ensures call { IfOk result (λ done. (g : Grid) → IsComputed env.now.user g (plain_call (call_of call.now)) done) }
    ensures long { IsErrOf result ComputeError.LongText → (g : Grid) →
        is_short (computed (exec_scope env.now.user) g (plain_call (call_of call.now))) ≡ false }
{
    look_at_alone(call);
    let none = Texts::from_vec(Vec::new(alloc));
    let scope = Scope {
        env,
        params: &none,
        args: &none,
        size: 0,
    };
    compute(alloc, call, &scope)
}

// Looks at the expression: what is written as a number has 64 bits.
fn look_at(expr: &Expr)
    ensures { FitsInt64 (shape_of expr.now.form) }
{
    if let Form::Number(number) = &expr.form {
        let _number = *number;
    }
}

// Looks at an argument that stands alone.
fn look_at_alone(call: &Call0)
    ensures { FitsInt64Alone (terms_of call.now.args) }
{
    match call.args.as_slice() {
        [arg] => look_at(arg),
        _ => {}
    }
}
