// The texts of rules and calls: read, printed, checked, and computed.
use crate::playing::unknown;
use crate::words::in_brackets;
use grid_model::{Call, Call0, Expr, Rules, Text, Texts};
use rule_check::{check_call, check_rules};
use rule_cond::{ComputeError, Env, Scope, compute, holds};
use rule_parse::{print_rules, read_call, read_rules};
use std::alloc::{AllocError, Global};

pub(crate) fn play(
    alloc: Global,
    call: &str,
    first: &[u8],
    second: &[u8],
) -> Result<String, AllocError> {
    match call {
        "read" => read(alloc, first),
        "call" => one_call(alloc, first),
        "printed" => printed(alloc, first),
        "equal" => equal(alloc, first, second),
        "checked" => checked(alloc, first),
        "checked_call" => checked_call(alloc, first, second),
        "holds" => holding(alloc, first, second),
        "computed" => computed(alloc, first, second),
        "refused" => refused(alloc, first, second),
        _ => unknown(alloc),
    }
}

// How many rules there are.
fn read(alloc: Global, text: &[u8]) -> Result<String, AllocError> {
    match read_rules(alloc, text) {
        Ok(rules) => format!(in alloc; "{} rules", rules.as_slice().len()),
        Err(error) => format!(in alloc; "{error:?}"),
    }
}

// The name of a call, and how many arguments it has.
fn one_call(alloc: Global, text: &[u8]) -> Result<String, AllocError> {
    match read_call(alloc, text) {
        Ok(call) => format!(in alloc;
            "{} {}",
            call.name.as_slice().escape_ascii(),
            call.args.as_slice().len()
        ),
        Err(error) => format!(in alloc; "{error:?}"),
    }
}

// What is printed, and whether it gives the same rules, printed so.
fn printed(alloc: Global, text: &[u8]) -> Result<String, AllocError> {
    match read_rules(alloc, text) {
        Ok(rules) => with_text(alloc, &rules),
        Err(error) => format!(in alloc; "{error:?}"),
    }
}

fn with_text(alloc: Global, rules: &Rules) -> Result<String, AllocError> {
    let text = print_rules(alloc, rules)?;
    let is_same = is_text_of(alloc, text.as_slice(), rules)?;
    format!(in alloc; "{} {is_same}", text.as_slice().escape_ascii())
}

// Whether the text gives these rules, and is printed of what it gives.
fn is_text_of(alloc: Global, text: &[u8], rules: &Rules) -> Result<bool, AllocError> {
    match read_rules(alloc, text) {
        Ok(read) => Ok(print_rules(alloc, &read)?.has_bytes(text) && read == *rules),
        Err(_) => Ok(false),
    }
}

// Whether both texts give the same rules.
fn equal(alloc: Global, text: &[u8], other: &[u8]) -> Result<String, AllocError> {
    match read_rules(alloc, text) {
        Ok(rules) => equal_to(alloc, &rules, other),
        Err(error) => format!(in alloc; "{error:?}"),
    }
}

fn equal_to(alloc: Global, rules: &Rules, other: &[u8]) -> Result<String, AllocError> {
    match read_rules(alloc, other) {
        Ok(others) => format!(in alloc; "{}", *rules == others),
        Err(error) => format!(in alloc; "{error:?}"),
    }
}

// What is wrong with the rules.
fn checked(alloc: Global, text: &[u8]) -> Result<String, AllocError> {
    match read_rules(alloc, text) {
        Ok(rules) => format!(in alloc; "{:?}", check_rules(alloc, &rules)),
        Err(error) => format!(in alloc; "{error:?}"),
    }
}

// What is wrong with a call, where there are these rules.
fn checked_call(alloc: Global, rules: &[u8], call: &[u8]) -> Result<String, AllocError> {
    match read_rules(alloc, rules) {
        Ok(rules) => checked_with(alloc, &rules, call),
        Err(error) => format!(in alloc; "{error:?}"),
    }
}

fn checked_with(alloc: Global, rules: &Rules, call: &[u8]) -> Result<String, AllocError> {
    match read_call(alloc, call) {
        Ok(call) => format!(in alloc; "{:?}", check_call(alloc, rules, &call)),
        Err(error) => format!(in alloc; "{error:?}"),
    }
}

// The session variables of an object.
fn object_env(alloc: Global) -> Result<Env, AllocError> {
    Ok(Env {
        user: Text::copy_of(alloc, b"rods")?,
        obj: Text::copy_of(alloc, b"/z/a.dat")?,
        coll: Text::copy_of(alloc, b"/z")?,
        resc: Text::copy_of(alloc, b"d0")?,
        put_size: None,
    })
}

fn one_text(alloc: Global, text: &[u8]) -> Result<Texts, AllocError> {
    let text = Text::copy_of(alloc, text)?;
    Ok(Texts::from_vec(vec![in alloc; text]?))
}

// Whether the condition of the first rule holds at an object of three bytes, where `*x` is this argument.
fn holding(alloc: Global, text: &[u8], arg: &[u8]) -> Result<String, AllocError> {
    match read_rules(alloc, text) {
        Ok(rules) => match rules.as_slice().first() {
            Some(rule) => format!(in alloc; "{}", is_holding(alloc, &rule.cond, arg)?),
            None => unknown(alloc),
        },
        Err(error) => format!(in alloc; "{error:?}"),
    }
}

fn is_holding(alloc: Global, cond: &Option<Expr>, arg: &[u8]) -> Result<bool, AllocError> {
    let env = object_env(alloc)?;
    let params = one_text(alloc, b"x")?;
    let args = one_text(alloc, arg)?;
    let scope = Scope {
        env: &env,
        params: &params,
        args: &args,
        size: 3,
    };
    holds(alloc, cond, &scope)
}

// The call with its arguments at an object of as many bytes as there can be, where `*x` is this argument.
fn computed(alloc: Global, text: &[u8], arg: &[u8]) -> Result<String, AllocError> {
    match read_call(alloc, text) {
        Ok(call) => match compute_with(alloc, &call, arg) {
            Ok(call) => shown_call(alloc, &call),
            Err(error) => format!(in alloc; "{error:?}"),
        },
        Err(error) => format!(in alloc; "{error:?}"),
    }
}

fn compute_with(alloc: Global, call: &Call0, arg: &[u8]) -> Result<Call, ComputeError> {
    let env = object_env(alloc)?;
    let params = one_text(alloc, b"x")?;
    let args = one_text(alloc, arg)?;
    let scope = Scope {
        env: &env,
        params: &params,
        args: &args,
        size: u64::MAX,
    };
    compute(alloc, call, &scope)
}

fn shown_call(alloc: Global, call: &Call) -> Result<String, AllocError> {
    let args = in_brackets(alloc, call.args.as_slice())?;
    format!(in alloc; "{}{args}", call.name.as_slice().escape_ascii())
}

// Why the arguments of the call are not computed.
fn refused(alloc: Global, text: &[u8], arg: &[u8]) -> Result<String, AllocError> {
    match read_call(alloc, text) {
        Ok(call) => format!(in alloc; "{:?}", compute_with(alloc, &call, arg).err()),
        Err(error) => format!(in alloc; "{error:?}"),
    }
}
