// Rules run over a doer on an empty grid.
ghost use Rattle.grid_model.specs.Checks.{first_fault, rules_faults};
ghost use Rattle.grid_model.specs.Parsed.{rule_of};
ghost use Rattle.std.specs.Prelude.{◌≡◌, None, IfOk, map};

use crate::doer::Player;
use crate::playing::unknown;
use crate::services::call_of;
use crate::traces::in_runs;
use chain_core::{Frames, RuleBase};
use chain_run::{run_point, run_rule};
use grid_model::{Rules, Text};
use rule_check::check_rules;
use rule_cond::Env;
use rule_parse::read_rules;
use std::alloc::{AllocError, Global};

pub(crate) fn play(
    alloc: Global,
    call: &str,
    rules: &[u8],
    what: &[u8],
) -> Result<String, AllocError> {
    match read_rules(alloc, rules) {
        Ok(rules) => check(alloc, call, rules, what),
        Err(error) => format!(in alloc; "{error:?}"),
    }
}

fn check(alloc: Global, call: &str, rules: Rules, what: &[u8]) -> Result<String, AllocError> {
    match check_rules(alloc, &rules) {
        Ok(()) => run(alloc, call, &RuleBase::new(alloc, rules)?, what),
        Err(error) => format!(in alloc; "{error:?}"),
    }
}

fn run(alloc: Global, call: &str, rules: &RuleBase, what: &[u8]) -> Result<String, AllocError>
    requires { first_fault (rules_faults (map rule_of rules.now.rules)) ≡ None }
{
    let env = longest_env(alloc)?;
    match call {
        "points" => points(alloc, rules, &env, what),
        "exec" => exec(alloc, rules, &env, what),
        _ => unknown(alloc),
    }
}

// The session variables, with as many bytes for `$objPath` as an argument has at most.
fn longest_env(alloc: Global) -> Result<Env, AllocError> {
    Ok(Env {
        user: Text::copy_of(alloc, b"rods")?,
        obj: Text::from_vec(vec![in alloc; b'x'; 4096]?),
        coll: Text::copy_of(alloc, b"/z")?,
        resc: Text::copy_of(alloc, b"d0")?,
        put_size: None,
    })
}

fn new_player(alloc: Global, env: &Env) -> Result<Player, AllocError>
    ensures { IfOk result (λ player. player.user ≡ env.now.user) }
{
    Ok(Player::new(alloc, Text::copy_of(alloc, env.user.as_slice())?))
}

// How the points of these names end, which are run one behind another, and which calls each of them makes.
fn points(alloc: Global, rules: &RuleBase, env: &Env, names: &[u8]) -> Result<String, AllocError>
    requires { first_fault (rules_faults (map rule_of rules.now.rules)) ≡ None }
{
    let mut shown = String::new(alloc);
    let mut frames = Frames::new(alloc);
    for name in names.split(|byte| *byte == b' ') {
        shown.push_str(point(alloc, &mut frames, rules, env, name)?.as_str())?;
    }
    Ok(shown)
}

fn point(
    alloc: Global,
    frames: &mut Frames,
    rules: &RuleBase,
    env: &Env,
    name: &[u8],
) -> Result<String, AllocError>
    requires { first_fault (rules_faults (map rule_of rules.now.rules)) ≡ None }
{
    let name = Text::copy_of(alloc, name)?;
    let mut player = new_player(alloc, env)?;
    let ended = run_point(alloc, frames, rules, env, name, &mut player);
    let calls = in_runs(alloc, &player.trace)?;
    format!(in alloc; "{ended:?}{calls};")
}

// How a call by itself ends.
fn exec(alloc: Global, rules: &RuleBase, env: &Env, call: &[u8]) -> Result<String, AllocError>
    requires { first_fault (rules_faults (map rule_of rules.now.rules)) ≡ None }
{
    let call = call_of(alloc, call)?;
    let mut frames = Frames::new(alloc);
    let mut player = new_player(alloc, env)?;
    let ended = run_rule(alloc, &mut frames, rules, env, call, &mut player);
    format!(in alloc; "{ended:?}")
}
