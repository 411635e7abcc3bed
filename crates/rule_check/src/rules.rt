#![tactic(auto, using(crate::proofs::Keeping::keeping))]

ghost use Rattle.grid_model.specs.Checks.{exec_faults, first_fault, rule_faults, rules_faults, count_faults};
ghost use Rattle.grid_model.specs.Parsed.{call_of, rule_of};
ghost use Rattle.rule_check.specs.Faults.{fault_so_far, least};
ghost use Rattle.rule_check.specs.Rules.{head_faults, known_of, named_rules};
ghost use Rattle.rule_check.specs.Tables.{without_places};
ghost use Rattle.rule_check.specs.declared.error.RuleError.TheVariants.{Bad};
ghost use Rattle.grid_model.specs.declared.refusal.RuleCause.{RuleCause};
ghost use Rattle.std.specs.Prelude.{◌≡◌, ℕ, None, Some, IfOk, IsErrOf, OnOk, flat_map, map};

use crate::calls::{self, check_steps, rule_takes};
use crate::error::RuleError;
use crate::expressions::check_condition;
use crate::faults::Findings;
use crate::known::Known;
use crate::names::RuleNames;
use crate::tables::{EXEC_SESSIONS, SESSIONS, is_point, is_service};
use grid_model::{Call0, Rule, RuleCause, Rules};
use std::alloc::{AllocError, Global};

/// How many rules there are at most.
const MOST_RULES: usize = 1024;

/// Looks at the name and the parameters of a rule.
fn check_head(
    findings: &mut Findings,
    names: &RuleNames,
    name: &[u8],
    at: u64,
    count: usize,
    is_repeated: bool,
)
    ensures { fault_so_far findings.new ≡ least (fault_so_far findings.old) (head_faults (named_rules names.now) name.now at count is_repeated) }
{
    let is_taken = is_service(name);
    let is_point = is_point(name);
    let fits = rule_takes(names, name, count);
    findings.note(is_taken, at, RuleCause::Taken);
    findings.note(is_repeated, at, RuleCause::Param);
    findings.note(is_point && count > 0, at, RuleCause::Arity);
    findings.note(!fits, at, RuleCause::Arity);
}

/// Looks at a rule. Fails for want of memory alone.
fn check_rule(
    alloc: Global,
    findings: &mut Findings,
    names: &RuleNames,
    rule: &Rule,
) -> Result<(), AllocError>
    ensures { OnOk result (fault_so_far findings.new ≡ least (fault_so_far findings.old) (rule_faults (named_rules names.now) (rule_of rule.now))) }
{
    let params = rule.params.as_slice();
    let known = Known::new(alloc, params, &SESSIONS)?;
    check_head(
        findings,
        names,
        rule.name.as_slice(),
        rule.at,
        params.len(),
        known.is_repeated,
    );
    check_condition(findings, &known, &rule.cond);
    check_steps(findings, names, &known, rule.steps.as_slice());
    Ok(())
}

/// Looks at rules. Fails for want of memory alone.
fn check_each(
    alloc: Global,
    findings: &mut Findings,
    names: &RuleNames,
    rules: &[Rule],
) -> Result<(), AllocError>
    ensures { let faults = flat_map (rule_faults (named_rules names.now)) (map rule_of rules.now) in
        OnOk result (fault_so_far findings.new ≡ least (fault_so_far findings.old) faults) }
{
    for rule in rules {
        check_rule(alloc, findings, names, rule)?;
    }
    Ok(())
}

/// Looks at the number of rules.
fn check_count(findings: &mut Findings, rules: &[Rule])
    ensures { fault_so_far findings.new ≡ least (fault_so_far findings.old) (count_faults (map rule_of rules.now)) }
{
    match rules.get(MOST_RULES) {
        None => {}
        Some(rule) => findings.note(true, rule.at, RuleCause::TooManyRules),
    }
}

/// The answer to what was found.
fn answer(findings: &Findings) -> Result<(), RuleError>
    ensures ok { IfOk result (λ done. fault_so_far findings.now ≡ None) }
    ensures bad { (at : ℕ) (cause : RuleCause) → IsErrOf result (Bad at cause) → fault_so_far findings.now ≡ Some (at, cause) }
{
    match findings.first {
        None => Ok(()),
        Some(fault) => Err(RuleError::Bad {
            at: fault.at,
            cause: fault.cause,
        }),
    }
}

/// What is wrong with these rules. Fails for want of memory alone.
fn look_at_rules(alloc: Global, names: &RuleNames) -> Result<Findings, AllocError>
    ensures { IfOk result (λ findings. fault_so_far findings ≡ first_fault (rules_faults (map rule_of names.now.rules.now))) }
{
    let mut findings = Findings::new();
    check_count(&mut findings, names.rules);
    check_each(alloc, &mut findings, names, names.rules)?;
    Ok(findings)
}

/// What is wrong with a call by itself, where there are these rules. Fails for want of memory alone.
fn look_at_call(alloc: Global, names: &RuleNames, call: &Call0) -> Result<Findings, AllocError>
    ensures { IfOk result (λ findings. fault_so_far findings ≡ first_fault (exec_faults (named_rules names.now) (call_of call.now))) }
{
    let known = Known::new(alloc, &[], &EXEC_SESSIONS)?;
    let mut findings = Findings::new();
    calls::check_call(&mut findings, names, &known, call);
    Ok(findings)
}

/// What is wrong with rules, if anything is: of all that is wrong, what stands at the least place, and there comes first in
/// the order of the causes.
///
/// # Errors
///
/// `Bad` at a rule for the name of a micro-service (`Taken`), a parameter that is there twice (`Param`), more rules than
/// 1,024 (`TooManyRules`), a point with parameters or another number of them than the first of its name has (`Arity`).
/// At a call for another number of arguments (`Arity`), a name of nothing (`Unknown`), and a recovery that is none
/// (`Recovery`). At a token for a parameter or a session variable that is not there (`Variable`). At the first token of an
/// expression for a type that does not fit (`Typing`), and for an argument that has to be one of some literals (`Literal`).
/// `Memory` where there is no memory.
pub fn check_rules(alloc: Global, rules: &Rules) -> Result<(), RuleError>
    ensures ok { IfOk result (λ done. first_fault (rules_faults (map rule_of rules.now)) ≡ None) }
    ensures bad { (at : ℕ) (cause : RuleCause) → IsErrOf result (Bad at cause) → first_fault (rules_faults (map rule_of rules.now)) ≡ Some (at, cause) }
{
    let names = RuleNames::new(alloc, rules.as_slice())?;
    let findings = look_at_rules(alloc, &names)?;
    answer(&findings)
}

/// What is wrong with a call by itself, if anything is, where there are these rules. It may name no parameter and no session
/// variable but `$userNameClient`.
///
/// # Errors
///
/// As for [`check_rules`], where it speaks of a call.
pub fn check_call(alloc: Global, rules: &Rules, call: &Call0) -> Result<(), RuleError>
    ensures ok { IfOk result (λ done. first_fault (exec_faults (without_places rules.now) (call_of call.now)) ≡ None) }
    ensures bad { (at : ℕ) (cause : RuleCause) → IsErrOf result (Bad at cause)
        → first_fault (exec_faults (without_places rules.now) (call_of call.now)) ≡ Some (at, cause) }
{
    let names = RuleNames::new(alloc, rules.as_slice())?;
    let findings = look_at_call(alloc, &names, call)?;
    answer(&findings)
}
