#![tactic(auto, using(crate::proofs::Keeping::keeping))]

ghost use Rattle.grid_model.specs.Checks.{call_faults, first_texts, is_literal_of, is_no_recovery, is_rule, literal_faults};
ghost use Rattle.grid_model.specs.Checks.{recovery_faults, rule_takes, step_faults};
ghost use Rattle.grid_model.specs.Parsed.{call_of, shape_of, step_of, term_of};
ghost use Rattle.rule_check.specs.Faults.{fault_so_far, least};
ghost use Rattle.rule_check.specs.Rules.{known_of, name_faults, named_rules};
ghost use Rattle.rule_check.specs.Words.{words};
ghost use Rattle.std.specs.Prelude.{◌≡◌, flat_map, map, option_map};

use crate::expressions::check_arguments;
use crate::faults::Findings;
use crate::known::Known;
use crate::names::RuleNames;
use crate::tables;
use grid_model::{Call0, Expr, Form, RuleCause, Step};

/// Whether a rule has the name.
fn is_rule(names: &RuleNames, name: &[u8]) -> bool
    ensures { result ≡ is_rule (named_rules names.now) name.now }
{
    names.params_of(name).is_some()
}

/// Whether the first rule of the name takes so many arguments.
pub fn rule_takes(names: &RuleNames, name: &[u8], count: usize) -> bool
    ensures { result ≡ rule_takes (named_rules names.now) name.now count }
{
    match names.params_of(name) {
        None => false,
        Some(params) => params == count,
    }
}

/// Looks at the name and the number of the arguments of a call.
fn check_name(findings: &mut Findings, names: &RuleNames, name: &[u8], at: u64, count: usize)
    ensures { fault_so_far findings.new ≡ least (fault_so_far findings.old) (name_faults (named_rules names.now) name.now at count) }
{
    let is_service = tables::is_service(name);
    let is_rule = is_rule(names, name);
    let service_fits = tables::service_takes(name, count);
    let rule_fits = rule_takes(names, name, count);
    findings.note(!is_service && !is_rule, at, RuleCause::Unknown);
    findings.note(is_service && !service_fits, at, RuleCause::Arity);
    findings.note(!is_service && is_rule && !rule_fits, at, RuleCause::Arity);
}

/// Whether it is one of these texts, written as a literal.
fn is_literal_of(table: &[&[u8]], form: &Form) -> bool
    ensures { result ≡ is_literal_of (words table.now) (shape_of form.now) }
{
    match form {
        Form::Text(text) => tables::is_one_of(table, text.as_slice()),
        _ => false,
    }
}

/// Looks at the first argument of a call, which may have to be one of some texts.
fn check_first(findings: &mut Findings, name: &[u8], args: &[Expr])
    ensures { fault_so_far findings.new ≡ least (fault_so_far findings.old) (literal_faults (first_texts name.now) (map term_of args.now)) }
{
    match tables::first_texts(name) {
        None => {}
        Some(table) => match args {
            [] => {}
            [first, ..] => {
                let fits = is_literal_of(table, &first.form);
                findings.note(!fits, first.at, RuleCause::Literal);
            }
        },
    }
}

/// Looks at a call.
pub fn check_call(findings: &mut Findings, names: &RuleNames, known: &Known, call: &Call0)
    ensures { fault_so_far findings.new ≡ least (fault_so_far findings.old) (call_faults (named_rules names.now) (known_of known.now) (call_of call.now)) }
{
    let name = call.name.as_slice();
    let args = call.args.as_slice();
    check_name(findings, names, name, call.at, args.len());
    check_first(findings, name, args);
    check_arguments(findings, known, name, args);
}

/// Whether a call of the name recovers from nothing.
fn is_no_recovery(names: &RuleNames, name: &[u8]) -> bool
    ensures { result ≡ is_no_recovery (named_rules names.now) name.now }
{
    tables::is_no_recovery(name) || (is_rule(names, name) && !tables::is_service(name))
}

/// Looks at a recovery.
fn check_recovery(
    findings: &mut Findings,
    names: &RuleNames,
    known: &Known,
    recovery: &Option<Call0>,
)
    ensures { fault_so_far findings.new
        ≡ least (fault_so_far findings.old) (recovery_faults (named_rules names.now) (known_of known.now) (option_map call_of recovery.now)) }
{
    match recovery {
        None => {}
        Some(call) => {
            let is_none = is_no_recovery(names, call.name.as_slice());
            findings.note(is_none, call.at, RuleCause::Recovery);
            check_call(findings, names, known, call);
        }
    }
}

/// Looks at a step.
fn check_step(findings: &mut Findings, names: &RuleNames, known: &Known, step: &Step)
    ensures { fault_so_far findings.new ≡ least (fault_so_far findings.old) (step_faults (named_rules names.now) (known_of known.now) (step_of step.now)) }
{
    check_call(findings, names, known, &step.call);
    check_recovery(findings, names, known, &step.recovery);
}

/// Looks at steps.
pub fn check_steps(findings: &mut Findings, names: &RuleNames, known: &Known, steps: &[Step])
    ensures { fault_so_far findings.new
        ≡ least (fault_so_far findings.old) (flat_map (step_faults (named_rules names.now) (known_of known.now)) (map step_of steps.now)) }
{
    for step in steps {
        check_step(findings, names, known, step);
    }
}
