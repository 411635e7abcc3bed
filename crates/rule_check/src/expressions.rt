#![tactic(auto, using(crate::proofs::Keeping::keeping))]

ghost use Rattle.grid_model.specs.Checks.{argument_faults, condition_faults, term_faults};
ghost use Rattle.grid_model.specs.Parsed.{term_of};
ghost use Rattle.rule_check.specs.Faults.{fault_so_far, least};
ghost use Rattle.rule_check.specs.Rules.{known_of};
ghost use Rattle.std.specs.Prelude.{◌≡◌, flat_map, map, option_map};

use crate::faults::Findings;
use crate::known::Known;
use crate::sorts::{Sort, is_argument_of, sort_of, takes};
use grid_model::{Expr, Form, RuleCause};

/// Looks at an expression.
pub fn check_expr(findings: &mut Findings, known: &Known, expr: &Expr)
    ensures { fault_so_far findings.new ≡ least (fault_so_far findings.old) (term_faults (known_of known.now) (term_of expr.now)) }
{
    match &expr.form {
        Form::Text(_) => {}
        Form::Number(_) => {}
        Form::Truth(_) => {}
        Form::Param(own, name) => {
            let is_known = known.has_param(name.as_slice());
            findings.note(!is_known, *own, RuleCause::Variable);
        }
        Form::Session(own, name) => {
            let is_known = known.has_session(name.as_slice());
            findings.note(!is_known, *own, RuleCause::Variable);
        }
        Form::Not(operand) => {
            let fits = sort_of(&operand.form) == Sort::Truth;
            findings.note(!fits, expr.at, RuleCause::Typing);
            check_expr(findings, known, operand);
        }
        Form::Applied(operator, left, right) => {
            let fits = takes(*operator, sort_of(&left.form), sort_of(&right.form));
            findings.note(!fits, expr.at, RuleCause::Typing);
            check_expr(findings, known, left);
            check_expr(findings, known, right);
        }
    }
}

/// Looks at an argument of a call of the name.
fn check_argument(findings: &mut Findings, known: &Known, name: &[u8], arg: &Expr)
    ensures { fault_so_far findings.new ≡ least (fault_so_far findings.old) (argument_faults (known_of known.now) name.now (term_of arg.now)) }
{
    let fits = is_argument_of(name, sort_of(&arg.form));
    findings.note(!fits, arg.at, RuleCause::Typing);
    check_expr(findings, known, arg);
}

/// Looks at the arguments of a call of the name.
pub fn check_arguments(findings: &mut Findings, known: &Known, name: &[u8], args: &[Expr])
    ensures { fault_so_far findings.new ≡ least (fault_so_far findings.old) (flat_map (argument_faults (known_of known.now) name.now) (map term_of args.now)) }
{
    for arg in args {
        check_argument(findings, known, name, arg);
    }
}

/// Looks at a condition.
pub fn check_condition(findings: &mut Findings, known: &Known, cond: &Option<Expr>)
    ensures { fault_so_far findings.new ≡ least (fault_so_far findings.old) (condition_faults (known_of known.now) (option_map term_of cond.now)) }
{
    if let Some(expr) = cond {
        let fits = sort_of(&expr.form) == Sort::Truth;
        findings.note(!fits, expr.at, RuleCause::Typing);
        check_expr(findings, known, expr);
    }
}
