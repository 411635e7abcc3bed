ghost use Rattle.grid_model.specs.Grid.{Grid};
ghost use Rattle.grid_model.specs.Values.{is_short};
ghost use Rattle.rule_cond.specs.Scopes.{HasScopeSize, computed_on};
ghost use Rattle.rule_cond.specs.Sizes.{arg_in, args_in, are_short, is_short_text};
ghost use Rattle.rule_cond.specs.declared.error.ComputeError.TheVariants.{LongText};
ghost use Rattle.std.specs.Prelude.{◌≡◌, false, IfOk, IsErrOf, IsTrue, MatchResult};

use crate::error::ComputeError;
use crate::evaluation::put_text;
use crate::scope::Scope;
use grid_model::{Call, Call0, Expr, Text, Texts};
use std::alloc::Global;

/// How many bytes an argument of a call has at most.
const LONGEST_ARGUMENT: usize = 4096;

/// One argument.
fn compute_one(alloc: Global, arg: &Expr, scope: &Scope) -> Result<Text, ComputeError>
    ensures { MatchResult result (λ text. (text ≡ arg_in scope.now arg.now) × IsTrue (is_short_text text))
        (λ e. e ≡ LongText → is_short_text (arg_in scope.now arg.now) ≡ false) }
{
    let mut text = Vec::new(alloc);
    put_text(&mut text, alloc, arg, scope)?;
    if text.len() > LONGEST_ARGUMENT {
        return Err(ComputeError::LongText);
    }
    Ok(Text::from_vec(text))
}

/// All arguments.
fn compute_all(alloc: Global, args: &[Expr], scope: &Scope) -> Result<Texts, ComputeError>
    ensures { MatchResult result (λ texts. (texts ≡ args_in scope.now args.now) × IsTrue (are_short texts))
        (λ e. e ≡ LongText → are_short (args_in scope.now args.now) ≡ false) }
{
    let mut texts = Vec::new(alloc);
    for arg in args {
        match compute_one(alloc, arg, scope) {
            Ok(text) => texts.push(text)?,
            Err(error) => return Err(error),
        }
    }
    Ok(Texts::from_vec(texts))
}

/// A call with its arguments computed in a scope, on every grid on which its size is that of the scope: texts, and numbers
/// in their decimal form. Refused with `LongText` exactly where one of them has more than 4,096 bytes.
pub fn compute(alloc: Global, call: &Call0, scope: &Scope) -> Result<Call, ComputeError>
    ensures call { IfOk result (λ done. (g : Grid) → HasScopeSize scope.now g → done ≡ computed_on scope.now g call.now) }
    ensures short { IfOk result (λ done. IsTrue (is_short done)) }
    ensures long { IsErrOf result LongText → (g : Grid) → HasScopeSize scope.now g → is_short (computed_on scope.now g call.now) ≡ false }
{
    match compute_all(alloc, call.args.as_slice(), scope) {
        Ok(args) => {
            let name = Text::copy_of(alloc, call.name.as_slice())?;
            Ok(Call { name, args })
        }
        Err(error) => Err(error),
    }
}
