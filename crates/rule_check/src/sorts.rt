ghost use Rattle.grid_model.specs.Checks.{is_argument_of, same_sort, sort_of, takes};
ghost use Rattle.grid_model.specs.Parsed.{shape_of};
ghost use Rattle.rule_check.specs.Seen.{sort_seen};
ghost use Rattle.std.specs.Prelude.{◌≡◌};

use crate::tables::is_same;
use grid_model::{Form, Operator};

/// The type of an expression.
#[derive(Clone, Copy, PartialEq, Eq)]
pub enum Sort {
    Text,
    Number,
    Truth,
}

/// The type of an expression, by its outermost form.
pub fn sort_of(form: &Form) -> Sort
    ensures { sort_seen result ≡ sort_of (shape_of form.now) }
{
    match form {
        Form::Text(_) => Sort::Text,
        Form::Number(_) => Sort::Number,
        Form::Truth(_) => Sort::Truth,
        Form::Param(_, _) => Sort::Text,
        Form::Session(_, name) => {
            if is_same(name.as_slice(), b"dataSize") {
                Sort::Number
            } else {
                Sort::Text
            }
        }
        Form::Not(_) => Sort::Truth,
        Form::Applied(Operator::Join, _, _) => Sort::Text,
        Form::Applied(_, _, _) => Sort::Truth,
    }
}

/// Whether both are of one type.
fn same_sort(left: Sort, right: Sort) -> bool
    ensures { result ≡ same_sort (sort_seen left) (sort_seen right) }
{
    left == right
}

/// Whether an operator takes operands of these types.
pub fn takes(operator: Operator, left: Sort, right: Sort) -> bool
    ensures { result ≡ takes operator (sort_seen left) (sort_seen right) }
{
    match operator {
        Operator::Or | Operator::And => left == Sort::Truth && right == Sort::Truth,
        Operator::Equal | Operator::NotEqual => same_sort(left, right),
        Operator::Like => left == Sort::Text && right == Sort::Text,
        Operator::Join => left != Sort::Truth && right != Sort::Truth,
        Operator::Less | Operator::Greater | Operator::AtMost | Operator::AtLeast => {
            same_sort(left, right) && left != Sort::Truth
        }
    }
}

/// Whether a call of the name takes an argument of this type.
pub fn is_argument_of(name: &[u8], sort: Sort) -> bool
    ensures { result ≡ is_argument_of name.now (sort_seen sort) }
{
    if is_same(name, b"fail") {
        return sort == Sort::Number;
    }
    sort != Sort::Truth
}
