ghost use Rattle.std.specs.Prelude.{◌≤◌, length};
ghost use Rattle.grid_model.specs.Printing.{print_rule_cause, print_tree_cause, print_what};
ghost use Rattle.reply_fields.specs.Fronts.{ReadsFrom};
ghost use Rattle.reply_reader.specs.Fields.{IsPrinted};

use grid_model::{RuleCause, TreeCause, What};
use reply_fields::ReplyError;
use reply_fields::names::one_of;

/// What there may be only so many of, by its name and the byte behind it.
const WHAT_NAMES: [&[u8]; 8] = [
    b"users ",
    b"members ",
    b"collections ",
    b"objects ",
    b"resources ",
    b"triples ",
    b"access ",
    b"uploads ",
];

const WHATS: [What; 8] = [
    What::Users,
    What::Members,
    What::Collections,
    What::Objects,
    What::Resources,
    What::Triples,
    What::Access,
    What::Uploads,
];

/// Why a tree is not made so, by its name and the byte behind it.
const TREE_NAMES: [&[u8]; 5] = [
    b"Leaf\n",
    b"HasParent\n",
    b"Cycle\n",
    b"Full\n",
    b"Coordinating\n",
];

const TREE_CAUSES: [TreeCause; 5] = [
    TreeCause::Leaf,
    TreeCause::HasParent,
    TreeCause::Cycle,
    TreeCause::Full,
    TreeCause::Coordinating,
];

/// Why a text is no text of rules, by its name and the byte behind it.
const RULE_NAMES: [&[u8]; 11] = [
    b"Token\n",
    b"Grammar\n",
    b"Taken\n",
    b"Param\n",
    b"TooManyRules\n",
    b"Arity\n",
    b"Unknown\n",
    b"Recovery\n",
    b"Variable\n",
    b"Typing\n",
    b"Literal\n",
];

const RULE_CAUSES: [RuleCause; 11] = [
    RuleCause::Token,
    RuleCause::Grammar,
    RuleCause::Taken,
    RuleCause::Param,
    RuleCause::TooManyRules,
    RuleCause::Arity,
    RuleCause::Unknown,
    RuleCause::Recovery,
    RuleCause::Variable,
    RuleCause::Typing,
    RuleCause::Literal,
];

/// Reads what there may be only so many of, and a space.
pub fn what(text: &[u8], at: usize) -> Result<(What, usize), ReplyError>
    requires { at ≤ length text.now }
    ensures { ReadsFrom (IsPrinted print_what 0x20) text.now at result }
{
    match one_of(text, at, &WHAT_NAMES) {
        Ok((index, next)) => Ok((WHATS[index], next)),
        Err(error) => Err(error),
    }
}

/// Reads why a tree is not made so, and a newline.
pub fn tree_cause(text: &[u8], at: usize) -> Result<(TreeCause, usize), ReplyError>
    requires { at ≤ length text.now }
    ensures { ReadsFrom (IsPrinted print_tree_cause 0x0A) text.now at result }
{
    match one_of(text, at, &TREE_NAMES) {
        Ok((index, next)) => Ok((TREE_CAUSES[index], next)),
        Err(error) => Err(error),
    }
}

/// Reads why a text is no text of rules, and a newline.
pub fn rule_cause(text: &[u8], at: usize) -> Result<(RuleCause, usize), ReplyError>
    requires { at ≤ length text.now }
    ensures { ReadsFrom (IsPrinted print_rule_cause 0x0A) text.now at result }
{
    match one_of(text, at, &RULE_NAMES) {
        Ok((index, next)) => Ok((RULE_CAUSES[index], next)),
        Err(error) => Err(error),
    }
}
