//! The texts of rules and calls, read by their grammar, and the text of rules, printed.
//!
//! A text is cut into tokens, and the tokens are read from one to the next. What spells no rules is refused at the first
//! token with which those so far begin none. Which tokens spell which rules is a relation in `specs/Grammar`, with the
//! bounds on operators and parentheses as part of it; how rules are printed stands in `specs/Printed`.
#![tactic(auto)]

mod calling;
mod drafts;
mod error;
mod expressions;
mod laws;
mod levels;
mod parser;
mod printer;
mod reading;
mod symbols;
mod texts;
mod tokens;

pub use error::RuleError;
pub use laws::{one_reading, one_refusal, printed_apart};
pub use printer::print_rules;
pub use texts::{read_call, read_rules};
