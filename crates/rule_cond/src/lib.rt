//! Conditions and arguments of rules: what an expression is on a grid.
//!
//! An expression is evaluated by going down its tree, which has no node for parentheses. One that was read from a text of
//! rules has at most 128 operators, so no call goes more than 129 deep.
#![tactic(auto)]

mod calls;
mod error;
mod evaluation;
mod laws;
mod names;
mod operators;
mod scope;
mod value;

pub use calls::compute;
pub use error::ComputeError;
pub use evaluation::{eval, holds};
pub use laws::star_patterns;
pub use scope::{Env, Scope};
pub use value::Value;
