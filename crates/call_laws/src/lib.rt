//! Laws of calls of a command that are made one after another, and of what a stop leaves of them.
#![tactic(auto)]
