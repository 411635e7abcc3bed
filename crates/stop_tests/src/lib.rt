//! A session that is stopped at each moment, and what the server makes of what is left.
#![tactic(auto)]

#[cfg(test)]
mod tests;
