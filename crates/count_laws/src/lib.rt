//! Laws of how many rows, leaves and vault numbers there are. The functions do nothing: their contracts are the laws.
#![tactic(auto)]

mod laws;

pub use laws::{few_by_numbers, leaves_are_few, leaves_stay, rows_are_few};
