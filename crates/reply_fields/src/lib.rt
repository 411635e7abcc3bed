//! The fields of reply lines, read at a place of a text: names, numbers, words, digests, counted bytes.
//!
//! Each reader is exact: it answers what some front of the rest spells and the place behind it, or that none does, with
//! the length of the longest front of the text that could go on to one.
#![tactic(auto)]

pub mod counted;
pub mod digests;
mod error;
pub mod lists;
pub mod names;
pub mod numbers;
pub mod signed;
pub mod words;

pub use error::ReplyError;
