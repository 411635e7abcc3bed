//! Lists in the order of their keys, in blocks: where a key is put or taken out, those of one block are moved.
#![tactic(auto)]

mod blocks;
mod key;
mod list;
mod run;

pub use key::{Front, Key, Whole};
pub use list::SortedList;
pub use run::Run;
