//! A deed: changes of the catalogue with the files that they make, so that a stop leaves no file unnamed.
#![tactic(auto)]

mod copying;
mod discarding;
mod performing;
mod staging;
mod touching;

pub use copying::{Copied, copy_file, perform_copy};
pub use discarding::{discard, discard_all};
pub use performing::{commit, perform};
pub use staging::stage;
pub use touching::check_file;
