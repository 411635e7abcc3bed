//! Who is logged in: 64 sessions, each with a user.
#![tactic(auto)]

mod sessions;

pub use sessions::{Session, Sessions};
