//! The commands: each request is decided over the rows, carried out, kept and answered.
#![tactic(auto)]

mod answers;
mod asking;
mod calling;
mod executing;
mod keeping;
mod listing;
mod logins;
mod noting;
mod obeying;
mod operations;
mod querying;
mod ruling;
mod saying;
mod server;
mod sweeping;
mod tagging;

pub use asking::ends_input;
pub use server::{Ending, Server};
