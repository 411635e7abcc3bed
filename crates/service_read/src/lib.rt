//! What a call of a micro-service asks for, from its name and its arguments.
#![tactic(auto)]

mod arguments;
mod error;
mod names;
mod reading;
mod services;
mod words;

pub use reading::read_service;
pub use services::{Service, Subject, Triple};
