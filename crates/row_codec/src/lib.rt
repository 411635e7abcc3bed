//! The catalogue's changes as bytes, both ways.
#![tactic(auto)]

mod codes;
mod commands;
mod decoding;
mod deltas;
mod encoding;
mod entry;
mod error;
mod fields;
mod laws;
mod put_deltas;
mod putting;
mod putting_rows;
mod room;
mod rows;
mod stop;
mod tags;

pub use decoding::decode;
pub use encoding::encode;
pub use error::CodecError;
pub use laws::{begins_no_other, spelled_once};
