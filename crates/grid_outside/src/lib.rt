//! The outside: disks, stores, a source, a sink, the time and random words, and what a stop may leave of them.
//!
//! A device is known by its trait alone. What its calls mean, how often it has failed and what a stop at a moment
//! may leave of it are ghost members, and the rules of disks and stores are definitions in `specs/`.
#![tactic(auto)]

mod ambient;
mod disk;
mod moments;
mod outside;
mod plugin;
mod sink;
mod source;

pub use ambient::Ambient;
pub use disk::{Disk, DiskFault};
pub use moments::Moments;
pub use outside::{Outside, Wear, add_store};
pub use plugin::{Plugin, StoreFault};
pub use sink::{Sink, SinkFault};
pub use source::{Source, SourceFault};
