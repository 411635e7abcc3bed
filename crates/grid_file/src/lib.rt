//! The real devices: files of the folder in which the program was started, standard input and output, the clock.
//!
//! What they hold lies outside, so they tell nothing of it. Each counts its faults, and keeps the last moment that it
//! was given. Why a call failed is kept for people, or, of a store, told them at once on standard error.
#![tactic(auto)]

mod file_disk;
mod folder;
mod folder_store;
mod lazy_file;
mod reading;
mod real_ambient;
mod reporting;
mod stdin_source;
mod stdout_sink;
mod stream_guard;
#[cfg(test)]
mod tests;

pub use file_disk::FileDisk;
pub use folder_store::FolderStore;
pub use real_ambient::RealAmbient;
pub use reporting::reason;
pub use stdin_source::StdinSource;
pub use stdout_sink::StdoutSink;
pub use stream_guard::StreamGuard;
