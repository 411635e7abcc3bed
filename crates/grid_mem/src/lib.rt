//! Devices in memory, for tests. Each records its calls by moment, and answers for every image that a stop may leave.
#![tactic(auto)]

mod call;
mod disk_deed;
mod lies;
mod mem_ambient;
mod mem_disk;
mod mem_file;
mod mem_files;
mod mem_sink;
mod mem_source;
mod mem_store;
mod reading;
mod schedule;
mod store_deed;
mod store_record;
mod watch;

pub use call::Call;
pub use disk_deed::DiskDeed;
pub use lies::Lies;
pub use mem_ambient::MemAmbient;
pub use mem_disk::MemDisk;
pub use mem_file::MemFile;
pub use mem_files::MemFiles;
pub use mem_sink::MemSink;
pub use mem_source::MemSource;
pub use mem_store::MemStore;
pub use schedule::Schedule;
pub use store_deed::StoreDeed;
pub use store_record::StoreRecord;

#[cfg(test)]
mod tests;
