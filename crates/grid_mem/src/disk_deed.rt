/// What was asked of a disk.
#[derive(Debug, Drop)]
pub enum DiskDeed {
    /// These bytes from this place on, which counts from 0.
    Write { at: u64, bytes: Vec<u8> },
    /// So many bytes are to be left.
    Cut { len: u64 },
    Sync,
}
