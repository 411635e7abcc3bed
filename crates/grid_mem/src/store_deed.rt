/// What was asked of a store, of the file of this name.
#[derive(Clone, Debug, Drop)]
pub enum StoreDeed {
    Create { name: u64 },
    /// These bytes at its end.
    Append { name: u64, bytes: Vec<u8> },
    Finish { name: u64 },
    Remove { name: u64 },
}
