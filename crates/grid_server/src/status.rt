use grid_model::Side;
use grid_outside::Wear;

/// How a run ended.
#[derive(Clone, Copy, Debug, PartialEq, Eq)]
pub enum Status {
    /// The input was read to its end, or the other command's work is done.
    Done,
    /// The words ask for nothing that is built.
    Usage,
    /// The disks hold no catalogue. `at` is the place on that disk where this shows.
    NotACatalogue { side: Side, at: u64 },
    /// A grid was to be begun on a disk that has `len` bytes.
    NotEmpty { side: Side, len: u64 },
    /// The catalogue is of a grid with `kept` stores, and `given` were handed in.
    Stores { kept: u8, given: u8 },
    /// A disk failed.
    DiskFault,
    /// The source failed.
    SourceFault,
    /// The sink failed.
    SinkFault,
    /// Memory ran out.
    Memory,
    /// The input goes on past the first 2^48 bytes. `taken` is 2^48 + 1.
    Long { taken: u64 },
    /// Something has run out for good. `at` is how far it has come.
    Worn { what: Wear, at: u64 },
}
