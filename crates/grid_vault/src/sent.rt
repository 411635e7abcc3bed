use grid_model::Digest;
use thiserror::Error;

/// How the sending of a file ended.
#[derive(Clone, Copy, Debug, PartialEq, Eq)]
pub enum Sent {
    /// What was sent has the recorded size and digest.
    Whole,
    /// A call of the store in this slot failed, after so many data lines.
    Fault {
        slot: u8,
        parts: u64,
    },
    /// The file is not what is recorded: so many of its bytes were read, at most one more than recorded, they have
    /// this digest, and so many data lines were sent.
    Bad {
        slot: u8,
        len: u64,
        found: Digest,
        parts: u64,
    },
}

/// Why a file was not sent to its end.
#[derive(Clone, Copy, Debug, PartialEq, Eq, Error)]
pub enum SendError {
    /// The sink did not take what was put, and its count of faults rose.
    #[error("the sink failed")]
    Sink,
    /// There was no memory. Nothing was read and nothing was put.
    #[error("out of memory")]
    Memory,
}
