use thiserror::Error;

/// A call of the store in this slot failed, and its count of faults rose.
#[derive(Clone, Copy, Debug, PartialEq, Eq, Error)]
#[error("the store in slot {slot} failed")]
pub struct Fault {
    pub slot: u8,
}
