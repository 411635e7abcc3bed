use chain_core::RuleBase;
use grid_journal::Store;
use grid_outside::Wear;
use sess::Sessions;

/// Why a run ends in the middle of a request.
#[derive(Clone, Copy, Debug, PartialEq, Eq)]
pub enum Ending {
    /// A disk failed.
    Disk,
    /// The sink failed.
    Sink,
    /// Memory ran out.
    Memory,
    /// The numbers of vault files or the room behind the catalogue's log have run out, at this number or place.
    Worn { what: Wear, at: u64 },
}

/// The catalogue, who is logged in where, and the rules of the catalogue as they are run.
#[derive(Drop)]
pub struct Server {
    pub store: Store,
    pub sessions: Sessions,
    pub rules: RuleBase,
}
