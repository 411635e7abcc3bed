//! Plans of what is done to objects and their replicas, as pure functions of the rows.
#![tactic(auto)]

mod allowing;
mod changes;
mod checking;
mod checking_sums;
mod copying;
mod getting;
mod laws;
mod making;
mod numbering;
mod placing;
mod putting;
mod replicating;
mod rewriting;
mod room;

pub use checking_sums::{chksum_files, plan_chksum};
pub use copying::{copy_source, plan_copy};
pub use getting::plan_get;
pub use laws::a_put_is_written;
pub use putting::{plan_put, put_targets};
pub use replicating::{plan_repl, repl_source};
