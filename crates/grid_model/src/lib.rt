//! The plain types of the grid. Its mathematics stands in `specs/`.
#![tactic(auto)]

mod calls;
mod deltas;
mod digest;
mod grid;
mod items;
mod laws;
mod marks;
mod name;
mod number;
mod path;
mod plans;
mod queries;
mod refusal;
mod replies;
mod requests;
mod rules;
mod text;
mod texts;

pub use calls::{Call, Calls};
pub use deltas::{
    CollectionRow, Delta, Deltas, EntryRow, Item, MemberRow, Numbers, ObjectRow, OrphanRow,
    Pending, ReplicaRow, ResourceRow, TripleRow, UserRow,
};
pub use digest::Digest;
pub use grid::{ItemKind, Level, Mode, ResourceKind, Side, UserKind};
pub use items::Items;
pub use laws::{a_stop_undoes, bytes_are_own, what_holds_ends_ok};
pub use marks::{BadReplica, BadReplicas, Mark, Marks};
pub use name::{BadName, check_name};
pub use number::read_number;
pub use path::{Path, PathError};
pub use plans::{NewFile, NewFiles, OldFile, OldFiles, Plan, PlanError};
pub use queries::{Column, Columns, Cond, Conds, Op, Query};
pub use refusal::{Failure, Refusal, RuleCause, TreeCause, What};
pub use replies::{End, Passed, Passeds, Reply, Rows};
pub use requests::{Request, Verb};
pub use rules::{Call0, Expr, Exprs, Form, Operator, Rule, Rules, Step, Steps};
pub use text::{Bytes, Text};
pub use texts::Texts;
