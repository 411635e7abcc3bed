//! The rows of the catalogue in memory: what a delta makes of them, and look-ups.
#![tactic(auto)]

mod access;
mod child_key;
mod collections;
mod counts;
mod error;
mod grouped;
mod groups;
mod index_key;
mod indexed;
mod keyed;
mod kinds;
mod lookups;
mod named;
mod numbers;
mod objects;
mod paths;
mod placed;
mod probe;
mod recent;
mod replicas;
mod resources;
mod row;
mod table;
mod tables;
mod texts;
mod triples;
mod users;
mod vaults;

pub use child_key::ChildIds;
pub use counts::{Ids, Kind};
pub use error::TableError;
pub use index_key::{AccessOfUser, BoxedItem, GroupOfUser, ItemWithValue, ReplicaOnLeaf};
pub use tables::Tables;
