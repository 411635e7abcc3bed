//! What a query shows, by the rows of the tables.
#![tactic(auto)]

mod cells;
mod conditions;
mod items;
mod narrowing;
mod parts;
mod pushing;
mod query;
mod stages;

pub use query::query_rows;
