//! Stores of entities: what they answer, and generic code over any of them.
#![tactic(auto)]

pub(crate) mod check;
pub mod fault_places;
pub mod faults;
pub mod open;
pub mod runs;
pub mod search;
pub mod store;
pub mod table;
pub mod table_store;
