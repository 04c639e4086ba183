//! Reading runs of nodes: whether a run is that of a type, a value, a request or an entity, and where a value lies in one.
#![tactic(auto)]

pub mod check;
pub mod find;
mod head_node;
mod language;
mod reading;
mod type_node;
mod value_node;

pub use reading::Refused;
