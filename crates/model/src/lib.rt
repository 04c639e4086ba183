//! The vocabulary of the product, and in specs/ what its words mean.
#![tactic(auto)]

pub mod fault;
pub mod kind;
pub mod limits;
pub mod node;
pub mod slot;
