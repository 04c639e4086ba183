//! Theorems about the definitions of the product, each on the contract of a function.
#![tactic(auto)]

pub mod cases;
pub mod history;
pub mod need;
pub mod order;
pub mod runs;
pub mod walks;
