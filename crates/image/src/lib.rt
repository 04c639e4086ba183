//! The image of a store: a store in bytes, and its bytes, header and place list.
#![tactic(auto)]

pub mod bytes;
pub(crate) mod check;
pub(crate) mod draft;
pub mod error;
pub mod frame;
pub mod image;
pub mod image_store;
pub(crate) mod layout;
pub(crate) mod offsets;
pub mod open;
pub(crate) mod push;
pub(crate) mod reads;
pub mod view;
pub mod write;
