//! The fixed records of the store's pages: where each field of a record stands, and how it is read and written.
#![tactic(auto)]

mod fields;
pub mod laws;
pub mod records;

pub use fields::{Field, Layout, read_field, write_field};
