//! Tables: the catalogue of a store, and the rows of tables on its pages.
#![tactic(auto)]

mod body;
mod catalogue;
mod entries;
mod entry_bytes;
mod fault;
mod fields;
pub mod laws;
mod names;
mod reading;
mod writer;

pub use catalogue::Catalogue;
pub use entries::{IndexEntry, TableEntry, TableList};
pub use fault::TableFault;
pub use fields::read_fields;
pub use writer::TableWriter;
