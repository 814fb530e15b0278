//! The store on a disk: the order of its pages, and how an empty one is written.
#![tactic(auto)]

mod fault;
mod formatting;
mod gates;
mod opening;
mod pages;
mod records;
mod slots;
mod store;
mod twins;

pub use fault::StoreFault;
pub use formatting::format;
pub use pages::{Area, Sizes, Twin, first_page, layout_pages};
pub use store::{Store, Unopened};
