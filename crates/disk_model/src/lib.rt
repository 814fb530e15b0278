//! The disk that a store lies on: the trait, a disk in memory, and a disk over a file.
#![tactic(auto)]

mod counted;
mod disk;
mod file;
mod history;
mod memory;
mod positioned;
#[cfg(test)]
mod tests;

pub use disk::Disk;
pub use file::{FILE_DISK_SIZE, FileDisk};
pub use history::Pick;
pub use memory::MemDisk;
pub use qsr_value::Failed;
