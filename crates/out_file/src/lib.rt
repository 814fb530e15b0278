//! Output files: the rows that a job has given out, one behind the other in its output area. Rows that are acknowledged are
//! never written again.
#![tactic(auto)]

mod fault;
mod file;
mod listing;
mod window;

pub use fault::OutFault;
pub use file::OutFile;
pub use listing::rows_from;
