//! The top call of qsr: what the program does with its words, its input, its output and its disk.
#![tactic(auto)]

mod command;
mod create;
mod explain;
mod format;
mod load;
mod query_answer;
mod told;
mod top;

pub use row_script::End;
pub use top::{qsr_run, say_end};
