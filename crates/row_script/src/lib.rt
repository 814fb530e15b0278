//! The script of `row`, `turn` and `rows`: a list of numbers that is built line by line, written to the disk and read from it.
#![tactic(auto)]

mod end;
mod numbers;
mod replies;
mod reply;
mod script;
mod script_line;
mod turns;

pub use end::End;
pub use numbers::Numbers;
pub use reply::Reply;
pub use script::run;
pub use script_line::ScriptLine;
pub use turns::{ROW_BYTES, turn};
