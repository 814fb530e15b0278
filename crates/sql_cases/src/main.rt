//! Calls of SQL as cases: of each text what its tokens, its tree, its refusal or its rows have to be. The head of the stored
//! input tells the form, and which parts of it are written by tools.
#![tactic(auto)]

mod calls;
mod cases;
mod conditions;
mod faults;
mod fields;
mod line;
mod queries;
mod rows;
mod selects;
mod table_lines;
mod tables;
mod tails;
mod tokens;
mod trees;

use anyhow::{Context, Result};
use cases::Cases;
use std::io;

fn main(rt: HostRuntime) -> Result<()> {
    let text = io::read_to_string(rt.alloc(), rt.reader())?;
    let mut cases = Cases::new(rt.alloc());
    for (place, line) in text.lines().enumerate() {
        cases
            .read(&rt, place + 1, line)
            .context(format_args!("line {}", place + 1))?;
    }
    cases.end(&rt)
}
