//! Whole runs of the program's top call, as cases: each has a disk, words, an input, and what must come of them. The head of the stored
//! input tells the form.
#![tactic(auto)]

mod asks;
mod block;
mod cases;
mod device;
mod disks;
mod looks;
mod media;
mod run;
mod source;
mod variants;

use anyhow::{Context, Result};
use cases::Cases;
use std::io::{BufRead, BufReader};

fn main(rt: HostRuntime) -> Result<()> {
    let alloc = rt.alloc();
    let mut cases = Cases::new(alloc)?;
    for (place, line) in BufReader::new(alloc, rt.reader())?.lines(alloc).enumerate() {
        cases
            .read(&rt, place + 1, line?.as_str())
            .context(format_args!("line {}", place + 1))?;
    }
    cases.end(&rt)
}
