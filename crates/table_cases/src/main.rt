//! Calls on the tables of a store in memory, as cases: each makes calls and says what came of them, which is compared with what the case
//! wants. The head of the stored input tells the form.
#![tactic(auto)]

mod fits;
mod ranges;
mod stops;
mod stored;
mod tables;

use anyhow::Result;
use case_kit::{Calls, try_all};
use std::alloc::Global;
use std::fmt::Write;
use tables::Tables;

impl Calls for Tables {
    fn begin(&mut self, alloc: Global) {
        *self = Tables::new(alloc);
    }

    /// Makes a call. Of one that can't be made the reason is said.
    fn make(&mut self, alloc: Global, said: &mut String, word: &str, rest: &str) -> Result<bool> {
        if let Err(error) = self.serve(alloc, said, word, rest) {
            writeln!(said, "error: {error}")?;
        }
        Ok(true)
    }
}

fn main(rt: HostRuntime) -> Result<()> {
    let mut tables = Tables::new(rt.alloc());
    try_all(&rt, &mut tables)
}
