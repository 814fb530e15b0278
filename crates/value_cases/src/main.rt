//! Calls on streams, lists, texts, rows, pages of rows, records and parts of formats, as cases: each makes calls and says what came of them, which is compared
//! with what the case wants. The head of the stored input tells the form.
#![tactic(auto)]

mod codec;
mod compare;
mod layouts;
mod lists;
mod pages;
mod parts;
mod streams;

use anyhow::Result;
use case_kit::{Calls, Words, schema_of, try_all};
use qsr_value::Schema;
use std::alloc::Global;
use std::fmt::Write;

/// The columns that the calls of a case are about.
#[derive(Drop)]
struct Values {
    columns: Schema,
}

impl Values {
    /// Makes a call of any kind; `false` where the word names none.
    fn serve(&mut self, alloc: Global, said: &mut String, word: &str, rest: &str) -> Result<bool> {
        if word == "columns" {
            self.columns = schema_of(alloc, rest)?;
            return Ok(true);
        }
        let columns = &self.columns;
        Ok(
            compare::make(alloc, said, word, rest)?
                || layouts::make(alloc, said, word, rest)?
                || lists::make(alloc, columns, said, word, rest)?
                || codec::make(alloc, columns, said, word, rest)?
                || pages::make(alloc, columns, said, word, rest)?
                || parts::make(alloc, said, word, rest)?
                || streams::make(alloc, said, word, &mut Words::of(rest))?,
        )
    }
}

impl Calls for Values {
    fn begin(&mut self, alloc: Global) {
        self.columns = Schema::new(alloc);
    }

    /// Makes a call. Of one that can't be made the reason is said.
    fn make(&mut self, alloc: Global, said: &mut String, word: &str, rest: &str) -> Result<bool> {
        match self.serve(alloc, said, word, rest) {
            Ok(is_known) => Ok(is_known),
            Err(error) => {
                writeln!(said, "error: {error}")?;
                Ok(true)
            }
        }
    }
}

fn main(rt: HostRuntime) -> Result<()> {
    let mut values = Values {
        columns: Schema::new(rt.alloc()),
    };
    try_all(&rt, &mut values)
}
