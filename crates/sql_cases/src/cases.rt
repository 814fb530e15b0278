//! The loop over the lines of the cases: calls, what they say, and what is wanted of them.

use crate::calls::{self, Call};
use crate::tables::Tables;
use anyhow::{Context, Result};
use case_kit::{Report, difference, push_escaped, push_piece};
use std::alloc::Global;

/// Cases that are being tried: what is reported of them, the tables, and the call whose lines are being read.
#[derive(Drop)]
pub(crate) struct Cases {
    report: Report,
    tables: Tables,
    call: Call,
}

/// Notes that a call says something else than what is wanted.
fn differ(alloc: Global, report: &mut Report, line: usize, what: &str) -> Result<()> {
    report.differ(format!(in alloc; "line {line}: {what}")?.as_str())?;
    Ok(())
}

/// Makes a call, and compares what it says with what is wanted.
fn try_call(alloc: Global, report: &mut Report, tables: &Tables, call: &Call) -> Result<()> {
    let said = calls::said_by(alloc, tables, call).context(format_args!(
        "the call of line {}",
        call.line
    ))?;
    match difference(alloc, &call.wanted, said.as_bytes())? {
        Some(what) => differ(alloc, report, call.line, what.as_str()),
        None => Ok(()),
    }
}

impl Cases {
    pub(crate) fn new(alloc: Global) -> Cases {
        Cases {
            report: Report::new(alloc),
            tables: Tables::new(alloc),
            call: Call::none(alloc),
        }
    }

    /// All lines of the call have been read.
    fn close(&mut self, alloc: Global) -> Result<()> {
        try_call(alloc, &mut self.report, &self.tables, &self.call)?;
        self.call = Call::none(alloc);
        Ok(())
    }

    /// Begins a call. The table that was added last has all its rows.
    fn begin_call(&mut self, alloc: Global, line: usize, word: &str, text: &str) -> Result<()> {
        self.tables.close(alloc)?;
        self.call.line = line;
        self.call.asked = Some(calls::asked_by(word)?);
        push_escaped(&mut self.call.text, text)
    }

    /// Does what a line says that begins something: a case, a table, a row or a call.
    fn begin(
        &mut self,
        rt: &(impl Print + AllocGlobal),
        line: usize,
        word: &str,
        rest: &str,
    ) -> Result<()> {
        let alloc = rt.alloc();
        match word {
            "case" => self.report.begin(rt, alloc, rest),
            "tables" => {
                self.tables.forget(alloc);
                Ok(())
            }
            "table" => self.tables.add_table(alloc, rest),
            "row" => self.tables.add_row(alloc, rest),
            _ => self.begin_call(alloc, line, word, rest),
        }
    }

    /// Does what a line says.
    pub(crate) fn read(
        &mut self,
        rt: &(impl Print + AllocGlobal),
        line: usize,
        text: &str,
    ) -> Result<()> {
        if text.is_empty() || text.starts_with('#') {
            return Ok(());
        }
        if let Some(piece) = text.strip_prefix('>') {
            return push_piece(rt.alloc(), &mut self.call.wanted, piece);
        }
        if let Some(piece) = text.strip_prefix('<') {
            return push_piece(rt.alloc(), &mut self.call.text, piece);
        }
        let (word, rest) = text.split_once(' ').unwrap_or((text, ""));
        self.close(rt.alloc())?;
        self.begin(rt, line, word, rest)
    }

    /// Says what became of the last case.
    pub(crate) fn end(&mut self, rt: &(impl Print + AllocGlobal)) -> Result<()> {
        self.close(rt.alloc())?;
        self.report.end(rt)
    }
}
