//! The loop over the lines of the cases of a program: a call, what it says, and what is wanted of it.

use crate::compare::difference;
use crate::pieces::push_piece;
use crate::report::Report;
use anyhow::{Context, Result, bail};
use std::alloc::Global;
use std::io;
use std::io::{BufRead, BufReader};

/// The calls that a program of cases makes.
pub trait Calls {
    /// Begins a case, in which nothing is left of those before it.
    fn begin(&mut self, alloc: Global);

    /// Makes a call, whose lines go behind what was said; `false` where the word names none. An error ends the program.
    fn make(&mut self, alloc: Global, said: &mut String, word: &str, rest: &str) -> Result<bool>;
}

/// What the last call said, what is wanted of it, and at which line it stands.
#[derive(Drop)]
struct Call {
    line: usize,
    said: String,
    wanted: Vec<u8>,
}

impl Call {
    fn at(alloc: Global, line: usize) -> Call {
        Call {
            line,
            said: String::new(alloc),
            wanted: Vec::new(alloc),
        }
    }
}

/// Cases that are being tried.
#[derive(Drop)]
struct Cases<'a, C> {
    calls: &'a mut C,
    report: Report,
    call: Call,
}

impl<C: Calls> Cases<'_, C> {
    /// Notes it where the last call said something else than what is wanted.
    fn close(&mut self, alloc: Global) -> Result<()> {
        let said = self.call.said.as_bytes();
        if let Some(what) = difference(alloc, &self.call.wanted, said)? {
            let line = self.call.line;
            let what = format!(in alloc; "line {line}: {what}")?;
            self.report.differ(what.as_str())?;
        }
        Ok(())
    }

    /// Begins a case.
    fn begin(&mut self, rt: &(impl Print + AllocGlobal), name: &str) -> Result<()> {
        self.close(rt.alloc())?;
        self.call = Call::at(rt.alloc(), 0);
        self.calls.begin(rt.alloc());
        self.report.begin(rt, rt.alloc(), name)
    }

    /// Makes a call.
    fn make(&mut self, alloc: Global, line: usize, word: &str, rest: &str) -> Result<()> {
        self.close(alloc)?;
        self.call = Call::at(alloc, line);
        if !self.calls.make(alloc, &mut self.call.said, word, rest)? {
            bail!("no such call: {word}");
        }
        Ok(())
    }

    /// Does what a line says.
    fn read(&mut self, rt: &(impl Print + AllocGlobal), line: usize, text: &str) -> Result<()> {
        if text.is_empty() || text.starts_with('#') {
            return Ok(());
        }
        if let Some(piece) = text.strip_prefix('>') {
            return push_piece(rt.alloc(), &mut self.call.wanted, piece);
        }
        match text.split_once(' ').unwrap_or((text, "")) {
            ("case", name) => self.begin(rt, name),
            (word, rest) => self.make(rt.alloc(), line, word, rest),
        }
    }

    /// Does what a line of the input says.
    fn read_line(
        &mut self,
        rt: &(impl Print + AllocGlobal),
        place: usize,
        line: io::Result<String>,
    ) -> Result<()> {
        let line = line?;
        self.read(rt, place, line.as_str())
            .context(format_args!("line {place}"))
    }

    /// Says what became of the last case.
    fn end(&mut self, rt: &(impl Print + AllocGlobal)) -> Result<()> {
        self.close(rt.alloc())?;
        self.report.end(rt)
    }
}

/// Tries the cases of the input, and prints a line for each: `case NAME` begins one, a line `> TEXT` is wanted of the call before it,
/// empty lines and those that begin with `#` are passed over, and any other line is a call.
pub fn try_all(rt: &(impl Input + Print + AllocGlobal), calls: &mut impl Calls) -> Result<()> {
    let alloc = rt.alloc();
    let mut cases = Cases {
        calls,
        report: Report::new(alloc),
        call: Call::at(alloc, 0),
    };
    for (place, line) in BufReader::new(alloc, rt.reader())?.lines(alloc).enumerate() {
        cases.read_line(rt, place + 1, line)?;
    }
    cases.end(rt)
}
