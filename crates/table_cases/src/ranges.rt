//! Answers to calls that are made at each number of a range: equal ones that stand one behind the other are one line.

use anyhow::Result;
use std::alloc::{AllocError, Global};
use std::fmt::Write;

/// The answers so far.
#[derive(Drop)]
pub(crate) struct Ranges {
    /// The last answer, the first number that has it, and the number behind all.
    answer: String,
    first: u64,
    next: u64,
}

impl Ranges {
    /// No answer yet; the first will be that to this number.
    pub(crate) fn new(alloc: Global, first: u64) -> Ranges {
        Ranges {
            answer: String::new(alloc),
            first,
            next: first,
        }
    }

    /// Adds the line of the last answer.
    pub(crate) fn close(&self, into: &mut String) -> Result<(), AllocError> {
        let answer = self.answer.as_str();
        let last = self.next.saturating_sub(1);
        if self.first == self.next {
            Ok(())
        } else if self.first == last {
            writeln!(into, "{last}: {answer}")
        } else {
            writeln!(into, "{} to {last}: {answer}", self.first)
        }
    }

    /// Takes the answer to the next number.
    pub(crate) fn add(&mut self, into: &mut String, answer: String) -> Result<(), AllocError> {
        if answer.as_str() != self.answer.as_str() {
            self.close(into)?;
            self.first = self.next;
            self.answer = answer;
        }
        self.next = self.next.saturating_add(1);
        Ok(())
    }
}

/// Adds lines as one, with `; ` between them.
pub(crate) fn push_as_one(into: &mut String, lines: &str) -> Result<(), AllocError> {
    let mut is_first = true;
    for line in lines.split_terminator('\n') {
        if !is_first {
            into.push_str("; ")?;
        }
        into.push_str(line)?;
        is_first = false;
    }
    Ok(())
}
