//! Further runs that ask what a run has left.

use crate::block::{FILE, push_words};
use crate::device::Device;
use crate::run::{Given, Outcome, run};
use anyhow::{Context, Result};
use case_kit::{Place, Report, Variant, expect_bytes, push_piece};
use qsr_value::Memory;
use std::alloc::Global;

/// A run with an empty input: its words, and what it says where the run before isn't done, and where it is.
#[derive(Drop)]
pub(crate) struct Ask {
    line: usize,
    words: Vec<String>,
    before: Vec<u8>,
    after: Vec<u8>,
}

/// As many bytes as an ask is answered.
const ANSWER_ROOM: usize = 1 << 10;

/// Whether all that was asked is answered as before a run, and whether it is as after it.
#[derive(Clone, Copy)]
pub(crate) struct Found {
    pub(crate) before: bool,
    pub(crate) after: bool,
}

impl Ask {
    fn at(alloc: Global, line: usize) -> Ask {
        Ask {
            line,
            words: Vec::new(alloc),
            before: Vec::new(alloc),
            after: Vec::new(alloc),
        }
    }

    /// Reads `WORDS | BEFORE | AFTER`, or `WORDS | BOTH`.
    fn read(&mut self, alloc: Global, text: &str) -> Result<()> {
        let (words, answers) = text.split_once(" |").context("no answer")?;
        let (before, after) = answers.split_once(" |").unwrap_or((answers, answers));
        push_words(alloc, &mut self.words, words)?;
        push_piece(alloc, &mut self.before, before)?;
        push_piece(alloc, &mut self.after, after)
    }

    fn given(&self) -> Given<'_> {
        Given {
            words: &self.words,
            input: &[],
            piece: 1,
            room: ANSWER_ROOM,
            source_fails: &[],
            sink_fails: &[],
            is_streamed: false,
        }
    }

    fn answer(&self, alloc: Global, device: &mut Device) -> Result<Outcome, Memory> {
        run(alloc, &self.given(), device)
    }

    fn found(&self, alloc: Global, device: &mut Device) -> Result<Found, Memory> {
        let outcome = self.answer(alloc, device)?;
        Ok(Found {
            before: outcome.output == self.before,
            after: outcome.output == self.after,
        })
    }

    fn expect_after(
        &self,
        alloc: Global,
        report: &mut Report,
        variant: Variant,
        device: &mut Device,
    ) -> Result<()> {
        let line = self.line;
        let outcome = self.answer(alloc, device)?;
        expect_bytes(
            alloc,
            report,
            Place { line, variant },
            &self.after,
            &outcome.output,
        )
    }
}

/// What an `ask` line says behind its first word.
pub(crate) fn ask_of(alloc: Global, line: usize, text: &str) -> Result<Ask> {
    let mut ask = Ask::at(alloc, line);
    ask.words.push(String::from_str(alloc, FILE)?)?;
    ask.read(alloc, text)?;
    Ok(ask)
}

/// Asks a disk.
pub(crate) fn asked(alloc: Global, asks: &[Ask], device: &mut Device) -> Result<Found, Memory> {
    let mut all = Found {
        before: true,
        after: true,
    };
    for ask in asks {
        let found = ask.found(alloc, device)?;
        all.before = all.before && found.before;
        all.after = all.after && found.after;
    }
    Ok(all)
}

/// Asks a disk, which has what a run leaves.
pub(crate) fn expect_after(
    alloc: Global,
    report: &mut Report,
    variant: Variant,
    asks: &[Ask],
    device: &mut Device,
) -> Result<()> {
    for ask in asks {
        ask.expect_after(alloc, report, variant, device)?;
    }
    Ok(())
}
