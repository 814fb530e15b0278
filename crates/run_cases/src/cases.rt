//! The loop over the lines of the cases.

use crate::block::Block;
use crate::disks::Disks;
use crate::variants::carry_out;
use anyhow::{Context, Result};
use case_kit::Report;
use std::alloc::Global;
use std::fs::File;
use std::rt::Files;

/// Cases that are being tried: the disk, and the block whose lines are being read.
#[derive(Drop)]
pub(crate) struct Cases {
    report: Report,
    disks: Disks,
    block: Option<Block>,
}

/// Whether a line with this word stands between blocks, or begins one.
fn is_between(word: &str) -> bool {
    matches!(
        word,
        "case" | "run" | "words" | "disk" | "save" | "from" | "put" | "liar" | "file"
    )
}

impl Cases {
    pub(crate) fn new(alloc: Global) -> Result<Cases> {
        Ok(Cases {
            report: Report::new(alloc),
            disks: Disks::new(alloc)?,
            block: None,
        })
    }

    /// Carries out the block whose lines were read, if there is one.
    fn close(&mut self, alloc: Global) -> Result<()> {
        let Some(block) = self.block.take() else {
            return Ok(());
        };
        carry_out(alloc, &mut self.report, &block, &mut self.disks.now).context(format_args!(
            "the block of line {}",
            block.line
        ))
    }

    /// Begins a case.
    fn begin(&mut self, rt: &(impl Print + AllocGlobal), name: &str) -> Result<()> {
        self.disks.begin_case(rt.alloc())?;
        self.report.begin(rt, rt.alloc(), name)
    }

    /// Does what a line says that stands between blocks, or begins one.
    fn read_between(
        &mut self,
        rt: &(impl Print + AllocGlobal + Files<File = File>),
        number: usize,
        word: &str,
        rest: &str,
    ) -> Result<()> {
        self.close(rt.alloc())?;
        match word {
            "case" => self.begin(rt, rest)?,
            "run" => self.block = Some(Block::of_command(rt.alloc(), number, rest)?),
            "words" => self.block = Some(Block::of_words(rt.alloc(), number, rest)?),
            _ => self.disks.set_up(rt, word, rest)?,
        }
        Ok(())
    }

    /// Does what a line says.
    pub(crate) fn read(
        &mut self,
        rt: &(impl Print + AllocGlobal + Files<File = File>),
        number: usize,
        text: &str,
    ) -> Result<()> {
        if text.is_empty() || text.starts_with('#') {
            return Ok(());
        }
        let (word, rest) = text.split_once(' ').unwrap_or((text, ""));
        if is_between(word) {
            return self.read_between(rt, number, word, rest);
        }
        let block = self.block.as_mut().context("no run before this line")?;
        block.read(rt.alloc(), number, text)
    }

    /// Says what became of the last case.
    pub(crate) fn end(&mut self, rt: &(impl Print + AllocGlobal)) -> Result<()> {
        self.close(rt.alloc())?;
        self.report.end(rt)
    }
}
