//! What is left of a store where it is stopped after each of its calls, and what its calls answer where each call of the disk
//! fails.

use crate::ranges::{Ranges, push_as_one};
use crate::tables::{call, formatted};
use anyhow::Result;
use case_kit::FILLS;
use disk_model::{MemDisk, Pick};
use std::alloc::{AllocError, Global};
use std::fmt::Write;

/// What a call answers on what a stop left, by each fill.
#[derive(Drop)]
struct Left {
    first: String,
    each: String,
    is_one: bool,
}

impl Left {
    fn new(alloc: Global) -> Left {
        Left {
            first: String::new(alloc),
            each: String::new(alloc),
            is_one: true,
        }
    }

    fn add(&mut self, pick: Pick, lines: &str) -> Result<(), AllocError> {
        if self.each.is_empty() {
            self.first.push_str(lines)?;
        } else {
            self.each.push_str(" | ")?;
        }
        self.is_one = self.is_one && self.first.as_str() == lines;
        write!(self.each, "{pick:?}: ")?;
        push_as_one(&mut self.each, lines)
    }

    /// Adds the one answer, or those by each fill where they differ.
    fn show(&self, into: &mut String) -> Result<(), AllocError> {
        if self.is_one {
            push_as_one(into, self.first.as_str())
        } else {
            into.push_str(self.each.as_str())
        }
    }
}

/// Makes a call on what a stop after so many calls leaves by a fill.
fn call_on_image(
    alloc: Global,
    disk: &MemDisk,
    into: &mut String,
    calls: u64,
    pick: Pick,
    line: &str,
) -> Result<()> {
    let mut image = disk.image(alloc, calls, pick)?;
    call(alloc, &mut image, into, line)
}

/// What a call answers on what a stop after so many calls leaves.
fn left_behind(alloc: Global, disk: &MemDisk, calls: u64, line: &str) -> Result<Left> {
    let mut left = Left::new(alloc);
    for pick in &FILLS {
        let mut lines = String::new(alloc);
        call_on_image(alloc, disk, &mut lines, calls, *pick, line)?;
        left.add(*pick, lines.as_str())?;
    }
    Ok(left)
}

fn stop_answer(alloc: Global, disk: &MemDisk, calls: u64, line: &str) -> Result<String> {
    let mut answer = String::new(alloc);
    left_behind(alloc, disk, calls, line)?.show(&mut answer)?;
    Ok(answer)
}

/// Says what a call answers on what stops after these numbers of calls leave.
pub(crate) fn stop_each(
    alloc: Global,
    disk: &MemDisk,
    into: &mut String,
    (first, last): (u64, u64),
    line: &str,
) -> Result<()> {
    let mut ranges = Ranges::new(alloc, first);
    for calls in first..=last {
        ranges.add(into, stop_answer(alloc, disk, calls, line)?)?;
    }
    ranges.close(into)?;
    Ok(())
}

/// What calls answer on a new store where the call of the disk with this number fails.
fn failing_lines(alloc: Global, sizes: &str, calls: &[String], number: u64) -> Result<String> {
    let mut lines = String::new(alloc);
    let mut disk = formatted(alloc, &mut lines, sizes, &[number])?;
    for line in calls {
        call(alloc, &mut disk, &mut lines, line.as_str())?;
    }
    Ok(lines)
}

fn failing_answer(alloc: Global, sizes: &str, calls: &[String], number: u64) -> Result<String> {
    let mut answer = String::new(alloc);
    push_as_one(
        &mut answer,
        failing_lines(alloc, sizes, calls, number)?.as_str(),
    )?;
    Ok(answer)
}

/// Says what calls answer on a new store where one of these calls of the disk fails.
pub(crate) fn fail_each(
    alloc: Global,
    sizes: &str,
    calls: &[String],
    into: &mut String,
    (first, last): (u64, u64),
) -> Result<()> {
    let mut ranges = Ranges::new(alloc, first);
    for number in first..=last {
        ranges.add(into, failing_answer(alloc, sizes, calls, number)?)?;
    }
    ranges.close(into)?;
    Ok(())
}
