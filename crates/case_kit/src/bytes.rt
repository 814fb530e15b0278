//! Bytes as the lines of cases write them.

use crate::escapes::{push_escaped, push_hex};
use anyhow::{Context, Result};
use std::alloc::{AllocError, Global};
use std::fmt::Write;

/// So many equal bytes are shown as `HH*COUNT`.
const LEAST_RUN: usize = 4;

/// The digits of a part, and how often their bytes stand there.
fn times(part: &str) -> Result<(&str, u32)> {
    match part.split_once('*') {
        Some((digits, count)) => Ok((digits, count.parse::<u32>()?)),
        None => Ok((part, 1)),
    }
}

fn push_part(alloc: Global, into: &mut Vec<u8>, part: &str) -> Result<()> {
    let (digits, count) = times(part)?;
    let mut unit = Vec::new(alloc);
    push_hex(&mut unit, digits)?;
    for _ in 0..count {
        into.extend_from_slice(&unit)?;
    }
    Ok(())
}

/// Adds the bytes that a word means.
fn push_word(alloc: Global, into: &mut Vec<u8>, word: &str) -> Result<()> {
    if let Some(text) = word.strip_prefix('\'') {
        return push_escaped(into, text);
    }
    for part in word.split('+') {
        push_part(alloc, into, part)?;
    }
    Ok(())
}

/// The bytes of words with blanks between. A word is hexadecimal digits, digits so many times as `00ff*20`, several such parts joined
/// by `+`, or `'TEXT` with escapes.
pub fn bytes_of(alloc: Global, text: &str) -> Result<Vec<u8>> {
    let mut bytes = Vec::new(alloc);
    for word in text.split(' ') {
        push_word(alloc, &mut bytes, word)?;
    }
    Ok(bytes)
}

/// A byte, as two hexadecimal digits.
pub fn byte_of(text: &str) -> Result<u8> {
    u8::from_str_radix(text, 16).context("no byte")
}

/// Equal bytes that stand one behind the other.
#[derive(Clone, Copy)]
struct Run {
    byte: u8,
    count: usize,
}

/// Bytes that are shown, up to the run that may go on.
#[derive(Drop)]
struct Shown<'a> {
    into: &'a mut String,
    is_first: bool,
    is_plain: bool,
}

impl Shown<'_> {
    /// Parts the next run from what was shown before, where it isn't digits behind digits.
    fn begin(&mut self, is_plain: bool) -> Result<(), AllocError> {
        if !self.is_first && !(is_plain && self.is_plain) {
            self.into.push('+')?;
        }
        self.is_first = false;
        self.is_plain = is_plain;
        Ok(())
    }

    fn push(&mut self, run: Run) -> Result<(), AllocError> {
        if run.count == 0 {
            return Ok(());
        }
        self.begin(run.count < LEAST_RUN)?;
        if run.count < LEAST_RUN {
            push_digits(self.into, run)
        } else {
            write!(self.into, "{:02x}*{}", run.byte, run.count)
        }
    }
}

fn push_digits(into: &mut String, run: Run) -> Result<(), AllocError> {
    for _ in 0..run.count {
        write!(into, "{:02x}", run.byte)?;
    }
    Ok(())
}

/// Adds bytes as one word: digits, and `HH*COUNT` for four equal bytes or more, joined by `+`.
pub fn push_bytes(into: &mut String, bytes: &[u8]) -> Result<(), AllocError> {
    let mut run = Run { byte: 0, count: 0 };
    let mut shown = Shown {
        into,
        is_first: true,
        is_plain: true,
    };
    for byte in bytes {
        if run.count > 0 && run.byte == *byte {
            run.count = run.count.saturating_add(1);
        } else {
            shown.push(run)?;
            run = Run {
                byte: *byte,
                count: 1,
            };
        }
    }
    shown.push(run)
}

/// Adds bytes that are all the same, behind a blank.
fn push_run(into: &mut String, run: &[u8]) -> Result<(), AllocError> {
    match run {
        [] => Ok(()),
        [byte] => write!(into, " {byte:02x}"),
        [byte, ..] => {
            let count = run.len();
            write!(into, " {byte:02x}*{count}")
        }
    }
}

/// Adds bytes as words, each behind a blank: two digits, or `HH*COUNT` for equal bytes.
pub fn show_bytes(into: &mut String, bytes: &[u8]) -> Result<(), AllocError> {
    for run in bytes.chunk_by(|one, next| one == next) {
        push_run(into, run)?;
    }
    Ok(())
}
