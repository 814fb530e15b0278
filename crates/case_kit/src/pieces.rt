//! Pieces of an input or of an output: what a line of a case says behind its `<` or `>`.

use crate::escapes::push_escaped;
use anyhow::{Context, Result};
use std::alloc::Global;

/// Adds a text so many times, each with what ends it.
fn push_times(into: &mut Vec<u8>, count: u32, text: &str, end: &[u8]) -> Result<()> {
    for _ in 0..count {
        push_escaped(into, text)?;
        into.extend_from_slice(end)?;
    }
    Ok(())
}

/// Adds a text once for each number of `FIRST:COUNT`, with the number in the place of its `{}`.
fn push_numbered(
    alloc: Global,
    into: &mut Vec<u8>,
    numbers: &str,
    text: &str,
    end: &[u8],
) -> Result<()> {
    let (first, count) = numbers.split_once(':').context("no count")?;
    let (first, count) = (first.parse::<i64>()?, count.parse::<u32>()?);
    let (front, back) = text.split_once("{}").context("no place for the number")?;
    for number in (first..).take(count as usize) {
        push_escaped(into, front)?;
        into.extend_from_slice(format!(in alloc; "{number}")?.as_bytes())?;
        push_escaped(into, back)?;
        into.extend_from_slice(end)?;
    }
    Ok(())
}

/// Adds what a line says behind its sign: ` TEXT` is a text and an LF, `- TEXT` a text without LF, `*N TEXT` and `-*N TEXT` are
/// that N times, and `#FIRST:COUNT TEXT` and `-#FIRST:COUNT TEXT` are a text for each of these numbers, which stands at its `{}`. A
/// text has escapes as `push_escaped` reads them.
pub fn push_piece(alloc: Global, into: &mut Vec<u8>, line: &str) -> Result<()> {
    let (sign, text) = line.split_once(' ').unwrap_or((line, ""));
    let (sign, end): (&str, &[u8]) = match sign.strip_prefix('-') {
        Some(rest) => (rest, b""),
        None => (sign, b"\n"),
    };
    if let Some(numbers) = sign.strip_prefix('#') {
        return push_numbered(alloc, into, numbers, text, end);
    }
    let count = match sign.strip_prefix('*') {
        Some(count) => count.parse::<u32>()?,
        None => 1,
    };
    push_times(into, count, text, end)
}
