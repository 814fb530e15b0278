//! Calls that read the parts of a format from bytes, and that put them there.

use anyhow::{Context, Result, bail, ensure};
use case_kit::{bytes_of, number, number_first, range_of, show_bytes};
use part_codec::{
    Unread, byte_of, i64_of, i128_of, put_byte, put_i64, put_i128, put_short_text, put_u16,
    put_u32, put_u64, put_u128, short_text_of, u16_of, u32_of, u64_of, u128_of,
};
use std::alloc::Global;
use std::fmt::{Display, Write};

/// What stands at each place before parts are put there.
const BEFORE: u8 = 0xEE;

/// So much room is asked for at the place of a number.
const NUMBER_BYTES: usize = 16;

/// The bytes behind a part, or why it isn't there.
type Behind<'a> = Result<&'a [u8], Unread>;

/// Says the number that was read.
fn say<'a, N: Display + Copy>(
    into: &mut String,
    read: Result<(N, &'a [u8]), Unread>,
) -> Result<Behind<'a>> {
    match read {
        Ok((number, rest)) => {
            write!(into, "{number} ")?;
            Ok(Ok(rest))
        }
        Err(unread) => Ok(Err(unread)),
    }
}

/// Reads a text of so many bytes behind its length, and says it.
fn read_text<'a>(
    alloc: Global,
    into: &mut String,
    limits: &str,
    bytes: &'a [u8],
) -> Result<Behind<'a>> {
    let (least, most) = range_of(limits)?;
    match short_text_of(alloc, least, most, bytes) {
        Ok((text, rest)) => {
            write!(into, "{} ", text.as_str())?;
            Ok(Ok(rest))
        }
        Err(unread) => Ok(Err(unread)),
    }
}

/// Reads a part, `KIND:LEAST..MOST` or `KIND`, and says its value.
fn read_part<'a>(
    alloc: Global,
    into: &mut String,
    part: &str,
    bytes: &'a [u8],
) -> Result<Behind<'a>> {
    let (kind, limits) = part.split_once(':').unwrap_or((part, ""));
    match kind {
        "byte" => {
            let (least, most) = range_of(limits)?;
            say(into, byte_of(least, most, bytes))
        }
        "u16" => {
            let (least, most) = range_of(limits)?;
            say(into, u16_of(least, most, bytes))
        }
        "u32" => {
            let (least, most) = range_of(limits)?;
            say(into, u32_of(least, most, bytes))
        }
        "u64" => {
            let (least, most) = range_of(limits)?;
            say(into, u64_of(least, most, bytes))
        }
        "u128" => {
            let (least, most) = range_of(limits)?;
            say(into, u128_of(least, most, bytes))
        }
        "i64" => say(into, i64_of(bytes)),
        "i128" => say(into, i128_of(bytes)),
        "text" => read_text(alloc, into, limits, bytes),
        _ => bail!("no such part: {kind}"),
    }
}

/// `PART .. | BYTES`: reads the parts one behind the other, and says their values and how many bytes are left, or why the next isn't there.
fn read(alloc: Global, into: &mut String, rest: &str) -> Result<()> {
    let (parts, bytes) = rest.split_once(" | ").context("no bytes")?;
    let bytes = bytes_of(alloc, bytes)?;
    let mut left = bytes.as_slice();
    for part in parts.split(' ') {
        match read_part(alloc, into, part, left)? {
            Ok(behind) => left = behind,
            Err(unread) => {
                writeln!(into, "{unread}")?;
                return Ok(());
            }
        }
    }
    writeln!(into, "left {}", left.len())?;
    Ok(())
}

/// Puts a text behind its length.
fn put_text(text: &str, body: &mut [u8], at: usize) -> Result<usize> {
    ensure!(text.len() < 256, "too long a text");
    let room = body.len().saturating_sub(at);
    ensure!(text.len() < room, "no room");
    Ok(put_short_text(text, body, at))
}

/// Puts a part, `KIND:VALUE`.
fn put_part(part: &str, body: &mut [u8], at: usize) -> Result<usize> {
    let (kind, value) = part.split_once(':').context("no value")?;
    if kind == "text" {
        return put_text(value, body, at);
    }
    let room = body.len().saturating_sub(at);
    ensure!(NUMBER_BYTES <= room, "no room");
    match kind {
        "byte" => Ok(put_byte(number(value)?, body, at)),
        "u16" => Ok(put_u16(number(value)?, body, at)),
        "u32" => Ok(put_u32(number(value)?, body, at)),
        "u64" => Ok(put_u64(number(value)?, body, at)),
        "u128" => Ok(put_u128(number(value)?, body, at)),
        "i64" => Ok(put_i64(number(value)?, body, at)),
        "i128" => Ok(put_i128(number(value)?, body, at)),
        _ => bail!("no such part: {kind}"),
    }
}

/// `PLACE SIZE PART ..`: puts the parts one behind the other, from the place on, into so many bytes of EE: where they end, and the bytes.
fn put(alloc: Global, into: &mut String, rest: &str) -> Result<()> {
    let (at, rest) = number_first::<usize>(rest)?;
    let (size, parts) = number_first::<usize>(rest)?;
    let mut body = vec![in alloc; BEFORE; size]?;
    let mut end = at;
    for part in parts.split(' ') {
        end = put_part(part, &mut body, end)?;
    }
    write!(into, "{end}")?;
    show_bytes(into, &body)?;
    into.push('\n')?;
    Ok(())
}

/// Makes a call of these kinds; `false` where the word names none of them.
pub(crate) fn make(alloc: Global, into: &mut String, word: &str, rest: &str) -> Result<bool> {
    match word {
        "read-parts" => read(alloc, into, rest)?,
        "put-parts" => put(alloc, into, rest)?,
        _ => return Ok(false),
    }
    Ok(true)
}
