//! Calls that write rows as bytes, and that read rows from bytes and from lines of text.

use anyhow::{Context, Result, ensure};
use case_kit::{
    bytes_of, fits, number_first, push_escaped, range_of, row_of, show_bytes, show_row,
};
use qsr_value::{Row, Schema, decode_row, encode_row, number_of};
use std::alloc::Global;
use std::fmt::Write;
use table_file::read_fields;

/// What stands at each place before a row is written.
const BEFORE: u8 = 0xEE;

/// Writes a row into so many bytes from a place on, and says where it ends, or why it doesn't, and the bytes.
fn encode_into(
    alloc: Global,
    columns: &Schema,
    into: &mut String,
    row: &Row,
    at: usize,
    size: usize,
) -> Result<()> {
    ensure!(
        fits(columns.as_slice(), row.as_slice()),
        "no row of the columns"
    );
    let mut bytes = vec![in alloc; BEFORE; size]?;
    match encode_row(row, columns, &mut bytes, at) {
        Ok(end) => write!(into, "{end}")?,
        Err(error) => write!(into, "{error}")?,
    }
    show_bytes(into, &bytes)?;
    into.push('\n')?;
    Ok(())
}

/// `PLACE SIZES ROW`: writes a row from a place on, into so many bytes of EE for each of the sizes.
fn encode(alloc: Global, columns: &Schema, into: &mut String, rest: &str) -> Result<()> {
    let (at, rest) = number_first(rest)?;
    let (sizes, row) = rest.split_once(' ').unwrap_or((rest, ""));
    let (first, last) = range_of(sizes)?;
    let row = row_of(alloc, row)?;
    for size in first..=last {
        encode_into(alloc, columns, into, &row, at, size)?;
    }
    Ok(())
}

/// Says the row that bytes are, or from where on they are none.
fn decode_from(alloc: Global, columns: &Schema, into: &mut String, bytes: &[u8]) -> Result<()> {
    match decode_row(alloc, columns, bytes) {
        Ok(row) => show_row(into, row.as_slice())?,
        Err(fault) => write!(into, "{fault}")?,
    }
    into.push('\n')?;
    Ok(())
}

/// `BYTES`: says the row that they are.
fn decode(alloc: Global, columns: &Schema, into: &mut String, rest: &str) -> Result<()> {
    let bytes = bytes_of(alloc, rest)?;
    decode_from(alloc, columns, into, &bytes)
}

/// `BYTES`: says the row that the first so many are, for each number from 0 to that of all of them, behind the number.
fn decode_cuts(alloc: Global, columns: &Schema, into: &mut String, rest: &str) -> Result<()> {
    let bytes = bytes_of(alloc, rest)?;
    for size in 0..=bytes.len() {
        write!(into, "{size}: ")?;
        decode_from(alloc, columns, into, bytes.split_at(size).0)?;
    }
    Ok(())
}

/// `NUMBER TEXT`: says the row that the text of the line of a number is, its escapes read.
fn line(alloc: Global, columns: &Schema, into: &mut String, rest: &str) -> Result<()> {
    ensure!(columns.len() <= 16, "too many columns");
    let (number, rest) = number_first(rest)?;
    let mut text = Vec::new(alloc);
    push_escaped(&mut text, rest)?;
    match read_fields(alloc, columns, number, &text) {
        Ok(row) => show_row(into, row.as_slice())?,
        Err(fault) => write!(into, "{fault}")?,
    }
    into.push('\n')?;
    Ok(())
}

/// `TEXT`: says the number that it is.
fn number(into: &mut String, rest: &str) -> Result<()> {
    match number_of(rest.as_bytes()) {
        Some(number) => writeln!(into, "{number}")?,
        None => writeln!(into, "no number")?,
    }
    Ok(())
}

/// Makes a call of these kinds; `false` where the word names none of them.
pub(crate) fn make(
    alloc: Global,
    columns: &Schema,
    into: &mut String,
    word: &str,
    rest: &str,
) -> Result<bool> {
    match word {
        "encode" => encode(alloc, columns, into, rest)?,
        "decode" => decode(alloc, columns, into, rest)?,
        "decode-cuts" => decode_cuts(alloc, columns, into, rest)?,
        "line" => line(alloc, columns, into, rest)?,
        "number" => number(into, rest)?,
        _ => return Ok(false),
    }
    Ok(true)
}
