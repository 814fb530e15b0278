//! Rows as the lines of cases write them: a value for each column, with `~` between. A value is a number, or `'TEXT` with
//! escapes, or `N'TEXT` for a text N times. Several rows are words with blanks between: `ROW`, `N*ROW` for a row N times, or
//! `#FIRST:COUNT` for a row of one number for each of these numbers.

use crate::escapes::push_escaped;
use anyhow::{Context, Result};
use qsr_value::{ListOf, Row, Txt, Value};
use std::alloc::{AllocError, Global};
use std::fmt::Write;
use std::str;

/// A text so many times.
fn text_of(alloc: Global, count: u32, text: &str) -> Result<Txt> {
    let mut bytes = Vec::new(alloc);
    for _ in 0..count {
        push_escaped(&mut bytes, text)?;
    }
    let text = str::from_utf8(&bytes).ok().context("no text")?;
    Ok(Txt::from_str(alloc, text)?)
}

/// The value that a line means.
pub fn value_of(alloc: Global, text: &str) -> Result<Value> {
    match text.split_once('\'') {
        None => Ok(Value::Int(text.parse::<i128>()?)),
        Some(("", text)) => Ok(Value::Text(text_of(alloc, 1, text)?)),
        Some((count, text)) => Ok(Value::Text(text_of(alloc, count.parse::<u32>()?, text)?)),
    }
}

/// The row that a line means. An empty line is a row without values.
pub fn row_of(alloc: Global, text: &str) -> Result<Row> {
    let mut row = Row::new(alloc);
    if text.is_empty() {
        return Ok(row);
    }
    for field in text.split('~') {
        row.push(value_of(alloc, field)?)?;
    }
    Ok(row)
}

fn push_numbers(alloc: Global, rows: &mut ListOf<Row>, numbers: &str) -> Result<()> {
    let (first, count) = numbers.split_once(':').context("no count")?;
    let (first, count) = (first.parse::<i32>()?, count.parse::<u16>()?);
    for number in 0..count {
        let mut row = Row::new(alloc);
        row.push(Value::Int(i128::from(first) + i128::from(number)))?;
        rows.push(row)?;
    }
    Ok(())
}

/// Adds the rows that a word means.
fn push_rows(alloc: Global, rows: &mut ListOf<Row>, word: &str) -> Result<()> {
    if let Some(numbers) = word.strip_prefix('#') {
        return push_numbers(alloc, rows, numbers);
    }
    let (count, row) = word.split_once('*').unwrap_or(("1", word));
    for _ in 0..count.parse::<u16>()? {
        rows.push(row_of(alloc, row)?)?;
    }
    Ok(())
}

/// The rows that a line means.
pub fn rows_of(alloc: Global, text: &str) -> Result<ListOf<Row>> {
    let mut rows = ListOf::new(alloc);
    for word in text.split_whitespace() {
        push_rows(alloc, &mut rows, word)?;
    }
    Ok(rows)
}

/// Adds a text: one of four bytes or more that are the same as a count and that byte.
fn show_text(into: &mut String, text: &str) -> Result<(), AllocError> {
    match text.as_bytes() {
        [first, _, _, _, ..] if text.bytes().all(|byte| byte == *first) => {
            write!(into, "{}'{}", text.len(), char::from(*first))
        }
        _ => write!(into, "'{text}"),
    }
}

fn show_value(into: &mut String, value: &Value) -> Result<(), AllocError> {
    match value {
        Value::Int(number) => write!(into, "{number}"),
        Value::Text(text) => show_text(into, text.as_str()),
    }
}

/// Adds a row, as the word `row` and its values.
pub fn show_row(into: &mut String, row: &[Value]) -> Result<(), AllocError> {
    into.push_str("row")?;
    let mut mark = ' ';
    for value in row {
        into.push(mark)?;
        show_value(into, value)?;
        mark = '~';
    }
    Ok(())
}
