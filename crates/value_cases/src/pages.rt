//! Calls on pages of rows.

use anyhow::{Context, Result, ensure};
use case_kit::{bytes_of, fits, number_first, rows_of, show_bytes};
use qsr_value::{Row, Schema};
use row_page::{end_page, put_row, row_at, rows_end};
use std::alloc::Global;
use std::fmt::Write;

/// `BYTES`: says where the rows of the page end.
fn end_of_rows(alloc: Global, into: &mut String, rest: &str) -> Result<()> {
    let page = bytes_of(alloc, rest)?;
    writeln!(into, "{}", rows_end(&page))?;
    Ok(())
}

/// `PLACE BYTES`: says the bytes of the row at a place of the page.
fn row(alloc: Global, into: &mut String, rest: &str) -> Result<()> {
    let (at, rest) = number_first(rest)?;
    let page = bytes_of(alloc, rest)?;
    ensure!(at <= page.len(), "no such place");
    match row_at(&page, at) {
        None => into.push_str("none")?,
        Some(row) => {
            into.push_str("row")?;
            show_bytes(into, row)?;
        }
    }
    into.push('\n')?;
    Ok(())
}

/// `PLACE BYTES`: ends the rows of the page at a place, and says where what is written ends, and the bytes then.
fn end(alloc: Global, into: &mut String, rest: &str) -> Result<()> {
    let (at, rest) = number_first(rest)?;
    let mut page = bytes_of(alloc, rest)?;
    ensure!(at <= page.len(), "no such place");
    write!(into, "{}", end_page(&mut page, at))?;
    show_bytes(into, &page)?;
    into.push('\n')?;
    Ok(())
}

/// Puts a row on a page, and says where it ends, or why it doesn't. Answers where the next row is to go.
fn put(
    columns: &Schema,
    into: &mut String,
    page: &mut [u8],
    at: usize,
    row: &Row,
) -> Result<usize> {
    ensure!(at <= page.len(), "no such place");
    ensure!(columns.len() <= 65000, "too many columns");
    ensure!(columns.width() < 65536, "too wide columns");
    ensure!(
        fits(columns.as_slice(), row.as_slice()),
        "no row of the columns"
    );
    match put_row(page, at, row, columns) {
        Ok(end) => {
            writeln!(into, "{end}")?;
            Ok(end)
        }
        Err(error) => {
            writeln!(into, "{error}")?;
            Ok(at)
        }
    }
}

/// Puts rows on a page from a place on, one behind the other.
fn put_all(
    columns: &Schema,
    into: &mut String,
    page: &mut [u8],
    first: usize,
    rows: &[Row],
) -> Result<()> {
    let mut at = first;
    for row in rows {
        at = put(columns, into, page, at, row)?;
    }
    Ok(())
}

/// `PLACE BYTES | ROWS`: puts rows on the page from a place on, says where each ends, and then where the rows end and the
/// bytes.
fn put_rows(alloc: Global, columns: &Schema, into: &mut String, rest: &str) -> Result<()> {
    let (at, rest) = number_first(rest)?;
    let (bytes, rows) = rest.split_once(" | ").context("no rows")?;
    let mut page = bytes_of(alloc, bytes)?;
    let rows = rows_of(alloc, rows)?;
    put_all(columns, into, &mut page, at, rows.as_slice())?;
    write!(into, "{}", rows_end(&page))?;
    show_bytes(into, &page)?;
    into.push('\n')?;
    Ok(())
}

/// Makes a call of these kinds; `false` where the word names none of them.
pub(crate) fn make(
    alloc: Global,
    columns: &Schema,
    into: &mut String,
    word: &str,
    rest: &str,
) -> Result<bool> {
    match word {
        "rows-end" => end_of_rows(alloc, into, rest)?,
        "row-at" => row(alloc, into, rest)?,
        "end-page" => end(alloc, into, rest)?,
        "put-rows" => put_rows(alloc, columns, into, rest)?,
        _ => return Ok(false),
    }
    Ok(true)
}
