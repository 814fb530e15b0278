//! The rows that a query has.

use crate::fields::{push_field, row_line};
use crate::tables::Tables;
use anyhow::{Context, Result};
use qsr_value::{Row, Value};
use sql_bind::{Bound, BoundKey};
use sql_mean::answer_slowly;
use std::alloc::Global;
use std::fmt::Write;

/// Whether rows that tie may come in any order, or are to be said as they come.
#[derive(Clone, Copy)]
pub(crate) enum RowOrder {
    Any,
    AsTheyCome,
}

/// What a row has in the keys, as a line.
fn key_line(alloc: Global, keys: &[BoundKey], row: &[Value]) -> Result<String> {
    let mut line = String::new(alloc);
    for key in keys {
        let value = row.get(key.item).context("a key that is no item")?;
        push_field(&mut line, value)?;
    }
    Ok(line)
}

/// Says for each row what it has in the keys, if there are any.
fn say_keys(alloc: Global, said: &mut String, keys: &[BoundKey], rows: &[Row]) -> Result<()> {
    if keys.is_empty() {
        return Ok(());
    }
    for row in rows {
        let line = key_line(alloc, keys, row.as_slice())?;
        writeln!(said, "by {line}")?;
    }
    Ok(())
}

fn lines(alloc: Global, rows: &[Row]) -> Result<Vec<String>> {
    let mut lines = Vec::new(alloc);
    for row in rows {
        lines.push(row_line(alloc, row.as_slice())?)?;
    }
    Ok(lines)
}

fn sorted_lines(alloc: Global, rows: &[Row]) -> Result<Vec<String>> {
    let mut lines = lines(alloc, rows)?;
    lines.sort()?;
    Ok(lines)
}

fn say_lines(said: &mut String, lines: &[String]) -> Result<()> {
    if lines.is_empty() {
        said.push_str("no rows\n")?;
    }
    for line in lines {
        writeln!(said, "{line}")?;
    }
    Ok(())
}

/// Says what the rows have in the keys, in order, and then the rows, sorted as lines by their bytes.
fn say_sorted(alloc: Global, said: &mut String, keys: &[BoundKey], rows: &[Row]) -> Result<()> {
    say_keys(alloc, said, keys, rows)?;
    say_lines(said, &sorted_lines(alloc, rows)?)
}

fn say_in_order(
    alloc: Global,
    said: &mut String,
    order: RowOrder,
    keys: &[BoundKey],
    rows: &[Row],
) -> Result<()> {
    match order {
        RowOrder::Any => say_sorted(alloc, said, keys, rows),
        RowOrder::AsTheyCome => say_lines(said, &lines(alloc, rows)?),
    }
}

/// Says the rows that a query has over some tables, or why it has none.
pub(crate) fn say_rows(
    alloc: Global,
    said: &mut String,
    tables: &Tables,
    order: RowOrder,
    query: &Bound,
) -> Result<()> {
    let keys = query.order_by.as_slice();
    match answer_slowly(alloc, query, &tables.lists) {
        Ok(rows) => say_in_order(alloc, said, order, keys, rows.as_slice()),
        Err(fault) => Ok(writeln!(said, "{fault}")?),
    }
}
