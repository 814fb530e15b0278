//! What the lines of the input say of tables.

use anyhow::{Context, Result, bail};
use qsr_value::{ColKind, Column, Row, Schema, Txt, Value};
use sql_bind::NamedTable;
use std::alloc::Global;

/// How many bytes a text of a table has at most.
const MAX_TEXT: u16 = 100;

fn kind(word: &str) -> Result<ColKind> {
    match word {
        "int" => Ok(ColKind::Int),
        "wide" => Ok(ColKind::Wide),
        "text" => Ok(ColKind::Text { max: MAX_TEXT }),
        _ => bail!("no such kind: {word}"),
    }
}

/// A column, as `NAME KIND`.
fn column(alloc: Global, text: &str) -> Result<Column> {
    let (name, word) = text.split_once(' ').context("a column without a kind")?;
    let kind = kind(word)?;
    let name = Txt::from_str(alloc, name)?;
    Ok(Column { name, kind })
}

fn columns(alloc: Global, text: &str) -> Result<Schema> {
    let mut schema = Schema::new(alloc);
    for part in text.split(',') {
        schema.push(column(alloc, part)?)?;
    }
    Ok(schema)
}

/// A table without rows, as `NAME COLUMN KIND,COLUMN KIND`.
pub(crate) fn named_table(alloc: Global, text: &str) -> Result<NamedTable> {
    let (name, rest) = text.split_once(' ').context("a table without columns")?;
    let columns = columns(alloc, rest)?;
    let name = Txt::from_str(alloc, name)?;
    Ok(NamedTable { name, columns })
}

/// A number, or a text between two `'`.
fn value(alloc: Global, field: &str) -> Result<Value> {
    match field.strip_prefix('\'') {
        None => Ok(Value::Int(field.parse::<i128>()?)),
        Some(rest) => {
            let text = rest.strip_suffix('\'').context("a text without its end")?;
            Ok(Value::Text(Txt::from_str(alloc, text)?))
        }
    }
}

/// A row, as `FIELD~FIELD`.
pub(crate) fn row(alloc: Global, text: &str) -> Result<Row> {
    let mut row = Row::new(alloc);
    for field in text.split('~') {
        row.push(value(alloc, field)?)?;
    }
    Ok(row)
}
