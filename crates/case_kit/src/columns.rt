//! Columns as the lines of cases write them: words `NAME:KIND`, or `KIND` for a column without a name. A kind is `int`, `wide`, or
//! `textN` for texts of at most N bytes.

use anyhow::{Context, Result};
use qsr_value::{ColKind, Column, Schema, Txt};
use std::alloc::{AllocError, Global};
use std::fmt::Write;

fn kind_of(word: &str) -> Result<ColKind> {
    match word {
        "int" => Ok(ColKind::Int),
        "wide" => Ok(ColKind::Wide),
        _ => {
            let max = word.strip_prefix("text").context("no such kind")?;
            let max = max.parse::<u16>()?;
            Ok(ColKind::Text { max })
        }
    }
}

fn column_of(alloc: Global, word: &str) -> Result<Column> {
    let (name, kind) = word.split_once(':').unwrap_or(("", word));
    let kind = kind_of(kind)?;
    let name = Txt::from_str(alloc, name)?;
    Ok(Column { name, kind })
}

/// The columns that a line means.
pub fn schema_of(alloc: Global, text: &str) -> Result<Schema> {
    let mut schema = Schema::new(alloc);
    for word in text.split_whitespace() {
        schema.push(column_of(alloc, word)?)?;
    }
    Ok(schema)
}

fn show_kind(into: &mut String, kind: ColKind) -> Result<(), AllocError> {
    match kind {
        ColKind::Int => into.push_str("int"),
        ColKind::Wide => into.push_str("wide"),
        ColKind::Text { max } => write!(into, "text{max}"),
    }
}

/// Adds columns, each behind a blank.
pub fn show_columns(into: &mut String, columns: &[Column]) -> Result<(), AllocError> {
    for column in columns {
        write!(into, " {}:", column.name.as_str())?;
        show_kind(into, column.kind)?;
    }
    Ok(())
}
