//! Calls on lists, texts and columns.

use anyhow::{Context, Result, ensure};
use case_kit::show_columns;
use qsr_value::{Bytes, Failed, ListOf, Memory, Schema, TryCopy, Txt};
use std::alloc::Global;
use std::fmt::Write;
use std::str;

/// `COUNT PLACE`: pushes so many numbers, 0 and on, and says how many there are and the one at the place.
fn list(alloc: Global, into: &mut String, rest: &str) -> Result<()> {
    let (count, place) = rest.split_once(' ').context("no place")?;
    let (count, place) = (count.parse::<u64>()?, place.parse::<usize>()?);
    let mut list = ListOf::new(alloc);
    for number in 0..count {
        list.push(number)?;
    }
    ensure!(place < list.len(), "no such place");
    writeln!(into, "{} {}", list.len(), list.get(place))?;
    Ok(())
}

/// `TEXT`: says the list of its bytes.
fn list_of(alloc: Global, into: &mut String, rest: &str) -> Result<()> {
    let list = Bytes::from_slice(alloc, rest.as_bytes())?;
    let text = str::from_utf8(list.as_slice()).ok().context("no text")?;
    writeln!(into, "{text}")?;
    Ok(())
}

/// `TEXT`: says it as it is kept.
fn text(alloc: Global, into: &mut String, rest: &str) -> Result<()> {
    writeln!(into, "{}", Txt::from_str(alloc, rest)?.as_str())?;
    Ok(())
}

/// Says a copy of the columns.
fn copy(alloc: Global, columns: &Schema, into: &mut String) -> Result<()> {
    let copy = columns.copy(alloc)?;
    into.push_str("columns")?;
    show_columns(into, copy.as_slice())?;
    into.push('\n')?;
    Ok(())
}

/// Says how wide a row of the columns is.
fn width(columns: &Schema, into: &mut String) -> Result<()> {
    ensure!(columns.len() <= 65000, "too many columns");
    writeln!(into, "{}", columns.width())?;
    Ok(())
}

/// Makes a call of these kinds; `false` where the word names none of them.
pub(crate) fn make(
    alloc: Global,
    columns: &Schema,
    into: &mut String,
    word: &str,
    rest: &str,
) -> Result<bool> {
    match word {
        "list" => list(alloc, into, rest)?,
        "list-of" => list_of(alloc, into, rest)?,
        "text" => text(alloc, into, rest)?,
        "failures" => writeln!(into, "{Memory}, {Failed}")?,
        "copy-columns" => copy(alloc, columns, into)?,
        "width" => width(columns, into)?,
        _ => return Ok(false),
    }
    Ok(true)
}
