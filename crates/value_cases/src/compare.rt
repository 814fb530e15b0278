//! Calls on rows: copies, joins, and their order.

ghost use Rattle.std.specs.Prelude.{IsTrue, slice_get};
ghost use Rattle.qsr_value.specs.Ordered.{AreThere, HaveKeys};

use anyhow::{Context, Result, ensure};
use case_kit::{row_of, show_row, value_of};
use qsr_value::{ListOf, Row, SortKey, TryCopy, Value, cmp_by, cmp_values};
use std::alloc::Global;
use std::cmp::Ordering;
use std::fmt::Write;

/// Keys to sort by.
type Keys = ListOf<SortKey>;

/// `ROW`: says a copy of it.
fn copy(alloc: Global, into: &mut String, rest: &str) -> Result<()> {
    let copy = row_of(alloc, rest)?.copy(alloc)?;
    show_row(into, copy.as_slice())?;
    into.push('\n')?;
    Ok(())
}

/// Two parts of a line.
fn pair(rest: &str) -> Result<(&str, &str)> {
    rest.split_once(" | ").context("there is no second part")
}

/// `ROW | ROW`: says the first followed by the second.
fn join(alloc: Global, into: &mut String, rest: &str) -> Result<()> {
    let (row, other) = pair(rest)?;
    let (row, other) = (row_of(alloc, row)?, row_of(alloc, other)?);
    show_row(into, row.join(alloc, &other)?.as_slice())?;
    into.push('\n')?;
    Ok(())
}

/// A key: the number of its column, with a `d` where it is descending.
fn key_of(word: &str) -> Result<SortKey> {
    let (column, descending) = match word.strip_suffix('d') {
        Some(column) => (column, true),
        None => (word, false),
    };
    let column = column.parse::<u8>()?;
    Ok(SortKey { column, descending })
}

/// Keys with commas between, or `-` for none.
fn keys_of(alloc: Global, word: &str) -> Result<Keys> {
    let mut keys = Keys::new(alloc);
    if word == "-" {
        return Ok(keys);
    }
    for key in word.split(',') {
        keys.push(key_of(key)?)?;
    }
    Ok(keys)
}

/// Whether two rows have the column of a key.
fn has_key(key: SortKey, a: &[Value], b: &[Value]) -> bool
    ensures { IsTrue result → AreThere (slice_get a.now key.column) (slice_get b.now key.column) }
{
    let column = key.column as usize;
    column < a.len() && column < b.len()
}

/// Whether two rows have the columns of all keys.
fn have_keys(keys: &[SortKey], a: &[Value], b: &[Value]) -> bool
    ensures { IsTrue result → HaveKeys keys.now a.now b.now }
{
    match keys {
        [] => true,
        [key, keys @ ..] => has_key(*key, a, b) && have_keys(keys, a, b),
    }
}

fn name_of(order: Ordering) -> &'static str {
    match order {
        Ordering::Less => "less",
        Ordering::Equal => "equal",
        Ordering::Greater => "greater",
    }
}

/// How two rows stand by some keys.
fn order_of(alloc: Global, keys: &str, row: &Row, other: &Row) -> Result<&'static str> {
    let keys = keys_of(alloc, keys)?;
    ensure!(
        have_keys(keys.as_slice(), row.as_slice(), other.as_slice()),
        "no such column"
    );
    Ok(name_of(cmp_by(row, other, keys.as_slice())))
}

/// `KEYS KEYS .. | ROW | ROW`: says how the rows stand by each of the keys.
fn compare(alloc: Global, into: &mut String, rest: &str) -> Result<()> {
    let (words, rows) = pair(rest)?;
    let (row, other) = pair(rows)?;
    let (row, other) = (row_of(alloc, row)?, row_of(alloc, other)?);
    into.push_str("order")?;
    for keys in words.split(' ') {
        write!(into, " {}", order_of(alloc, keys, &row, &other)?)?;
    }
    into.push('\n')?;
    Ok(())
}

/// `VALUE | VALUE`: says how they stand.
fn compare_values(alloc: Global, into: &mut String, rest: &str) -> Result<()> {
    let (value, other) = pair(rest)?;
    let (value, other) = (value_of(alloc, value)?, value_of(alloc, other)?);
    writeln!(into, "order {}", name_of(cmp_values(&value, &other)))?;
    Ok(())
}

/// Makes a call of these kinds; `false` where the word names none of them.
pub(crate) fn make(alloc: Global, into: &mut String, word: &str, rest: &str) -> Result<bool> {
    match word {
        "copy" => copy(alloc, into, rest)?,
        "join" => join(alloc, into, rest)?,
        "compare" => compare(alloc, into, rest)?,
        "compare-values" => compare_values(alloc, into, rest)?,
        _ => return Ok(false),
    }
    Ok(true)
}
