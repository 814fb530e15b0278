//! Rows and their columns as words.

ghost use Rattle.std.specs.Prelude.{◌≡◌, [], ◌∷◌, IfOk};
ghost use Rattle.qsr_value.specs.declared.kind.ColKind.TheVariants as ColKind;
ghost use Rattle.qsr_value.specs.Values.{Fits};

use anyhow::{Context, Result, bail};
use case_kit::number;
use qsr_value::{ColKind, Column, Memory, Row, Schema, Txt, Value};
use std::alloc::{AllocError, Global};
use std::fmt::Write;
use std::str;

/// The greatest text of a row of 1,000 bytes.
const MOST: u16 = 998;

/// The columns of a row that is one text of at most 998 bytes.
pub(crate) fn text_schema(alloc: Global) -> Result<Schema, Memory>
    ensures { IfOk result (λ schema. schema ≡ record { name = []; kind = ColKind.Text 998 } ∷ []) }
{
    let mut schema = Schema::new(alloc);
    schema.push(Column {
        name: Txt::from_str(alloc, "")?,
        kind: ColKind::Text { max: MOST },
    })?;
    Ok(schema)
}

fn one_text(alloc: Global, text: &str) -> Result<Row, Memory>
    ensures { IfOk result (λ row. Fits (record { name = []; kind = ColKind.Text 998 } ∷ []) row) }
{
    if text.len() > MOST as usize {
        return Err(Memory);
    }
    let mut row = Row::new(alloc);
    row.push(Value::Text(Txt::from_str(alloc, text)?))?;
    Ok(row)
}

/// The row of a text of so many letters, at most 998, each the letter that goes by its length.
pub(crate) fn letters_row(alloc: Global, len: u16) -> Result<Row, Memory>
    ensures { IfOk result (λ row. Fits (record { name = []; kind = ColKind.Text 998 } ∷ []) row) }
{
    let bytes = vec![in alloc; b'a' + (len % 26) as u8; len as usize]?;
    let Ok(text) = str::from_utf8(&bytes) else {
        return Err(Memory);
    };
    one_text(alloc, text)
}

/// The columns of a row that is a whole number.
pub(crate) fn number_schema(alloc: Global) -> Result<Schema, Memory>
    ensures { IfOk result (λ schema. schema ≡ record { name = []; kind = ColKind.Int } ∷ []) }
{
    let mut schema = Schema::new(alloc);
    schema.push(Column {
        name: Txt::from_str(alloc, "")?,
        kind: ColKind::Int,
    })?;
    Ok(schema)
}

pub(crate) fn number_row(alloc: Global, number: i64) -> Result<Row, Memory>
    ensures { IfOk result (λ row. Fits (record { name = []; kind = ColKind.Int } ∷ []) row) }
{
    let mut row = Row::new(alloc);
    row.push(Value::Int(number as i128))?;
    Ok(row)
}

/// A column of each kind, the text of at most five bytes.
pub(crate) fn kinds_schema(alloc: Global) -> Result<Schema, Memory>
    ensures { IfOk result (λ schema. schema ≡ record { name = []; kind = ColKind.Int } ∷ record { name = []; kind = ColKind.Wide } ∷ record { name = []; kind = ColKind.Text 5 } ∷ []) }
{
    let mut schema = Schema::new(alloc);
    schema.push(Column {
        name: Txt::from_str(alloc, "")?,
        kind: ColKind::Int,
    })?;
    schema.push(Column {
        name: Txt::from_str(alloc, "")?,
        kind: ColKind::Wide,
    })?;
    schema.push(Column {
        name: Txt::from_str(alloc, "")?,
        kind: ColKind::Text { max: 5 },
    })?;
    Ok(schema)
}

pub(crate) fn kinds_row(alloc: Global, int: i64, wide: i128, text: &str) -> Result<Row, Memory>
    ensures { IfOk result (λ row. Fits (record { name = []; kind = ColKind.Int } ∷ record { name = []; kind = ColKind.Wide } ∷ record { name = []; kind = ColKind.Text 5 } ∷ []) row) }
{
    if text.len() > 5 {
        return Err(Memory);
    }
    let mut row = Row::new(alloc);
    row.push(Value::Int(int as i128))?;
    row.push(Value::Int(wide))?;
    row.push(Value::Text(Txt::from_str(alloc, text)?))?;
    Ok(row)
}

/// A kind, as `int`, `wide` or `text:MAX`.
fn kind(word: &str) -> Result<ColKind> {
    match word {
        "int" => Ok(ColKind::Int),
        "wide" => Ok(ColKind::Wide),
        _ => {
            let max = word.strip_prefix("text:").context("no such kind")?;
            Ok(ColKind::Text { max: number(max)? })
        }
    }
}

/// A kind and how many columns of it there are, as `KIND` or `KIND*COUNT`.
fn kind_times(word: &str) -> Result<(ColKind, u32)> {
    match word.split_once('*') {
        Some((word, count)) => Ok((kind(word)?, number(count)?)),
        None => Ok((kind(word)?, 1)),
    }
}

/// So many columns of a kind.
pub(crate) fn columns_of(alloc: Global, word: &str) -> Result<Schema> {
    let (kind, count) = kind_times(word)?;
    let mut schema = Schema::new(alloc);
    for _ in 0..count {
        let name = Txt::from_str(alloc, "")?;
        schema.push(Column { name, kind })?;
    }
    Ok(schema)
}

/// A long text that is one letter is told by its length.
const LONG: usize = 9;

fn push_text(into: &mut String, text: &str) -> Result<(), AllocError> {
    let first = text.chars().next().unwrap_or(' ');
    if text.len() >= LONG && text.chars().all(|letter| letter == first) {
        write!(into, "{}*'{first}'", text.len())
    } else {
        write!(into, "'{text}'")
    }
}

fn push_value(into: &mut String, value: &Value) -> Result<(), AllocError> {
    match value {
        Value::Int(number) => write!(into, "{number}"),
        Value::Text(text) => push_text(into, text.as_str()),
    }
}

/// Words in a line. Equal ones that stand one behind the other are told once, with their number.
#[derive(Drop)]
pub(crate) struct Tally {
    pub(crate) told: String,
    word: String,
    count: u64,
}

impl Tally {
    pub(crate) fn new(alloc: Global) -> Tally {
        Tally {
            told: String::new(alloc),
            word: String::new(alloc),
            count: 0,
        }
    }

    /// Tells the words that were added last.
    pub(crate) fn end(&mut self) -> Result<(), AllocError> {
        if self.count == 0 {
            return Ok(());
        }
        if !self.told.is_empty() {
            self.told.push(' ')?;
        }
        if self.count > 1 {
            write!(&mut self.told, "{} of ", self.count)?;
        }
        self.told.push_str(self.word.as_str())
    }

    pub(crate) fn add(&mut self, word: String) -> Result<(), AllocError> {
        if self.count > 0 && self.word.as_str() == word.as_str() {
            self.count = self.count.saturating_add(1);
            return Ok(());
        }
        self.end()?;
        self.word = word;
        self.count = 1;
        Ok(())
    }
}

/// A value as a word.
fn value_word(alloc: Global, value: &Value) -> Result<String, AllocError> {
    let mut word = String::new(alloc);
    push_value(&mut word, value)?;
    Ok(word)
}

/// A row as a word.
fn row_word(alloc: Global, row: &Row) -> Result<String, AllocError> {
    let mut tally = Tally::new(alloc);
    for value in row.as_slice() {
        tally.add(value_word(alloc, value)?)?;
    }
    tally.end()?;
    format!(in alloc; "[{}]", tally.told.as_str())
}

/// Says rows in a line.
pub(crate) fn say_rows(alloc: Global, said: &mut String, rows: &[Row]) -> Result<(), AllocError> {
    if rows.is_empty() {
        return said.push_str("no rows\n");
    }
    let mut tally = Tally::new(alloc);
    for row in rows {
        tally.add(row_word(alloc, row)?)?;
    }
    tally.end()?;
    writeln!(said, "{}", tally.told.as_str())
}
