//! Output files: rows that are pushed to one and flushed.

ghost use Rattle.std.specs.Prelude.{◌≤◌, [], ◌∷◌, IfOk};
ghost use Rattle.qsr_value.specs.declared.kind.ColKind.TheVariants as ColKind;
ghost use Rattle.qsr_value.specs.Columns.{width_of};
ghost use Rattle.qsr_value.specs.Values.{Fits};

use crate::rows::{kinds_row, kinds_schema, letters_row, number_row, number_schema, text_schema};
use anyhow::{Context, Result, bail, ensure};
use case_kit::{Words, number};
use disk_kit::{Ended, job_of, say_end};
use disk_model::MemDisk;
use out_file::{OutFault, OutFile};
use page_store::Store;
use qsr_value::{Row, Schema};
use std::alloc::Global;
use std::fmt::Write;

/// An output file, as `JOB` for one with no rows that is as large as its area, or as `JOB ROWS END`.
fn file(store: &Store<'_, MemDisk>, words: &mut Words<'_>) -> Result<OutFile> {
    let job = job_of(words.word()?)?;
    let room = 4096 * store.sizes().out;
    if words.is_empty() {
        return Ok(OutFile::at(job, 0, 0, room));
    }
    let (rows, end) = (words.number()?, words.number()?);
    ensure!(end <= room, "an end behind the area");
    Ok(OutFile::at(job, rows, end, room))
}

/// Begins an output file, to which rows are pushed from now on.
fn begin(
    store: &Store<'_, MemDisk>,
    out: &mut Option<OutFile>,
    words: &mut Words<'_>,
) -> Result<Ended> {
    *out = Some(file(store, words)?);
    Ok(Ended::Well)
}

/// Pushes a row, and gives the fault where it isn't kept.
fn push_row(
    store: &mut Store<'_, MemDisk>,
    out: &mut OutFile,
    schema: &Schema,
    row: &Row,
) -> Result<Option<OutFault>>
    requires fits { Fits schema.now row.now }
    requires width { width_of schema.now ≤ 1000 }
{
    let room = out.end() as u64 + out.free() as u64;
    ensure!(
        room <= 4096 * store.sizes().out as u64,
        "a file beyond its area"
    );
    Ok(out.push(store, schema, row).err())
}

/// Pushes a row that is a number.
fn push_number(
    alloc: Global,
    store: &mut Store<'_, MemDisk>,
    out: &mut OutFile,
    word: &str,
) -> Result<Option<OutFault>> {
    let schema = number_schema(alloc)?;
    let row = number_row(alloc, number(word)?)?;
    push_row(store, out, &schema, &row)
}

/// Pushes a row that is a text of so many letters.
fn push_letters(
    alloc: Global,
    store: &mut Store<'_, MemDisk>,
    out: &mut OutFile,
    word: &str,
) -> Result<Option<OutFault>> {
    let schema = text_schema(alloc)?;
    let row = letters_row(alloc, number(word)?)?;
    push_row(store, out, &schema, &row)
}

/// A row of each kind, as `INT:WIDE:TEXT`.
fn kinds(alloc: Global, word: &str) -> Result<Row>
    ensures { IfOk result (λ row. Fits (record { name = []; kind = ColKind.Int } ∷ record { name = []; kind = ColKind.Wide } ∷ record { name = []; kind = ColKind.Text 5 } ∷ []) row) }
{
    let (int, rest) = word.split_once(':').context("no second value")?;
    let (wide, text) = rest.split_once(':').context("no third value")?;
    Ok(kinds_row(alloc, number(int)?, number(wide)?, text)?)
}

fn push_kinds(
    alloc: Global,
    store: &mut Store<'_, MemDisk>,
    out: &mut OutFile,
    word: &str,
) -> Result<Option<OutFault>> {
    let schema = kinds_schema(alloc)?;
    let row = kinds(alloc, word)?;
    push_row(store, out, &schema, &row)
}

/// Pushes a row of a kind.
fn push_one(
    alloc: Global,
    store: &mut Store<'_, MemDisk>,
    out: &mut OutFile,
    kind: &str,
    word: &str,
) -> Result<Option<OutFault>> {
    match kind {
        "int" => push_number(alloc, store, out, word),
        "letters" => push_letters(alloc, store, out, word),
        "kinds" => push_kinds(alloc, store, out, word),
        _ => bail!("no such rows: {kind}"),
    }
}

/// Pushes rows up to the first that isn't kept, as `int NUMBER NUMBER`, `letters COUNT COUNT` or `kinds INT:WIDE:TEXT`.
fn push(
    alloc: Global,
    store: &mut Store<'_, MemDisk>,
    out: &mut Option<OutFile>,
    said: &mut String,
    words: &mut Words<'_>,
) -> Result<Ended> {
    let out = out.as_mut().context("no file")?;
    let kind = words.word()?;
    let mut pushed = 0u32;
    for word in words.rest().split(' ') {
        if let Some(fault) = push_one(alloc, store, out, kind, word)? {
            writeln!(said, "{pushed} pushed, {fault:?}")?;
            return Ok(Ended::Badly);
        }
        pushed = pushed.saturating_add(1);
    }
    writeln!(said, "{pushed} pushed")?;
    Ok(Ended::Well)
}

/// Flushes the file.
fn flush(
    store: &mut Store<'_, MemDisk>,
    out: &mut Option<OutFile>,
    said: &mut String,
) -> Result<Ended> {
    let out = out.as_mut().context("no file")?;
    let room = out.end() as u64 + out.free() as u64;
    ensure!(
        room <= 4096 * store.sizes().out as u64,
        "a file beyond its area"
    );
    let end = out.flush(store);
    Ok(say_end(said, end)?)
}

/// Says how many rows the file has, how many bytes they take, and how many are free.
fn end(out: &Option<OutFile>, said: &mut String) -> Result<Ended> {
    let out = out.as_ref().context("no file")?;
    let (rows, end, free) = (out.rows(), out.end(), out.free());
    writeln!(said, "{rows} rows, {end} bytes, {free} free")?;
    Ok(Ended::Well)
}

/// Does a step on the file, if the word names one.
pub(crate) fn serve(
    alloc: Global,
    store: &mut Store<'_, MemDisk>,
    out: &mut Option<OutFile>,
    said: &mut String,
    word: &str,
    words: &mut Words<'_>,
) -> Result<Option<Ended>> {
    let ended = match word {
        "file" => begin(store, out, words)?,
        "push" => push(alloc, store, out, said, words)?,
        "flush" => flush(store, out, said)?,
        "end" => end(out, said)?,
        _ => return Ok(None),
    };
    Ok(Some(ended))
}
