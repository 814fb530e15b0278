//! Calls of the disk itself.

use crate::ended::say_end;
use crate::layout::sizes_of;
use anyhow::{Context, Result, bail};
use case_kit::{Words, bytes_of, number, push_bytes};
use disk_model::{Disk, Failed, MemDisk};
use page_store::format;
use qsr_value::PAGE_BYTES;
use std::alloc::{AllocError, Global};
use std::fmt::Write;

/// Writes bytes at a place.
fn write_at(disk: &mut MemDisk, at: u64, bytes: &[u8]) -> Result<Result<(), Failed>> {
    let (count, size) = (bytes.len() as u64, disk.size());
    if count == 0 || count > 4096 || size < count || size - count < at {
        bail!("no such bytes of the disk");
    }
    Ok(disk.write(at, bytes))
}

/// Writes bytes at a place where there are some; it is an error where that fails.
pub(crate) fn put(disk: &mut MemDisk, at: u64, bytes: &[u8]) -> Result<()> {
    if !bytes.is_empty() {
        write_at(disk, at, bytes)??;
    }
    Ok(())
}

/// Puts bytes at a place, as `AT=BYTES`.
fn put_word(alloc: Global, disk: &mut MemDisk, word: &str) -> Result<()> {
    let (at, bytes) = word.split_once('=').context("bytes without their place")?;
    let at = number(at)?;
    let bytes = bytes_of(alloc, bytes)?;
    put(disk, at, &bytes)
}

/// Puts bytes at some places, as `AT=BYTES AT=BYTES`.
fn put_all(alloc: Global, disk: &mut MemDisk, text: &str) -> Result<()> {
    for word in text.split(' ') {
        put_word(alloc, disk, word)?;
    }
    Ok(())
}

/// Writes bytes, as `AT BYTES`, and says how that ended.
fn write(
    alloc: Global,
    disk: &mut MemDisk,
    said: &mut String,
    words: &mut Words<'_>,
) -> Result<()> {
    let at = words.number()?;
    let bytes = bytes_of(alloc, words.word()?)?;
    let end = write_at(disk, at, &bytes)?;
    say_end(said, end)?;
    Ok(())
}

/// Syncs the disk, and says how that ended.
fn sync(disk: &mut MemDisk, said: &mut String) -> Result<(), AllocError> {
    let end = disk.sync();
    say_end(said, end)?;
    Ok(())
}

/// Reads bytes from a place on.
fn read_at(disk: &mut MemDisk, at: u64, out: &mut [u8]) -> Result<Result<(), Failed>> {
    let (count, size) = (out.len() as u64, disk.size());
    if count == 0 || count > 4096 || size < count || size - count < at {
        bail!("no such bytes of the disk");
    }
    Ok(disk.read(at, out))
}

/// Reads bytes and says them.
fn read(disk: &mut MemDisk, said: &mut String, at: u64, count: usize) -> Result<()> {
    let mut page = [0x5A; PAGE_BYTES];
    let out = page.get_mut(..count).context("more than a page")?;
    match read_at(disk, at, out)? {
        Ok(()) => say_bytes(said, out)?,
        Err(Failed) => said.push_str("failed\n")?,
    }
    Ok(())
}

/// Says bytes in a line.
pub fn say_bytes(said: &mut String, bytes: &[u8]) -> Result<(), AllocError> {
    push_bytes(said, bytes)?;
    said.push('\n')
}

/// Says bytes as they stand on the disk, by no call of it.
fn say_standing(disk: &MemDisk, said: &mut String, at: usize, count: usize) -> Result<()> {
    let rest = disk.bytes().get(at..).context("no such bytes")?;
    say_bytes(said, rest.get(..count).context("no such bytes")?)?;
    Ok(())
}

/// The pages of `FIRST-LAST`.
fn pages_of(word: &str) -> Result<(u16, u16)> {
    let (first, last) = word.split_once('-').context("pages without a last one")?;
    Ok((number(first)?, number(last)?))
}

/// Fills pages with their numbers.
fn number_pages(disk: &mut MemDisk, word: &str) -> Result<()> {
    let (first, last) = pages_of(word)?;
    for page in first..=last {
        let byte = (page & 0xFF) as u8;
        put(disk, 4096 * page as u64, &[byte; PAGE_BYTES])?;
    }
    Ok(())
}

/// Says a page that isn't filled with its number.
fn say_other(disk: &MemDisk, said: &mut String, page: u16) -> Result<()> {
    let rest = disk
        .bytes()
        .get(PAGE_BYTES * page as usize..)
        .context("no such page")?;
    let bytes = rest.get(..PAGE_BYTES).context("no such page")?;
    let byte = (page & 0xFF) as u8;
    if !bytes.iter().all(|other| *other == byte) {
        write!(said, " but {page} ")?;
        push_bytes(said, bytes)?;
    }
    Ok(())
}

fn say_others(disk: &MemDisk, said: &mut String, word: &str) -> Result<()> {
    let (first, last) = pages_of(word)?;
    for page in first..=last {
        say_other(disk, said, page)?;
    }
    Ok(())
}

/// Says which pages are filled with their numbers, and what stands in the others.
fn say_numbered(disk: &MemDisk, said: &mut String, text: &str) -> Result<()> {
    said.push_str("numbered")?;
    for word in text.split(' ') {
        say_others(disk, said, word)?;
    }
    said.push('\n')?;
    Ok(())
}

/// Formats a store, and says how many pages it has.
fn format_disk(disk: &mut MemDisk, said: &mut String, word: &str) -> Result<()> {
    let sizes = sizes_of(word)?;
    match format(disk, sizes) {
        Ok(pages) => writeln!(said, "{pages} pages")?,
        Err(fault) => writeln!(said, "{fault:?}")?,
    }
    Ok(())
}

/// Counts what was asked of the disk so far.
fn count(disk: &MemDisk, said: &mut String, word: &str) -> Result<bool> {
    match word {
        "reads" => writeln!(said, "reads {}", disk.reads())?,
        "writes" => writeln!(said, "writes {}", disk.writes())?,
        "faults" => writeln!(said, "faults {}", disk.faults())?,
        _ => return Ok(false),
    }
    Ok(true)
}

/// Makes a call of the disk, and tells whether the word names one.
pub(crate) fn serve(
    alloc: Global,
    disk: &mut MemDisk,
    said: &mut String,
    word: &str,
    words: &mut Words<'_>,
) -> Result<bool> {
    match word {
        "write" => write(alloc, disk, said, words)?,
        "put" => put_all(alloc, disk, words.rest())?,
        "sync" => sync(disk, said)?,
        "read" => read(disk, said, words.number()?, words.number()?)?,
        "bytes" => say_standing(disk, said, words.number()?, words.number()?)?,
        "number" => number_all(disk, words.rest())?,
        "numbered" => say_numbered(disk, said, words.rest())?,
        "format" => format_disk(disk, said, words.word()?)?,
        _ => return count(disk, said, word),
    }
    Ok(true)
}

/// Fills pages with their numbers, as `FIRST-LAST FIRST-LAST`.
fn number_all(disk: &mut MemDisk, text: &str) -> Result<()> {
    for word in text.split(' ') {
        number_pages(disk, word)?;
    }
    Ok(())
}
