//! The areas of a store.

ghost use Rattle.page_store.specs.PageOrder.{IsArea};

use anyhow::{Context, Result, ensure};
use case_kit::{Words, bytes_of, number};
use disk_kit::{Ended, area_of, pages_of, say_bytes, say_end};
use disk_model::{Failed, MemDisk};
use page_store::{Area, Store};
use qsr_value::PAGE_BYTES;
use std::alloc::Global;

/// Writes bytes of a page.
fn write_to(
    store: &mut Store<'_, MemDisk>,
    area: Area,
    page: u32,
    from: u16,
    bytes: &[u8],
) -> Result<Result<(), Failed>>
    requires { IsArea area }
{
    ensure!(
        !bytes.is_empty() && bytes.len() <= 4096,
        "no bytes of a page"
    );
    ensure!(from as usize + bytes.len() <= 4096, "no bytes of a page");
    ensure!(page < pages_of(&store.sizes, area), "no such page");
    Ok(store.write_range(area, page, from, bytes))
}

/// Reads a page.
fn read_from(
    store: &mut Store<'_, MemDisk>,
    area: Area,
    page: u32,
    bytes: &mut [u8; PAGE_BYTES],
) -> Result<Result<(), Failed>>
    requires { IsArea area }
{
    ensure!(page < pages_of(&store.sizes, area), "no such page");
    Ok(store.read(area, page, bytes))
}

/// Writes bytes of a page, and says how that ended.
fn say_write(
    store: &mut Store<'_, MemDisk>,
    said: &mut String,
    area: Area,
    page: u32,
    from: u16,
    bytes: &[u8],
) -> Result<Ended>
    requires { IsArea area }
{
    let end = write_to(store, area, page, from, bytes)?;
    Ok(say_end(said, end)?)
}

/// Writes bytes of a page, as `AREA PAGE FROM:BYTES`.
fn write(
    alloc: Global,
    store: &mut Store<'_, MemDisk>,
    said: &mut String,
    words: &mut Words<'_>,
) -> Result<Ended> {
    let area = area_of(words.word()?)?;
    let page = words.number()?;
    let (from, text) = words.word()?.split_once(':').context("no place")?;
    let from = number(from)?;
    let bytes = bytes_of(alloc, text)?;
    say_write(store, said, area, page, from, &bytes)
}

/// Reads a page, as `AREA PAGE`, and says its bytes.
fn read(store: &mut Store<'_, MemDisk>, said: &mut String, words: &mut Words<'_>) -> Result<Ended> {
    let area = area_of(words.word()?)?;
    let mut page = [0x5A; PAGE_BYTES];
    let end = read_from(store, area, words.number()?, &mut page)?;
    if end.is_err() {
        return Ok(say_end(said, end)?);
    }
    say_bytes(said, &page)?;
    Ok(Ended::Well)
}

/// Writes bytes at the front of an area, a page by each call; it is an error where one fails.
fn fill_pages(store: &mut Store<'_, MemDisk>, area: Area, bytes: &[u8]) -> Result<Ended>
    requires { IsArea area }
{
    for (page, part) in (0..u32::MAX).zip(bytes.chunks(PAGE_BYTES)) {
        write_to(store, area, page, 0, part)??;
    }
    Ok(Ended::Well)
}

/// Writes bytes at the front of an area, as `AREA BYTES`.
fn fill(alloc: Global, store: &mut Store<'_, MemDisk>, words: &mut Words<'_>) -> Result<Ended> {
    let area = area_of(words.word()?)?;
    let bytes = bytes_of(alloc, words.word()?)?;
    fill_pages(store, area, &bytes)
}

/// Adds the bytes of a page; it is an error where it isn't read.
fn push_page(
    store: &mut Store<'_, MemDisk>,
    area: Area,
    number: u32,
    bytes: &mut Vec<u8>,
) -> Result<()>
    requires { IsArea area }
{
    let mut page = [0x5A; PAGE_BYTES];
    read_from(store, area, number, &mut page)??;
    bytes.extend_from_slice(&page)?;
    Ok(())
}

/// Adds the bytes of the first pages of an area, as many as have so many bytes.
fn push_pages(
    store: &mut Store<'_, MemDisk>,
    area: Area,
    count: u32,
    bytes: &mut Vec<u8>,
) -> Result<()>
    requires { IsArea area }
{
    for number in 0..count.div_ceil(PAGE_BYTES as u32) {
        push_page(store, area, number, bytes)?;
    }
    Ok(())
}

/// Says the first bytes of an area, as `AREA COUNT`.
fn front(
    alloc: Global,
    store: &mut Store<'_, MemDisk>,
    said: &mut String,
    words: &mut Words<'_>,
) -> Result<Ended> {
    let area = area_of(words.word()?)?;
    let count = words.number()?;
    let mut bytes = Vec::new(alloc);
    push_pages(store, area, count, &mut bytes)?;
    say_bytes(said, bytes.get(..count as usize).context("fewer bytes")?)?;
    Ok(Ended::Well)
}

/// Does a step on an area, if the word names one.
pub(crate) fn serve(
    alloc: Global,
    store: &mut Store<'_, MemDisk>,
    said: &mut String,
    word: &str,
    words: &mut Words<'_>,
) -> Result<Option<Ended>> {
    let ended = match word {
        "write" => write(alloc, store, said, words)?,
        "read" => read(store, said, words)?,
        "fill" => fill(alloc, store, words)?,
        "front" => front(alloc, store, said, words)?,
        _ => return Ok(None),
    };
    Ok(Some(ended))
}
