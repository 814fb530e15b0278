//! A store that is opened, and what is done in it.

use crate::{areas, bodies, files, heads, listings};
use anyhow::{Result, bail};
use case_kit::Words;
use disk_kit::{Ended, say_end};
use disk_model::{Disk, MemDisk};
use out_file::OutFile;
use page_store::Store;
use std::alloc::{AllocError, Global};
use std::fmt::Write;

/// What steps in an opened store share.
#[derive(Drop)]
pub(crate) struct Session {
    /// The output file that rows are pushed to.
    pub(crate) out: Option<OutFile>,
    /// How many reads and writes of the disk had been made when they were told last.
    told: (u64, u64),
}

/// Says how many reads and writes were made since that was said last, or since the store was opened.
fn say_calls(
    store: &Store<'_, MemDisk>,
    session: &mut Session,
    said: &mut String,
) -> Result<(), AllocError> {
    let (reads, writes) = (store.disk.reads(), store.disk.writes());
    let more_reads = reads.saturating_sub(session.told.0);
    let more_writes = writes.saturating_sub(session.told.1);
    session.told = (reads, writes);
    writeln!(said, "reads {more_reads}, writes {more_writes}")
}

/// Syncs the store, and says how that ended.
fn sync(store: &mut Store<'_, MemDisk>, said: &mut String) -> Result<Ended, AllocError> {
    let end = store.sync();
    say_end(said, end)
}

/// Says something of the store or of its disk.
fn say_of(
    store: &Store<'_, MemDisk>,
    session: &mut Session,
    said: &mut String,
    word: &str,
) -> Result<Ended> {
    match word {
        "calls" => say_calls(store, session, said)?,
        "faults" => writeln!(said, "faults {}", store.faults())?,
        "sizes" => writeln!(said, "{:?}", store.sizes())?,
        _ => bail!("no such step in a store: {word}"),
    }
    Ok(Ended::Well)
}

/// Does a step on a part of the store, if the word names one.
fn do_part(
    alloc: Global,
    store: &mut Store<'_, MemDisk>,
    session: &mut Session,
    said: &mut String,
    word: &str,
    words: &mut Words<'_>,
) -> Result<Option<Ended>> {
    if let Some(ended) = bodies::serve(alloc, store, said, word, words)? {
        return Ok(Some(ended));
    }
    if let Some(ended) = areas::serve(alloc, store, said, word, words)? {
        return Ok(Some(ended));
    }
    if let Some(ended) = heads::serve(store, said, word, words)? {
        return Ok(Some(ended));
    }
    if let Some(ended) = listings::serve(alloc, store, said, word, words)? {
        return Ok(Some(ended));
    }
    files::serve(alloc, store, &mut session.out, said, word, words)
}

/// Does a step.
fn do_step(
    alloc: Global,
    store: &mut Store<'_, MemDisk>,
    session: &mut Session,
    said: &mut String,
    step: &str,
) -> Result<Ended> {
    let (word, rest) = step.split_once(' ').unwrap_or((step, ""));
    if word == "sync" {
        return Ok(sync(store, said)?);
    }
    match do_part(alloc, store, session, said, word, &mut Words::of(rest))? {
        Some(ended) => Ok(ended),
        None => say_of(store, session, said, word),
    }
}

/// Does steps that are joined by ` then `, up to the first that ends badly.
fn do_chain(
    alloc: Global,
    store: &mut Store<'_, MemDisk>,
    session: &mut Session,
    said: &mut String,
    steps: &str,
) -> Result<()> {
    for step in steps.split(" then ") {
        if do_step(alloc, store, session, said, step)? == Ended::Badly {
            break;
        }
    }
    Ok(())
}

/// Does chains of steps that are joined by `, `.
fn do_chains(
    alloc: Global,
    store: &mut Store<'_, MemDisk>,
    session: &mut Session,
    said: &mut String,
    text: &str,
) -> Result<()> {
    for steps in text.split(", ") {
        do_chain(alloc, store, session, said, steps)?;
    }
    Ok(())
}

fn do_opened(
    alloc: Global,
    store: &mut Store<'_, MemDisk>,
    said: &mut String,
    text: &str,
) -> Result<()> {
    if text.is_empty() {
        said.push_str("opened\n")?;
        return Ok(());
    }
    let mut session = Session {
        out: None,
        told: (store.disk.reads(), store.disk.writes()),
    };
    do_chains(alloc, store, &mut session, said, text)
}

/// Opens the store on a disk, and does steps in it.
pub(crate) fn open(alloc: Global, disk: &mut MemDisk, said: &mut String, text: &str) -> Result<()> {
    match Store::open(disk) {
        Ok(mut store) => do_opened(alloc, &mut store, said, text),
        Err(refused) => {
            writeln!(said, "not opened, {:?}", refused.fault)?;
            Ok(())
        }
    }
}
