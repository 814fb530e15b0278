//! The disk that steps are done on, and those that were kept.

use crate::{crashes, device, layout};
use anyhow::{Context, Result, bail};
use case_kit::{ALL_CALLS, Words, numbers};
use disk_model::{Disk, MemDisk, Pick};
use std::alloc::Global;
use std::fmt::Write;

/// The gate of a store that is whole.
const OPEN: u8 = 0xA5;

/// A disk at rest, and the name that it was kept by.
#[derive(Drop)]
struct Kept {
    name: String,
    disk: MemDisk,
}

/// What a program does in the store on a disk.
pub trait OnStores {
    /// Opens the store on a disk and does steps in it. What they say goes behind what was said.
    fn open(alloc: Global, disk: &mut MemDisk, said: &mut String, steps: &str) -> Result<()>;
}

/// The disk that steps are done on, if there is one, and those that were kept.
#[derive(Drop)]
pub struct Disks {
    pub(crate) current: Option<MemDisk>,
    kept: Vec<Kept>,
}

/// A disk of zeros, as `SIZE ROOM` or `SIZE ROOM CALL,CALL` with the calls that fail.
fn new_disk(alloc: Global, text: &str) -> Result<MemDisk> {
    let mut words = Words::of(text);
    let size = words.number()?;
    let room = words.number()?;
    let failing = numbers(alloc, words.rest())?;
    let disk = if failing.is_empty() {
        MemDisk::new(alloc, size, room)
    } else {
        MemDisk::failing(alloc, size, room, &failing)
    };
    Ok(disk?)
}

/// Writes bytes at the front of a disk, as many as have room.
fn put_front(disk: &mut MemDisk, bytes: &[u8]) -> Result<()> {
    let mut at = 0u64;
    for part in bytes.chunks(4096) {
        let room = disk.size().saturating_sub(at).min(part.len() as u64);
        device::put(disk, at, part.split_at(room as usize).0)?;
        at = at.saturating_add(4096);
    }
    Ok(())
}

/// Says which pages differ on two disks.
fn say_changes(said: &mut String, disk: &MemDisk, other: &MemDisk) -> Result<()> {
    said.push_str("changed:")?;
    let pages = disk.bytes().chunks(4096).zip(other.bytes().chunks(4096));
    for (page, (bytes, others)) in pages.enumerate() {
        if bytes != others {
            write!(said, " {page}")?;
        }
    }
    said.push('\n')?;
    Ok(())
}

impl Disks {
    /// No disk.
    pub fn new(alloc: Global) -> Disks {
        Disks {
            current: None,
            kept: Vec::new(alloc),
        }
    }

    fn disk(&self) -> Result<&MemDisk> {
        self.current.as_ref().context("no disk")
    }

    /// The disk that was kept last by a name.
    fn kept(&self, name: &str) -> Result<&MemDisk> {
        let mut found = self
            .kept
            .iter()
            .rev()
            .filter(|kept| kept.name.as_str() == name);
        let kept = found
            .next()
            .context(format_args!("no disk is kept as {name}"))?;
        Ok(&kept.disk)
    }

    fn keep(&mut self, alloc: Global, name: &str) -> Result<()> {
        let disk = self.disk()?.image(alloc, ALL_CALLS, Pick::New)?;
        let name = String::from_str(alloc, name)?;
        self.kept.push(Kept { name, disk })?;
        Ok(())
    }

    fn take(&mut self, alloc: Global, name: &str) -> Result<()> {
        let disk = self.kept(name)?.image(alloc, 0, Pick::New)?;
        self.current = Some(disk);
        Ok(())
    }

    /// Writes the bytes of a kept disk on the disk, as many as have room.
    fn copy(&mut self, name: &str) -> Result<()> {
        let mut disk = self.current.take().context("no disk")?;
        let done = put_front(&mut disk, self.kept(name)?.bytes());
        self.current = Some(disk);
        done
    }

    /// Says which of some kept disks the disk is like, or that no store's gate is open on it.
    fn say_like(&self, said: &mut String, names: &str) -> Result<()> {
        let bytes = self.disk()?.bytes();
        if bytes.first() != Some(&OPEN) {
            said.push_str("no store\n")?;
            return Ok(());
        }
        for name in names.split(' ') {
            if self.kept(name)?.bytes() == bytes {
                writeln!(said, "{name}")?;
                return Ok(());
            }
        }
        said.push_str("none of them\n")?;
        Ok(())
    }

    /// Makes or keeps a disk, and tells whether the word asks for that.
    fn make(&mut self, alloc: Global, word: &str, text: &str) -> Result<bool> {
        match word {
            "disk" => self.current = Some(new_disk(alloc, text)?),
            "keep" => self.keep(alloc, text)?,
            "take" => self.take(alloc, text)?,
            "copy" => self.copy(text)?,
            _ => return Ok(false),
        }
        Ok(true)
    }

    /// Compares the disk with kept ones, and tells whether the word asks for that.
    fn compare(&self, said: &mut String, word: &str, text: &str) -> Result<bool> {
        match word {
            "like" => self.say_like(said, text)?,
            "changed" => say_changes(said, self.disk()?, self.kept(text)?)?,
            _ => return Ok(false),
        }
        Ok(true)
    }
}

fn do_step<S: OnStores>(
    alloc: Global,
    disks: &mut Disks,
    said: &mut String,
    step: &str,
) -> Result<()> {
    let (word, rest) = step.split_once(' ').unwrap_or((step, ""));
    let words = &mut Words::of(rest);
    if disks.make(alloc, word, rest)?
        || disks.compare(said, word, rest)?
        || layout::serve(said, word, words)?
    {
        return Ok(());
    }
    let disk = disks.current.as_mut().context("no disk")?;
    if word == "open" {
        return S::open(alloc, disk, said, rest);
    }
    if !device::serve(alloc, disk, said, word, words)? {
        bail!("no such step: {word}");
    }
    Ok(())
}

/// Does steps that are joined by `; `, none of which is a crash.
pub(crate) fn do_plain_steps<S: OnStores>(
    alloc: Global,
    disks: &mut Disks,
    said: &mut String,
    text: &str,
) -> Result<()> {
    for step in text.split("; ") {
        do_step::<S>(alloc, disks, said, step)?;
    }
    Ok(())
}

/// Does steps that are joined by `; `, each of which says a line. All after a `left` are done on what a crash leaves.
pub fn do_steps<S: OnStores>(
    alloc: Global,
    disks: &mut Disks,
    said: &mut String,
    text: &str,
) -> Result<()> {
    if let Some(crash) = text.strip_prefix("left ") {
        return crashes::crash::<S>(alloc, disks, said, crash);
    }
    let Some((steps, crash)) = text.split_once("; left ") else {
        return do_plain_steps::<S>(alloc, disks, said, text);
    };
    do_plain_steps::<S>(alloc, disks, said, steps)?;
    crashes::crash::<S>(alloc, disks, said, crash)
}
