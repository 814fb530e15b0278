//! The disk that the runs of a case are made over, and those that are kept under names.

use crate::device::Device;
use crate::media::Media;
use anyhow::{Context, Result, bail, ensure};
use case_kit::{ALL_CALLS, read_bytes_at};
use disk_model::{FileDisk, MemDisk, Pick};
use std::alloc::Global;
use std::fs;
use std::fs::{File, OpenOptions};
use std::rt::Files;

/// How many writes and syncs a disk can record where a case doesn't say it.
const ROOM: &str = "400";

#[derive(Drop)]
struct Saved {
    name: String,
    disk: Device,
}

#[derive(Drop)]
pub(crate) struct Disks {
    pub(crate) now: Device,
    saved: Vec<Saved>,
}

/// A disk of zeros: `SIZE`, or `SIZE ROOM`.
fn zeros(alloc: Global, text: &str) -> Result<Media> {
    let (size, room) = text.split_once(' ').unwrap_or((text, ROOM));
    let disk = MemDisk::new(alloc, size.parse::<u64>()?, room.parse::<u32>()?)?;
    Ok(Media::Memory(disk))
}

/// A disk over a file of this name in the current folder, which is made. Its name is taken away at once, so that nothing stays there.
fn made_file(rt: &impl Files<File = File>, name: &str) -> Result<Media> {
    let file = OpenOptions::new()
        .read(true)
        .write(true)
        .create_new(true)
        .open(rt, name)?;
    fs::remove_file(rt, name)?;
    Ok(Media::File(FileDisk::at(file)))
}

impl Disks {
    /// A disk without a byte.
    pub(crate) fn new(alloc: Global) -> Result<Disks> {
        Ok(Disks {
            now: Device::new(alloc, zeros(alloc, "0")?),
            saved: Vec::new(alloc),
        })
    }

    fn find(&self, name: &str) -> Option<&Saved> {
        self.saved.iter().find(|saved| saved.name.as_str() == name)
    }

    fn save(&mut self, alloc: Global, name: &str) -> Result<()> {
        ensure!(self.find(name).is_none(), "saved twice: {name}");
        let name = String::from_str(alloc, name)?;
        let disk = self.now.left(alloc, ALL_CALLS, Pick::New)?;
        self.saved.push(Saved { name, disk })?;
        Ok(())
    }

    fn begin_from(&mut self, alloc: Global, name: &str) -> Result<()> {
        let saved = self.find(name).context("no such disk is saved")?;
        self.now = saved.disk.left(alloc, ALL_CALLS, Pick::New)?;
        Ok(())
    }

    fn put(&mut self, alloc: Global, text: &str) -> Result<()> {
        let bytes = read_bytes_at(alloc, text)?;
        self.now.put(alloc, bytes.at, &bytes.bytes)
    }

    fn begin(&mut self, alloc: Global, media: Media) {
        self.now = Device::new(alloc, media);
    }

    /// A disk without a byte, with which each case begins.
    pub(crate) fn begin_case(&mut self, alloc: Global) -> Result<()> {
        self.begin(alloc, zeros(alloc, "0")?);
        Ok(())
    }

    /// Does what a line between blocks says of the disk.
    pub(crate) fn set_up(
        &mut self,
        rt: &(impl AllocGlobal + Files<File = File>),
        word: &str,
        rest: &str,
    ) -> Result<()> {
        let alloc = rt.alloc();
        match word {
            "disk" => self.begin(alloc, zeros(alloc, rest)?),
            "liar" => self.begin(alloc, Media::liar(rest.parse::<u64>()?)),
            "file" => self.begin(alloc, made_file(rt, rest)?),
            "save" => self.save(alloc, rest)?,
            "from" => self.begin_from(alloc, rest)?,
            "put" => self.put(alloc, rest)?,
            _ => bail!("no such line: {word}"),
        }
        Ok(())
    }
}
