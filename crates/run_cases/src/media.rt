//! What the bytes of a case's disk stand on.
ghost use Rattle.std.specs.Prelude.{◌+◌, ◌<◌, ◌≤◌, IsTrue};

use anyhow::{Result, bail};
use disk_model::{Disk, FileDisk, MemDisk, Pick};
use qsr_value::Failed;
use std::alloc::Global;

/// A disk that isn't honest: it keeps nothing, and a read gives a number that says which read it is, where it is made and how many
/// bytes it asks for.
#[derive(Clone, Copy)]
pub(crate) struct Liar {
    size: u64,
    reads: u64,
}

#[derive(Drop)]
pub(crate) enum Media {
    Memory(MemDisk),
    File(FileDisk),
    Liar(Liar),
}

/// The number, the place and the length of a read, as the thousands of one number.
fn told(number: u64, at: u64, len: u64) -> u64 {
    number
        .wrapping_mul(1_000_000)
        .wrapping_add(at.wrapping_mul(1_000))
        .wrapping_add(len)
}

/// Fills the front with a number, lowest byte first, and the rest with zeros.
fn fill(out: &mut [u8], number: u64) {
    let bytes = number.to_le_bytes();
    let front = out.len().min(bytes.len());
    out.fill(0);
    out[..front].copy_from_slice(&bytes[..front]);
}

impl Liar {
    fn read(&mut self, at: u64, out: &mut [u8]) -> Result<(), Failed> {
        self.reads = self.reads.saturating_add(1);
        fill(out, told(self.reads, at, out.len() as u64));
        Ok(())
    }
}

/// Whether a disk of this size has a page's bytes or fewer, and at least one, at a place.
fn is_within(size: u64, at: u64, len: usize) -> bool
    ensures some { IsTrue result → 0 < len }
    ensures page { IsTrue result → len ≤ 4096 }
    ensures within { IsTrue result → at + len ≤ size }
{
    let len = len as u64;
    if len == 0 || len > 4096 || size < len {
        return false;
    }
    at <= size - len
}

fn read_of<D: Disk>(disk: &mut D, at: u64, out: &mut [u8]) -> Result<(), Failed> {
    if !is_within(disk.size(), at, out.len()) {
        return Err(Failed);
    }
    disk.read(at, out)
}

fn write_to<D: Disk>(disk: &mut D, at: u64, bytes: &[u8]) -> Result<(), Failed> {
    if !is_within(disk.size(), at, bytes.len()) {
        return Err(Failed);
    }
    disk.write(at, bytes)
}

impl Media {
    pub(crate) fn liar(size: u64) -> Media {
        Media::Liar(Liar { size, reads: 0 })
    }

    pub(crate) fn size(&self) -> u64 {
        match self {
            Media::Memory(disk) => disk.size(),
            Media::File(disk) => disk.size(),
            Media::Liar(liar) => liar.size,
        }
    }

    pub(crate) fn read(&mut self, at: u64, out: &mut [u8]) -> Result<(), Failed> {
        match self {
            Media::Memory(disk) => read_of(disk, at, out),
            Media::File(disk) => read_of(disk, at, out),
            Media::Liar(liar) => liar.read(at, out),
        }
    }

    pub(crate) fn write(&mut self, at: u64, bytes: &[u8]) -> Result<(), Failed> {
        match self {
            Media::Memory(disk) => write_to(disk, at, bytes),
            Media::File(disk) => write_to(disk, at, bytes),
            Media::Liar(_) => Ok(()),
        }
    }

    pub(crate) fn sync(&mut self) -> Result<(), Failed> {
        match self {
            Media::Memory(disk) => disk.sync(),
            Media::File(disk) => disk.sync(),
            Media::Liar(_) => Ok(()),
        }
    }

    pub(crate) fn is_in_memory(&self) -> bool {
        matches!(self, Media::Memory(_))
    }

    /// What a crash after the first so many calls leaves of a disk in memory, at rest.
    pub(crate) fn left(&self, alloc: Global, calls: u64, pick: Pick) -> Result<Media> {
        let Media::Memory(disk) = self else {
            bail!("the disk isn't in memory");
        };
        let image = disk.image(alloc, calls, pick)?;
        Ok(Media::Memory(image))
    }
}
