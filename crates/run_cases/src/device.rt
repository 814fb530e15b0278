//! The disk that a run is made over.
ghost use Rattle.std.specs.Prelude.{◌≡◌, ◌↔◌, IsErr};
ghost use Rattle.qsr_value.specs.Causes.{CountsFault};

use crate::media::Media;
use anyhow::Result;
use case_kit::ALL_CALLS;
use disk_model::{Disk, Pick};
use qsr_value::{Failed, Memory};
use std::alloc::Global;

/// A disk that counts the calls of one run, and fails at those with given numbers, counted from 0. A write that is to fail is handed on,
/// so that its bytes may be there after a crash; a read or a sync isn't.
#[derive(Drop)]
pub(crate) struct Device {
    media: Media,
    size: u64,
    failing: Vec<u64>,
    faults: u64,
    reads: u64,
    writes: u64,
    syncs: u64,
}

impl Device {
    /// A disk of which no call fails.
    pub(crate) fn new(alloc: Global, media: Media) -> Device {
        Device {
            size: media.size(),
            media,
            failing: Vec::new(alloc),
            faults: 0,
            reads: 0,
            writes: 0,
            syncs: 0,
        }
    }

    /// How many calls were made in this run.
    pub(crate) fn calls(&self) -> u64 {
        self.reads
            .saturating_add(self.writes)
            .saturating_add(self.syncs)
    }

    /// Whether the next call is to fail.
    fn fails(&self) -> bool {
        self.failing.as_slice().contains(&self.calls())
    }

    /// Counts a call that failed.
    fn counted(&mut self, outcome: Result<(), Failed>) -> Result<(), Failed>
        ensures told { IsErr result ↔ IsErr outcome }
        ensures cause { CountsFault result self.old.faults self.new.faults }
        ensures size { self.new.size ≡ self.old.size }
        ensures reads { self.new.reads ≡ self.old.reads }
        ensures writes { self.new.writes ≡ self.old.writes }
        ensures syncs { self.new.syncs ≡ self.old.syncs }
    {
        match outcome {
            Ok(()) => Ok(()),
            Err(Failed) => {
                self.faults = self.faults.saturating_add(1);
                Err(Failed)
            }
        }
    }

    /// What a crash after the first so many calls leaves, at rest, as a disk that no run was made over.
    pub(crate) fn left(&self, alloc: Global, calls: u64, pick: Pick) -> Result<Device> {
        let media = self.media.left(alloc, calls, pick)?;
        Ok(Device::new(alloc, media))
    }

    /// All that reads give is at rest, where the disk is in memory.
    fn rest(&mut self, alloc: Global) -> Result<()> {
        if self.media.is_in_memory() {
            self.media = self.media.left(alloc, ALL_CALLS, Pick::New)?;
        }
        Ok(())
    }

    fn forget_calls(&mut self) {
        self.faults = 0;
        self.reads = 0;
        self.writes = 0;
        self.syncs = 0;
    }

    /// Begins a run, in which the calls with these numbers fail.
    pub(crate) fn begin(&mut self, alloc: Global, failing: &[u64]) -> Result<()> {
        if self.calls() > 0 {
            self.rest(alloc)?;
        }
        self.forget_calls();
        self.failing = Vec::from_slice(alloc, failing)?;
        Ok(())
    }

    /// Puts bytes on the disk at rest.
    pub(crate) fn put(&mut self, alloc: Global, at: u64, bytes: &[u8]) -> Result<()> {
        self.media.write(at, bytes)?;
        self.rest(alloc)
    }

    /// Reads bytes, which counts as no call of the run.
    pub(crate) fn bytes(&mut self, alloc: Global, at: u64, len: usize) -> Result<Vec<u8>> {
        let mut bytes = vec![in alloc; 0; len]?;
        self.media.read(at, &mut bytes)?;
        Ok(bytes)
    }
}

impl Disk for Device {
    ghost use Rattle.disk_model.specs.View.{untold};

    ghost size_of = { λ disk. disk.size };

    ghost faults_of = { λ disk. disk.faults };

    ghost reads_of = { λ disk. disk.reads };

    ghost writes_of = { λ disk. disk.writes };

    ghost syncs_of = { λ disk. disk.syncs };

    ghost view = { λ _. untold (λ _. 0) };

    fn size(&self) -> u64 {
        self.size
    }

    fn faults(&self) -> u64 {
        self.faults
    }

    fn reads(&self) -> u64 {
        self.reads
    }

    fn writes(&self) -> u64 {
        self.writes
    }

    fn read(&mut self, at: u64, out: &mut [u8]) -> Result<(), Failed> {
        let fails = self.fails();
        self.reads = self.reads.saturating_add(1);
        let outcome = if fails {
            Err(Failed)
        } else {
            self.media.read(at, out)
        };
        self.counted(outcome)
    }

    fn write(&mut self, at: u64, bytes: &[u8]) -> Result<(), Failed> {
        let fails = self.fails();
        self.writes = self.writes.saturating_add(1);
        let outcome = self.media.write(at, bytes);
        self.counted(if fails { Err(Failed) } else { outcome })
    }

    fn sync(&mut self) -> Result<(), Failed> {
        let fails = self.fails();
        self.syncs = self.syncs.saturating_add(1);
        let outcome = if fails {
            Err(Failed)
        } else {
            self.media.sync()
        };
        self.counted(outcome)
    }
}
