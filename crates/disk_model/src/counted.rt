ghost use Rattle.std.specs.Prelude.{◌≡◌, ◌+◌, ◌^◌, ◌<◌, ◌↔◌, length, IsErr, OnOk};
ghost use Rattle.disk_model.specs.Image.{Holds, SameOutside};
ghost use Rattle.qsr_value.specs.Causes.{CountsFault, next_count};

use crate::positioned::{Positioned, fill_from, put_all_at};
use qsr_value::Failed;
use std::io;

/// A file, and counts of what was asked of it.
#[derive(Drop)]
pub(crate) struct CountedFile<F: Positioned + Drop> {
    pub(crate) file: F,
    pub(crate) faults: u64,
    pub(crate) reads: u64,
    pub(crate) writes: u64,
    pub(crate) syncs: u64,
}

impl<F: Positioned + Drop> CountedFile<F> {
    pub(crate) fn new(file: F) -> CountedFile<F>
        ensures { result ≡ record { file = file; faults = 0; reads = 0; writes = 0; syncs = 0 } }
    {
        CountedFile {
            file,
            faults: 0,
            reads: 0,
            writes: 0,
            syncs: 0,
        }
    }

    /// Counts a call that failed.
    fn counted(&mut self, outcome: io::Result<()>) -> Result<(), Failed>
        ensures told { IsErr result ↔ IsErr outcome }
        ensures cause { CountsFault result self.old.faults self.new.faults }
        ensures file { self.new.file ≡ self.old.file }
        ensures reads { self.new.reads ≡ self.old.reads }
        ensures writes { self.new.writes ≡ self.old.writes }
        ensures syncs { self.new.syncs ≡ self.old.syncs }
    {
        match outcome {
            Ok(()) => Ok(()),
            Err(_) => {
                self.faults = self.faults.saturating_add(1);
                Err(Failed)
            }
        }
    }

    /// Fills `out` with the bytes that stand at `at`.
    pub(crate) fn read(&mut self, at: u64, out: &mut [u8]) -> Result<(), Failed>
        requires { at + length out.old < 2 ^ 64 }
        ensures bytes { OnOk result (F.is_told self.old.file → Holds (F.contents self.old.file) at out.new) }
        ensures file { self.new.file ≡ self.old.file }
        ensures faults { CountsFault result self.old.faults self.new.faults }
        ensures reads { self.new.reads ≡ next_count self.old.reads }
        ensures writes { self.new.writes ≡ self.old.writes }
        ensures syncs { self.new.syncs ≡ self.old.syncs }
    {
        self.reads = self.reads.saturating_add(1);
        let outcome = fill_from(&self.file, at, out);
        self.counted(outcome)
    }

    /// Puts bytes at `at`.
    pub(crate) fn write(&mut self, at: u64, bytes: &[u8]) -> Result<(), Failed>
        requires { at + length bytes.now < 2 ^ 64 }
        ensures bytes { OnOk result (F.is_told self.old.file → Holds (F.contents self.new.file) at bytes.now) }
        ensures others { F.is_told self.old.file → SameOutside at (length bytes.now) (F.contents self.old.file) (F.contents self.new.file) }
        ensures told { F.is_told self.new.file ↔ F.is_told self.old.file }
        ensures unsynced { F.is_told self.old.file → F.syncs_asked self.new.file ≡ F.syncs_asked self.old.file }
        ensures faults { CountsFault result self.old.faults self.new.faults }
        ensures reads { self.new.reads ≡ self.old.reads }
        ensures writes { self.new.writes ≡ next_count self.old.writes }
        ensures syncs { self.new.syncs ≡ self.old.syncs }
    {
        self.writes = self.writes.saturating_add(1);
        let outcome = put_all_at(&mut self.file, at, bytes);
        self.counted(outcome)
    }

    /// Syncs the file once.
    pub(crate) fn sync(&mut self) -> Result<(), Failed>
        ensures bytes { F.is_told self.old.file → F.contents self.new.file ≡ F.contents self.old.file }
        ensures told { F.is_told self.new.file ↔ F.is_told self.old.file }
        ensures asked { F.is_told self.old.file → F.syncs_asked self.new.file ≡ next_count (F.syncs_asked self.old.file) }
        ensures faults { CountsFault result self.old.faults self.new.faults }
        ensures reads { self.new.reads ≡ self.old.reads }
        ensures writes { self.new.writes ≡ self.old.writes }
        ensures syncs { self.new.syncs ≡ next_count self.old.syncs }
    {
        self.syncs = self.syncs.saturating_add(1);
        let outcome = self.file.sync_data();
        self.counted(outcome)
    }
}
