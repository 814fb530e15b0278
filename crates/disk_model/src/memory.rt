ghost use Rattle.std.specs.Prelude.{◌≡◌, ◌⊎◌, ◌+◌, ◌-◌, ◌^◌, ◌<◌, ◌≤◌, ◌↔◌, length, replicate, slice_index, is_ok, if◌then◌else◌, IsErr, IfOk, OnOk, OnErr, Contains, []};
ghost use Rattle.disk_model.specs.Image.{Holds, SameOutside};
ghost use Rattle.disk_model.specs.View.{Stays, Steps, IsSynced};
ghost use Rattle.disk_model.specs.Replay.{Wrote, Synced, SyncFailed, picked, before};
ghost use Rattle.disk_model.specs.declared.history.Pick.TheVariants.{Old, New};
ghost use Rattle.disk_model.specs.MemDisk.{fresh, IsFull, recorded, SameSetup, replayed, view_of};
ghost use Rattle.qsr_value.specs.Causes.{CountsFault, next_count};

use crate::Disk;
use crate::history::{Pick, Record, What, image_of, overwrite, write_of};
use qsr_value::{Failed, ListOf, Memory};
use std::alloc::Global;
use std::marker::Model;

/// A disk in memory. It records its writes and syncs, as many as it has room for, so that `image` can make what a
/// crash after any of its calls leaves. It fails at the calls with given numbers, counted from 0 over reads,
/// writes and syncs together, and at each write or sync that finds no room. The memory for the records is taken at
/// the start, so that no call of the disk needs any.
#[derive(Drop)]
pub struct MemDisk {
    base: Vec<u8>,
    bytes: Vec<u8>,
    log: Vec<Record>,
    room: u32,
    failing: ListOf<u64>,
    calls: u64,
    faults: u64,
    reads: u64,
    writes: u64,
    syncs: u64,
}

impl Model for MemDisk {
    ghost use Rattle.std.specs.Prelude.{vec_capacity};
    ghost use Rattle.disk_model.specs.Replay.{events_of};
    ghost use Rattle.disk_model.specs.MemDisk.{DiskState, IsSound};

    ghost Value = { DiskState };

    ghost view = { λ d. record { base = d.base.items; log = events_of d.log.items; room = d.room; failing = d.failing; calls = d.calls; faults = d.faults; reads = d.reads; writes = d.writes; syncs = d.syncs } };

    ghost invariant = { λ d. IsSound d.base.items d.bytes.items d.log.items d.room (vec_capacity d.log) d.calls };
}

/// Copies the bytes that stand at a place.
fn copy_out(bytes: &[u8], at: usize, out: &mut [u8])
    requires { at + length out.old ≤ length bytes.now }
    ensures { Holds (slice_index bytes.now) at out.new }
{
    out.copy_from_slice(&bytes[at..at + out.len()]);
}

impl MemDisk {
    /// All zeros. No call with a number fails.
    pub fn new(alloc: Global, size: u64, room: u32) -> Result<MemDisk, Memory>
        ensures { IfOk result (λ disk. disk ≡ fresh (replicate size 0) room []) }
    {
        MemDisk::failing(alloc, size, room, &[])
    }

    /// All zeros. The calls with these numbers fail.
    pub fn failing(alloc: Global, size: u64, room: u32, calls: &[u64]) -> Result<MemDisk, Memory>
        ensures { IfOk result (λ disk. disk ≡ fresh (replicate size 0) room calls.now) }
    {
        let bytes = vec![in alloc; 0; size as usize]?;
        MemDisk::holding(alloc, bytes, room, ListOf::from_slice(alloc, calls)?)
    }

    fn holding(
        alloc: Global,
        bytes: Vec<u8>,
        room: u32,
        failing: ListOf<u64>,
    ) -> Result<MemDisk, Memory>
        ensures { IfOk result (λ disk. disk ≡ fresh bytes.items room failing) }
    {
        Ok(MemDisk {
            base: Vec::from_slice(alloc, &bytes)?,
            bytes,
            log: Vec::with_capacity(alloc, room as usize)?,
            room,
            failing,
            calls: 0,
            faults: 0,
            reads: 0,
            writes: 0,
            syncs: 0,
        })
    }

    /// What a crash after the first so many calls leaves, at rest: what was written since the last sync among them is
    /// as the pick has it. Where all was synced, the old bytes and the new ones are what reads give.
    pub fn image(&self, alloc: Global, calls: u64, pick: Pick) -> Result<MemDisk, Memory>
        ensures exact { IfOk result (λ disk. (view_of disk).seen ≡ picked pick (replayed self.now.base (before calls self.now.log))) }
        ensures possible { IfOk result (λ disk. (view_of self.now).since 0 (view_of disk).seen) }
        ensures synced { IfOk result (λ disk. IsSynced (view_of disk)) }

        ensures size { IfOk result (λ disk. length disk.base ≡ length self.now.base) }
        ensures rested { IfOk result (λ disk. disk ≡ fresh disk.base self.now.room []) }

        ensures whole { OnOk result (self.now.calls ≤ calls → self.now.calls < 2 ^ 64 - 1 → before calls self.now.log ≡ self.now.log) }
        ensures same { IfOk result (λ disk. before calls self.now.log ≡ self.now.log → IsSynced (view_of self.now) → (pick ≡ Old) ⊎ (pick ≡ New) → (view_of disk).seen ≡ (view_of self.now).seen) }
    {
        let bytes = image_of(alloc, &self.base, &self.log, calls, pick)?;
        let disk = MemDisk::holding(alloc, bytes, self.room, ListOf::new(alloc))?;
        Ok(disk)
    }

    /// What reads give.
    pub fn bytes(&self) -> &[u8]
        ensures size { length result.now ≡ length self.now.base }
        ensures seen { slice_index result.now ≡ (view_of self.now).seen }
    {
        &self.bytes
    }
}

impl Disk for MemDisk {
    ghost use Rattle.std.specs.Prelude.{length};
    ghost use Rattle.disk_model.specs.MemDisk.{view_of};

    ghost size_of = { λ d. length d.base };

    ghost faults_of = { λ d. d.faults };

    ghost reads_of = { λ d. d.reads };

    ghost writes_of = { λ d. d.writes };

    ghost syncs_of = { λ d. d.syncs };

    ghost view = { view_of };

    fn size(&self) -> u64 {
        self.bytes.len() as u64
    }

    fn faults(&self) -> u64 {
        self.faults
    }

    fn reads(&self) -> u64 {
        self.reads
    }

    fn writes(&self) -> u64 {
        self.writes
    }

    /// A read that fails leaves `out` as it was.
    fn read(&mut self, at: u64, out: &mut [u8]) -> Result<(), Failed>
        requires some { 0 < length out.old }
        requires page { length out.old ≤ 4096 }
        requires within { at + length out.old ≤ length self.old.base }

        ensures bytes { OnOk result ((view_of self.old).honest → Holds (view_of self.old).seen at out.new) }
        ensures stays { Stays (view_of self.old) (view_of self.new) }

        ensures size { length self.new.base ≡ length self.old.base }
        ensures faults { CountsFault result self.old.faults self.new.faults }
        ensures reads { self.new.reads ≡ next_count self.old.reads }
        ensures writes { self.new.writes ≡ self.old.writes }
        ensures syncs { self.new.syncs ≡ self.old.syncs }

        ensures fails { IsErr result ↔ Contains self.old.failing self.old.calls }
        ensures unread { OnErr result (out.new ≡ out.old) }
        ensures calls { self.new.calls ≡ next_count self.old.calls }
        ensures log { self.new.log ≡ self.old.log }
        ensures setup { SameSetup self.old self.new }
    {
        let number = self.calls;
        self.calls = self.calls.saturating_add(1);
        self.reads = self.reads.saturating_add(1);
        if self.failing.as_slice().contains(&number) {
            self.faults = self.faults.saturating_add(1);
            return Err(Failed);
        }
        copy_out(&self.bytes, at as usize, out);
        Ok(())
    }

    /// Beyond the room it changes no byte. A write that fails at its number is recorded, and reads give its bytes.
    fn write(&mut self, at: u64, bytes: &[u8]) -> Result<(), Failed>
        requires some { 0 < length bytes.now }
        requires page { length bytes.now ≤ 4096 }
        requires within { at + length bytes.now ≤ length self.old.base }

        ensures bytes { OnOk result ((view_of self.old).honest → Holds (view_of self.new).seen at bytes.now) }
        ensures steps { Steps (SameOutside at (length bytes.now)) (view_of self.old) (view_of self.new) }

        ensures size { length self.new.base ≡ length self.old.base }
        ensures faults { CountsFault result self.old.faults self.new.faults }
        ensures reads { self.new.reads ≡ self.old.reads }
        ensures writes { self.new.writes ≡ next_count self.old.writes }
        ensures syncs { self.new.syncs ≡ self.old.syncs }

        ensures fails { IsErr result ↔ (Contains self.old.failing self.old.calls ⊎ IsFull self.old) }
        ensures calls { self.new.calls ≡ next_count self.old.calls }
        ensures log { self.new.log ≡ recorded self.old (Wrote at bytes.now) }
        ensures setup { SameSetup self.old self.new }
    {
        let number = self.calls;
        self.calls = self.calls.saturating_add(1);
        self.writes = self.writes.saturating_add(1);
        if self.log.len() >= self.room as usize {
            self.faults = self.faults.saturating_add(1);
            return Err(Failed);
        }
        overwrite(&mut self.bytes, at as usize, bytes);
        self.log.push_reserved(write_of(number, at as usize, bytes));
        if self.failing.as_slice().contains(&number) {
            self.faults = self.faults.saturating_add(1);
            return Err(Failed);
        }
        Ok(())
    }

    /// Beyond the room, and where it fails at its number, it syncs nothing.
    fn sync(&mut self) -> Result<(), Failed>
        ensures synced { OnOk result (IsSynced (view_of self.new)) }
        ensures stays { Stays (view_of self.old) (view_of self.new) }

        ensures size { length self.new.base ≡ length self.old.base }
        ensures faults { CountsFault result self.old.faults self.new.faults }
        ensures reads { self.new.reads ≡ self.old.reads }
        ensures writes { self.new.writes ≡ self.old.writes }
        ensures syncs { self.new.syncs ≡ next_count self.old.syncs }

        ensures fails { IsErr result ↔ (Contains self.old.failing self.old.calls ⊎ IsFull self.old) }
        ensures calls { self.new.calls ≡ next_count self.old.calls }
        ensures log { self.new.log ≡ recorded self.old (if is_ok result then Synced else SyncFailed) }
        ensures setup { SameSetup self.old self.new }
    {
        let number = self.calls;
        self.calls = self.calls.saturating_add(1);
        self.syncs = self.syncs.saturating_add(1);
        if self.log.len() >= self.room as usize {
            self.faults = self.faults.saturating_add(1);
            return Err(Failed);
        }
        if self.failing.as_slice().contains(&number) {
            self.log.push_reserved(Record {
                number,
                what: What::FailedSync,
            });
            self.faults = self.faults.saturating_add(1);
            return Err(Failed);
        }
        self.log.push_reserved(Record {
            number,
            what: What::Sync,
        });
        Ok(())
    }
}
