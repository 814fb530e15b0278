// How an empty store is written: a crash at any moment leaves what stood there, no store, or the empty one.

ghost use Rattle.std.specs.Prelude.{◌≡◌, ◌⊎◌, ◌+◌, ◌*◌, ◌<◌, ◌≤◌, ℕ, length, sum, IfOk, IfErr, OnOk, MatchResult};
ghost use Rattle.disk_model.specs.Image.{Holds};
ghost use Rattle.disk_model.specs.View.{EachImage, IsSynced, LeavesOnly, Stays, Steps};
ghost use Rattle.qsr_value.specs.Causes.{CountsFault, count_after, next_count};
ghost use Rattle.page_store.specs.Format.{CausedBy, IsFormatFault, IsNew, IsNewJob, IsNewTwin, IsOldNoneOrNew, IsWritten, SameBelow, WritesByGate, head_rest};
ghost use Rattle.page_store.specs.Opening.{IsEmptyStore};
ghost use Rattle.page_store.specs.PageOrder.{AreSizes, parts};
ghost use Rattle.page_store.specs.Store.{contents_of};

use crate::gates::{shut, unlock};
use crate::pages::job_page;
use crate::records::{CLOSED, OPEN, PAGE, STORE_HEAD_BYTES, head_page, slot_page};
use crate::{Sizes, StoreFault, layout_pages};
use disk_model::Disk;
use qsr_layout::records::{JOB_HEAD_BYTES, SLOT_BODY_AT};
use qsr_value::Failed;

/// The pages at which the slots of the catalogue begin.
const CATALOGUE: [u32; 2] = [1, 3];

/// A catalogue with no tables and no indexes.
const EMPTY_CATALOGUE: [u8; 2] = [0; 2];

/// The head of a job that is free.
const FREE_HEAD: [u8; 22] = [0; 22];

const _: () = prove!(FREE_HEAD.len() == JOB_HEAD_BYTES);

/// Writes an empty store, and answers how many pages it has. It takes no memory.
pub fn format<D: Disk>(disk: &mut D, sizes: Sizes) -> Result<u32, StoreFault>
    requires { AreSizes sizes }

    // A crash at any moment of the call leaves what could be left before it, no store, or the empty one, also where
    // it fails.
    ensures any_moment { LeavesOnly (D.view disk.old) (D.view disk.new) (IsOldNoneOrNew (D.view disk.old) sizes) }
    ensures formatted { IfOk result (λ pages. EachImage (D.view disk.new) (IsNew sizes)) }
    ensures empty { IfOk result (λ pages. EachImage (D.view disk.new) (λ c. IsEmptyStore (D.size_of disk.old) sizes (contents_of sizes c))) }
    ensures pages { IfOk result (λ pages. pages ≡ sum (parts sizes)) }

    // It answers that the disk is too small exactly where it is, and then has made no call.
    ensures fits { IfOk result (λ pages. 4096 * sum (parts sizes) ≤ D.size_of disk.old) }
    ensures fault { IfErr result (IsFormatFault (4096 * sum (parts sizes)) (D.size_of disk.old)) }
    ensures untouched { D.size_of disk.old < 4096 * sum (parts sizes) → disk.new ≡ disk.old }
    ensures faults { MatchResult result (λ pages. D.faults_of disk.new ≡ D.faults_of disk.old)
        (λ fault. CausedBy fault (D.faults_of disk.old) (D.faults_of disk.new)) }

    // Where it answers it has made one read, 20 writes, or 21 where a store's gate was open, and four syncs.
    ensures reads { IfOk result (λ pages. D.reads_of disk.new ≡ next_count (D.reads_of disk.old)) }
    ensures writes { IfOk result (λ pages. WritesByGate 20 (D.view disk.old) (D.writes_of disk.old) (D.writes_of disk.new)) }
    ensures syncs { IfOk result (λ pages. D.syncs_of disk.new ≡ count_after 4 (D.syncs_of disk.old)) }
    ensures size { D.size_of disk.new ≡ D.size_of disk.old }
{
    let pages = layout_pages(&sizes);
    let need = PAGE * pages as u64;
    let have = disk.size();
    if have < need {
        return Err(StoreFault::TooSmall { need, have });
    }
    match write_store(disk, &sizes) {
        Ok(()) => Ok(pages),
        Err(Failed) => Err(StoreFault::Failed),
    }
}

/// Writes an empty store on a disk that has room for it.
fn write_store<D: Disk>(disk: &mut D, sizes: &Sizes) -> Result<(), Failed>
    requires sizes { AreSizes sizes.now }
    requires fits { 4096 * sum (parts sizes.now) ≤ D.size_of disk.old }
    ensures any_moment { LeavesOnly (D.view disk.old) (D.view disk.new) (IsOldNoneOrNew (D.view disk.old) sizes.now) }
    ensures formatted { OnOk result (EachImage (D.view disk.new) (IsNew sizes.now)) }
    ensures faults { CountsFault result (D.faults_of disk.old) (D.faults_of disk.new) }
    ensures reads { OnOk result (D.reads_of disk.new ≡ next_count (D.reads_of disk.old)) }
    ensures writes { OnOk result (WritesByGate 20 (D.view disk.old) (D.writes_of disk.old) (D.writes_of disk.new)) }
    ensures syncs { OnOk result (D.syncs_of disk.new ≡ count_after 4 (D.syncs_of disk.old)) }
    ensures size { D.size_of disk.new ≡ D.size_of disk.old }
{
    let gate = read_gate(disk)?;
    shut(disk, 0, gate)?;
    write_parts(disk, sizes)?;
    disk.sync()?; // all parts stand before the gate is open
    unlock(disk, 0)
}

/// Syncs, so that a crash leaves the gate that it then reads.
fn read_gate<D: Disk>(disk: &mut D) -> Result<u8, Failed>
    requires { 1 ≤ D.size_of disk.old }
    ensures gate { IfOk result (λ gate. (D.view disk.old).honest → (D.view disk.old).seen 0 ≡ gate) }
    ensures synced { OnOk result (IsSynced (D.view disk.new)) }
    ensures stays { Stays (D.view disk.old) (D.view disk.new) }
    ensures faults { CountsFault result (D.faults_of disk.old) (D.faults_of disk.new) }
    ensures reads { OnOk result (D.reads_of disk.new ≡ next_count (D.reads_of disk.old)) }
    ensures writes { D.writes_of disk.new ≡ D.writes_of disk.old }
    ensures syncs { D.syncs_of disk.new ≡ next_count (D.syncs_of disk.old) }
    ensures size { D.size_of disk.new ≡ D.size_of disk.old }
{
    disk.sync()?; // a crash leaves the byte that is read now
    let mut gate = [0; 1];
    disk.read(0, &mut gate)?;
    Ok(gate[0])
}

/// Writes all of an empty store but the gate of its head.
fn write_parts<D: Disk>(disk: &mut D, sizes: &Sizes) -> Result<(), Failed>
    requires sizes { AreSizes sizes.now }
    requires fits { 4096 * sum (parts sizes.now) ≤ D.size_of disk.old }
    ensures written { OnOk result ((D.view disk.old).honest → IsWritten sizes.now (D.view disk.new).seen) }
    ensures steps { Steps (SameBelow 1) (D.view disk.old) (D.view disk.new) }
    ensures faults { CountsFault result (D.faults_of disk.old) (D.faults_of disk.new) }
    ensures reads { D.reads_of disk.new ≡ D.reads_of disk.old }
    ensures writes { OnOk result (D.writes_of disk.new ≡ count_after 19 (D.writes_of disk.old)) }
    ensures syncs { D.syncs_of disk.new ≡ D.syncs_of disk.old }
    ensures size { D.size_of disk.new ≡ D.size_of disk.old }
{
    write_head(disk, sizes)?;
    write_twin(disk, CATALOGUE[0], CATALOGUE[1], &EMPTY_CATALOGUE)?;
    write_jobs(disk, sizes)
}

/// Writes the store head behind its gate.
fn write_head<D: Disk>(disk: &mut D, sizes: &Sizes) -> Result<(), Failed>
    requires sizes { AreSizes sizes.now }
    requires fits { 4096 ≤ D.size_of disk.old }
    ensures head { OnOk result ((D.view disk.old).honest → Holds (D.view disk.new).seen 1 (head_rest sizes.now)) }
    ensures steps { Steps (SameBelow 1) (D.view disk.old) (D.view disk.new) }
    ensures faults { CountsFault result (D.faults_of disk.old) (D.faults_of disk.new) }
    ensures reads { D.reads_of disk.new ≡ D.reads_of disk.old }
    ensures writes { D.writes_of disk.new ≡ next_count (D.writes_of disk.old) }
    ensures syncs { D.syncs_of disk.new ≡ D.syncs_of disk.old }
    ensures size { D.size_of disk.new ≡ D.size_of disk.old }
{
    let page = head_page(sizes);
    disk.write(1, &page[1..STORE_HEAD_BYTES])
}

/// Writes the first slot of a twin with its gate open, and closes the second.
fn write_twin<D: Disk>(disk: &mut D, first: u32, second: u32, body: &[u8]) -> Result<(), Failed>
    requires order { first < second }
    requires within { 4096 * (second + 1) ≤ D.size_of disk.old }
    requires long { length body.now ≤ 4088 }
    ensures twin { OnOk result ((D.view disk.old).honest → IsNewTwin (D.view disk.new).seen first second body.now) }
    ensures steps { Steps (SameBelow (4096 * first)) (D.view disk.old) (D.view disk.new) }
    ensures faults { CountsFault result (D.faults_of disk.old) (D.faults_of disk.new) }
    ensures reads { D.reads_of disk.new ≡ D.reads_of disk.old }
    ensures writes { OnOk result (D.writes_of disk.new ≡ count_after 2 (D.writes_of disk.old)) }
    ensures syncs { D.syncs_of disk.new ≡ D.syncs_of disk.old }
    ensures size { D.size_of disk.new ≡ D.size_of disk.old }
{
    let page = slot_page(OPEN, 0, body.len() as u32, body);
    disk.write(PAGE * first as u64, &page[..SLOT_BODY_AT + body.len()])?;
    disk.write(PAGE * second as u64, &[CLOSED])
}

/// Writes the twins of the jobs, each with the head of a job that is free.
fn write_jobs<D: Disk>(disk: &mut D, sizes: &Sizes) -> Result<(), Failed>
    requires sizes { AreSizes sizes.now }
    requires fits { 4096 * sum (parts sizes.now) ≤ D.size_of disk.old }
    ensures twins { OnOk result ((D.view disk.old).honest → (job : ℕ) → job < 8 → IsNewJob sizes.now (D.view disk.new).seen job) }
    ensures steps { Steps (SameBelow (4096 * 5)) (D.view disk.old) (D.view disk.new) }
    ensures faults { CountsFault result (D.faults_of disk.old) (D.faults_of disk.new) }
    ensures reads { D.reads_of disk.new ≡ D.reads_of disk.old }
    ensures writes { OnOk result (D.writes_of disk.new ≡ count_after 16 (D.writes_of disk.old)) }
    ensures syncs { D.syncs_of disk.new ≡ D.syncs_of disk.old }
    ensures size { D.size_of disk.new ≡ D.size_of disk.old }
{
    for job in 0..8 {
        let page = job_page(sizes, job);
        write_twin(disk, page, page + 1, &FREE_HEAD)?;
    }
    Ok(())
}
