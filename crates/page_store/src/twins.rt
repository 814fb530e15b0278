// Twins: how the body of one is replaced, so that a crash at any moment leaves the old or the new one.

ghost use Rattle.std.specs.Prelude.{◌==◌, if◌then◌else◌, ◌≡◌, ◌≢◌, ◌⊎◌, ◌+◌, ◌*◌, ◌^◌, ◌<◌, ◌≤◌, length, take, drop, option_map, is_some, MatchOption, ⊤, OnOk, IfOk};
ghost use Rattle.disk_model.specs.Image.{Holds, SameOutside};
ghost use Rattle.disk_model.specs.View.{EachImage, IsSynced, LeavesOnly, Stays, Steps};
ghost use Rattle.qsr_value.specs.Causes.{CountsAtMost, CountsFault, count_after, next_count};
ghost use Rattle.page_store.specs.Format.{behind_gate};
ghost use Rattle.page_store.specs.Store.{HasCommitWrites, body_reads, slot_pages};
ghost use Rattle.page_store.specs.Twin.{IsClosedOrHolds, IsCommitted, IsOldOrNew, IsTwinReady, KeepsOutside, twin_body};

use crate::gates::{shut, unlock};
use crate::records::{CLOSED, FRONT_BYTES, OPEN, PAGE, slot_page};
use crate::slots::{Found, Stale, read_heads};
use disk_model::Disk;
use qsr_layout::records::SLOT_BODY_AT;
use qsr_value::{Failed, PAGE_BYTES};

/// Writes what stands in the first page of a slot behind its gate.
fn write_front<D: Disk>(disk: &mut D, stale: &Stale, len: u32, front: &[u8]) -> Result<(), Failed>
    requires long { length front.now ≤ 4088 }
    requires within { stale.now.slot + 8 + length front.now ≤ D.size_of disk.old }
    requires fits { stale.now.slot + 8 < 2 ^ 64 }
    ensures bytes { OnOk result ((D.view disk.old).honest → Holds (D.view disk.new).seen (stale.now.slot + 1) (behind_gate stale.now.sequence len front.now)) }
    ensures steps { Steps (SameOutside (stale.now.slot + 1) (7 + length front.now)) (D.view disk.old) (D.view disk.new) }
    ensures faults { CountsFault result (D.faults_of disk.old) (D.faults_of disk.new) }
    ensures reads { D.reads_of disk.new ≡ D.reads_of disk.old }
    ensures writes { D.writes_of disk.new ≡ next_count (D.writes_of disk.old) }
    ensures syncs { D.syncs_of disk.new ≡ D.syncs_of disk.old }
    ensures size { D.size_of disk.new ≡ D.size_of disk.old }
{
    let page = slot_page(CLOSED, stale.sequence, len, front);
    disk.write(stale.slot + 1, &page[1..SLOT_BODY_AT + front.len()])
}

/// Writes all of a slot behind its gate.
fn write_behind<D: Disk>(disk: &mut D, stale: &Stale, body: &[u8]) -> Result<(), Failed>
    requires long { length body.now ≤ 8184 }
    requires within { stale.now.slot + 8 + length body.now ≤ D.size_of disk.old }
    requires fits { stale.now.slot + 8 + length body.now < 2 ^ 64 }
    ensures bytes { OnOk result ((D.view disk.old).honest → Holds (D.view disk.new).seen (stale.now.slot + 1) (behind_gate stale.now.sequence (length body.now) body.now)) }
    ensures steps { Steps (SameOutside (stale.now.slot + 1) (7 + length body.now)) (D.view disk.old) (D.view disk.new) }
    ensures faults { CountsFault result (D.faults_of disk.old) (D.faults_of disk.new) }
    ensures reads { D.reads_of disk.new ≡ D.reads_of disk.old }
    ensures writes { OnOk result (D.writes_of disk.new ≡ count_after (slot_pages (length body.now)) (D.writes_of disk.old)) }
    ensures writes_most { CountsAtMost (slot_pages (length body.now)) (D.writes_of disk.old) (D.writes_of disk.new) }
    ensures syncs { D.syncs_of disk.new ≡ D.syncs_of disk.old }
    ensures size { D.size_of disk.new ≡ D.size_of disk.old }
{
    let len = body.len() as u32;
    let front = body.len().min(FRONT_BYTES);
    write_front(disk, stale, len, &body[..front])?;
    if front == body.len() {
        return Ok(());
    }
    disk.write(stale.slot + PAGE, &body[front..])
}

/// Replaces a slot: its gate is closed, its body is written, its gate is opened, each of them synced.
fn replace<D: Disk>(disk: &mut D, stale: &Stale, body: &[u8]) -> Result<(), Failed>
    requires long { length body.now ≤ 8184 }
    requires within { stale.now.slot + 8 + length body.now ≤ D.size_of disk.old }
    requires fits { stale.now.slot + 8 + length body.now < 2 ^ 64 }
    ensures any_moment { EachImage (D.view disk.old) (λ c. c stale.now.slot ≡ stale.now.gate)
        → LeavesOnly (D.view disk.old) (D.view disk.new)
        (λ c. (D.view disk.old).now c ⊎ IsClosedOrHolds stale.now.slot (behind_gate stale.now.sequence (length body.now) body.now) c) }
    ensures opened { OnOk result (EachImage (D.view disk.new) (λ c. c stale.now.slot ≡ OPEN)) }
    ensures replaced { OnOk result (EachImage (D.view disk.new) (λ c. Holds c (stale.now.slot + 1) (behind_gate stale.now.sequence (length body.now) body.now))) }
    ensures keeps { KeepsOutside stale.now.slot (8 + length body.now) (D.view disk.old) (D.view disk.new) }
    ensures synced { OnOk result (IsSynced (D.view disk.new)) }
    ensures faults { CountsFault result (D.faults_of disk.old) (D.faults_of disk.new) }
    ensures reads { D.reads_of disk.new ≡ D.reads_of disk.old }
    ensures writes { OnOk result (D.writes_of disk.new ≡ count_after (slot_pages (length body.now) + (if stale.now.gate == OPEN then 2 else 1)) (D.writes_of disk.old)) }
    ensures writes_most { CountsAtMost (slot_pages (length body.now) + 2) (D.writes_of disk.old) (D.writes_of disk.new) }
    ensures syncs { OnOk result (D.syncs_of disk.new ≡ count_after 3 (D.syncs_of disk.old)) }
    ensures size { D.size_of disk.new ≡ D.size_of disk.old }
{
    shut(disk, stale.slot, stale.gate)?;
    write_behind(disk, stale, body)?;
    disk.sync()?; // the body stands before the gate is open
    unlock(disk, stale.slot)
}

/// Replaces the body of a twin at this offset whose slots have so many bytes. It takes no memory.
pub(crate) fn commit_at<D: Disk>(
    disk: &mut D,
    at: u64,
    span: u64,
    body: &[u8],
) -> Result<(), Failed>
    requires page { 4096 ≤ span }
    requires pages { span ≤ 8192 }
    requires long { length body.now + 8 ≤ span }
    requires within { at + 2 * span ≤ D.size_of disk.old }
    requires fits { at + 2 * span < 2 ^ 64 }
    ensures any_moment { IsTwinReady span at (D.view disk.old)
        → LeavesOnly (D.view disk.old) (D.view disk.new) (IsOldOrNew span at body.now (D.view disk.old)) }
    ensures committed { OnOk result (IsTwinReady span at (D.view disk.old)
        → EachImage (D.view disk.new) (IsCommitted span at body.now (D.view disk.old))) }
    ensures synced { OnOk result (IsSynced (D.view disk.new)) }
    ensures keeps { KeepsOutside at (2 * span) (D.view disk.old) (D.view disk.new) }
    ensures faults { CountsFault result (D.faults_of disk.old) (D.faults_of disk.new) }
    ensures reads { OnOk result (D.reads_of disk.new ≡ count_after 2 (D.reads_of disk.old)) }
    ensures writes { OnOk result (HasCommitWrites (length body.now) (D.writes_of disk.old) (D.writes_of disk.new)) }
    ensures writes_most { CountsAtMost (slot_pages (length body.now) + 2) (D.writes_of disk.old) (D.writes_of disk.new) }
    ensures syncs { OnOk result (D.syncs_of disk.new ≡ count_after 3 (D.syncs_of disk.old)) }
    ensures size { D.size_of disk.new ≡ D.size_of disk.old }
{
    let heads = read_heads(disk, at, span)?;
    let stale = heads.stale(at, span);
    replace(disk, &stale, body)
}

/// Reads the bytes at this offset into the front of a buffer, a page at most by each call of the disk.
fn read_body<D: Disk>(disk: &mut D, found: &Found, buf: &mut [u8; 8192]) -> Result<(), Failed>
    requires long { found.now.len ≤ 8184 }
    requires within { found.now.at + found.now.len ≤ D.size_of disk.old }
    requires fits { found.now.at + found.now.len < 2 ^ 64 }
    ensures bytes { OnOk result ((D.view disk.old).honest → Holds (D.view disk.old).seen found.now.at (take found.now.len buf.new)) }
    ensures rest { OnOk result (drop found.now.len buf.new ≡ drop found.now.len buf.old) }
    ensures stays { Stays (D.view disk.old) (D.view disk.new) }
    ensures faults { CountsFault result (D.faults_of disk.old) (D.faults_of disk.new) }
    ensures reads { OnOk result (D.reads_of disk.new ≡ count_after (body_reads found.now.len) (D.reads_of disk.old)) }
    ensures writes { D.writes_of disk.new ≡ D.writes_of disk.old }
    ensures syncs { D.syncs_of disk.new ≡ D.syncs_of disk.old }
    ensures size { D.size_of disk.new ≡ D.size_of disk.old }
{
    let len = found.len as usize;
    let front = len.min(PAGE_BYTES);
    if front == 0 {
        return Ok(());
    }
    disk.read(found.at, &mut buf[..front])?;
    if front == len {
        return Ok(());
    }
    disk.read(found.at + PAGE, &mut buf[front..len])
}

/// Reads the body of a twin at this offset whose slots have so many bytes, and answers how many bytes it has, or nothing
/// where no slot is current.
pub(crate) fn current_at<D: Disk>(
    disk: &mut D,
    at: u64,
    span: u64,
    buf: &mut [u8; 8192],
) -> Result<Option<usize>, Failed>
    requires page { 4096 ≤ span }
    requires pages { span ≤ 8192 }
    requires within { at + 2 * span ≤ D.size_of disk.old }
    requires fits { at + 2 * span < 2 ^ 64 }
    ensures body { IfOk result (λ n. (D.view disk.old).honest → option_map (λ k. take k buf.new) n ≡ twin_body span at (D.view disk.old).seen) }
    ensures within { IfOk result (λ n. MatchOption n ⊤ (λ k. k + 8 ≤ span)) }
    ensures rest { IfOk result (λ n. MatchOption n (buf.new ≡ buf.old) (λ k. drop k buf.new ≡ drop k buf.old)) }
    ensures stays { Stays (D.view disk.old) (D.view disk.new) }
    ensures faults { CountsFault result (D.faults_of disk.old) (D.faults_of disk.new) }
    ensures reads { IfOk result (λ n. MatchOption n (D.reads_of disk.new ≡ count_after 2 (D.reads_of disk.old))
        (λ k. D.reads_of disk.new ≡ count_after (2 + body_reads k) (D.reads_of disk.old))) }
    ensures writes { D.writes_of disk.new ≡ D.writes_of disk.old }
    ensures syncs { D.syncs_of disk.new ≡ D.syncs_of disk.old }
    ensures size { D.size_of disk.new ≡ D.size_of disk.old }
{
    let heads = read_heads(disk, at, span)?;
    let Some(found) = heads.found(at, span) else {
        return Ok(None);
    };
    read_body(disk, &found, buf)?;
    Ok(Some(found.len as usize))
}

/// Whether a twin at this offset whose slots have so many bytes has a current slot.
pub(crate) fn has_current<D: Disk>(disk: &mut D, at: u64, span: u64) -> Result<bool, Failed>
    requires page { 4096 ≤ span }
    requires pages { span ≤ 8192 }
    requires within { at + 2 * span ≤ D.size_of disk.old }
    requires fits { at + 2 * span < 2 ^ 64 }
    ensures current { IfOk result (λ is. (D.view disk.old).honest → is ≡ is_some (twin_body span at (D.view disk.old).seen)) }
    ensures stays { Stays (D.view disk.old) (D.view disk.new) }
    ensures faults { CountsFault result (D.faults_of disk.old) (D.faults_of disk.new) }
    ensures reads { OnOk result (D.reads_of disk.new ≡ count_after 2 (D.reads_of disk.old)) }
    ensures writes { D.writes_of disk.new ≡ D.writes_of disk.old }
    ensures syncs { D.syncs_of disk.new ≡ D.syncs_of disk.old }
    ensures size { D.size_of disk.new ≡ D.size_of disk.old }
{
    let heads = read_heads(disk, at, span)?;
    let found = heads.found(at, span);
    Ok(found.is_some())
}
