// How a store is found on a disk: its head, and a current slot of each twin.

ghost use Rattle.std.specs.Prelude.{◌≡◌, ◌⊎◌, ◌+◌, ◌*◌, ◌<◌, ◌≤◌, length, sum, IfOk, IfErr, OnOk, MatchOption, MatchResult, Some, ⊤};
ghost use Rattle.disk_model.specs.View.{Stays, IsSynced};
ghost use Rattle.qsr_value.specs.Causes.{CountsFault, count_after, next_count};
ghost use Rattle.page_store.specs.Opening.{AreWhole, HasNoHead, IsDamagedTwin, IsOpeningFault, IsStore, ReadsNoStore, ReadsTwins};
ghost use Rattle.page_store.specs.Format.{CausedBy};
ghost use Rattle.page_store.specs.Head.{head_in, store_head};
ghost use Rattle.page_store.specs.Store.{IsTwin, contents_of, twin_number};
ghost use Rattle.page_store.specs.PageOrder.{AreSizes, parts};

use crate::pages::place_of;
use crate::records::{PAGE, STORE_HEAD_BYTES, head_in};
use crate::twins::has_current;
use crate::{Sizes, StoreFault, Twin, layout_pages};
use disk_model::Disk;
use qsr_value::{Failed, PAGE_BYTES};

/// Reads the head of a store, and answers its sizes where there is one and its layout fits on the disk.
pub(crate) fn read_store_head<D: Disk>(disk: &mut D) -> Result<Option<Sizes>, Failed>
    ensures head { IfOk result (λ found. (D.view disk.old).honest → MatchOption found (HasNoHead (D.size_of disk.old) (D.view disk.old).seen)
        (λ sizes. store_head (D.view disk.old).seen ≡ Some sizes)) }
    ensures sizes { IfOk result (λ found. MatchOption found ⊤ (λ sizes. AreSizes sizes)) }
    ensures fits { IfOk result (λ found. MatchOption found ⊤ (λ sizes. 4096 * sum (parts sizes) ≤ D.size_of disk.old)) }
    ensures stays { Stays (D.view disk.old) (D.view disk.new) }
    ensures faults { CountsFault result (D.faults_of disk.old) (D.faults_of disk.new) }
    ensures reads { IfOk result (λ found. MatchOption found ((D.reads_of disk.new ≡ D.reads_of disk.old) ⊎ (D.reads_of disk.new ≡ next_count (D.reads_of disk.old)))
        (λ sizes. D.reads_of disk.new ≡ next_count (D.reads_of disk.old))) }
    ensures writes { D.writes_of disk.new ≡ D.writes_of disk.old }
    ensures syncs { D.syncs_of disk.new ≡ D.syncs_of disk.old }
    ensures size { D.size_of disk.new ≡ D.size_of disk.old }
{
    if disk.size() < STORE_HEAD_BYTES as u64 {
        return Ok(None);
    }
    let mut page = [0; PAGE_BYTES];
    disk.read(0, &mut page[..STORE_HEAD_BYTES])?;
    let Some(sizes) = head_in(&page) else {
        return Ok(None);
    };
    if disk.size() < PAGE * layout_pages(&sizes) as u64 {
        return Ok(None);
    }
    Ok(Some(sizes))
}

/// How many twins a store has.
const TWINS: u8 = 9;

/// The twin of a number.
fn twin_of(number: u8) -> Twin
    requires { number < 9 }
    ensures number { twin_number result ≡ number }
    ensures is { IsTwin result }
{
    if number == 0 {
        Twin::Catalogue
    } else {
        Twin::Job(number - 1)
    }
}

/// The page of the first twin that has no current slot, if there is one.
fn first_damaged<D: Disk>(disk: &mut D, sizes: &Sizes) -> Result<Option<u32>, Failed>
    requires sizes { AreSizes sizes.now }
    requires fits { 4096 * sum (parts sizes.now) ≤ D.size_of disk.old }
    ensures found { IfOk result (λ found. (D.view disk.old).honest → MatchOption found (AreWhole 9 (contents_of sizes.now (D.view disk.old).seen))
        (λ page. IsDamagedTwin sizes.now page (contents_of sizes.now (D.view disk.old).seen))) }
    ensures stays { Stays (D.view disk.old) (D.view disk.new) }
    ensures faults { CountsFault result (D.faults_of disk.old) (D.faults_of disk.new) }
    ensures reads { IfOk result (λ found. MatchOption found (D.reads_of disk.new ≡ count_after 18 (D.reads_of disk.old)) (λ page. ReadsTwins page (D.reads_of disk.old) (D.reads_of disk.new))) }
    ensures writes { D.writes_of disk.new ≡ D.writes_of disk.old }
    ensures syncs { D.syncs_of disk.new ≡ D.syncs_of disk.old }
    ensures size { D.size_of disk.new ≡ D.size_of disk.old }
{
    for number in 0..TWINS {
        let place = place_of(sizes, twin_of(number));
        if !has_current(disk, place.at, place.span)? {
            return Ok(Some((place.at / PAGE) as u32));
        }
    }
    Ok(None)
}

/// Finds a store on a disk that was synced, and answers its sizes.
fn find_store<D: Disk>(disk: &mut D) -> Result<Sizes, StoreFault>
    ensures store { IfOk result (λ sizes. (D.view disk.old).honest → IsStore (D.size_of disk.old) sizes (contents_of sizes (D.view disk.old).seen)) }
    ensures sizes { IfOk result (λ sizes. AreSizes sizes) }
    ensures fits { IfOk result (λ sizes. 4096 * sum (parts sizes) ≤ D.size_of disk.old) }
    ensures refused { IfErr result (IsOpeningFault (D.size_of disk.old) (D.view disk.old)) }
    ensures stays { Stays (D.view disk.old) (D.view disk.new) }
    ensures faults { MatchResult result (λ sizes. D.faults_of disk.new ≡ D.faults_of disk.old)
        (λ fault. CausedBy fault (D.faults_of disk.old) (D.faults_of disk.new)) }
    ensures reads { OnOk result (D.reads_of disk.new ≡ count_after 19 (D.reads_of disk.old)) }
    ensures none_reads { IfErr result (λ fault. ReadsNoStore fault (D.reads_of disk.old) (D.reads_of disk.new)) }
    ensures writes { D.writes_of disk.new ≡ D.writes_of disk.old }
    ensures syncs { D.syncs_of disk.new ≡ D.syncs_of disk.old }
    ensures size { D.size_of disk.new ≡ D.size_of disk.old }
{
    let sizes = match read_store_head(disk) {
        Ok(Some(sizes)) => sizes,
        Ok(None) => return Err(StoreFault::NotStore { page: 0 }),
        Err(Failed) => return Err(StoreFault::Failed),
    };
    match first_damaged(disk, &sizes) {
        Ok(None) => Ok(sizes),
        Ok(Some(page)) => Err(StoreFault::NotStore { page }),
        Err(Failed) => Err(StoreFault::Failed),
    }
}

/// Syncs a disk, and finds the store on it.
pub(crate) fn start<D: Disk>(disk: &mut D) -> Result<Sizes, StoreFault>
    ensures store { IfOk result (λ sizes. (D.view disk.old).honest → IsStore (D.size_of disk.old) sizes (contents_of sizes (D.view disk.old).seen)) }
    ensures sizes { IfOk result (λ sizes. AreSizes sizes) }
    ensures fits { IfOk result (λ sizes. 4096 * sum (parts sizes) ≤ D.size_of disk.old) }
    ensures refused { IfErr result (IsOpeningFault (D.size_of disk.old) (D.view disk.old)) }
    ensures synced { OnOk result (IsSynced (D.view disk.new)) }
    ensures stays { Stays (D.view disk.old) (D.view disk.new) }
    ensures faults { MatchResult result (λ sizes. D.faults_of disk.new ≡ D.faults_of disk.old)
        (λ fault. CausedBy fault (D.faults_of disk.old) (D.faults_of disk.new)) }
    ensures reads { OnOk result (D.reads_of disk.new ≡ count_after 19 (D.reads_of disk.old)) }
    ensures none_reads { IfErr result (λ fault. ReadsNoStore fault (D.reads_of disk.old) (D.reads_of disk.new)) }
    ensures writes { D.writes_of disk.new ≡ D.writes_of disk.old }
    ensures syncs { D.syncs_of disk.new ≡ next_count (D.syncs_of disk.old) }
    ensures size { D.size_of disk.new ≡ D.size_of disk.old }
{
    match disk.sync() {
        Ok(()) => find_store(disk), // a crash leaves the slots that are read now
        Err(Failed) => Err(StoreFault::Failed),
    }
}
