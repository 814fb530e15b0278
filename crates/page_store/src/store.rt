// A store on a disk: its areas, and the bodies of its twins.

ghost use Rattle.std.specs.Prelude.{◌≡◌, ◌+◌, ◌*◌, ◌^◌, ◌<◌, ◌≤◌, length, sum, take, drop, Some, OnOk, IfOk, IfErr, MatchResult};
ghost use Rattle.disk_model.specs.View.{After, EachImage, IsSynced, LeavesOnly, Stays, Steps};
ghost use Rattle.qsr_value.specs.Causes.{CountsAtMost, CountsFault, count_after, next_count};
ghost use Rattle.page_store.specs.Format.{CausedBy};
ghost use Rattle.page_store.specs.PageOrder.{AreSizes, IsArea, area_pages, part_of, parts};

use crate::opening::start;
use crate::pages::place_of;
use crate::records::PAGE;
use crate::twins::{commit_at, current_at};
use crate::{Area, Sizes, StoreFault, Twin, first_page};
use disk_model::Disk;
use qsr_value::Failed;

/// A store that was opened.
#[derive(Drop)]
pub struct Store<'d, D: Disk> {
    pub disk: &'d mut D,
    pub sizes: Sizes,
    ghost are_sizes: { AreSizes sizes },
    ghost fits: { 4096 * sum (parts sizes) ≤ D.size_of disk.now },
}

/// Why a store isn't opened, and the disk.
#[derive(Drop)]
pub struct Unopened<'d, D: Disk> {
    pub fault: StoreFault,
    pub disk: &'d mut D,
}

impl<'d, D: Disk> Store<'d, D> {
    ghost use Rattle.page_store.specs.Opening.{IsOpeningFault, IsStore, ReadsNoStore};
    ghost use Rattle.page_store.specs.declared.pages.Sizes.{Sizes};
    ghost use Rattle.page_store.specs.Store.{AreaHolds, AreaWritten, BeforeOrAfter, BodyReplaced, HasCommitWrites, IsNoBody, IsReady, IsTwin, ReadsNoBody, TwinChanged, body_most, body_reads, contents_view, slot_pages, store_view, twin_number, twin_page};

    /// Opens the store on a disk: it syncs, and then finds the head of the store and a current slot of each twin.
    pub fn open(disk: &'d mut D) -> Result<Store<'d, D>, Unopened<'d, D>>
        ensures store { IfOk result (λ store. EachImage (store_view store) (IsStore (D.size_of disk.old) store.sizes)) }
        ensures refused { IfErr result (λ e. IsOpeningFault (D.size_of disk.old) (D.view disk.old) e.fault) }
        ensures ready { IfOk result (λ store. IsReady store) }

        // Of what a crash might have left, it picks one for good: what reads give from now on, and no crash takes it back.
        ensures picked { IfOk result (λ store. IsSynced (store_view store)) }
        ensures rests { IfOk result (λ store. Stays (contents_view store.sizes (D.view disk.old)) (store_view store)) }

        // Where each image had a head with these sizes, the store has them.
        ensures told { IfOk result (λ store. (sizes : Sizes) → EachImage (contents_view sizes (D.view disk.old)) (λ m. m.head ≡ Some sizes)
            → (store_view store).honest → store.sizes ≡ sizes) }

        // The same of the bytes of its disk.
        ensures synced { IfOk result (λ store. IsSynced (D.view store.disk.now)) }
        ensures stays { MatchResult result (λ store. Stays (D.view disk.old) (D.view store.disk.now)) (λ e. Stays (D.view disk.old) (D.view e.disk.now)) }
        ensures same { MatchResult result (λ store. store.disk.ghost_name ≡ disk.entry.ghost_name) (λ e. e.disk.ghost_name ≡ disk.entry.ghost_name) }
        ensures faults { MatchResult result (λ store. D.faults_of store.disk.now ≡ D.faults_of disk.old)
            (λ e. CausedBy e.fault (D.faults_of disk.old) (D.faults_of e.disk.now)) }

        // Where it answers it has made 19 reads: the head, and the two slots of each twin. Where no store is there it has
        // read as far as it had to.
        ensures reads { IfOk result (λ store. D.reads_of store.disk.now ≡ count_after 19 (D.reads_of disk.old)) }
        ensures none_reads { IfErr result (λ e. ReadsNoStore e.fault (D.reads_of disk.old) (D.reads_of e.disk.now)) }
        ensures size { MatchResult result (λ store. D.size_of store.disk.now ≡ D.size_of disk.old) (λ e. D.size_of e.disk.now ≡ D.size_of disk.old) }
        ensures writes { MatchResult result (λ store. D.writes_of store.disk.now ≡ D.writes_of disk.old) (λ e. D.writes_of e.disk.now ≡ D.writes_of disk.old) }
        ensures syncs { MatchResult result (λ store. D.syncs_of store.disk.now ≡ next_count (D.syncs_of disk.old))
            (λ e. D.syncs_of e.disk.now ≡ next_count (D.syncs_of disk.old)) }
    {
        match start(disk) {
            Ok(sizes) => Ok(Store { disk, sizes }),
            Err(fault) => Err(Unopened { fault, disk }),
        }
    }

    /// Reads the body of a twin into the front of a buffer, and answers how many bytes it has.
    pub fn current(&mut self, twin: Twin, buf: &mut [u8; 8192]) -> Result<usize, StoreFault>
        requires twin { IsTwin twin }
        ensures body { IfOk result (λ n. (store_view self.old).honest → (store_view self.old).seen.body (twin_number twin) ≡ Some (take n buf.new)) }
        ensures within { IfOk result (λ n. n ≤ body_most twin) }
        ensures rest { IfOk result (λ n. drop n buf.new ≡ drop n buf.old) }
        ensures none { IfErr result (IsNoBody (twin_page self.old.sizes (twin_number twin)) ((store_view self.old).honest) ((store_view self.old).seen.body (twin_number twin))) }
        ensures stays { Stays (store_view self.old) (store_view self.new) }
        ensures disk_stays { Stays (D.view self.old.disk.now) (D.view self.new.disk.now) }
        ensures ready { IsReady self.old → IsReady self.new }
        ensures sizes { self.new.sizes ≡ self.old.sizes }
        ensures same { self.new.disk.ghost_name ≡ self.old.disk.ghost_name }
        ensures faults { MatchResult result (λ n. D.faults_of self.new.disk.now ≡ D.faults_of self.old.disk.now)
            (λ fault. CausedBy fault (D.faults_of self.old.disk.now) (D.faults_of self.new.disk.now)) }
        ensures reads { IfOk result (λ n. D.reads_of self.new.disk.now ≡ count_after (2 + body_reads n) (D.reads_of self.old.disk.now)) }
        ensures none_reads { IfErr result (λ fault. ReadsNoBody fault (D.reads_of self.old.disk.now) (D.reads_of self.new.disk.now)) }
        ensures writes { D.writes_of self.new.disk.now ≡ D.writes_of self.old.disk.now }
        ensures syncs { D.syncs_of self.new.disk.now ≡ D.syncs_of self.old.disk.now }
    {
        let place = place_of(&self.sizes, twin);
        match current_at(self.disk, place.at, place.span, buf) {
            Ok(Some(len)) => Ok(len),
            Ok(None) => Err(StoreFault::NotStore {
                page: self.page_of(twin),
            }),
            Err(Failed) => Err(StoreFault::Failed),
        }
    }

    /// The first page of a twin, by which a fault tells that the twin has no body of its form.
    pub fn page_of(&self, twin: Twin) -> u32
        requires { IsTwin twin }
        ensures { result ≡ twin_page self.now.sizes (twin_number twin) }
    {
        (place_of(&self.sizes, twin).at / PAGE) as u32
    }

    /// How many pages its areas have.
    pub fn sizes(&self) -> Sizes
        ensures { result ≡ self.now.sizes }
    {
        self.sizes
    }

    /// How many calls of its disk have failed so far.
    pub fn faults(&self) -> u64
        ensures { result ≡ D.faults_of self.now.disk.now }
    {
        self.disk.faults()
    }

    /// Makes what was written last through a crash.
    pub fn sync(&mut self) -> Result<(), Failed>
        ensures synced { OnOk result (IsSynced (store_view self.new)) }
        ensures stays { Stays (store_view self.old) (store_view self.new) }
        ensures ready { IsReady self.old → IsReady self.new }
        ensures sizes { self.new.sizes ≡ self.old.sizes }
        ensures same { self.new.disk.ghost_name ≡ self.old.disk.ghost_name }
        ensures faults { CountsFault result (D.faults_of self.old.disk.now) (D.faults_of self.new.disk.now) }
        ensures reads { D.reads_of self.new.disk.now ≡ D.reads_of self.old.disk.now }
        ensures writes { D.writes_of self.new.disk.now ≡ D.writes_of self.old.disk.now }
        ensures syncs { D.syncs_of self.new.disk.now ≡ next_count (D.syncs_of self.old.disk.now) }
    {
        self.disk.sync()
    }

    /// Reads a page of an area, by one call of the disk.
    pub fn read(&mut self, area: Area, page: u32, buf: &mut [u8; 4096]) -> Result<(), Failed>
        requires area { IsArea area }
        requires page { page < area_pages self.old.sizes area }
        ensures bytes { OnOk result ((store_view self.old).honest → AreaHolds (part_of area) (4096 * page) buf.new (store_view self.old).seen) }
        ensures stays { Stays (store_view self.old) (store_view self.new) }
        ensures ready { IsReady self.old → IsReady self.new }
        ensures sizes { self.new.sizes ≡ self.old.sizes }
        ensures same { self.new.disk.ghost_name ≡ self.old.disk.ghost_name }
        ensures faults { CountsFault result (D.faults_of self.old.disk.now) (D.faults_of self.new.disk.now) }
        ensures reads { D.reads_of self.new.disk.now ≡ next_count (D.reads_of self.old.disk.now) }
        ensures writes { D.writes_of self.new.disk.now ≡ D.writes_of self.old.disk.now }
        ensures syncs { D.syncs_of self.new.disk.now ≡ D.syncs_of self.old.disk.now }
    {
        let at = PAGE * (first_page(&self.sizes, area) as u64 + page as u64);
        self.disk.read(at, buf)
    }

    /// Writes bytes of a page of an area, by one call of the disk.
    pub fn write_range(
        &mut self,
        area: Area,
        page: u32,
        from: u16,
        bytes: &[u8],
    ) -> Result<(), Failed>
        requires area { IsArea area }
        requires page { page < area_pages self.old.sizes area }
        requires some { 0 < length bytes.now }
        requires within { from + length bytes.now ≤ 4096 }
        ensures bytes { OnOk result ((store_view self.old).honest → AreaHolds (part_of area) (4096 * page + from) bytes.now (store_view self.new).seen) }
        ensures steps { Steps (AreaWritten (part_of area) (4096 * page + from) (length bytes.now)) (store_view self.old) (store_view self.new) }
        ensures ready { IsReady self.old → IsReady self.new }
        ensures sizes { self.new.sizes ≡ self.old.sizes }
        ensures same { self.new.disk.ghost_name ≡ self.old.disk.ghost_name }
        ensures faults { CountsFault result (D.faults_of self.old.disk.now) (D.faults_of self.new.disk.now) }
        ensures reads { D.reads_of self.new.disk.now ≡ D.reads_of self.old.disk.now }
        ensures writes { D.writes_of self.new.disk.now ≡ next_count (D.writes_of self.old.disk.now) }
        ensures syncs { D.syncs_of self.new.disk.now ≡ D.syncs_of self.old.disk.now }
    {
        let at = PAGE * (first_page(&self.sizes, area) as u64 + page as u64);
        self.disk.write(at + from as u64, bytes)
    }

    /// Replaces the body of a twin: a crash at any moment leaves the old or the new one. It takes no memory.
    pub fn commit(&mut self, twin: Twin, body: &[u8]) -> Result<(), Failed>
        requires twin { IsTwin twin }
        requires long { length body.now ≤ body_most twin }
        ensures any_moment { IsReady self.old → LeavesOnly (store_view self.old) (store_view self.new)
            (BeforeOrAfter (BodyReplaced (twin_number twin) body.now) (store_view self.old)) }
        ensures committed { OnOk result (IsReady self.old → EachImage (store_view self.new)
            (After (BodyReplaced (twin_number twin) body.now) (store_view self.old))) }
        ensures synced { OnOk result (IsSynced (store_view self.new)) }
        ensures ready { OnOk result (IsReady self.old → IsReady self.new) }

        // In any case.
        ensures within { LeavesOnly (store_view self.old) (store_view self.new) (After (TwinChanged (twin_number twin)) (store_view self.old)) }
        ensures seen { (store_view self.old).honest → TwinChanged (twin_number twin) (store_view self.old).seen (store_view self.new).seen }
        ensures sizes { self.new.sizes ≡ self.old.sizes }
        ensures same { self.new.disk.ghost_name ≡ self.old.disk.ghost_name }
        ensures faults { CountsFault result (D.faults_of self.old.disk.now) (D.faults_of self.new.disk.now) }
        ensures writes_most { CountsAtMost (slot_pages (length body.now) + 2) (D.writes_of self.old.disk.now) (D.writes_of self.new.disk.now) }

        // Where it answers that it is done.
        ensures reads { OnOk result (D.reads_of self.new.disk.now ≡ count_after 2 (D.reads_of self.old.disk.now)) }
        ensures writes { OnOk result (HasCommitWrites (length body.now) (D.writes_of self.old.disk.now) (D.writes_of self.new.disk.now)) }
        ensures syncs { OnOk result (D.syncs_of self.new.disk.now ≡ count_after 3 (D.syncs_of self.old.disk.now)) }
    {
        let place = place_of(&self.sizes, twin);
        commit_at(self.disk, place.at, place.span, body)
    }
}
