// How rows are added to an output file: they are held back until a page is full, or the file is flushed.

ghost use Rattle.std.specs.Prelude.{◌≡◌, ◌⊎◌, ℕ, ◌+◌, ◌-◌, ◌*◌, ◌%◌, ◌<◌, ◌≤◌, [], ◌∷◌, ◌++◌, List, length, take, drop, if◌then◌else◌, ◌==◌, OnOk, OnErr, IfErr};
ghost use Rattle.disk_model.specs.View.{After, EachImage, IsSynced, LeavesOnly, Steps};
ghost use Rattle.qsr_value.specs.Causes.{CountsFault, next_count};
ghost use Rattle.qsr_value.specs.Columns.{width_of};
ghost use Rattle.qsr_value.specs.Encoding.{encoded_row};
ghost use Rattle.qsr_value.specs.Values.{AreTexts, Fits};

use crate::OutFault;
use disk_model::Disk;
use page_store::{Area, Store};
use qsr_value::{Failed, PAGE_BYTES, Row, Schema, laws};
use row_page::put_row;

/// A row needs so many bytes at most, with its length.
const LEAST_FREE: u32 = 1024;

/// How many bytes a page has, as a number of bytes of an area.
const PAGE: u32 = PAGE_BYTES as u32;

/// A page, and room for a row that goes over its end.
const BUFFER_BYTES: usize = 5120;

/// The output file of a job, to add rows to.
#[derive(Drop)]
pub struct OutFile {
    job: u8,
    rows: u64,
    /// So many bytes are written.
    written: u32,
    /// So many bytes behind them are held back.
    held: u32,
    /// The file has room for so many bytes.
    bytes: u32,
    /// What is held back, at its place in its page.
    page: [u8; BUFFER_BYTES],
    ghost some_job: { job < 8 },
    ghost within: { written + held ≤ bytes },
    ghost in_page: { written % 4096 + held < 4096 },
}

impl OutFile {
    ghost use Rattle.std.specs.Prelude.{MatchResult};
    ghost use Rattle.page_store.specs.PageOrder.{job_part};
    ghost use Rattle.page_store.specs.Store.{AreaHolds, Contents, IsReady, store_view};
    ghost use Rattle.qsr_value.specs.declared.schema.Column.{Column};
    ghost use Rattle.qsr_value.specs.declared.row.Value.{Value};
    ghost use Rattle.row_page.specs.Framed.{framed, rows_bytes};
    ghost use Rattle.out_file.specs.Output.{HasOut, HasOutRows, OutGrows, OutHolds, out_end, held_bytes};
    ghost use Rattle.out_file.specs.Pushes.{IsOutPushFault, PushCause, WritesPage};

    /// The output file of a job, 0 to 7, that has so many rows in its first `end` bytes and room for `bytes`.
    pub fn at(job: u8, rows: u64, end: u32, bytes: u32) -> OutFile
        requires job { job < 8 }
        requires end { end ≤ bytes }
        ensures job { result.job ≡ job }
        ensures rows { result.rows ≡ rows }
        ensures written { (result.written ≡ end) × (result.held ≡ 0) }
        ensures bytes { result.bytes ≡ bytes }

        // Where the area has these rows, so has the file.
        ensures has { (schema : List Column) → (has : List (List Value)) → (m : Contents) → length has ≡ rows → length (rows_bytes (encoded_row schema) has) ≡ end
            → HasOutRows job schema has m → HasOut schema has result m }
    {
        OutFile {
            job,
            rows,
            written: end,
            held: 0,
            bytes,
            page: [0; BUFFER_BYTES],
        }
    }

    /// How many rows it has.
    pub fn rows(&self) -> u64
        ensures { result ≡ self.now.rows }
    {
        self.rows
    }

    /// How many bytes its rows take.
    pub fn end(&self) -> u32
        ensures { result ≡ out_end self.now }
    {
        self.written + self.held
    }

    /// How many bytes it has room for behind its rows.
    pub fn free(&self) -> u32
        ensures { result ≡ self.now.bytes - out_end self.now }
    {
        self.bytes - self.written - self.held
    }

    /// Adds a row. It writes where a page is full, by one device write, and only behind what was written. It takes no
    /// memory. Where it fails the row isn't kept.
    pub fn push<D: Disk>(
        &mut self,
        store: &mut Store<'_, D>,
        schema: &Schema,
        row: &Row,
    ) -> Result<(), OutFault>
        requires row { Fits schema.now row.now }
        requires width { width_of schema.now ≤ 1000 }
        requires room { self.old.bytes ≤ 4096 * store.old.sizes.out }
        ensures pushed { OnOk result ((rows : List (List Value)) → ((store_view store.old).honest → HasOut schema.now rows self.old (store_view store.old).seen)
            → (store_view store.new).honest → HasOut schema.now (rows ++ row.now ∷ []) self.new (store_view store.new).seen) }

        // Where it fails the file has the rows that it had.
        ensures failed { OnErr result ((rows : List (List Value)) → ((store_view store.old).honest → HasOut schema.now rows self.old (store_view store.old).seen)
            → (store_view store.new).honest → HasOut schema.now rows self.new (store_view store.new).seen) }
        ensures rows { OnOk result (self.new.rows ≡ next_count self.old.rows) }
        ensures room { OnOk result (1024 ≤ self.old.bytes - out_end self.old) }
        ensures fault { IfErr result (IsOutPushFault (self.old.bytes - out_end self.old)) }
        ensures kept { MatchResult result (λ _. self.old.written ≤ self.new.written) (λ _. (self.new.rows ≡ self.old.rows) × (self.new.written ≡ self.old.written) × (self.new.held ≡ self.old.held)) }
        ensures setup { (self.new.job ≡ self.old.job) × (self.new.bytes ≡ self.old.bytes) }
        ensures grows { Steps (OutGrows self.old.job self.old.written) (store_view store.old) (store_view store.new) }
        ensures ready { IsReady store.old → IsReady store.new }
        ensures texts { AreTexts row.now }
        ensures sizes { store.new.sizes ≡ store.old.sizes }
        ensures same { store.new.disk.ghost_name ≡ store.old.disk.ghost_name }
        ensures faults { MatchResult result (λ _. D.faults_of store.new.disk.now ≡ D.faults_of store.old.disk.now)
            (λ fault. PushCause fault (D.faults_of store.old.disk.now) (D.faults_of store.new.disk.now)) }
        ensures writes { (D.writes_of store.new.disk.now ≡ D.writes_of store.old.disk.now) ⊎ (D.writes_of store.new.disk.now ≡ next_count (D.writes_of store.old.disk.now)) }
        ensures pages { OnOk result (WritesPage self.old.written self.new.written (D.writes_of store.old.disk.now) (D.writes_of store.new.disk.now)) }
        ensures full { self.old.bytes - out_end self.old < 1024 → D.writes_of store.new.disk.now ≡ D.writes_of store.old.disk.now }
        ensures reads { D.reads_of store.new.disk.now ≡ D.reads_of store.old.disk.now }
        ensures syncs { D.syncs_of store.new.disk.now ≡ D.syncs_of store.old.disk.now }
    {
        // Behind what is held back the buffer has room for a row, also for one that isn't kept.
        let from = self.behind();
        let end = OutFile::put_short_row(&mut self.page, from, row, schema);
        let free = self.free();
        if free < LEAST_FREE {
            return Err(OutFault::OutFull { free });
        }
        match self.keep(store, end) {
            Ok(()) => {
                self.rows = self.rows.saturating_add(1);
                Ok(())
            }
            Err(Failed) => Err(OutFault::Failed),
        }
    }

    /// Writes what is held back, by one device write at most, and syncs: after it no crash takes a row away. It takes no
    /// memory.
    pub fn flush<D: Disk>(&mut self, store: &mut Store<'_, D>) -> Result<(), Failed>
        requires room { self.old.bytes ≤ 4096 * store.old.sizes.out }

        // A crash at any moment of the call leaves what was written before it as it was, also where it fails.
        ensures any_moment { LeavesOnly (store_view store.old) (store_view store.new) (After (OutGrows self.old.job self.old.written) (store_view store.old)) }
        ensures seen { (store_view store.old).honest → OutGrows self.old.job self.old.written (store_view store.old).seen (store_view store.new).seen }
        ensures flushed { OnOk result ((schema : List Column) → (rows : List (List Value)) → ((store_view store.old).honest → HasOut schema rows self.old (store_view store.old).seen)
            → EachImage (store_view store.new) (HasOutRows self.old.job schema rows)) }
        ensures has { OnOk result ((schema : List Column) → (rows : List (List Value)) → ((store_view store.old).honest → HasOut schema rows self.old (store_view store.old).seen)
            → (store_view store.new).honest → HasOut schema rows self.new (store_view store.new).seen) }

        // Where it fails the file has the rows that it had.
        ensures failed { OnErr result ((schema : List Column) (rows : List (List Value)) → ((store_view store.old).honest → HasOut schema rows self.old (store_view store.old).seen)
            → (store_view store.new).honest → HasOut schema rows self.new (store_view store.new).seen) }
        ensures synced { OnOk result (IsSynced (store_view store.new)) }
        ensures written { OnOk result ((self.new.written ≡ out_end self.old) × (self.new.held ≡ 0)) }
        ensures setup { (self.new.job ≡ self.old.job) × (self.new.rows ≡ self.old.rows) × (self.new.bytes ≡ self.old.bytes) × (out_end self.new ≡ out_end self.old) }
        ensures ready { IsReady store.old → IsReady store.new }
        ensures sizes { store.new.sizes ≡ store.old.sizes }
        ensures same { store.new.disk.ghost_name ≡ store.old.disk.ghost_name }
        ensures faults { CountsFault result (D.faults_of store.old.disk.now) (D.faults_of store.new.disk.now) }
        ensures writes { D.writes_of store.new.disk.now ≡ if self.old.held == 0 then D.writes_of store.old.disk.now else next_count (D.writes_of store.old.disk.now) }
        ensures reads { D.reads_of store.new.disk.now ≡ D.reads_of store.old.disk.now }
        ensures syncs { OnOk result (D.syncs_of store.new.disk.now ≡ next_count (D.syncs_of store.old.disk.now)) }
    {
        self.write_held(store)?;
        store.sync()?;
        self.written += self.held;
        self.held = 0;
        Ok(())
    }

    /// Where in the buffer the bytes that are held back begin.
    fn front(&self) -> usize
        ensures { result ≡ self.now.written % 4096 }
    {
        (self.written % PAGE) as usize
    }

    /// Where in the buffer they end.
    fn behind(&self) -> usize
        ensures { result ≡ self.now.written % 4096 + self.now.held }
    {
        self.front() + self.held as usize
    }

    /// Keeps what stands in the buffer in front of this place. It writes the page where that is full.
    fn keep<D: Disk>(&mut self, store: &mut Store<'_, D>, end: usize) -> Result<(), Failed>
        requires behind { self.old.written % 4096 + self.old.held ≤ end }
        requires buffer { end ≤ 5120 }
        requires within { self.old.written + (end - self.old.written % 4096) ≤ self.old.bytes }
        requires room { self.old.bytes ≤ 4096 * store.old.sizes.out }

        // Where these bytes stand in the area and the buffer, they do so after it.
        ensures held { OnOk result ((bytes : List ℕ) → drop self.old.written bytes ≡ take (end - self.old.written % 4096) (drop (self.old.written % 4096) self.old.page)
            → drop self.new.written bytes ≡ held_bytes self.new) }
        ensures stands { OnOk result ((bytes : List ℕ) → self.old.written ≤ length bytes
            → drop self.old.written bytes ≡ take (end - self.old.written % 4096) (drop (self.old.written % 4096) self.old.page)
            → ((store_view store.old).honest → OutHolds self.old.job (take self.old.written bytes) (store_view store.old).seen)
            → (store_view store.new).honest → OutHolds self.old.job (take self.new.written bytes) (store_view store.new).seen) }
        ensures end { OnOk result (out_end self.new ≡ self.old.written + (end - self.old.written % 4096)) }
        ensures kept { OnErr result ((self.new.written ≡ self.old.written) × (self.new.held ≡ self.old.held) × (self.new.page ≡ self.old.page)) }
        ensures setup { (self.new.job ≡ self.old.job) × (self.new.rows ≡ self.old.rows) × (self.new.bytes ≡ self.old.bytes) }
        ensures grows { Steps (OutGrows self.old.job self.old.written) (store_view store.old) (store_view store.new) }
        ensures ready { IsReady store.old → IsReady store.new }
        ensures sizes { store.new.sizes ≡ store.old.sizes }
        ensures same { store.new.disk.ghost_name ≡ store.old.disk.ghost_name }
        ensures faults { CountsFault result (D.faults_of store.old.disk.now) (D.faults_of store.new.disk.now) }
        ensures writes { OnErr result (D.writes_of store.new.disk.now ≡ next_count (D.writes_of store.old.disk.now)) }
        ensures pages { OnOk result (WritesPage self.old.written self.new.written (D.writes_of store.old.disk.now) (D.writes_of store.new.disk.now)) }
        ensures reads { D.reads_of store.new.disk.now ≡ D.reads_of store.old.disk.now }
        ensures syncs { D.syncs_of store.new.disk.now ≡ D.syncs_of store.old.disk.now }
    {
        if end < PAGE_BYTES {
            self.held = (end - self.front()) as u32;
            return Ok(());
        }
        self.write_up_to(store, PAGE_BYTES)?;
        self.next_page(end);
        Ok(())
    }

    /// Goes on to the next page, with what stands in the buffer behind this one, in front of this place.
    fn next_page(&mut self, end: usize)
        requires past { 4096 ≤ end }
        requires buffer { end ≤ 5120 }
        requires within { self.old.written + (end - self.old.written % 4096) ≤ self.old.bytes }
        ensures written { self.new.written ≡ self.old.written + (4096 - self.old.written % 4096) }
        ensures held { self.new.held ≡ end - 4096 }
        ensures bytes { held_bytes self.new ≡ take (end - 4096) (drop 4096 self.old.page) }
        ensures setup { (self.new.job ≡ self.old.job) × (self.new.rows ≡ self.old.rows) × (self.new.bytes ≡ self.old.bytes) }
    {
        self.page.copy_within(PAGE_BYTES..end, 0);
        self.written += PAGE - self.written % PAGE;
        self.held = (end - PAGE_BYTES) as u32;
    }

    /// Writes what is held back, where that is something.
    fn write_held<D: Disk>(&self, store: &mut Store<'_, D>) -> Result<(), Failed>
        requires room { self.now.bytes ≤ 4096 * store.old.sizes.out }
        ensures stands { OnOk result ((bytes : List ℕ) → length bytes ≡ out_end self.now → drop self.now.written bytes ≡ held_bytes self.now
            → ((store_view store.old).honest → OutHolds self.now.job (take self.now.written bytes) (store_view store.old).seen)
            → (store_view store.new).honest → OutHolds self.now.job bytes (store_view store.new).seen) }
        ensures grows { Steps (OutGrows self.now.job self.now.written) (store_view store.old) (store_view store.new) }
        ensures ready { IsReady store.old → IsReady store.new }
        ensures sizes { store.new.sizes ≡ store.old.sizes }
        ensures same { store.new.disk.ghost_name ≡ store.old.disk.ghost_name }
        ensures faults { CountsFault result (D.faults_of store.old.disk.now) (D.faults_of store.new.disk.now) }
        ensures writes { D.writes_of store.new.disk.now ≡ if self.now.held == 0 then D.writes_of store.old.disk.now else next_count (D.writes_of store.old.disk.now) }
        ensures reads { D.reads_of store.new.disk.now ≡ D.reads_of store.old.disk.now }
        ensures syncs { D.syncs_of store.new.disk.now ≡ D.syncs_of store.old.disk.now }
    {
        if self.held == 0 {
            return Ok(());
        }
        self.write_up_to(store, self.behind())
    }

    /// Writes what stands in the buffer in front of this place and isn't written yet, by one device write.
    fn write_up_to<D: Disk>(&self, store: &mut Store<'_, D>, end: usize) -> Result<(), Failed>
        requires some { self.now.written % 4096 < end }
        requires page { end ≤ 4096 }
        requires room { self.now.written < 4096 * store.old.sizes.out }
        ensures stands { OnOk result ((store_view store.old).honest
            → AreaHolds (job_part self.now.job 4) self.now.written (take (end - self.now.written % 4096) (drop (self.now.written % 4096) self.now.page)) (store_view store.new).seen) }
        ensures grows { Steps (OutGrows self.now.job self.now.written) (store_view store.old) (store_view store.new) }
        ensures ready { IsReady store.old → IsReady store.new }
        ensures sizes { store.new.sizes ≡ store.old.sizes }
        ensures same { store.new.disk.ghost_name ≡ store.old.disk.ghost_name }
        ensures faults { CountsFault result (D.faults_of store.old.disk.now) (D.faults_of store.new.disk.now) }
        ensures writes { D.writes_of store.new.disk.now ≡ next_count (D.writes_of store.old.disk.now) }
        ensures reads { D.reads_of store.new.disk.now ≡ D.reads_of store.old.disk.now }
        ensures syncs { D.syncs_of store.new.disk.now ≡ D.syncs_of store.old.disk.now }
    {
        let from = self.front();
        store.write_range(
            Area::Out(self.job),
            self.written / PAGE,
            from as u16,
            &self.page[from..end],
        )
    }

    /// Puts a row of at most 1,000 bytes into a buffer that has room for it from this place on, and answers where it ends.
    fn put_short_row(buffer: &mut [u8], at: usize, row: &Row, schema: &Schema) -> usize
        requires fits { Fits schema.now row.now }
        requires width { width_of schema.now ≤ 1000 }
        requires room { at + 1002 ≤ length buffer.old }
        ensures end { result ≡ at + length (framed (encoded_row schema.now row.now)) }
        ensures small { result ≤ at + 1002 }
        ensures bytes { buffer.new ≡ take at buffer.old ++ (framed (encoded_row schema.now row.now) ++ drop result buffer.old) }
        ensures texts { AreTexts row.now }
    {
        // For the proof: how many bytes a row has at most, so that it fits.
        laws::encodings_are_exact();
        let Ok(end) = put_row(buffer, at, row, schema) else {
            return at;
        };
        end
    }
}
