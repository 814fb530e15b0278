// How rows are added to a table: they are held back until a page is full.

ghost use Rattle.std.specs.Prelude.{◌≡◌, ℕ, ◌+◌, ◌-◌, ◌*◌, ◌<◌, ◌≤◌, [], ◌∷◌, ◌++◌, ◌==◌, if◌then◌else◌, nat_le, List, false, length, take, drop, Some, slice_get, OnOk, OnErr, IfErr, MatchResult};
ghost use Rattle.disk_model.specs.View.{After, EachImage, IsSynced, LeavesOnly, Steps};
ghost use Rattle.qsr_value.specs.Causes.{CountsFault, next_count};
ghost use Rattle.qsr_value.specs.Columns.{width_of};
ghost use Rattle.qsr_value.specs.Encoding.{encoded_row};
ghost use Rattle.qsr_value.specs.Values.{AreTexts, Fits};
ghost use Rattle.qsr_value.specs.declared.limits.TheConstants.{MAX_ROWS, PAGE_BYTES};

use crate::{TableEntry, TableFault, laws};
use disk_model::Disk;
use page_store::{Area, Store};
use qsr_value::{Failed, MAX_ROWS, NoRoom, PAGE_BYTES, Row, Schema};
use row_page::{end_page, put_row};

/// Adds rows to a table, behind those that it has. They aren't the table's before the catalogue tells of them.
#[derive(Drop)]
pub struct TableWriter {
    pub(crate) table: u8,
    /// How many rows the table has, those that were added among them.
    pub(crate) rows: u32,
    /// The page that the next row may go on.
    pub(crate) page: u32,
    /// So many bytes of it are written.
    pub(crate) written: u16,
    /// So many bytes of it are rows.
    pub(crate) end: u16,
    /// Those that are held back, at their places.
    pub(crate) bytes: [u8; PAGE_BYTES],
    ghost some_table: { table < 16 },
    ghost few_rows: { rows ≤ MAX_ROWS },
    ghost within: { written ≤ end },
    ghost in_page: { end ≤ PAGE_BYTES },
}

impl TableWriter {
    ghost use Rattle.page_store.specs.Store.{AreaHolds, IsReady, store_view};
    ghost use Rattle.qsr_value.specs.declared.row.Value.{Value};
    ghost use Rattle.qsr_value.specs.declared.schema.Column.{Column};
    ghost use Rattle.row_page.specs.Framed.{framed};
    ghost use Rattle.table_file.specs.Appending.{HasAdded, HasCounted, IsBehind, IsPushFault, is_full, written_to};
    ghost use Rattle.table_file.specs.Refusals.{TableCause, exceeds};
    ghost use Rattle.table_file.specs.Tables.{AreaGrows, FullStand, HasTables, OnlyTables, RowsStand, Tables, table_pages, table_part};

    /// A writer behind the rows that a table of this number has.
    pub(crate) fn behind(table: u8, entry: &TableEntry) -> TableWriter
        requires table { table < 16 }
        requires rows { entry.now.rows ≤ MAX_ROWS }
        requires end { entry.now.end ≤ 4096 }
        ensures table { result.table ≡ table }
        ensures rows { result.rows ≡ entry.now.rows }
        ensures page { result.page ≡ entry.now.pages - 1 }
        ensures end { result.end ≡ if entry.now.pages == 0 then 0 else entry.now.end }
        ensures written { result.written ≡ result.end }
    {
        let end = if entry.pages == 0 { 0 } else { entry.end };
        TableWriter {
            table,
            rows: entry.rows,
            page: entry.pages.saturating_sub(1),
            written: end,
            end,
            bytes: [0; PAGE_BYTES],
        }
    }

    /// Adds a row. It writes where a page is full, by one device write, and only behind what was written. A row for which the
    /// table has no room changes nothing. It takes no memory.
    pub fn push<D: Disk>(
        &mut self,
        store: &mut Store<'_, D>,
        schema: &Schema,
        row: &Row,
    ) -> Result<(), TableFault>
        requires row { Fits schema.now row.now }
        requires width { width_of schema.now ≤ 1000 }
        requires page { self.old.page < store.old.sizes.table }
        ensures counted { OnOk result ((rows : List (List Value)) → HasCounted schema.now rows self.old → HasCounted schema.now (rows ++ row.now ∷ []) self.new) }
        ensures added { OnOk result ((rows : List (List Value)) → ((store_view store.old).honest → HasAdded schema.now rows self.old (store_view store.old).seen)
            → (store_view store.new).honest → HasAdded schema.now (rows ++ row.now ∷ []) self.new (store_view store.new).seen) }
        ensures room { OnOk result (is_full store.old.sizes self.old (length (framed (encoded_row schema.now row.now))) ≡ false) }
        ensures fault { IfErr result (IsPushFault (is_full store.old.sizes self.old (length (framed (encoded_row schema.now row.now))))) }
        ensures means { (rows : List (List Value)) → HasCounted schema.now rows self.old
            → is_full store.old.sizes self.old (length (framed (encoded_row schema.now row.now))) ≡ exceeds store.old.sizes schema.now (rows ++ row.now ∷ []) }
        ensures full { IfErr result (λ fault. fault ≡ TableFault.TableFull → (self.new ≡ self.old) × (store.new ≡ store.old)) }
        ensures rows { OnOk result (self.new.rows ≡ self.old.rows + 1) }
        ensures page { self.new.page < store.new.sizes.table }
        ensures table { self.new.table ≡ self.old.table }

        // What a store has stays at any moment, as long as what is written stands behind it.
        ensures grows { Steps (AreaGrows (table_part self.old.table) (written_to self.old)) (store_view store.old) (store_view store.new) }
        ensures others { LeavesOnly (store_view store.old) (store_view store.new) (After OnlyTables (store_view store.old)) }
        ensures behind { (s : Tables) → IsBehind s self.old → IsBehind s self.new }
        ensures keeps { (s : Tables) → IsBehind s self.old → EachImage (store_view store.old) (HasTables s)
            → LeavesOnly (store_view store.old) (store_view store.new) (HasTables s) }
        ensures ready { IsReady store.old → IsReady store.new }
        ensures texts { OnOk result (AreTexts row.now) }
        ensures sizes { store.new.sizes ≡ store.old.sizes }
        ensures same { store.new.disk.ghost_name ≡ store.old.disk.ghost_name }
        ensures faults { MatchResult result (λ _. D.faults_of store.new.disk.now ≡ D.faults_of store.old.disk.now)
            (λ fault. TableCause fault (D.faults_of store.old.disk.now) (D.faults_of store.new.disk.now)) }
        ensures reads { D.reads_of store.new.disk.now ≡ D.reads_of store.old.disk.now }
        ensures syncs { D.syncs_of store.new.disk.now ≡ D.syncs_of store.old.disk.now }
    {
        if self.rows == MAX_ROWS {
            return Err(TableFault::TableFull);
        }
        match self.put(row, schema) {
            Ok(()) => Ok(()),
            Err(NoRoom) => self.push_on_next(store, schema, row),
        }
    }

    /// Puts a row on the page, behind those that are there. One that doesn't fit changes nothing.
    fn put(&mut self, row: &Row, schema: &Schema) -> Result<(), NoRoom>
        requires row { Fits schema.now row.now }
        requires width { width_of schema.now ≤ 1000 }
        requires rows { self.old.rows < MAX_ROWS }
        ensures end { OnOk result (self.new.end ≡ self.old.end + length (framed (encoded_row schema.now row.now))) }
        ensures bytes { OnOk result (self.new.bytes ≡ take self.old.end self.old.bytes ++ (framed (encoded_row schema.now row.now) ++ drop self.new.end self.old.bytes)) }
        ensures rows { OnOk result (self.new.rows ≡ self.old.rows + 1) }
        ensures setup { (self.new.table ≡ self.old.table) × (self.new.page ≡ self.old.page) × (self.new.written ≡ self.old.written) }
        ensures room { OnErr result (4096 < self.old.end + length (framed (encoded_row schema.now row.now))) }
        ensures short { length (framed (encoded_row schema.now row.now)) ≤ 1002 }
        ensures as_before { OnErr result (self.new ≡ self.old) }
        ensures texts { AreTexts row.now }
    {
        // For the proof: a row's bytes are no more than its columns are wide.
        laws::encodings_are_exact();
        let end = put_row(&mut self.bytes, self.end as usize, row, schema)?;
        self.rows += 1;
        self.end = end as u16;
        Ok(())
    }

    /// Adds a row that doesn't fit on the page any more.
    fn push_on_next<D: Disk>(
        &mut self,
        store: &mut Store<'_, D>,
        schema: &Schema,
        row: &Row,
    ) -> Result<(), TableFault>
        requires row { Fits schema.now row.now }
        requires width { width_of schema.now ≤ 1000 }
        requires page { self.old.page < store.old.sizes.table }
        requires rows { self.old.rows < MAX_ROWS }
        requires long { 4096 < self.old.end + length (framed (encoded_row schema.now row.now)) }
        ensures counted { OnOk result ((rows : List (List Value)) → HasCounted schema.now rows self.old → HasCounted schema.now (rows ++ row.now ∷ []) self.new) }
        ensures added { OnOk result ((rows : List (List Value)) → ((store_view store.old).honest → HasAdded schema.now rows self.old (store_view store.old).seen)
            → (store_view store.new).honest → HasAdded schema.now (rows ++ row.now ∷ []) self.new (store_view store.new).seen) }
        ensures room { OnOk result (self.old.page + 1 < store.old.sizes.table) }
        ensures fault { IfErr result (IsPushFault (nat_le store.old.sizes.table (self.old.page + 1))) }
        ensures full { IfErr result (λ fault. fault ≡ TableFault.TableFull → (self.new ≡ self.old) × (store.new ≡ store.old)) }
        ensures rows { OnOk result (self.new.rows ≡ self.old.rows + 1) }
        ensures page { self.new.page < store.new.sizes.table }
        ensures table { self.new.table ≡ self.old.table }
        ensures on { written_to self.old ≤ written_to self.new }
        ensures grows { Steps (AreaGrows (table_part self.old.table) (written_to self.old)) (store_view store.old) (store_view store.new) }
        ensures ready { IsReady store.old → IsReady store.new }
        ensures texts { OnOk result (AreTexts row.now) }
        ensures sizes { store.new.sizes ≡ store.old.sizes }
        ensures same { store.new.disk.ghost_name ≡ store.old.disk.ghost_name }
        ensures faults { MatchResult result (λ _. D.faults_of store.new.disk.now ≡ D.faults_of store.old.disk.now)
            (λ fault. TableCause fault (D.faults_of store.old.disk.now) (D.faults_of store.new.disk.now)) }
        ensures reads { D.reads_of store.new.disk.now ≡ D.reads_of store.old.disk.now }
        ensures syncs { D.syncs_of store.new.disk.now ≡ D.syncs_of store.old.disk.now }
    {
        if self.page + 1 == store.sizes().table {
            return Err(TableFault::TableFull);
        }
        let Ok(()) = self.next_page(store) else {
            return Err(TableFault::Failed);
        };
        // A page without rows has room for each row.
        let Ok(()) = self.put(row, schema) else {
            unreachable!();
        };
        Ok(())
    }

    /// Ends the page, writes what is held back of it, by one device write at most, and goes on to the next.
    fn next_page<D: Disk>(&mut self, store: &mut Store<'_, D>) -> Result<(), Failed>
        requires page { self.old.page + 1 < store.old.sizes.table }
        ensures stands { OnOk result ((columns : List Column) (rows : List (List Value)) → ((store_view store.old).honest → HasAdded columns rows self.old (store_view store.old).seen)
            → (store_view store.new).honest
            → FullStand columns (table_part self.old.table) 0 ((table_pages columns rows).full ++ (table_pages columns rows).last ∷ []) (store_view store.new).seen) }
        ensures next { OnOk result ((self.new.page ≡ self.old.page + 1) × (self.new.written ≡ 0) × (self.new.end ≡ 0)) }
        ensures kept { OnErr result ((self.new.page ≡ self.old.page) × (self.new.written ≡ self.old.written) × (self.new.end ≡ self.old.end)) }
        ensures setup { (self.new.table ≡ self.old.table) × (self.new.rows ≡ self.old.rows) }
        ensures grows { Steps (AreaGrows (table_part self.old.table) (written_to self.old)) (store_view store.old) (store_view store.new) }
        ensures ready { IsReady store.old → IsReady store.new }
        ensures sizes { store.new.sizes ≡ store.old.sizes }
        ensures same { store.new.disk.ghost_name ≡ store.old.disk.ghost_name }
        ensures faults { CountsFault result (D.faults_of store.old.disk.now) (D.faults_of store.new.disk.now) }
        ensures reads { D.reads_of store.new.disk.now ≡ D.reads_of store.old.disk.now }
        ensures syncs { D.syncs_of store.new.disk.now ≡ D.syncs_of store.old.disk.now }
    {
        let end = end_page(&mut self.bytes, self.end as usize);
        self.write_up_to(store, end)?;
        self.page += 1;
        self.written = 0;
        self.end = 0;
        Ok(())
    }

    /// Writes what stands on the page in front of this byte and isn't written yet, by one device write, or none where that is
    /// nothing.
    fn write_up_to<D: Disk>(&self, store: &mut Store<'_, D>, end: usize) -> Result<(), Failed>
        requires page { self.now.page < store.old.sizes.table }
        requires end { end ≤ 4096 }
        requires on { self.now.written ≤ end }
        ensures stands { OnOk result ((store_view store.old).honest
            → AreaHolds (table_part self.now.table) (written_to self.now) (take (end - self.now.written) (drop self.now.written self.now.bytes)) (store_view store.new).seen) }
        ensures grows { Steps (AreaGrows (table_part self.now.table) (written_to self.now)) (store_view store.old) (store_view store.new) }
        ensures ready { IsReady store.old → IsReady store.new }
        ensures sizes { store.new.sizes ≡ store.old.sizes }
        ensures same { store.new.disk.ghost_name ≡ store.old.disk.ghost_name }
        ensures faults { CountsFault result (D.faults_of store.old.disk.now) (D.faults_of store.new.disk.now) }
        ensures writes { D.writes_of store.new.disk.now ≡ if end == self.now.written then D.writes_of store.old.disk.now else next_count (D.writes_of store.old.disk.now) }
        ensures reads { D.reads_of store.new.disk.now ≡ D.reads_of store.old.disk.now }
        ensures syncs { D.syncs_of store.new.disk.now ≡ D.syncs_of store.old.disk.now }
    {
        let from = self.written as usize;
        if end == from {
            return Ok(());
        }
        store.write_range(
            Area::Table(self.table),
            self.page,
            self.written,
            &self.bytes[from..end],
        )
    }

    /// Writes what is held back, by one device write at most, and syncs.
    pub(crate) fn flush<D: Disk>(&mut self, store: &mut Store<'_, D>) -> Result<(), Failed>
        requires page { self.old.page < store.old.sizes.table }
        ensures stand { OnOk result ((columns : List Column) (rows : List (List Value)) → ((store_view store.old).honest → HasAdded columns rows self.old (store_view store.old).seen)
            → EachImage (store_view store.new) (RowsStand self.old.table columns rows)) }
        ensures has { OnOk result ((columns : List Column) (rows : List (List Value)) → ((store_view store.old).honest → HasAdded columns rows self.old (store_view store.old).seen)
            → (store_view store.new).honest → HasAdded columns rows self.new (store_view store.new).seen) }
        ensures synced { OnOk result (IsSynced (store_view store.new)) }
        ensures setup { (self.new.table ≡ self.old.table) × (self.new.rows ≡ self.old.rows) × (self.new.page ≡ self.old.page) × (self.new.end ≡ self.old.end) }
        ensures grows { LeavesOnly (store_view store.old) (store_view store.new) (After (AreaGrows (table_part self.old.table) (written_to self.old)) (store_view store.old)) }
        ensures keeps { (s : Tables) → IsBehind s self.old → EachImage (store_view store.old) (HasTables s)
            → LeavesOnly (store_view store.old) (store_view store.new) (HasTables s) }
        ensures ready { IsReady store.old → IsReady store.new }
        ensures sizes { store.new.sizes ≡ store.old.sizes }
        ensures same { store.new.disk.ghost_name ≡ store.old.disk.ghost_name }
        ensures faults { CountsFault result (D.faults_of store.old.disk.now) (D.faults_of store.new.disk.now) }
    {
        self.write_up_to(store, self.end as usize)?;
        self.written = self.end;
        store.sync()
    }
}
