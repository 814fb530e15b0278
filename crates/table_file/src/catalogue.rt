// The catalogue of a store: its tables and indexes, and how they are changed.

ghost use Rattle.std.specs.Prelude.{◌≡◌, ◌≢◌, ◌⊎◌, ℕ, ◌+◌, ◌-◌, ◌*◌, ◌^◌, ◌<◌, ◌≤◌, [], ◌++◌, ◌||◌, List, false, true, length, map, take, None, Some, slice_get, slice_set, OnOk, OnErr, IfOk, IfErr, IfSome, MatchResult};
ghost use Rattle.disk_model.specs.View.{After, EachImage, IsSynced, LeavesOnly, Stays};
ghost use Rattle.qsr_value.specs.Causes.{CountsFault, next_count};
ghost use Rattle.qsr_value.specs.Encoding.{encoded_row};
ghost use Rattle.qsr_value.specs.Values.{AreTexts, Fits};
ghost use Rattle.table_file.specs.Tables.{of_others};

use crate::body::{BODY_BYTES, put_catalogue, read_catalogue};
use crate::names::repeats_name;
use crate::writer::TableWriter;
use crate::{IndexEntry, TableEntry, TableFault, TableList, laws};
use disk_model::Disk;
use page_store::{Area, Store, StoreFault, Twin};
use qsr_value::{Failed, MAX_TABLES, MAX_WIDTH, Row, Schema, Txt};
use row_page::rows_end;
use sqlite_items::Items;
use std::alloc::Global;

/// The catalogue of a store. A table's number is its place, and that of its area.
#[derive(Debug, Drop)]
pub struct Catalogue {
    pub(crate) tables: TableList,
    pub(crate) indexes: Items<IndexEntry>,
}

impl Catalogue {
    ghost use Rattle.std.specs.List.{AllByRecursion};
    ghost use Rattle.page_store.specs.Store.{AreaHolds, BeforeOrAfter, BodyReplaced, Contents, IsReady, TwinChanged, store_view};
    ghost use Rattle.page_store.specs.declared.pages.Sizes.{Sizes};
    ghost use Rattle.qsr_value.specs.Columns.{width_of};
    ghost use Rattle.qsr_value.specs.declared.row.Value.{Value};
    ghost use Rattle.row_page.specs.Framed.{rows_bytes};
    ghost use Rattle.row_page.specs.Pages.{IsNoPage};
    ghost use Rattle.table_file.specs.Appending.{HasAdded, HasCounted, IsBehind, grown_entry, with_counts};
    ghost use Rattle.table_file.specs.CatalogueBytes.{IsCatalogue, IsColumn, IsName, IsOfStore, catalogue_bytes};
    ghost use Rattle.qsr_value.specs.Names.{is_among};
    ghost use Rattle.table_file.specs.Refusals.{IsAppendFault, IsCreateFault, IsLoadFault, TableCause, column_names, create_refusal, exceeds, repeats, table_names};
    ghost use Rattle.table_file.specs.Tables.{AreTables, HasAppended, HasTables, IsTableOf, OnlyTables, RowsStand, Table, Tables, catalogue_of, entry_of, page_at, place_of, table_pages, table_part, with_rows, with_table};
    ghost use Rattle.table_file.specs.declared.entries.TableEntry.{TableEntry as Entry};

    /// Reads the catalogue of a store. It is `NotStore`, with the first page of the catalogue's twin, where the body there
    /// is no catalogue of a store of these sizes.
    pub fn load<D: Disk>(alloc: Global, store: &mut Store<'_, D>) -> Result<Catalogue, TableFault>
        ensures form { IfOk result (λ catalogue. IsCatalogue store.old.sizes catalogue) }
        ensures stands { IfOk result (λ catalogue. (store_view store.old).honest → (store_view store.old).seen.body 0 ≡ Some (catalogue_bytes catalogue)) }

        // Where these tables stand in the store, it is the catalogue that tells of them.
        ensures tables { (s : Tables) → AreTables store.old.sizes s → ((store_view store.old).honest → HasTables s (store_view store.old).seen) → (store_view store.old).honest
            → MatchResult result (λ catalogue. catalogue ≡ catalogue_of s) (λ fault. (fault ≡ TableFault.Failed) ⊎ (fault ≡ TableFault.Memory)) }
        ensures none { IfErr result (IsLoadFault store.old.sizes ((store_view store.old).honest) ((store_view store.old).seen)) }
        ensures stays { Stays (store_view store.old) (store_view store.new) }
        ensures disk_stays { Stays (D.view store.old.disk.now) (D.view store.new.disk.now) }
        ensures ready { IsReady store.old → IsReady store.new }
        ensures sizes { store.new.sizes ≡ store.old.sizes }
        ensures same { store.new.disk.ghost_name ≡ store.old.disk.ghost_name }
        ensures faults { MatchResult result (λ _. D.faults_of store.new.disk.now ≡ D.faults_of store.old.disk.now)
            (λ fault. TableCause fault (D.faults_of store.old.disk.now) (D.faults_of store.new.disk.now)) }
        ensures writes { D.writes_of store.new.disk.now ≡ D.writes_of store.old.disk.now }
        ensures syncs { D.syncs_of store.new.disk.now ≡ D.syncs_of store.old.disk.now }
    {
        // For the proof: where tables stand in the store, it is their catalogue that is read, and no other.
        laws::catalogues_are_exact();
        let mut body = [0; BODY_BYTES];
        let sizes = store.sizes();
        // For the proof: that law asks for numbers of four bytes.
        laws::are_words(sizes.table, sizes.index);
        let len = match store.current(Twin::Catalogue, &mut body) {
            Ok(len) => len,
            Err(StoreFault::NotStore { page }) => return Err(TableFault::NotStore { page }),
            Err(StoreFault::Failed | StoreFault::TooSmall { .. }) => return Err(TableFault::Failed),
        };
        match read_catalogue(alloc, &sizes, &body[..len])? {
            Some(catalogue) => Ok(catalogue),
            None => Err(TableFault::NotStore {
                page: store.page_of(Twin::Catalogue),
            }),
        }
    }

    /// How many tables there are.
    pub fn count(&self) -> u8
        requires { IsOfStore self.now }
        ensures { result ≡ length self.now.tables }
    {
        self.tables.len() as u8
    }

    /// The number of the table that has this name.
    pub fn find(&self, name: &str) -> Option<u8>
        requires { IsOfStore self.now }
        ensures place { result ≡ place_of name.now (table_names self.now) }
        ensures within { IfSome result (λ table. table < length self.now.tables) }
    {
        for (table, entry) in self.tables.as_slice().iter().enumerate() {
            if entry.name.as_str() == name {
                return Some(table as u8);
            }
        }
        None
    }

    pub fn name(&self, table: u8) -> &Txt
        requires { table < length self.now.tables }
        ensures { slice_get (map (λ entry. entry.name) self.now.tables) table ≡ Some result.now }
    {
        &self.tables.as_slice()[table as usize].name
    }

    pub fn schema(&self, table: u8) -> &Schema
        requires { table < length self.now.tables }
        ensures { slice_get (map (λ entry. entry.schema) self.now.tables) table ≡ Some result.now }
    {
        &self.tables.as_slice()[table as usize].schema
    }

    pub fn pages(&self, table: u8) -> u32
        requires { table < length self.now.tables }
        ensures { slice_get (map (λ entry. entry.pages) self.now.tables) table ≡ Some result }
    {
        self.tables.as_slice()[table as usize].pages
    }

    pub fn row_count(&self, table: u8) -> u32
        requires { table < length self.now.tables }
        ensures { slice_get (map (λ entry. entry.rows) self.now.tables) table ≡ Some result }
    {
        self.tables.as_slice()[table as usize].rows
    }

    /// Reads a page of a table, by one device read, and answers where its rows end. Those of the last page end where the
    /// catalogue says. A page that isn't of its form has rows up to its end, of which one is cut off.
    pub fn page<D: Disk>(
        &self,
        store: &mut Store<'_, D>,
        table: u8,
        page: u32,
        buf: &mut [u8; 4096],
    ) -> Result<u16, Failed>
        requires form { IsCatalogue store.old.sizes self.now }
        requires page { (entry : Entry) → slice_get self.now.tables table ≡ Some entry → page < entry.pages }
        requires table { table < length self.now.tables }
        ensures bytes { OnOk result ((store_view store.old).honest → AreaHolds (table_part table) (4096 * page) buf.new (store_view store.old).seen) }

        // The rows that stand on it.
        ensures rows { IfOk result (λ end. (t : Table) → slice_get self.now.tables table ≡ Some (entry_of t)
            → (store_view store.old).honest → RowsStand table t.columns t.rows (store_view store.old).seen → AllByRecursion (λ row. Fits t.columns row × AreTexts row) t.rows
            → take end buf.new ≡ rows_bytes (encoded_row t.columns) (page_at (table_pages t.columns t.rows) page)) }
        ensures last { IfOk result (λ end. (entry : Entry) → slice_get self.now.tables table ≡ Some entry → entry.pages ≡ page + 1 → end ≡ entry.end) }
        ensures damaged { IfOk result (λ end. (entry : Entry) → slice_get self.now.tables table ≡ Some entry → entry.pages ≢ page + 1 → IsNoPage buf.new → end ≡ 4096) }
        ensures within { IfOk result (λ end. end ≤ 4096) }
        ensures stays { Stays (store_view store.old) (store_view store.new) }
        ensures ready { IsReady store.old → IsReady store.new }
        ensures sizes { store.new.sizes ≡ store.old.sizes }
        ensures same { store.new.disk.ghost_name ≡ store.old.disk.ghost_name }
        ensures faults { CountsFault result (D.faults_of store.old.disk.now) (D.faults_of store.new.disk.now) }
        ensures reads { D.reads_of store.new.disk.now ≡ next_count (D.reads_of store.old.disk.now) }
        ensures writes { D.writes_of store.new.disk.now ≡ D.writes_of store.old.disk.now }
        ensures syncs { D.syncs_of store.new.disk.now ≡ D.syncs_of store.old.disk.now }
    {
        // For the proof: a row's bytes are no more than its columns are wide.
        laws::encodings_are_exact();
        store.read(Area::Table(table), page, buf)?;
        let entry = &self.tables.as_slice()[table as usize];
        if page + 1 == entry.pages {
            return Ok(entry.end);
        }
        Ok(rows_end(buf) as u16)
    }

    /// Creates a table without rows, by one commit. Where it is refused, nothing is changed.
    pub fn create<D: Disk>(
        &mut self,
        alloc: Global,
        store: &mut Store<'_, D>,
        name: &str,
        schema: Schema,
    ) -> Result<(), TableFault>
        requires form { IsCatalogue store.old.sizes self.old }
        requires name { IsName name.now }
        requires columns { (1 ≤ length schema) × (length schema ≤ 16) × AllByRecursion IsColumn schema }
        ensures created { OnOk result ((s : Tables) → self.old ≡ catalogue_of s → self.new ≡ catalogue_of (with_table s name.now schema)) }
        ensures form { IsCatalogue store.new.sizes self.new }
        ensures kept { OnErr result (self.new ≡ self.old) }

        // It is refused exactly where there is a reason for it, the first of which is told.
        ensures accepted { OnOk result (create_refusal (table_names self.old) name.now schema ≡ None) }
        ensures refused { IfErr result (IsCreateFault (create_refusal (table_names self.old) name.now schema)) }
        ensures untouched { IfErr result (λ fault. (fault ≡ TableFault.Failed) ⊎ (store.new ≡ store.old)) }

        // A crash at any moment leaves the tables as they were, or with the new one.
        ensures any_moment { IsReady store.old → (s : Tables) → self.old ≡ catalogue_of s → EachImage (store_view store.old) (HasTables s)
            → LeavesOnly (store_view store.old) (store_view store.new) (λ m. HasTables s m ⊎ HasTables (with_table s name.now schema) m) }
        ensures committed { OnOk result (IsReady store.old → (s : Tables) → self.old ≡ catalogue_of s → EachImage (store_view store.old) (HasTables s)
            → EachImage (store_view store.new) (HasTables (with_table s name.now schema))) }
        ensures others { LeavesOnly (store_view store.old) (store_view store.new) (After OnlyTables (store_view store.old)) }
        ensures synced { OnOk result (IsSynced (store_view store.new)) }
        ensures ready { OnOk result (IsReady store.old → IsReady store.new) }
        ensures sizes { store.new.sizes ≡ store.old.sizes }
        ensures same { store.new.disk.ghost_name ≡ store.old.disk.ghost_name }
        ensures faults { MatchResult result (λ _. D.faults_of store.new.disk.now ≡ D.faults_of store.old.disk.now)
            (λ fault. TableCause fault (D.faults_of store.old.disk.now) (D.faults_of store.new.disk.now)) }
    {
        if let Some(fault) = self.refusal(name, &schema) {
            return Err(fault);
        }
        let entry = TableEntry {
            name: Txt::from_str(alloc, name)?,
            schema,
            rows: 0,
            pages: 0,
            end: 0,
        };
        let Ok(()) = self.tables.push(entry) else {
            return Err(TableFault::Memory);
        };
        match self.commit_body(store) {
            Ok(()) => Ok(()),
            Err(Failed) => {
                self.tables.pop();
                Err(TableFault::Failed)
            }
        }
    }

    /// Why a table of this name and these columns isn't created.
    fn refusal(&self, name: &str, schema: &Schema) -> Option<TableFault>
        requires tables { IsOfStore self.now }
        requires columns { length schema.now ≤ 16 }
        ensures { result ≡ create_refusal (table_names self.now) name.now schema.now }
    {
        if self.is_taken(name, schema) {
            return Some(TableFault::Exists);
        }
        let bytes = schema.width();
        if bytes > MAX_WIDTH {
            return Some(TableFault::RowTooWide { bytes });
        }
        if self.tables.len() >= MAX_TABLES {
            return Some(TableFault::CatalogFull);
        }
        None
    }

    /// Whether a table has this name, or two of these columns have one.
    fn is_taken(&self, name: &str, schema: &Schema) -> bool
        requires { IsOfStore self.now }
        ensures { result ≡ is_among name.now (table_names self.now) || repeats (column_names schema.now) }
    {
        if self.find(name).is_some() {
            return true;
        }
        repeats_name(schema.as_slice())
    }

    /// Makes this catalogue that of the store: a crash at any moment leaves the old or the new one. It takes no memory.
    fn commit_body<D: Disk>(&self, store: &mut Store<'_, D>) -> Result<(), Failed>
        requires { IsOfStore self.now }
        ensures any_moment { IsReady store.old → LeavesOnly (store_view store.old) (store_view store.new)
            (BeforeOrAfter (BodyReplaced 0 (catalogue_bytes self.now)) (store_view store.old)) }
        ensures committed { OnOk result (IsReady store.old → EachImage (store_view store.new)
            (After (BodyReplaced 0 (catalogue_bytes self.now)) (store_view store.old))) }
        ensures synced { OnOk result (IsSynced (store_view store.new)) }
        ensures ready { OnOk result (IsReady store.old → IsReady store.new) }
        ensures within { LeavesOnly (store_view store.old) (store_view store.new) (After (TwinChanged 0) (store_view store.old)) }
        ensures sizes { store.new.sizes ≡ store.old.sizes }
        ensures same { store.new.disk.ghost_name ≡ store.old.disk.ghost_name }
        ensures faults { CountsFault result (D.faults_of store.old.disk.now) (D.faults_of store.new.disk.now) }
    {
        let mut body = [0; BODY_BYTES];
        let len = put_catalogue(self, &mut body);
        store.commit(Twin::Catalogue, &body[..len])
    }

    /// A writer that adds rows to a table.
    pub fn writer(&self, table: u8) -> TableWriter
        requires form { IsOfStore self.now }
        requires table { table < length self.now.tables }
        ensures table { result.table ≡ table }
        ensures page { (sizes : Sizes) → IsCatalogue sizes self.now → 1 ≤ sizes.table → result.page < sizes.table }
        ensures rows { slice_get (map (λ entry. entry.rows) self.now.tables) table ≡ Some result.rows }
        ensures counted { (t : Table) → slice_get self.now.tables table ≡ Some (entry_of t) → HasCounted t.columns t.rows result }
        ensures has { (t : Table) (m : Contents) → slice_get self.now.tables table ≡ Some (entry_of t) → RowsStand table t.columns t.rows m → HasAdded t.columns t.rows result m }
        ensures behind { (s : Tables) → self.now ≡ catalogue_of s → IsBehind s result }
    {
        let entry = &self.tables.as_slice()[table as usize];
        TableWriter::behind(table, entry)
    }

    /// Makes the rows that a writer has added the table's, by one commit, and answers how many rows the table has then.
    /// Indexes of the table are dropped in the same commit. It takes no memory.
    pub fn commit_rows<D: Disk>(
        &mut self,
        store: &mut Store<'_, D>,
        writer: &mut TableWriter,
    ) -> Result<u32, Failed>
        requires form { IsCatalogue store.old.sizes self.old }
        requires table { writer.old.table < length self.old.tables }
        requires page { writer.old.page < store.old.sizes.table }
        ensures rows { IfOk result (λ rows. rows ≡ writer.old.rows) }
        ensures catalogue { OnOk result ((s : Tables) (t : Table) (rows : List (List Value)) → self.old ≡ catalogue_of s → slice_get s.tables writer.old.table ≡ Some t
            → HasCounted t.columns (t.rows ++ rows) writer.old → self.new ≡ catalogue_of (with_rows s writer.old.table t rows)) }
        ensures entry { OnOk result ((entry : Entry) → slice_get self.old.tables writer.old.table ≡ Some entry
            → (self.new.tables ≡ slice_set self.old.tables writer.old.table (grown_entry entry writer.old)) × (self.new.indexes ≡ of_others writer.old.table self.old.indexes)) }
        ensures form { IsCatalogue store.new.sizes self.new }

        // A crash at any moment leaves the table with the rows that it had, or with all that were added behind them.
        ensures any_moment { IsReady store.old → (s : Tables) (t : Table) (rows : List (List Value)) → self.old ≡ catalogue_of s → slice_get s.tables writer.old.table ≡ Some t
            → IsBehind s writer.old → EachImage (store_view store.old) (HasTables s)
            → ((store_view store.old).honest → HasAdded t.columns (t.rows ++ rows) writer.old (store_view store.old).seen)
            → LeavesOnly (store_view store.old) (store_view store.new) (λ m. HasTables s m ⊎ HasTables (with_rows s writer.old.table t rows) m) }
        ensures committed { OnOk result (IsReady store.old → (s : Tables) (t : Table) (rows : List (List Value)) → self.old ≡ catalogue_of s → slice_get s.tables writer.old.table ≡ Some t
            → IsBehind s writer.old → EachImage (store_view store.old) (HasTables s)
            → ((store_view store.old).honest → HasAdded t.columns (t.rows ++ rows) writer.old (store_view store.old).seen)
            → EachImage (store_view store.new) (HasTables (with_rows s writer.old.table t rows))) }
        ensures others { LeavesOnly (store_view store.old) (store_view store.new) (After OnlyTables (store_view store.old)) }
        ensures synced { OnOk result (IsSynced (store_view store.new)) }
        ensures ready { OnOk result (IsReady store.old → IsReady store.new) }
        ensures sizes { store.new.sizes ≡ store.old.sizes }
        ensures same { store.new.disk.ghost_name ≡ store.old.disk.ghost_name }
        ensures faults { CountsFault result (D.faults_of store.old.disk.now) (D.faults_of store.new.disk.now) }
    {
        writer.flush(store)?;
        self.grow(writer);
        self.commit_body(store)?;
        Ok(writer.rows)
    }

    /// Says of a table what is to be said with the rows that a writer has added, and drops its indexes. It takes no memory.
    fn grow(&mut self, writer: &TableWriter)
        requires table { writer.now.table < length self.old.tables }
        requires page { writer.now.page + 1 < 2 ^ 32 }
        ensures tables { (entry : Entry) → slice_get self.old.tables writer.now.table ≡ Some entry
            → self.new.tables ≡ slice_set self.old.tables writer.now.table (grown_entry entry writer.now) }
        ensures indexes { self.new.indexes ≡ of_others writer.now.table self.old.indexes }
    {
        let pages = if writer.end == 0 {
            writer.page
        } else {
            writer.page + 1
        };
        Catalogue::set_counts(
            &mut self.tables,
            writer.table as usize,
            writer.rows,
            pages,
            writer.end,
        );
        drop_indexes(&mut self.indexes, writer.table);
    }

    /// Sets how many rows and pages a table has and where the rows of its last page end.
    fn set_counts(tables: &mut TableList, table: usize, rows: u32, pages: u32, end: u16)
        requires { table < length tables.old }
        ensures { (entry : Entry) → slice_get tables.old table ≡ Some entry → tables.new ≡ slice_set tables.old table (with_counts entry rows pages end) }
    {
        let entry = tables.get_mut(table);
        entry.rows = rows;
        entry.pages = pages;
        entry.end = end;
    }

    /// Adds rows to a table in order, by one commit, and answers how many rows it has then. Where it is refused, the
    /// catalogue and the tables are as they were. It takes no memory.
    pub fn append<D: Disk>(
        &mut self,
        store: &mut Store<'_, D>,
        name: &str,
        rows: &[Row],
    ) -> Result<u32, TableFault>
        requires form { IsCatalogue store.old.sizes self.old }
        requires rows { (table : ℕ) (entry : Entry) → place_of name.now (table_names self.old) ≡ Some table → slice_get self.old.tables table ≡ Some entry
            → AllByRecursion (Fits entry.schema) rows.now }
        ensures catalogue { IfOk result (λ count. (s : Tables) → self.old ≡ catalogue_of s → (table : ℕ) × (t : Table) × IsTableOf s name.now table t × (count ≡ length (t.rows ++ rows.now)) × (exceeds store.old.sizes t.columns (t.rows ++ rows.now) ≡ false)
            × (self.new ≡ catalogue_of (with_rows s table t rows.now))) }
        ensures form { IsCatalogue store.new.sizes self.new }
        ensures refused { IfErr result (λ fault. (s : Tables) → self.old ≡ catalogue_of s → IsAppendFault store.old.sizes s name.now rows.now fault) }
        ensures kept { IfErr result (λ fault. (fault ≡ TableFault.Failed) ⊎ (self.new ≡ self.old)) }

        // A crash at any moment leaves the tables as they were, or with all these rows.
        ensures any_moment { IsReady store.old → (s : Tables) → self.old ≡ catalogue_of s → EachImage (store_view store.old) (HasTables s)
            → LeavesOnly (store_view store.old) (store_view store.new) (λ m. HasTables s m ⊎ HasAppended s name.now rows.now m) }
        ensures committed { OnOk result (IsReady store.old → (s : Tables) → self.old ≡ catalogue_of s → EachImage (store_view store.old) (HasTables s)
            → EachImage (store_view store.new) (HasAppended s name.now rows.now)) }
        ensures refused_crash { IfErr result (λ fault. (fault ≡ TableFault.Failed) ⊎ ((s : Tables) → self.old ≡ catalogue_of s → EachImage (store_view store.old) (HasTables s)
            → LeavesOnly (store_view store.old) (store_view store.new) (HasTables s))) }
        ensures others { LeavesOnly (store_view store.old) (store_view store.new) (After OnlyTables (store_view store.old)) }
        ensures texts { OnOk result (AllByRecursion AreTexts rows.now) }
        ensures ready { IfErr result (λ fault. (fault ≡ TableFault.Failed) ⊎ (IsReady store.old → IsReady store.new)) }
        ensures ready_behind { OnOk result (IsReady store.old → IsReady store.new) }
        ensures sizes { store.new.sizes ≡ store.old.sizes }
        ensures same { store.new.disk.ghost_name ≡ store.old.disk.ghost_name }
        ensures faults { MatchResult result (λ _. D.faults_of store.new.disk.now ≡ D.faults_of store.old.disk.now)
            (λ fault. TableCause fault (D.faults_of store.old.disk.now) (D.faults_of store.new.disk.now)) }
    {
        let Some(table) = self.find(name) else {
            return Err(TableFault::NoTable);
        };
        let mut writer = self.writer(table);
        let schema = self.schema(table);
        match Catalogue::push_rows(&mut writer, store, schema, rows) {
            Ok(()) => {}
            Err(fault) => return Err(fault),
        }
        match self.commit_rows(store, &mut writer) {
            Ok(count) => Ok(count),
            Err(Failed) => Err(TableFault::Failed),
        }
    }

    /// Adds rows in order. Where it fails some of them may be added.
    fn push_rows<D: Disk>(
        writer: &mut TableWriter,
        store: &mut Store<'_, D>,
        schema: &Schema,
        rows: &[Row],
    ) -> Result<(), TableFault>
        requires rows { AllByRecursion (Fits schema.now) rows.now }
        requires width { width_of schema.now ≤ 1000 }
        requires page { writer.old.page < store.old.sizes.table }
        ensures counted { OnOk result ((before : List (List Value)) → HasCounted schema.now before writer.old → HasCounted schema.now (before ++ rows.now) writer.new) }
        ensures added { OnOk result ((before : List (List Value)) → ((store_view store.old).honest → HasAdded schema.now before writer.old (store_view store.old).seen)
            → (store_view store.new).honest → HasAdded schema.now (before ++ rows.now) writer.new (store_view store.new).seen) }
        ensures fault { IfErr result (λ fault. (fault ≡ TableFault.Failed) ⊎ ((fault ≡ TableFault.TableFull)
            × ((before : List (List Value)) → HasCounted schema.now before writer.old → exceeds store.old.sizes schema.now (before ++ rows.now) ≡ true))) }
        ensures page { writer.new.page < store.new.sizes.table }
        ensures table { writer.new.table ≡ writer.old.table }
        ensures others { LeavesOnly (store_view store.old) (store_view store.new) (After OnlyTables (store_view store.old)) }
        ensures behind { (s : Tables) → IsBehind s writer.old → IsBehind s writer.new }
        ensures keeps { (s : Tables) → IsBehind s writer.old → EachImage (store_view store.old) (HasTables s)
            → LeavesOnly (store_view store.old) (store_view store.new) (HasTables s) }
        ensures ready { IsReady store.old → IsReady store.new }
        ensures texts { OnOk result (AllByRecursion AreTexts rows.now) }
        ensures sizes { store.new.sizes ≡ store.old.sizes }
        ensures same { store.new.disk.ghost_name ≡ store.old.disk.ghost_name }
        ensures faults { MatchResult result (λ _. D.faults_of store.new.disk.now ≡ D.faults_of store.old.disk.now)
            (λ fault. TableCause fault (D.faults_of store.old.disk.now) (D.faults_of store.new.disk.now)) }
    {
        // For the proof: where the table has no room for the rows up to one, it has none for all of them.
        laws::more_rows_exceed();
        for row in rows {
            match writer.push(store, schema, row) {
                Ok(()) => {}
                Err(fault) => return Err(fault),
            }
        }
        Ok(())
    }
}

/// Drops the indexes of a table.
fn drop_indexes(indexes: &mut Items<IndexEntry>, table: u8)
    ensures { indexes.new ≡ of_others table indexes.old }
{
    let mut at = indexes.len();
    while 0 < at {
        at -= 1;
        if indexes.as_slice()[at].table == table {
            indexes.remove(at);
        }
    }
}
