ghost use Rattle.std.specs.Prelude.{◌≡◌, ◌⊎◌, ◌+◌, ◌<◌, ◌≤◌, ℕ, Bool, [], ◌∷◌, Err, Ok, IfErr, IfNone, IfOk, IfSome, MatchResult, OnOk, Some, Option, List, drop, false, length, map, slice_get, take, true};
ghost use Rattle.std.specs.Io.KnownBytes.{IsAtEnd, prepend_known};
ghost use Rattle.disk_model.specs.View.{After, EachImage, LeavesOnly};
ghost use Rattle.page_store.specs.Store.{IsReady, contents_view, store_view};
ghost use Rattle.page_store.specs.declared.pages.Sizes.{Sizes};
ghost use Rattle.qsr_value.specs.Causes.{CountsFault};
ghost use Rattle.qsr_value.specs.Columns.{width_of};
ghost use Rattle.qsr_value.specs.Values.{AreTexts, Fits};
ghost use Rattle.table_file.specs.Appending.{IsBehind};
ghost use Rattle.table_file.specs.CatalogueBytes.{IsCatalogue};
ghost use Rattle.table_file.specs.Fields.{read_row};
ghost use Rattle.table_file.specs.Tables.{AreTables, HasTables, IsTableOf, OnlyTables, RowsStand, Table, Tables, catalogue_of, entry_of};
ghost use Rattle.qsr_top.specs.Create.{IsToldOfCatalogue};
ghost use Rattle.row_script.specs.Ends.{StatusCause, status_of};
ghost use Rattle.input_lines.specs.Lines.{unended, whole};
ghost use Rattle.qsr_top.specs.Load.{ComesToLoad, LoadRan, Loads, StandsLoaded, as_field, row_in};
ghost use Rattle.input_lines.specs.NextLine.{IsHeld, IsNextTold};
ghost use Rattle.qsr_top.specs.RowsRead.{IsRead, IsReadFault, IsReadFull, IsUnread, LoadsAll, LoadsRows, ReadsRows, WritesBehind, text_row};
ghost use Rattle.qsr_top.specs.Stored.{Stands, StandsFor};
ghost use Rattle.qsr_top.specs.Told.{ToldCause};
ghost use Rattle.qsr_value.specs.declared.limits.TheConstants.{MAX_LINE, MAX_LINES};

use crate::told::{Told, told_of_fault, told_of_opening};
use disk_model::Disk;
use input_lines::{LineBuffer, NextLine, without_cr};
use page_store::Store;
use qsr_io::{Failed, Sink, Source};
use qsr_value::{MAX_LINES, Memory, Row, Schema};
use row_script::End;
use std::alloc::Global;
use table_file::{Catalogue, TableFault, TableWriter, laws, read_fields};

/// Adds the rows of the input to the table of this name, and says what came of it. This layer is there for the sink.
pub fn run<D: Disk, S: Source, K: Sink>(
    alloc: Global,
    name: &str,
    disk: &mut D,
    source: &mut S,
    sink: &mut K,
) -> End
    ensures ran { LoadRan (D.size_of disk.old) name.now (S.left source.old) (S.left source.new) (D.view disk.old) (D.view disk.new) (K.given sink.old) (K.given sink.new)
        (D.faults_of disk.old) (D.faults_of disk.new) (S.faults_of source.old) (S.faults_of source.new) (K.faults_of sink.old) (K.faults_of sink.new) result }
    ensures cause { StatusCause (status_of result) (D.faults_of disk.old) (D.faults_of disk.new) (S.faults_of source.old) (S.faults_of source.new) (K.faults_of sink.old) (K.faults_of sink.new) }
    ensures any_moment { (sizes : Sizes) (s : Tables) → AreTables sizes s → StandsFor (D.size_of disk.old) sizes s (D.view disk.old) → (D.view disk.old).honest
        → LeavesOnly (contents_view sizes (D.view disk.old)) (contents_view sizes (D.view disk.new))
        (λ m. Stands (D.size_of disk.old) sizes s m ⊎ StandsLoaded (D.size_of disk.old) sizes s name.now (S.left source.old) m) }
    ensures others { (sizes : Sizes) (s : Tables) → AreTables sizes s → StandsFor (D.size_of disk.old) sizes s (D.view disk.old) → (D.view disk.old).honest
        → LeavesOnly (contents_view sizes (D.view disk.old)) (contents_view sizes (D.view disk.new)) (After OnlyTables (contents_view sizes (D.view disk.old))) }
{
    load(alloc, name, disk, source).tell(alloc, name, sink)
}

/// Adds the rows of the input to the table of this name. This layer is there to open the store: its clauses are of the disk.
fn load<D: Disk, S: Source>(alloc: Global, name: &str, disk: &mut D, source: &mut S) -> Told
    ensures comes { ComesToLoad (D.size_of disk.old) name.now (S.left source.old) (S.left source.new) (D.view disk.old) (D.view disk.new)
        (D.faults_of disk.old) (D.faults_of disk.new) (S.faults_of source.old) (S.faults_of source.new) result }
    ensures any_moment { (sizes : Sizes) (s : Tables) → AreTables sizes s → StandsFor (D.size_of disk.old) sizes s (D.view disk.old) → (D.view disk.old).honest
        → LeavesOnly (contents_view sizes (D.view disk.old)) (contents_view sizes (D.view disk.new))
        (λ m. Stands (D.size_of disk.old) sizes s m ⊎ StandsLoaded (D.size_of disk.old) sizes s name.now (S.left source.old) m) }
    ensures others { (sizes : Sizes) (s : Tables) → AreTables sizes s → StandsFor (D.size_of disk.old) sizes s (D.view disk.old) → (D.view disk.old).honest
        → LeavesOnly (contents_view sizes (D.view disk.old)) (contents_view sizes (D.view disk.new)) (After OnlyTables (contents_view sizes (D.view disk.old))) }
{
    match Store::open(disk) {
        Ok(mut store) => load_in(alloc, name, &mut store, source),
        Err(unopened) => told_of_opening(unopened.fault),
    }
}

/// Adds the rows of the input to a table of an open store. This layer is there to read the catalogue, and to find the table.
fn load_in<D: Disk, S: Source>(
    alloc: Global,
    name: &str,
    store: &mut Store<'_, D>,
    source: &mut S,
) -> Told
    ensures cause { ToldCause result (D.faults_of store.old.disk.now) (D.faults_of store.new.disk.now) (S.faults_of source.old) (S.faults_of source.new) }
    ensures none { IsToldOfCatalogue store.old.sizes ((store_view store.old).honest) ((store_view store.old).seen) result }
    ensures loads { IsReady store.old → (size : ℕ) (s : Tables) → AreTables store.old.sizes s → StandsFor size store.old.sizes s (D.view store.old.disk.now)
        → (store_view store.old).honest → Loads size store.old.sizes s name.now (S.left source.old) (S.left source.new) (D.view store.new.disk.now) result }
    ensures any_moment { IsReady store.old → (size : ℕ) (s : Tables) → AreTables store.old.sizes s → StandsFor size store.old.sizes s (D.view store.old.disk.now)
        → (store_view store.old).honest → LeavesOnly (store_view store.old) (store_view store.new)
        (λ m. Stands size store.old.sizes s m ⊎ StandsLoaded size store.old.sizes s name.now (S.left source.old) m) }
    ensures others { LeavesOnly (store_view store.old) (store_view store.new) (After OnlyTables (store_view store.old)) }
    ensures sizes { store.new.sizes ≡ store.old.sizes }
    ensures same { store.new.disk.ghost_name ≡ store.old.disk.ghost_name }
{
    let mut catalogue = match Catalogue::load(alloc, store) {
        Ok(catalogue) => catalogue,
        Err(fault) => return told_of_fault(fault),
    };
    match catalogue.find(name) {
        Some(table) => load_table(alloc, &mut catalogue, table, store, source),
        None => Told::NoTable,
    }
}

/// Adds the rows of the input to the table of this number. This layer is there for the commit, which comes behind the last row.
fn load_table<D: Disk, S: Source>(
    alloc: Global,
    catalogue: &mut Catalogue,
    table: u8,
    store: &mut Store<'_, D>,
    source: &mut S,
) -> Told
    requires form { IsCatalogue store.old.sizes catalogue.old }
    requires table { table < length catalogue.old.tables }
    ensures cause { ToldCause result (D.faults_of store.old.disk.now) (D.faults_of store.new.disk.now) (S.faults_of source.old) (S.faults_of source.new) }
    ensures none { IsToldOfCatalogue store.old.sizes ((store_view store.old).honest) ((store_view store.old).seen) result }
    ensures loads { IsReady store.old → (size : ℕ) (s : Tables) → AreTables store.old.sizes s → catalogue.old ≡ catalogue_of s
        → StandsFor size store.old.sizes s (D.view store.old.disk.now) → (store_view store.old).honest
        → (name : List ℕ) (t : Table) → IsTableOf s name table t
        → Loads size store.old.sizes s name (S.left source.old) (S.left source.new) (D.view store.new.disk.now) result }
    ensures any_moment { IsReady store.old → (size : ℕ) (s : Tables) → AreTables store.old.sizes s → catalogue.old ≡ catalogue_of s
        → StandsFor size store.old.sizes s (D.view store.old.disk.now) → (store_view store.old).honest
        → (name : List ℕ) (t : Table) → IsTableOf s name table t → LeavesOnly (store_view store.old) (store_view store.new)
        (λ m. Stands size store.old.sizes s m ⊎ StandsLoaded size store.old.sizes s name (S.left source.old) m) }
    ensures others { LeavesOnly (store_view store.old) (store_view store.new) (After OnlyTables (store_view store.old)) }
    ensures sizes { store.new.sizes ≡ store.old.sizes }
    ensures same { store.new.disk.ghost_name ≡ store.old.disk.ghost_name }
{
    let mut writer = match read_table(alloc, catalogue, table, store, source) {
        Ok(writer) => writer,
        Err(told) => return told,
    };
    match catalogue.commit_rows(store, &mut writer) {
        Ok(rows) => Told::Loaded { rows },
        Err(Failed) => Told::DiskFault,
    }
}

/// Reads the rows of the input behind those of the table of this number. They aren't the table's before they are committed. This
/// layer is there for the writer that the rows go to.
fn read_table<D: Disk, S: Source>(
    alloc: Global,
    catalogue: &Catalogue,
    table: u8,
    store: &mut Store<'_, D>,
    source: &mut S,
) -> Result<TableWriter, Told>
    requires form { IsCatalogue store.old.sizes catalogue.now }
    requires table { table < length catalogue.now.tables }
    ensures read { IfOk result (λ writer. (t : Table) → slice_get catalogue.now.tables table ≡ Some (entry_of t)
        → ((store_view store.old).honest → RowsStand table t.columns t.rows (store_view store.old).seen)
        → IsRead store.old.sizes t (S.left source.old) (S.left source.new) false writer (store_view store.new)) }
    ensures fault { IfErr result (λ told. (t : Table) → slice_get catalogue.now.tables table ≡ Some (entry_of t)
        → ((store_view store.old).honest → RowsStand table t.columns t.rows (store_view store.old).seen)
        → IsReadFault (λ told. IsUnread t.columns 1 (S.left source.old) (Err told)) (IsReadFull store.old.sizes t (S.left source.old) (S.left source.new)) told) }
    ensures none { IfErr result (IsToldOfCatalogue store.old.sizes ((store_view store.old).honest) ((store_view store.old).seen)) }
    ensures cause { MatchResult result (λ _. (D.faults_of store.new.disk.now ≡ D.faults_of store.old.disk.now) × (S.faults_of source.new ≡ S.faults_of source.old))
        (λ told. ToldCause told (D.faults_of store.old.disk.now) (D.faults_of store.new.disk.now) (S.faults_of source.old) (S.faults_of source.new)) }
    ensures table { IfOk result (λ writer. writer.table ≡ table) }
    ensures page { IfOk result (λ writer. writer.page < store.new.sizes.table) }
    ensures behind { IfOk result (λ writer. (s : Tables) → catalogue.now ≡ catalogue_of s → IsBehind s writer) }
    ensures keeps { (s : Tables) → catalogue.now ≡ catalogue_of s → EachImage (store_view store.old) (HasTables s)
        → LeavesOnly (store_view store.old) (store_view store.new) (HasTables s) }
    ensures others { LeavesOnly (store_view store.old) (store_view store.new) (After OnlyTables (store_view store.old)) }
    ensures ready { IsReady store.old → IsReady store.new }
    ensures sizes { store.new.sizes ≡ store.old.sizes }
    ensures same { store.new.disk.ghost_name ≡ store.old.disk.ghost_name }
{
    let mut input = RowInput::new(alloc)?;
    let mut writer = catalogue.writer(table);
    match input.read_rows(alloc, catalogue.schema(table), store, &mut writer, source) {
        Ok(true) => Err(Told::TableFull),
        Ok(false) => Ok(writer),
        Err(told) => Err(told),
    }
}

/// An input of rows that is being read.
#[derive(Drop)]
struct RowInput {
    lines: LineBuffer,
    /// How many lines were read.
    served: u32,
    ghost counted: { served ≤ MAX_LINES },
}

impl RowInput {
    fn new(alloc: Global) -> Result<RowInput, Memory>
        ensures { IfOk result (λ input. (input.lines ≡ []) × (input.served ≡ 0)) }
    {
        Ok(RowInput {
            lines: LineBuffer::new(alloc)?,
            served: 0,
        })
    }

    /// Reads all the rows, and adds those for which the table has room. It answers whether there was one for which it had none.
    fn read_rows<D: Disk, S: Source>(
        &mut self,
        alloc: Global,
        schema: &Schema,
        store: &mut Store<'_, D>,
        writer: &mut TableWriter,
        source: &mut S,
    ) -> Result<bool, Told>
        requires columns { length schema.now ≤ 16 }
        requires width { width_of schema.now ≤ 1000 }
        requires page { writer.old.page < store.old.sizes.table }
        ensures all { IfOk result (λ full. LoadsAll store.old.sizes schema.now (self.old.served + 1) (prepend_known self.old.lines (S.left source.old)) (S.left source.new)
            false writer.old (store_view store.old) full writer.new (store_view store.new)) }
        ensures fault { IfErr result (IsReadFault (λ told. IsUnread schema.now (self.old.served + 1) (prepend_known self.old.lines (S.left source.old)) (Err told)) ⊥) }
        ensures cause { MatchResult result (λ _. (D.faults_of store.new.disk.now ≡ D.faults_of store.old.disk.now) × (S.faults_of source.new ≡ S.faults_of source.old))
            (λ told. ToldCause told (D.faults_of store.old.disk.now) (D.faults_of store.new.disk.now) (S.faults_of source.old) (S.faults_of source.new)) }
        ensures behind { WritesBehind (store_view store.old) (store_view store.new) writer.old writer.new }
        ensures page { writer.new.page < store.new.sizes.table }
        ensures ready { IsReady store.old → IsReady store.new }
        ensures sizes { store.new.sizes ≡ store.old.sizes }
        ensures same { store.new.disk.ghost_name ≡ store.old.disk.ghost_name }
    {
        let mut full = false;
        'rows: loop {
            let Some(row) = self.next_row(alloc, schema, source)? else {
                return Ok(full);
            };
            match add(full, schema, &row, store, writer) {
                Ok(now) => full = now,
                Err(Failed) => return Err(Told::DiskFault),
            }
        }
    }

    /// Reads the next row. None at the input's end.
    fn next_row<S: Source>(
        &mut self,
        alloc: Global,
        schema: &Schema,
        source: &mut S,
    ) -> Result<Option<Row>, Told>
        requires columns { length schema.now ≤ 16 }
        ensures row { IfOk result (λ found. IfSome found (λ row. ReadsRows schema.now (self.old.served + 1) (prepend_known self.old.lines (S.left source.old))
            (self.new.served + 1) (prepend_known self.new.lines (S.left source.new)) (row ∷ []))) }
        ensures fits { IfOk result (λ found. IfSome found (λ row. Fits schema.now row × AreTexts row)) }
        ensures served { IfOk result (λ found. IfSome found (λ _. self.new.served ≡ self.old.served + 1)) }
        ensures none { IfOk result (λ found. IfNone found (IsUnread schema.now (self.old.served + 1) (prepend_known self.old.lines (S.left source.old)) (Ok []) × IsAtEnd (S.left source.new))) }
        ensures fault { IfErr result (IsReadFault (λ told. IsUnread schema.now (self.old.served + 1) (prepend_known self.old.lines (S.left source.old)) (Err told)) ⊥) }
        ensures cause { MatchResult result (λ _. S.faults_of source.new ≡ S.faults_of source.old)
            (λ told. (disk : ℕ) → ToldCause told disk disk (S.faults_of source.old) (S.faults_of source.new)) }
    {
        let Ok(next) = self.lines.next_line(source) else {
            return Err(Told::SourceFault);
        };
        self.take_next(alloc, schema, next)
    }

    /// Takes the next row, of which the held input tells what line it is.
    fn take_next(
        &mut self,
        alloc: Global,
        schema: &Schema,
        next: NextLine,
    ) -> Result<Option<Row>, Told>
        requires columns { length schema.now ≤ 16 }
        requires held { IsHeld next self.old.lines }
        ensures row { IfOk result (λ found. IfSome found (λ row. (left : Option (List ℕ)) → IsNextTold next self.old.lines left
            → ReadsRows schema.now (self.old.served + 1) (prepend_known self.old.lines left) (self.new.served + 1) (prepend_known self.new.lines left) (row ∷ []))) }
        ensures fits { IfOk result (λ found. IfSome found (λ row. Fits schema.now row × AreTexts row)) }
        ensures served { IfOk result (λ found. IfSome found (λ _. self.new.served ≡ self.old.served + 1)) }
        ensures none { IfOk result (λ found. IfNone found ((left : Option (List ℕ)) → IsNextTold next self.old.lines left
            → IsUnread schema.now (self.old.served + 1) (prepend_known self.old.lines left) (Ok []) × IsAtEnd left)) }
        ensures fault { IfErr result (λ told. (left : Option (List ℕ)) → IsNextTold next self.old.lines left
            → IsReadFault (λ told. IsUnread schema.now (self.old.served + 1) (prepend_known self.old.lines left) (Err told)) ⊥ told) }
        ensures cause { IfErr result (λ told. (disk source : ℕ) → ToldCause told disk disk source source) }
    {
        match next {
            NextLine::Whole { len } => match self.take_whole(alloc, schema, len) {
                Ok(row) => Ok(Some(row)),
                Err(told) => Err(told),
            },
            NextLine::TooLong => Err(bad_line(self.served)),
            NextLine::Unended => match self.take_last(alloc, schema) {
                Ok(row) => Ok(Some(row)),
                Err(told) => Err(told),
            },
            NextLine::End => Ok(None),
        }
    }

    /// Takes the row of the line of `len` bytes that the held input begins with.
    fn take_whole(&mut self, alloc: Global, schema: &Schema, len: usize) -> Result<Row, Told>
        requires columns { length schema.now ≤ 16 }
        requires within { len < length self.old.lines }
        requires short { len ≤ MAX_LINE }
        ensures row { IfOk result (λ row. row_in schema.now (self.old.served + 1) (whole (take len self.old.lines)) ≡ Ok row) }
        ensures fits { IfOk result (λ row. Fits schema.now row × AreTexts row) }
        ensures fault { IfErr result (IsReadFault (λ told. row_in schema.now (self.old.served + 1) (whole (take len self.old.lines)) ≡ Err told) ⊥) }
        ensures cause { IfErr result (λ told. (disk source : ℕ) → ToldCause told disk disk source source) }
        ensures lines { OnOk result (self.new.lines ≡ drop (len + 1) self.old.lines) }
        ensures served { OnOk result (self.new.served ≡ self.old.served + 1) }
    {
        let line = &self.lines.as_slice()[..len];
        let row = row_of(alloc, schema, self.served, without_cr(line))?;
        self.lines.consume(len + 1);
        self.served += 1;
        Ok(row)
    }

    /// Takes the row of the last line, which is all that is held.
    fn take_last(&mut self, alloc: Global, schema: &Schema) -> Result<Row, Told>
        requires columns { length schema.now ≤ 16 }
        requires short { length self.old.lines ≤ MAX_LINE }
        ensures row { IfOk result (λ row. row_in schema.now (self.old.served + 1) (unended self.old.lines) ≡ Ok row) }
        ensures fits { IfOk result (λ row. Fits schema.now row × AreTexts row) }
        ensures fault { IfErr result (IsReadFault (λ told. row_in schema.now (self.old.served + 1) (unended self.old.lines) ≡ Err told) ⊥) }
        ensures cause { IfErr result (λ told. (disk source : ℕ) → ToldCause told disk disk source source) }
        ensures lines { OnOk result (self.new.lines ≡ []) }
        ensures served { OnOk result (self.new.served ≡ self.old.served + 1) }
    {
        let line = self.lines.as_slice();
        let len = line.len();
        let row = row_of(alloc, schema, self.served, line)?;
        self.lines.consume(len);
        self.served += 1;
        Ok(row)
    }
}

/// What is told of the line behind so many.
fn bad_line(served: u32) -> Told
    requires { served ≤ MAX_LINES }
    ensures { result ≡ Told.BadLine (served + 1) }
{
    Told::BadLine {
        number: u64::from(served) + 1,
    }
}

/// Reads the text of the line behind so many as a row of these columns.
fn row_of(alloc: Global, schema: &Schema, served: u32, text: &[u8]) -> Result<Row, Told>
    requires columns { length schema.now ≤ 16 }
    requires served { served ≤ MAX_LINES }
    ensures row { IfOk result (λ row. text_row schema.now (served + 1) text.now ≡ Ok row) }
    ensures fits { IfOk result (λ row. Fits schema.now row × AreTexts row) }
    ensures count { OnOk result (served < MAX_LINES) }
    ensures fault { IfErr result (IsReadFault (λ told. text_row schema.now (served + 1) text.now ≡ Err told) ⊥) }
    ensures cause { IfErr result (λ told. (disk source : ℕ) → ToldCause told disk disk source source) }
{
    if served >= MAX_LINES {
        return Err(bad_line(served));
    }
    match read_fields(alloc, schema, served + 1, text) {
        Ok(row) => Ok(row),
        Err(fault) => Err(told_of_fault(fault)),
    }
}

/// Adds a row to a table, unless it is full. It answers whether it has no room for it.
fn add<D: Disk>(
    full: bool,
    schema: &Schema,
    row: &Row,
    store: &mut Store<'_, D>,
    writer: &mut TableWriter,
) -> Result<bool, Failed>
    requires row { Fits schema.now row.now }
    requires width { width_of schema.now ≤ 1000 }
    requires page { writer.old.page < store.old.sizes.table }
    ensures loads { IfOk result (λ now. LoadsRows store.old.sizes schema.now (row.now ∷ []) full writer.old (store_view store.old) now writer.new (store_view store.new)) }
    ensures faults { CountsFault result (D.faults_of store.old.disk.now) (D.faults_of store.new.disk.now) }
    ensures behind { WritesBehind (store_view store.old) (store_view store.new) writer.old writer.new }
    ensures page { writer.new.page < store.new.sizes.table }
    ensures ready { IsReady store.old → IsReady store.new }
    ensures sizes { store.new.sizes ≡ store.old.sizes }
    ensures same { store.new.disk.ghost_name ≡ store.old.disk.ghost_name }
{
    // For the proof: where there is no room for some rows, there is none for these and more.
    laws::more_rows_exceed();
    if full {
        return Ok(true);
    }
    match writer.push(store, schema, row) {
        Ok(()) => Ok(false),
        Err(TableFault::TableFull) => Ok(true),
        Err(_) => Err(Failed),
    }
}
