ghost use Rattle.std.specs.Prelude.{◌≡◌, ◌<◌, ◌≤◌, ℕ, IfErr, IfOk, MatchResult, Ok, Some, length, map, slice_get};
ghost use Rattle.std.specs.Io.KnownBytes.{IsAtEnd};
ghost use Rattle.input_lines.specs.OneLine.{IsOnlyLine};
ghost use Rattle.qsr_value.specs.declared.limits.TheConstants.{MAX_LINE};
ghost use Rattle.disk_model.specs.View.{Stays};
ghost use Rattle.page_store.specs.Store.{store_view};
ghost use Rattle.page_store.specs.declared.pages.Sizes.{Sizes};
ghost use Rattle.table_file.specs.CatalogueBytes.{IsOfStore};
ghost use Rattle.table_file.specs.Refusals.{HasNoCatalogue};
ghost use Rattle.table_file.specs.Tables.{AreTables, HasTables, Tables};
ghost use Rattle.qsr_top.specs.Create.{IsToldOfCatalogue, IsToldOfDisk};
ghost use Rattle.row_script.specs.Ends.{StatusCause, status_of};
ghost use Rattle.qsr_top.specs.Explain.{ComesToExplain, ExplainRan, GivesTables, IsNoLine, IsStoreFault, IsUnstored, table_of_entry};
ghost use Rattle.qsr_top.specs.Stored.{IsNotStored, StandsFor};
ghost use Rattle.qsr_top.specs.Told.{ToldCause};

use crate::query_answer::{QueryAnswer, answer_to};
use crate::told::{Told, say_line, told_of_fault, told_of_line, told_of_opening};
use disk_model::Disk;
use input_lines::read_one_line;
use page_store::Store;
use qsr_io::{Sink, Source};
use qsr_value::{ListOf, Memory, TryCopy, Txt};
use row_script::End;
use sql_bind::{NamedTable, Names};
use std::alloc::Global;
use table_file::Catalogue;

/// Says what comes of the query that the input is over the tables of the store. This layer is there for the sink.
pub fn run<D: Disk, S: Source, K: Sink>(
    alloc: Global,
    disk: &mut D,
    source: &mut S,
    sink: &mut K,
) -> End
    ensures ran { ExplainRan (D.size_of disk.old) (S.left source.old) (S.left source.new) (D.view disk.old) (K.given sink.old) (K.given sink.new)
        (D.faults_of disk.old) (D.faults_of disk.new) (S.faults_of source.old) (S.faults_of source.new) (K.faults_of sink.old) (K.faults_of sink.new) result }
    ensures cause { StatusCause (status_of result) (D.faults_of disk.old) (D.faults_of disk.new) (S.faults_of source.old) (S.faults_of source.new) (K.faults_of sink.old) (K.faults_of sink.new) }
    ensures stays { Stays (D.view disk.old) (D.view disk.new) }
    ensures writes { D.writes_of disk.new ≡ D.writes_of disk.old }
{
    match explain(alloc, disk, source) {
        Ok(answer) => say_line(answer.line(alloc), End::Refused, sink),
        Err(told) => told.tell(alloc, "", sink),
    }
}

/// What is answered to the query that the input is. This layer is there to read the tables before the input.
fn explain<D: Disk, S: Source>(
    alloc: Global,
    disk: &mut D,
    source: &mut S,
) -> Result<QueryAnswer, Told>
    ensures comes { ComesToExplain (D.size_of disk.old) (S.left source.old) (S.left source.new) (D.view disk.old)
        (D.faults_of disk.old) (D.faults_of disk.new) (S.faults_of source.old) (S.faults_of source.new) result }
    ensures stays { Stays (D.view disk.old) (D.view disk.new) }
    ensures writes { D.writes_of disk.new ≡ D.writes_of disk.old }
{
    let tables = stored_tables(alloc, disk)?;
    let line = one_line(alloc, source)?;
    Ok(answer_to(alloc, line.as_str(), &tables)?)
}

/// The text of the one line of the input. This layer is there to say of a fault what is told of it.
fn one_line<S: Source>(alloc: Global, source: &mut S) -> Result<Txt, Told>
    ensures line { IfOk result (λ text. IsOnlyLine (S.left source.old) (Ok text) × IsAtEnd (S.left source.new)) }
    ensures short { IfOk result (λ text. length text ≤ MAX_LINE) }
    ensures none { IfErr result (IsNoLine (IsOnlyLine (S.left source.old))) }
    ensures cause { MatchResult result (λ _. S.faults_of source.new ≡ S.faults_of source.old)
        (λ told. (disk : ℕ) → ToldCause told disk disk (S.faults_of source.old) (S.faults_of source.new)) }
{
    match read_one_line(alloc, source) {
        Ok(line) => Ok(line),
        Err(fault) => Err(told_of_line(fault)),
    }
}

/// The tables of the store on a disk, as queries may name them. This layer is there to open the store: its clauses are of the disk.
fn stored_tables<D: Disk>(alloc: Global, disk: &mut D) -> Result<Names, Told>
    ensures tables { (sizes : Sizes) (s : Tables) → AreTables sizes s → StandsFor (D.size_of disk.old) sizes s (D.view disk.old) → (D.view disk.old).honest → GivesTables s result }
    ensures fault { IfErr result IsStoreFault }
    ensures none { IfErr result (IsToldOfDisk (D.size_of disk.old) (D.view disk.old)) }
    ensures unstored { (page : ℕ) → (D.view disk.old).honest → IsNotStored (D.size_of disk.old) page (D.view disk.old).seen → IsUnstored result }
    ensures cause { MatchResult result (λ _. D.faults_of disk.new ≡ D.faults_of disk.old)
        (λ told. (source : ℕ) → ToldCause told (D.faults_of disk.old) (D.faults_of disk.new) source source) }
    ensures stays { Stays (D.view disk.old) (D.view disk.new) }
    ensures writes { D.writes_of disk.new ≡ D.writes_of disk.old }
{
    match Store::open(disk) {
        Ok(mut store) => tables_in(alloc, &mut store),
        Err(unopened) => Err(told_of_opening(unopened.fault)),
    }
}

/// The same of an open store. This layer is there to read the catalogue, which has gone before the disk is spoken of again.
fn tables_in<D: Disk>(alloc: Global, store: &mut Store<'_, D>) -> Result<Names, Told>
    ensures tables { (s : Tables) → AreTables store.old.sizes s → ((store_view store.old).honest → HasTables s (store_view store.old).seen) → (store_view store.old).honest
        → GivesTables s result }
    ensures fault { IfErr result IsStoreFault }
    ensures none { IfErr result (IsToldOfCatalogue store.old.sizes ((store_view store.old).honest) ((store_view store.old).seen)) }
    ensures unstored { (store_view store.old).honest → HasNoCatalogue store.old.sizes (store_view store.old).seen → IsUnstored result }
    ensures cause { MatchResult result (λ _. D.faults_of store.new.disk.now ≡ D.faults_of store.old.disk.now)
        (λ told. (source : ℕ) → ToldCause told (D.faults_of store.old.disk.now) (D.faults_of store.new.disk.now) source source) }
    ensures stays { Stays (D.view store.old.disk.now) (D.view store.new.disk.now) }
    ensures sizes { store.new.sizes ≡ store.old.sizes }
    ensures same { store.new.disk.ghost_name ≡ store.old.disk.ghost_name }
    ensures writes { D.writes_of store.new.disk.now ≡ D.writes_of store.old.disk.now }
{
    let catalogue = match Catalogue::load(alloc, store) {
        Ok(catalogue) => catalogue,
        Err(fault) => return Err(told_of_fault(fault)),
    };
    Ok(named_tables(alloc, &catalogue)?)
}

/// The tables of a catalogue, as queries may name them.
fn named_tables(alloc: Global, catalogue: &Catalogue) -> Result<Names, Memory>
    requires form { IsOfStore catalogue.now }
    ensures { IfOk result (λ tables. tables ≡ map table_of_entry catalogue.now.tables) }
{
    let mut tables = ListOf::new(alloc);
    for table in 0..catalogue.count() {
        tables.push(named_table(alloc, catalogue, table)?)?;
    }
    Ok(tables)
}

/// The table of this number, as queries may name it.
fn named_table(alloc: Global, catalogue: &Catalogue, table: u8) -> Result<NamedTable, Memory>
    requires { table < length catalogue.now.tables }
    ensures { IfOk result (λ found. slice_get (map table_of_entry catalogue.now.tables) table ≡ Some found) }
{
    Ok(NamedTable {
        name: catalogue.name(table).copy(alloc)?,
        columns: catalogue.schema(table).copy(alloc)?,
    })
}
