ghost use Rattle.std.specs.Prelude.{◌≡◌, ◌⊎◌, ℕ, List, IfOk};
ghost use Rattle.disk_model.specs.View.{After, LeavesOnly};
ghost use Rattle.page_store.specs.Store.{IsReady, contents_view, store_view};
ghost use Rattle.page_store.specs.declared.pages.Sizes.{Sizes};
ghost use Rattle.table_file.specs.CatalogueBytes.{IsName};
ghost use Rattle.table_file.specs.Tables.{AreTables, OnlyTables, Tables, with_table};
ghost use Rattle.qsr_top.specs.Create.{ComesToCreate, CreateRan, Creates, IsToldOfCatalogue};
ghost use Rattle.qsr_value.specs.declared.schema.Column.{Column};
ghost use Rattle.row_script.specs.Ends.{StatusCause, status_of};
ghost use Rattle.qsr_top.specs.Stored.{Stands, StandsFor};
ghost use Rattle.qsr_top.specs.Told.{ToldCause};
ghost use Rattle.qsr_top.specs.Words.{AreColumns, AreRead};

use crate::told::{Told, told_of_fault, told_of_opening};
use disk_model::Disk;
use page_store::Store;
use qsr_io::Sink;
use qsr_value::{Memory, Schema};
use row_script::End;
use std::alloc::Global;
use table_file::Catalogue;

/// Creates a table of this name and these columns, and says what came of it. This layer is there for the sink: those below know of none.
pub fn run<D: Disk, K: Sink>(
    alloc: Global,
    name: &str,
    columns: Result<Schema, Memory>,
    disk: &mut D,
    sink: &mut K,
) -> End
    requires name { IsName name.now }
    requires columns { IfOk columns AreColumns }
    ensures ran { (them : List Column) → AreRead them columns
        → CreateRan (D.size_of disk.old) name.now them (D.view disk.old) (D.view disk.new) (K.given sink.old) (K.given sink.new)
        (D.faults_of disk.old) (D.faults_of disk.new) (K.faults_of sink.old) (K.faults_of sink.new) result }
    ensures cause { StatusCause (status_of result) (D.faults_of disk.old) (D.faults_of disk.new) 0 0 (K.faults_of sink.old) (K.faults_of sink.new) }
    ensures any_moment { (them : List Column) (sizes : Sizes) (s : Tables) → AreRead them columns → AreTables sizes s
        → StandsFor (D.size_of disk.old) sizes s (D.view disk.old) → (D.view disk.old).honest → LeavesOnly (contents_view sizes (D.view disk.old)) (contents_view sizes (D.view disk.new))
        (λ m. Stands (D.size_of disk.old) sizes s m ⊎ Stands (D.size_of disk.old) sizes (with_table s name.now them) m) }
    ensures others { (sizes : Sizes) (s : Tables) → AreTables sizes s → StandsFor (D.size_of disk.old) sizes s (D.view disk.old) → (D.view disk.old).honest
        → LeavesOnly (contents_view sizes (D.view disk.old)) (contents_view sizes (D.view disk.new)) (After OnlyTables (contents_view sizes (D.view disk.old))) }
{
    match columns {
        Ok(columns) => create(alloc, name, columns, disk).tell(alloc, name, sink),
        Err(Memory) => Told::NoMemory.tell(alloc, name, sink),
    }
}

/// Creates a table. This layer is there to open the store: its clauses are of the disk, before and after.
fn create<D: Disk>(alloc: Global, name: &str, schema: Schema, disk: &mut D) -> Told
    requires name { IsName name.now }
    requires columns { AreColumns schema }
    ensures comes { ComesToCreate (D.size_of disk.old) name.now schema (D.view disk.old) (D.view disk.new) (D.faults_of disk.old) (D.faults_of disk.new) result }
    ensures any_moment { (sizes : Sizes) (s : Tables) → AreTables sizes s → StandsFor (D.size_of disk.old) sizes s (D.view disk.old) → (D.view disk.old).honest
        → LeavesOnly (contents_view sizes (D.view disk.old)) (contents_view sizes (D.view disk.new))
        (λ m. Stands (D.size_of disk.old) sizes s m ⊎ Stands (D.size_of disk.old) sizes (with_table s name.now schema) m) }
    ensures others { (sizes : Sizes) (s : Tables) → AreTables sizes s → StandsFor (D.size_of disk.old) sizes s (D.view disk.old) → (D.view disk.old).honest
        → LeavesOnly (contents_view sizes (D.view disk.old)) (contents_view sizes (D.view disk.new)) (After OnlyTables (contents_view sizes (D.view disk.old))) }
{
    match Store::open(disk) {
        Ok(mut store) => create_in(alloc, name, schema, &mut store),
        Err(unopened) => told_of_opening(unopened.fault),
    }
}

/// Creates a table in an open store. This layer is there so that the store has gone before the disk is spoken of again.
fn create_in<D: Disk>(alloc: Global, name: &str, schema: Schema, store: &mut Store<'_, D>) -> Told
    requires name { IsName name.now }
    requires columns { AreColumns schema }
    ensures cause { (source : ℕ) → ToldCause result (D.faults_of store.old.disk.now) (D.faults_of store.new.disk.now) source source }
    ensures none { IsToldOfCatalogue store.old.sizes ((store_view store.old).honest) ((store_view store.old).seen) result }
    ensures creates { IsReady store.old → (s : Tables) → AreTables store.old.sizes s → StandsFor (D.size_of store.old.disk.now) store.old.sizes s (D.view store.old.disk.now)
        → (store_view store.old).honest → Creates (D.size_of store.old.disk.now) store.old.sizes s name.now schema (D.view store.new.disk.now) result }
    ensures any_moment { IsReady store.old → (s : Tables) → AreTables store.old.sizes s → StandsFor (D.size_of store.old.disk.now) store.old.sizes s (D.view store.old.disk.now)
        → (store_view store.old).honest → LeavesOnly (store_view store.old) (store_view store.new)
        (λ m. Stands (D.size_of store.old.disk.now) store.old.sizes s m ⊎ Stands (D.size_of store.old.disk.now) store.old.sizes (with_table s name.now schema) m) }
    ensures others { LeavesOnly (store_view store.old) (store_view store.new) (After OnlyTables (store_view store.old)) }
    ensures sizes { store.new.sizes ≡ store.old.sizes }
    ensures same { store.new.disk.ghost_name ≡ store.old.disk.ghost_name }
{
    let mut catalogue = match Catalogue::load(alloc, store) {
        Ok(catalogue) => catalogue,
        Err(fault) => return told_of_fault(fault),
    };
    match catalogue.create(alloc, store, name, schema) {
        Ok(()) => Told::Created,
        Err(fault) => told_of_fault(fault),
    }
}
