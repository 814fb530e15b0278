//! Calls on the tables of a store that is open.

ghost use Rattle.std.specs.Prelude.{◌≡◌, ◌<◌, IfOk, length};

use crate::fits::{are_columns, has_rows, is_name};
use anyhow::{Context, Result, bail, ensure};
use case_kit::{
    bytes_of, fits, number_first, rows_of, schema_of, show_bytes, show_columns, show_row,
};
use disk_model::Disk;
use page_store::{Area, Sizes, Store, Twin};
use qsr_value::{Failed, Row, Schema, decode_row};
use row_page::{row_at, rows_end};
use std::alloc::Global;
use std::fmt::Write;
use table_file::{Catalogue, TableFault, TableWriter};

/// More rows than a page has room for.
const MOST_ROWS: u32 = 2048;

/// Creates a table.
fn create_of<D: Disk>(
    alloc: Global,
    store: &mut Store<'_, D>,
    name: &str,
    columns: Schema,
) -> Result<()> {
    ensure!(is_name(name), "no name");
    ensure!(are_columns(columns.as_slice()), "no columns of a table");
    let mut catalogue = Catalogue::load(alloc, store)?;
    catalogue.create(alloc, store, name, columns)?;
    Ok(())
}

/// `NAME COLUMNS`: creates a table.
fn create<D: Disk>(
    alloc: Global,
    store: &mut Store<'_, D>,
    into: &mut String,
    rest: &str,
) -> Result<()> {
    let (name, columns) = rest.split_once(' ').context("no columns")?;
    let columns = schema_of(alloc, columns)?;
    create_of(alloc, store, name, columns)?;
    into.push_str("created\n")?;
    Ok(())
}

/// Says what came of a push, and how often it wrote to the disk, if it did.
fn show_push(into: &mut String, pushed: Result<(), TableFault>, writes: u64) -> Result<()> {
    match pushed {
        Ok(()) => into.push_str("ok")?,
        Err(fault) => write!(into, "{fault}")?,
    }
    if 0 < writes {
        write!(into, ", {writes} writes")?;
    }
    into.push('\n')?;
    Ok(())
}

/// Pushes a row, and says what came of it.
fn push<D: Disk>(
    store: &mut Store<'_, D>,
    into: &mut String,
    writer: &mut TableWriter,
    columns: &Schema,
    row: &Row,
) -> Result<()>
    requires { writer.old.page < store.old.sizes.table }
    ensures page { writer.new.page < store.new.sizes.table }
    ensures table { writer.new.table ≡ writer.old.table }
    ensures sizes { store.new.sizes ≡ store.old.sizes }
{
    ensure!(columns.len() <= 16, "too many columns");
    ensure!(columns.width() <= 1000, "too wide columns");
    ensure!(
        fits(columns.as_slice(), row.as_slice()),
        "no row of the table"
    );
    let writes = store.disk.writes();
    let pushed = writer.push(store, columns, row);
    let writes = store.disk.writes().saturating_sub(writes);
    show_push(into, pushed, writes)
}

fn push_all<D: Disk>(
    store: &mut Store<'_, D>,
    into: &mut String,
    writer: &mut TableWriter,
    columns: &Schema,
    rows: &[Row],
) -> Result<()>
    requires { writer.old.page < store.old.sizes.table }
    ensures page { writer.new.page < store.new.sizes.table }
    ensures table { writer.new.table ≡ writer.old.table }
    ensures sizes { store.new.sizes ≡ store.old.sizes }
{
    for row in rows {
        push(store, into, writer, columns, row)?;
    }
    Ok(())
}

/// Says what came of a commit of rows, how often it wrote to the disk, and how many calls of the disk have failed so far.
fn show_commit(
    into: &mut String,
    committed: Result<u32, Failed>,
    writes: u64,
    faults: u64,
) -> Result<()> {
    match committed {
        Ok(count) => write!(into, "{count} rows")?,
        Err(fault) => write!(into, "{fault}")?,
    }
    writeln!(into, ", {writes} writes, {faults} faults")?;
    Ok(())
}

/// Pushes rows behind those of a table, and makes them the table's.
fn write_to<D: Disk>(
    alloc: Global,
    store: &mut Store<'_, D>,
    into: &mut String,
    table: u8,
    rows: &[Row],
) -> Result<()> {
    let mut catalogue = Catalogue::load(alloc, store)?;
    ensure!(table < catalogue.count(), "no such table");
    let mut writer = catalogue.writer(table);
    push_all(store, into, &mut writer, catalogue.schema(table), rows)?;
    let writes = store.disk.writes();
    let committed = catalogue.commit_rows(store, &mut writer);
    let writes = store.disk.writes().saturating_sub(writes);
    show_commit(into, committed, writes, store.faults())
}

/// `NUMBER ROWS`: adds rows to the table of a number by a writer.
fn write<D: Disk>(
    alloc: Global,
    store: &mut Store<'_, D>,
    into: &mut String,
    rest: &str,
) -> Result<()> {
    let (table, rest) = number_first(rest)?;
    let rows = rows_of(alloc, rest)?;
    write_to(alloc, store, into, table, rows.as_slice())
}

/// `NAME ROWS`: adds rows to the table of a name at once.
fn append<D: Disk>(
    alloc: Global,
    store: &mut Store<'_, D>,
    into: &mut String,
    rest: &str,
) -> Result<()> {
    let (name, rows) = rest.split_once(' ').unwrap_or((rest, ""));
    let rows = rows_of(alloc, rows)?;
    let mut catalogue = Catalogue::load(alloc, store)?;
    ensure!(
        has_rows(&catalogue, name, rows.as_slice()),
        "no rows of the table"
    );
    let count = catalogue.append(store, name, rows.as_slice())?;
    writeln!(into, "{count} rows")?;
    Ok(())
}

/// Adds what the catalogue tells of a table.
fn show_table(into: &mut String, catalogue: &Catalogue, table: u8) -> Result<()>
    requires { table < length catalogue.now.tables }
{
    let (rows, pages) = (catalogue.row_count(table), catalogue.pages(table));
    write!(into, "{table} {}", catalogue.name(table).as_str())?;
    show_columns(into, catalogue.schema(table).as_slice())?;
    writeln!(into, ", {rows} rows, {pages} pages")?;
    Ok(())
}

/// Says what the catalogue tells of each table.
fn list<D: Disk>(alloc: Global, store: &mut Store<'_, D>, into: &mut String) -> Result<()> {
    let catalogue = Catalogue::load(alloc, store)?;
    let count = catalogue.count();
    writeln!(into, "{count} tables")?;
    for table in 0..count {
        show_table(into, &catalogue, table)?;
    }
    Ok(())
}

/// Adds the rows of a page.
fn show_rows(alloc: Global, into: &mut String, columns: &Schema, page: &[u8]) -> Result<()> {
    let mut rest = page;
    for _ in 0..MOST_ROWS {
        let Some(row) = row_at(rest, 0) else {
            break;
        };
        into.push(' ')?;
        show_row(into, decode_row(alloc, columns, row)?.as_slice())?;
        let end = row.len().saturating_add(2);
        rest = rest.get(end..).context("a row is cut off")?;
    }
    into.push('\n')?;
    Ok(())
}

/// Says where the rows of a page of a table end, and its rows.
fn page_of<D: Disk>(
    alloc: Global,
    store: &mut Store<'_, D>,
    into: &mut String,
    table: u8,
    page: u32,
) -> Result<()> {
    let catalogue = Catalogue::load(alloc, store)?;
    ensure!(table < catalogue.count(), "no such table");
    ensure!(page < catalogue.pages(table), "no such page");
    let mut bytes = [0; 4096];
    let end = catalogue.page(store, table, page, &mut bytes)? as usize;
    write!(into, "to {end}:")?;
    show_rows(alloc, into, catalogue.schema(table), &bytes[..end])
}

/// `NUMBER PAGE`: says where the rows of a page of a table end, and its rows.
fn rows<D: Disk>(
    alloc: Global,
    store: &mut Store<'_, D>,
    into: &mut String,
    rest: &str,
) -> Result<()> {
    let (table, rest) = number_first(rest)?;
    page_of(alloc, store, into, table, rest.parse::<u32>()?)
}

/// A page of the area of a table.
fn area_page(sizes: &Sizes, rest: &str) -> Result<(u8, u32)>
    ensures { IfOk result (λ at. (at.0 < 16) × (at.1 < sizes.now.table)) }
{
    let (table, rest) = number_first(rest)?;
    let page = rest.parse::<u32>()?;
    ensure!(table < 16, "no such area");
    ensure!(page < sizes.table, "no such page");
    Ok((table, page))
}

/// Reads a page of the area of a table.
fn read_page<D: Disk>(store: &mut Store<'_, D>, rest: &str, page: &mut [u8; 4096]) -> Result<u8> {
    let (table, number) = area_page(&store.sizes(), rest)?;
    store.read(Area::Table(table), number, page)?;
    Ok(table)
}

/// `NUMBER PAGE`: says where rows end on a page of the area of a table, which needn't be the table's, and the rows.
fn area<D: Disk>(
    alloc: Global,
    store: &mut Store<'_, D>,
    into: &mut String,
    rest: &str,
) -> Result<()> {
    let mut page = [0; 4096];
    let table = read_page(store, rest, &mut page)?;
    let catalogue = Catalogue::load(alloc, store)?;
    ensure!(table < catalogue.count(), "no such table");
    write!(into, "to {}:", rows_end(&page))?;
    show_rows(alloc, into, catalogue.schema(table), &page)
}

/// `PLACE NUMBER PAGE`: says the bytes of a page of the area of a table, from a place on.
fn bytes<D: Disk>(store: &mut Store<'_, D>, into: &mut String, rest: &str) -> Result<()> {
    let (from, rest) = number_first(rest)?;
    let mut page = [0; 4096];
    read_page(store, rest, &mut page)?;
    into.push_str("page")?;
    show_bytes(into, page.get(from..).context("no such place")?)?;
    into.push('\n')?;
    Ok(())
}

/// `NUMBER PAGE | BYTES`: writes bytes to the front of a page of the area of a table.
fn fill<D: Disk>(
    alloc: Global,
    store: &mut Store<'_, D>,
    into: &mut String,
    rest: &str,
) -> Result<()> {
    let (place, bytes) = rest.split_once(" | ").context("no bytes")?;
    let (table, page) = area_page(&store.sizes(), place)?;
    let bytes = bytes_of(alloc, bytes)?;
    ensure!(!bytes.is_empty() && bytes.len() <= 4096, "no page");
    store.write_range(Area::Table(table), page, 0, &bytes)?;
    into.push_str("written\n")?;
    Ok(())
}

/// Says the bytes of the catalogue.
fn body<D: Disk>(store: &mut Store<'_, D>, into: &mut String) -> Result<()> {
    let mut body = [0; 8192];
    match store.current(Twin::Catalogue, &mut body) {
        Ok(len) => {
            into.push_str("catalogue")?;
            show_bytes(into, &body[..len])?;
            into.push('\n')?;
        }
        Err(fault) => writeln!(into, "{fault:?}")?,
    }
    Ok(())
}

/// Makes bytes those of the catalogue, and says what it tells then.
pub(crate) fn load<D: Disk>(
    alloc: Global,
    store: &mut Store<'_, D>,
    into: &mut String,
    bytes: &[u8],
) -> Result<()> {
    ensure!(bytes.len() <= 8184, "too many bytes");
    store.commit(Twin::Catalogue, bytes)?;
    list(alloc, store, into)
}

/// Makes a call on a store.
pub(crate) fn make<D: Disk>(
    alloc: Global,
    store: &mut Store<'_, D>,
    into: &mut String,
    word: &str,
    rest: &str,
) -> Result<()> {
    match word {
        "create" => create(alloc, store, into, rest),
        "append" => append(alloc, store, into, rest),
        "write" => write(alloc, store, into, rest),
        "list" => list(alloc, store, into),
        "rows" => rows(alloc, store, into, rest),
        "area" => area(alloc, store, into, rest),
        "bytes" => bytes(store, into, rest),
        "fill" => fill(alloc, store, into, rest),
        "catalogue" => body(store, into),
        "load" => load(alloc, store, into, &bytes_of(alloc, rest)?),
        _ => bail!("no such call: {word}"),
    }
}
