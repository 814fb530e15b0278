// The parts of a catalogue, read from the front of bytes: each reader answers the part and the bytes behind it.

ghost use Rattle.std.specs.Prelude.{◌≡◌, slice_get};
ghost use Rattle.part_codec.specs.Reading.{Gives, list_at};
ghost use Rattle.table_file.specs.Reading.{all_of, are_apart, catalogue_at, column_at, entry_at, has_area, has_column, index_at, indexes_at, is_index_of, kind_at, name_at, schema_at, table_at, tables_at};

use crate::catalogue::Catalogue;
use crate::{IndexEntry, TableEntry, TableList};
use page_store::Sizes;
use part_codec::{Unread, byte_of, short_text_of, u16_of, u32_of};
use qsr_value::{
    ColKind, Column, MAX_COLUMNS, MAX_INDEXES, MAX_ROWS, MAX_TABLES, MAX_WIDTH, Schema, Txt,
};
use sqlite_items::Items;
use std::alloc::Global;

/// A name, behind its length in one byte.
#[tactic(auto, unfolding(crate::specs::Reading::name_at))]
fn name_of(alloc: Global, bytes: &[u8]) -> Result<(Txt, &[u8]), Unread>
    ensures { Gives (λ x. (x.0, x.1.now)) result (name_at bytes.now) }
{
    short_text_of(alloc, 1, 16, bytes)
}

/// What the values of a column are. Behind the kind stands how many bytes a text has at most, and 0 for numbers.
#[tactic(auto, unfolding(crate::specs::Reading::kind_at))]
fn kind_of(bytes: &[u8]) -> Result<(ColKind, &[u8]), Unread>
    ensures { Gives (λ x. (x.0, x.1.now)) result (kind_at bytes.now) }
{
    let (kind, rest) = byte_of(0, 1, bytes)?;
    if kind == 0 {
        let (_, rest) = u16_of(0, 0, rest)?;
        return Ok((ColKind::Int, rest));
    }
    let (max, rest) = u16_of(1, 998, rest)?;
    Ok((ColKind::Text { max }, rest))
}

#[tactic(auto, unfolding(crate::specs::Reading::column_at))]
fn column_of(alloc: Global, bytes: &[u8]) -> Result<(Column, &[u8]), Unread>
    ensures { Gives (λ x. (x.0, x.1.now)) result (column_at bytes.now) }
{
    let (name, rest) = name_of(alloc, bytes)?;
    let (kind, rest) = kind_of(rest)?;
    Ok((Column { name, kind }, rest))
}

fn columns_of(alloc: Global, count: u8, bytes: &[u8]) -> Result<(Schema, &[u8]), Unread>
    ensures { Gives (λ x. (x.0, x.1.now)) result (list_at column_at count bytes.now) }
{
    let mut columns = Schema::new(alloc);
    let mut rest = bytes;
    for _ in 0..count {
        let (column, after) = column_of(alloc, rest)?;
        columns.push(column)?;
        rest = after;
    }
    Ok((columns, rest))
}

/// Columns behind their number.
#[tactic(auto, unfolding(crate::specs::Reading::schema_at))]
fn schema_of(alloc: Global, bytes: &[u8]) -> Result<(Schema, &[u8]), Unread>
    ensures { Gives (λ x. (x.0, x.1.now)) result (schema_at bytes.now) }
{
    let (count, rest) = byte_of(1, MAX_COLUMNS as u8, bytes)?;
    let (columns, rest) = columns_of(alloc, count, rest)?;
    if MAX_WIDTH < columns.width() {
        return Err(Unread::Bad { left: bytes.len() });
    }
    Ok((columns, rest))
}

#[tactic(auto, unfolding(crate::specs::Reading::table_at))]
fn table_of<'a>(
    alloc: Global,
    sizes: &Sizes,
    bytes: &'a [u8],
) -> Result<(TableEntry, &'a [u8]), Unread>
    ensures { Gives (λ x. (x.0, x.1.now)) result (table_at sizes.now bytes.now) }
{
    let (name, rest) = name_of(alloc, bytes)?;
    let (schema, rest) = schema_of(alloc, rest)?;
    let (rows, rest) = u32_of(0, MAX_ROWS, rest)?;
    let (pages, rest) = u32_of(0, sizes.table, rest)?;
    let (end, rest) = u16_of(0, 4096, rest)?;
    let table = TableEntry {
        name,
        schema,
        rows,
        pages,
        end,
    };
    Ok((table, rest))
}

fn some_tables_of<'a>(
    alloc: Global,
    sizes: &Sizes,
    count: u8,
    bytes: &'a [u8],
) -> Result<(TableList, &'a [u8]), Unread>
    ensures { Gives (λ x. (x.0, x.1.now)) result (list_at (table_at sizes.now) count bytes.now) }
{
    let mut tables = TableList::new(alloc);
    let mut rest = bytes;
    for _ in 0..count {
        let (table, after) = table_of(alloc, sizes, rest)?;
        tables.push(table)?;
        rest = after;
    }
    Ok((tables, rest))
}

/// Tables behind their number.
#[tactic(auto, unfolding(crate::specs::Reading::tables_at))]
fn tables_of<'a>(
    alloc: Global,
    sizes: &Sizes,
    bytes: &'a [u8],
) -> Result<(TableList, &'a [u8]), Unread>
    ensures { Gives (λ x. (x.0, x.1.now)) result (tables_at sizes.now bytes.now) }
{
    let (count, rest) = byte_of(0, MAX_TABLES as u8, bytes)?;
    some_tables_of(alloc, sizes, count, rest)
}

/// An index, whatever its table.
#[tactic(auto, unfolding(crate::specs::Reading::entry_at))]
fn entry_of<'a>(sizes: &Sizes, bytes: &'a [u8]) -> Result<(IndexEntry, &'a [u8]), Unread>
    ensures { Gives (λ x. (x.0, x.1.now)) result (entry_at sizes.now bytes.now) }
{
    let (table, rest) = byte_of(0, 255, bytes)?;
    let (column, rest) = byte_of(0, 255, rest)?;
    let (area, rest) = byte_of(0, 15, rest)?;
    let (rows, rest) = u32_of(0, MAX_ROWS, rest)?;
    let (leaves, rest) = u32_of(0, sizes.index, rest)?;
    let (pages, rest) = u32_of(0, sizes.index, rest)?;
    let (height, rest) = byte_of(0, 255, rest)?;
    let entry = IndexEntry {
        table,
        column,
        area,
        rows,
        leaves,
        pages,
        height,
    };
    Ok((entry, rest))
}

/// Whether a table has a column of this number.
fn has_column(tables: &[TableEntry], table: u8, column: u8) -> bool
    ensures { result ≡ has_column column (slice_get tables.now table) }
{
    match tables.get(table as usize) {
        None => false,
        Some(table) => (column as usize) < table.schema.len(),
    }
}

/// Whether an index is of one of these tables, and has a level exactly where it has a page.
fn is_index_of(tables: &[TableEntry], index: &IndexEntry) -> bool
    ensures { result ≡ is_index_of tables.now index.now }
{
    has_column(tables, index.table, index.column) && (0 < index.height) == (0 < index.pages)
}

/// An index of one of these tables.
#[tactic(auto, unfolding(crate::specs::Reading::index_at))]
fn index_of<'a>(
    sizes: &Sizes,
    tables: &[TableEntry],
    bytes: &'a [u8],
) -> Result<(IndexEntry, &'a [u8]), Unread>
    ensures { Gives (λ x. (x.0, x.1.now)) result (index_at sizes.now tables.now bytes.now) }
{
    let (index, rest) = entry_of(sizes, bytes)?;
    if !is_index_of(tables, &index) {
        return Err(Unread::Bad { left: bytes.len() });
    }
    Ok((index, rest))
}

fn some_indexes_of<'a>(
    alloc: Global,
    sizes: &Sizes,
    tables: &[TableEntry],
    count: u8,
    bytes: &'a [u8],
) -> Result<(Items<IndexEntry>, &'a [u8]), Unread>
    ensures { Gives (λ x. (x.0, x.1.now)) result (list_at (index_at sizes.now tables.now) count bytes.now) }
{
    let mut indexes = Items::new(alloc);
    let mut rest = bytes;
    for _ in 0..count {
        let (index, after) = index_of(sizes, tables, rest)?;
        indexes.push(index)?;
        rest = after;
    }
    Ok((indexes, rest))
}

/// Whether one of these indexes has this area.
fn has_area(area: u8, indexes: &[IndexEntry]) -> bool
    ensures { result ≡ has_area area indexes.now }
{
    indexes.iter().any(|index| index.area == area)
}

/// Whether no two of these indexes have one area.
fn are_apart(indexes: &[IndexEntry]) -> bool
    ensures { result ≡ are_apart indexes.now }
{
    let mut rest = indexes;
    while let [index, others @ ..] = rest {
        if has_area(index.area, others) {
            return false;
        }
        rest = others;
    }
    true
}

/// Indexes behind their number.
#[tactic(auto, unfolding(crate::specs::Reading::indexes_at))]
fn indexes_of<'a>(
    alloc: Global,
    sizes: &Sizes,
    tables: &[TableEntry],
    bytes: &'a [u8],
) -> Result<(Items<IndexEntry>, &'a [u8]), Unread>
    ensures { Gives (λ x. (x.0, x.1.now)) result (indexes_at sizes.now tables.now bytes.now) }
{
    let (count, rest) = byte_of(0, MAX_INDEXES as u8, bytes)?;
    let (indexes, rest) = some_indexes_of(alloc, sizes, tables, count, rest)?;
    if !are_apart(indexes.as_slice()) {
        return Err(Unread::Bad { left: bytes.len() });
    }
    Ok((indexes, rest))
}

#[tactic(auto, unfolding(crate::specs::Reading::catalogue_at))]
fn catalogue_of<'a>(
    alloc: Global,
    sizes: &Sizes,
    bytes: &'a [u8],
) -> Result<(Catalogue, &'a [u8]), Unread>
    ensures { Gives (λ x. (x.0, x.1.now)) result (catalogue_at sizes.now bytes.now) }
{
    let (tables, rest) = tables_of(alloc, sizes, bytes)?;
    let (indexes, rest) = indexes_of(alloc, sizes, tables.as_slice(), rest)?;
    Ok((Catalogue { tables, indexes }, rest))
}

/// The catalogue that all of the bytes are.
#[tactic(auto, unfolding(crate::specs::Reading::all_of))]
pub(crate) fn all_of(alloc: Global, sizes: &Sizes, bytes: &[u8]) -> Result<Catalogue, Unread>
    ensures { Gives (λ c. c) result (all_of sizes.now bytes.now) }
{
    let (catalogue, rest) = catalogue_of(alloc, sizes, bytes)?;
    if !rest.is_empty() {
        return Err(Unread::Bad { left: rest.len() });
    }
    Ok(catalogue)
}
