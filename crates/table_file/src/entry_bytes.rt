// The bytes of the parts of a catalogue: each is put into a buffer from a place on, and the place behind it answered.

ghost use Rattle.std.specs.Prelude.{◌+◌, ◌≤◌, ◌∷◌, length};
ghost use Rattle.std.specs.List.{AllByRecursion, flat_map};
ghost use Rattle.page_store.specs.declared.pages.Sizes.{Sizes};
ghost use Rattle.part_codec.specs.Puts.{Puts};
ghost use Rattle.table_file.specs.CatalogueBytes.{IsColumn, IsName, IsSchema, IsTable, column_bytes, columns_bytes, index_bytes, kind_bytes, name_bytes, table_bytes};

use crate::{IndexEntry, TableEntry};
use part_codec::{put_byte, put_bytes, put_short_text, put_u16, put_u32};
use qsr_value::{ColKind, Column, Schema};

/// A name, behind its length in one byte.
#[tactic(auto, unfolding(crate::specs::CatalogueBytes::name_bytes))]
fn put_name(name: &str, body: &mut [u8], at: usize) -> usize
    requires name { IsName name.now }
    requires room { at + length (name_bytes name.now) ≤ length body.old }
    ensures { Puts body.old at (name_bytes name.now) body.new result }
{
    put_short_text(name, body, at)
}

/// What the values of a column are, and how many bytes a text has at most.
#[tactic(auto, unfolding(crate::specs::CatalogueBytes::kind_bytes), using(part_codec::proofs::Putting::then_puts))]
fn put_kind(kind: ColKind, body: &mut [u8], at: usize) -> usize
    requires { at + length (kind_bytes kind) ≤ length body.old }
    ensures { Puts body.old at (kind_bytes kind) body.new result }
{
    match kind {
        ColKind::Int => {
            let at = put_byte(0, body, at);
            put_u16(0, body, at)
        }
        ColKind::Text { max } => {
            let at = put_byte(1, body, at);
            put_u16(max, body, at)
        }
        // No column of a table is Wide.
        ColKind::Wide => at,
    }
}

#[tactic(auto, unfolding(crate::specs::CatalogueBytes::column_bytes), using(part_codec::proofs::Putting::then_puts))]
fn put_column(column: &Column, body: &mut [u8], at: usize) -> usize
    requires column { IsColumn column.now }
    requires room { at + length (column_bytes column.now) ≤ length body.old }
    ensures { Puts body.old at (column_bytes column.now) body.new result }
{
    let at = put_name(column.name.as_str(), body, at);
    put_kind(column.kind, body, at)
}

fn put_columns(columns: &[Column], body: &mut [u8], at: usize) -> usize
    requires each { AllByRecursion IsColumn columns.now }
    requires room { at + length (flat_map column_bytes columns.now) ≤ length body.old }
    ensures { Puts body.old at (flat_map column_bytes columns.now) body.new result }
{
    let mut end = at;
    for column in columns {
        end = put_column(column, body, end);
    }
    end
}

/// Columns behind their number.
#[tactic(auto, unfolding(crate::specs::CatalogueBytes::columns_bytes), using(part_codec::proofs::Putting::then_puts))]
fn put_schema(schema: &Schema, body: &mut [u8], at: usize) -> usize
    requires schema { IsSchema schema.now }
    requires room { at + length (columns_bytes schema.now) ≤ length body.old }
    ensures { Puts body.old at (columns_bytes schema.now) body.new result }
{
    let at = put_byte(schema.len() as u8, body, at);
    put_columns(schema.as_slice(), body, at)
}

/// A table: its name, its columns, its rows and pages, and where the rows of the last page end.
#[tactic(auto, unfolding(crate::specs::CatalogueBytes::table_bytes), using(part_codec::proofs::Putting::then_puts))]
fn put_table(table: &TableEntry, body: &mut [u8], at: usize) -> usize
    requires table { (sizes : Sizes) × IsTable sizes table.now }
    requires room { at + length (table_bytes table.now) ≤ length body.old }
    ensures { Puts body.old at (table_bytes table.now) body.new result }
{
    let at = put_name(table.name.as_str(), body, at);
    let at = put_schema(&table.schema, body, at);
    let at = put_u32(table.rows, body, at);
    let at = put_u32(table.pages, body, at);
    put_u16(table.end, body, at)
}

fn put_all_tables(tables: &[TableEntry], body: &mut [u8], at: usize) -> usize
    requires each { (sizes : Sizes) × AllByRecursion (IsTable sizes) tables.now }
    requires room { at + length (flat_map table_bytes tables.now) ≤ length body.old }
    ensures { Puts body.old at (flat_map table_bytes tables.now) body.new result }
{
    let mut end = at;
    for table in tables {
        end = put_table(table, body, end);
    }
    end
}

/// Tables behind their number.
#[tactic(auto, using(part_codec::proofs::Putting::then_puts))]
pub(crate) fn put_tables(tables: &[TableEntry], body: &mut [u8], at: usize) -> usize
    requires each { (sizes : Sizes) × AllByRecursion (IsTable sizes) tables.now }
    requires few { length tables.now ≤ 16 }
    requires room { at + length (length tables.now ∷ flat_map table_bytes tables.now) ≤ length body.old }
    ensures { Puts body.old at (length tables.now ∷ flat_map table_bytes tables.now) body.new result }
{
    let at = put_byte(tables.len() as u8, body, at);
    put_all_tables(tables, body, at)
}

/// An index: its table, the column, its area, and its entries, leaves, pages and levels.
#[tactic(auto, unfolding(crate::specs::CatalogueBytes::index_bytes), using(part_codec::proofs::Putting::then_puts))]
fn put_index(index: &IndexEntry, body: &mut [u8], at: usize) -> usize
    requires { at + 16 ≤ length body.old }
    ensures { Puts body.old at (index_bytes index.now) body.new result }
{
    let at = put_bytes(&[index.table, index.column, index.area], body, at);
    let at = put_u32(index.rows, body, at);
    let at = put_u32(index.leaves, body, at);
    let at = put_u32(index.pages, body, at);
    put_byte(index.height, body, at)
}

fn put_all_indexes(indexes: &[IndexEntry], body: &mut [u8], at: usize) -> usize
    requires { at + length (flat_map index_bytes indexes.now) ≤ length body.old }
    ensures { Puts body.old at (flat_map index_bytes indexes.now) body.new result }
{
    let mut end = at;
    for index in indexes {
        end = put_index(index, body, end);
    }
    end
}

/// Indexes behind their number.
#[tactic(auto, using(part_codec::proofs::Putting::then_puts))]
pub(crate) fn put_indexes(indexes: &[IndexEntry], body: &mut [u8], at: usize) -> usize
    requires few { length indexes.now ≤ 16 }
    requires room { at + length (length indexes.now ∷ flat_map index_bytes indexes.now) ≤ length body.old }
    ensures { Puts body.old at (length indexes.now ∷ flat_map index_bytes indexes.now) body.new result }
{
    let at = put_byte(indexes.len() as u8, body, at);
    put_all_indexes(indexes, body, at)
}
