use qsr_value::{ListOf, Schema, Txt};

/// What the catalogue says of a table.
#[derive(Debug, Drop)]
pub struct TableEntry {
    pub name: Txt,
    pub schema: Schema,
    pub rows: u32,
    pub pages: u32,
    /// Where the rows of the last page end.
    pub end: u16,
}

/// What the catalogue says of its tables, in order.
pub type TableList = ListOf<TableEntry>;

/// What the catalogue says of an index: of which table and column it is, in which area it stands, and how many entries,
/// leaves, pages and levels it has.
#[derive(Clone, Copy, Debug)]
pub struct IndexEntry {
    pub table: u8,
    pub column: u8,
    pub area: u8,
    pub rows: u32,
    pub leaves: u32,
    pub pages: u32,
    pub height: u8,
}
