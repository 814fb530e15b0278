//! What calls on tables require of columns and rows, tested where they are made.

ghost use Rattle.std.specs.Prelude.{◌≡◌, ◌≤◌, ℕ, IsTrue, Some, length, slice_get};
ghost use Rattle.std.specs.List.{AllByRecursion};
ghost use Rattle.qsr_value.specs.Values.{Fits};
ghost use Rattle.table_file.specs.CatalogueBytes.{IsColumn, IsName, IsOfStore, IsStoredKind};
ghost use Rattle.table_file.specs.Refusals.{table_names};
ghost use Rattle.table_file.specs.Tables.{place_of};
ghost use Rattle.table_file.specs.declared.entries.TableEntry.{TableEntry};

use case_kit::fits;
use qsr_value::{ColKind, Column, Row};
use table_file::Catalogue;

/// Whether a text may be the name of a table or of a column.
pub(crate) fn is_name(name: &str) -> bool
    ensures { IsTrue result → IsName name.now }
{
    let length = name.len();
    1 <= length && length <= 16
}

/// Whether a table may have columns of a kind.
fn is_stored(kind: ColKind) -> bool
    ensures { IsTrue result → IsStoredKind kind }
{
    match kind {
        ColKind::Int => true,
        ColKind::Wide => false,
        ColKind::Text { max } => 1 <= max && max <= 998,
    }
}

/// Whether a table may have a column.
fn is_column(column: &Column) -> bool
    ensures { IsTrue result → IsColumn column.now }
{
    is_name(column.name.as_str()) && is_stored(column.kind)
}

/// Whether a table may have each of these columns.
fn are_each(columns: &[Column]) -> bool
    ensures { IsTrue result → AllByRecursion IsColumn columns.now }
{
    match columns {
        [] => true,
        [column, columns @ ..] => is_column(column) && are_each(columns),
    }
}

/// Whether a table may have these columns.
pub(crate) fn are_columns(columns: &[Column]) -> bool
    ensures { IsTrue result → (1 ≤ length columns.now) × (length columns.now ≤ 16) × AllByRecursion IsColumn columns.now }
{
    !columns.is_empty() && columns.len() <= 16 && are_each(columns)
}

/// Whether these are rows of columns.
fn are_rows(columns: &[Column], rows: &[Row]) -> bool
    ensures { IsTrue result → AllByRecursion (Fits columns.now) rows.now }
{
    match rows {
        [] => true,
        [row, rows @ ..] => fits(columns, row.as_slice()) && are_rows(columns, rows),
    }
}

/// Whether these are rows of the table of a name, if there is one.
pub(crate) fn has_rows(catalogue: &Catalogue, name: &str, rows: &[Row]) -> bool
    requires { IsOfStore catalogue.now }
    ensures { IsTrue result → (table : ℕ) (entry : TableEntry) → place_of name.now (table_names catalogue.now) ≡ Some table → slice_get catalogue.now.tables table ≡ Some entry
        → AllByRecursion (Fits entry.schema) rows.now }
{
    match catalogue.find(name) {
        None => true,
        Some(table) => are_rows(catalogue.schema(table).as_slice(), rows),
    }
}
