ghost use Rattle.std.specs.Prelude.{◌≡◌, option_map};
ghost use Rattle.qsr_value.specs.Names.{same_name};
ghost use Rattle.sql_bind.specs.Names.{table_named};
ghost use Rattle.sql_tokens.specs.Words.{letters_of};

use qsr_value::{Column, ListOf, Schema, Txt};
use sql_tokens::Name;

/// A table that queries may name, and its columns.
#[derive(Debug, Drop)]
pub struct NamedTable {
    pub name: Txt,
    pub columns: Schema,
}

/// The tables that queries may name.
pub type Names = ListOf<NamedTable>;

/// Whether these are the letters of a name.
pub(crate) fn is_name(text: &Txt, name: &Name) -> bool
    ensures { result ≡ same_name text.now (letters_of name.now) }
{
    text.as_str().as_bytes() == name.letters()
}

/// Whether two names have the same letters.
pub(crate) fn is_same(name: &Name, other: &Name) -> bool
    ensures { result ≡ same_name (letters_of name.now) (letters_of other.now) }
{
    name.letters() == other.letters()
}

/// A table by its name: its place among the tables, and its columns.
pub(crate) fn table_named<'t>(names: &'t [NamedTable], name: &Name) -> Option<(usize, &'t [Column])>
    ensures { option_map (λ found. (found.0, found.1.now)) result ≡ table_named names.now (letters_of name.now) }
{
    for (place, table) in names.iter().enumerate() {
        if is_name(&table.name, name) {
            return Some((place, table.columns.as_slice()));
        }
    }
    None
}
