ghost use Rattle.std.specs.Prelude.{◌≡◌, [], ◌∷◌, IfOk};
ghost use Rattle.std.specs.Option.{option_copied};
ghost use Rattle.sql_bind.specs.Checks.{column_check, bind_tells};
ghost use Rattle.sql_bind.specs.Names.{bound_column, place_in_text, table_known};
ghost use Rattle.sql_tokens.specs.Words.{letters_of};
ghost use Rattle.sql_front.specs.Tree.{dotted, plain};
ghost use Rattle.sql_front.specs.View.{column_tree, name_tree};
ghost use Rattle.grammar_laws.specs.Checks.{Checks};

use crate::BindFault;
use crate::bound::BoundColumn;
use crate::names::{is_name, is_same};
use qsr_value::Column as TableColumn;
use sql_front::{Column, NameAt};
use sql_tokens::Name;
use std::marker::Model;

/// A table in scope: its place in FROM, what it is known by, and its columns.
#[derive(Drop)]
pub(crate) struct Scoped<'t> {
    pub(crate) place: usize,
    pub(crate) known: Name,
    pub(crate) columns: &'t [TableColumn],
}

impl<'t> Model for Scoped<'t> {
    ghost use Rattle.sql_bind.specs.Names.{Scoped};
    ghost use Rattle.sql_tokens.specs.Words.{letters_of};

    ghost Value = { Scoped };

    ghost view = { λ s. record { place = s.place; known = letters_of s.known; columns = s.columns.now } };
}

impl<'t> Scoped<'t> {
    ghost use Rattle.std.specs.Prelude.{◌≡◌};
    ghost use Rattle.qsr_value.specs.Names.{same_name};
    ghost use Rattle.sql_bind.specs.Names.{column_in};
    ghost use Rattle.sql_tokens.specs.Words.{letters_of};

    /// The column of this name.
    fn column(&self, name: &Name) -> Option<BoundColumn>
        ensures { result ≡ column_in self.now (letters_of name.now) }
    {
        for (place, column) in self.columns.iter().enumerate() {
            if is_name(&column.name, name) {
                return Some(BoundColumn {
                    table: self.place,
                    place,
                    kind: column.kind,
                });
            }
        }
        None
    }

    fn is_known_by(&self, name: &Name) -> bool
        ensures { result ≡ same_name self.now.known (letters_of name.now) }
    {
        is_same(&self.known, name)
    }
}

/// What a column without a dot means.
#[tactic(auto, unfolding(crate::specs::Names::meant))]
fn meant_by_name(scope: &[Scoped], name: &NameAt) -> Result<BoundColumn, BindFault>
    ensures checks { Checks bind_tells (column_check scope.now (plain (name_tree name.now)) ∷ []) result }
    ensures bound { IfOk result (λ c. c ≡ bound_column scope.now (plain (name_tree name.now))) }
{
    let NameAt { name, at } = *name;
    let mut found = None;
    for table in scope {
        match (table.column(&name), found) {
            (Some(_), Some(_)) => return Err(BindFault::Ambiguous { name, at }),
            (Some(column), None) => found = Some(column),
            (None, _) => {}
        }
    }
    found.ok_or(BindFault::NoColumn { name, at })
}

/// The table that is known by this name.
fn table_known<'s, 't>(scope: &'s [Scoped<'t>], name: &Name) -> Option<&'s Scoped<'t>>
    ensures { option_copied result ≡ table_known scope.now (letters_of name.now) }
{
    for table in scope {
        if table.is_known_by(name) {
            return Some(table);
        }
    }
    None
}

/// What a column behind a table's name means.
#[tactic(auto, unfolding(crate::specs::Names::meant))]
fn meant_behind(scope: &[Scoped], table: &NameAt, name: &NameAt) -> Result<BoundColumn, BindFault>
    ensures checks { Checks bind_tells (column_check scope.now (dotted (name_tree table.now) (name_tree name.now)) ∷ []) result }
    ensures bound { IfOk result (λ c. c ≡ bound_column scope.now (dotted (name_tree table.now) (name_tree name.now))) }
{
    let at = table.at;
    match table_known(scope, &table.name) {
        Some(known) => known.column(&name.name).ok_or(BindFault::NoColumn {
            name: name.name,
            at,
        }),
        None => Err(BindFault::NoTable {
            name: table.name,
            at,
        }),
    }
}

/// What a column means.
pub(crate) fn meant(scope: &[Scoped], column: &Column) -> Result<BoundColumn, BindFault>
    ensures checks { Checks bind_tells (column_check scope.now (column_tree column.now) ∷ []) result }
    ensures bound { IfOk result (λ c. c ≡ bound_column scope.now (column_tree column.now)) }
{
    match column {
        Column::Plain(name) => meant_by_name(scope, name),
        Column::Dotted(table, name) => meant_behind(scope, table, name),
    }
}

/// The place of a column in the text.
pub(crate) fn place_in_text(column: &Column) -> u32
    ensures { result ≡ place_in_text (column_tree column.now) }
{
    match column {
        Column::Plain(name) => name.at,
        Column::Dotted(table, _) => table.at,
    }
}
