ghost use Rattle.std.specs.Prelude.{◌≡◌, [], ◌∷◌, ◌++◌, map, IfOk, OnOk};
ghost use Rattle.sql_bind.specs.Bound.{bound_from, bound_table, bound_tables, first_table, how_of, joined_by, on_of};
ghost use Rattle.qsr_value.specs.Names.{is_among};
ghost use Rattle.sql_bind.specs.Checks.{from_checks, on_checks, ons_checks, table_checks, tables_checks, bind_tells};
ghost use Rattle.sql_bind.specs.Names.{known, known_by, letters, name_of_table, place_or_first, scope_behind, scope_from, scope_of, scoped, table_named, table_of};
ghost use Rattle.sql_bind.specs.View.{conditions_of, table_view};
ghost use Rattle.sql_tokens.specs.Words.{letters_of};
ghost use Rattle.grammar_laws.specs.Checks.{Checks};

use crate::BindFault;
use crate::bound::{BoundTable, Condition, JoinedBy};
use crate::conjuncts::push_conjuncts;
use crate::names::{NamedTable, is_same, table_named};
use crate::scope::Scoped;
use qsr_value::Column;
use sql_front::{Join, More, NameAt, Select, Table};
use sql_tokens::Name;
use sqlite_items::Items;
use std::alloc::Global;

/// The tables of FROM, and what is in scope behind them.
#[derive(Drop)]
pub(crate) struct FromPart<'t> {
    pub(crate) tables: Items<BoundTable>,
    pub(crate) scope: Items<Scoped<'t>>,
}

fn name_of(table: &Table) -> NameAt
    ensures { result ≡ name_of_table table.now }
{
    match table {
        Table::Bare(name) | Table::Renamed(name, _) | Table::RenamedAs(name, _) => *name,
    }
}

/// What a table is known by: its second name if it has one.
fn known_by(table: &Table) -> NameAt
    ensures { result ≡ known_by table.now }
{
    match table {
        Table::Bare(name) | Table::Renamed(_, name) | Table::RenamedAs(_, name) => *name,
    }
}

fn table_of(more: &More) -> &Table
    ensures { result.now ≡ table_of more.now }
{
    match more {
        More::Comma(table) | More::Join(_, table, _) => table,
    }
}

/// Whether one of these tables is known by this name.
fn is_known_before(first: &Table, more: &[More], name: &Name) -> bool
    ensures { result ≡ is_among (letters_of name.now) (known first.now ∷ map (λ m. known (table_of m)) more.now) }
{
    if is_same(&known_by(first).name, name) {
        return true;
    }
    for table in more {
        if is_same(&known_by(table_of(table)).name, name) {
            return true;
        }
    }
    false
}

/// Refuses a table that isn't there.
fn check_there(names: &[NamedTable], table: &Table) -> Result<(), BindFault>
    ensures { Checks bind_tells (table_checks names.now [] table.now) result }
{
    let NameAt { name, at } = name_of(table);
    match table_named(names, &name) {
        Some(_) => Ok(()),
        None => Err(BindFault::NoTable { name, at }),
    }
}

/// Refuses a table that isn't there, or is known as one of those before it.
fn check_table(
    names: &[NamedTable],
    first: &Table,
    before: &[More],
    table: &Table,
) -> Result<(), BindFault>
    ensures { Checks bind_tells (table_checks names.now (known first.now ∷ map (λ m. known (table_of m)) before.now) table.now) result }
{
    check_there(names, table)?;
    let NameAt { name, at } = known_by(table);
    if is_known_before(first, before, &name) {
        return Err(BindFault::Ambiguous { name, at });
    }
    Ok(())
}

/// Refuses the first table of FROM that isn't there or is known as one before it.
fn check_tables(names: &[NamedTable], first: &Table, more: &[More]) -> Result<(), BindFault>
    ensures { Checks bind_tells (table_checks names.now [] first.now ++ tables_checks names.now (known first.now ∷ []) more.now) result }
{
    check_there(names, first)?;
    for place in 0..more.len() {
        check_table(names, first, &more[..place], table_of(&more[place]))?;
    }
    Ok(())
}

/// A table, which stands at this place of FROM: its place among the tables that there are, and how it is seen in scope.
fn scoped<'t>(names: &'t [NamedTable], place: usize, table: &Table) -> (usize, Scoped<'t>)
    ensures place { result.0 ≡ place_or_first (table_named names.now (letters (name_of_table table.now))) }
    ensures scoped { result.1 ≡ scoped names.now place table.now }
{
    let known = known_by(table).name;
    // `from` refuses a table that isn't there before it asks for its place, so that the place 0 with no columns is never taken.
    let none: &[Column] = &[];
    let (number, columns) = table_named(names, &name_of(table).name).unwrap_or((0, none));
    let seen = Scoped {
        place,
        known,
        columns,
    };
    (number, seen)
}

/// How a table joins those before it.
fn joined_by(join: Join) -> JoinedBy
    ensures { result ≡ joined_by join }
{
    match join {
        Join::Inner => JoinedBy::Product,
        Join::Semi(_, _) => JoinedBy::Semi,
        Join::Anti(_, _) => JoinedBy::Anti,
    }
}

/// How a further table joins those before it.
fn how_of(more: &More) -> JoinedBy
    ensures { result ≡ how_of more.now }
{
    match more {
        More::Comma(_) => JoinedBy::Product,
        More::Join(join, _, _) => joined_by(*join),
    }
}

/// The conjuncts of a table's ON, in which it is in scope with those before it.
fn on_part<'t>(
    alloc: Global,
    scope: &mut Items<Scoped<'t>>,
    table: Scoped<'t>,
    more: &More,
) -> Result<Items<Condition>, BindFault>
    ensures checks { Checks bind_tells (on_checks scope.old table.entry more.now) result }
    ensures conditions { IfOk result (λ cs. conditions_of cs ≡ on_of scope.old table.entry more.now) }
    ensures scope { OnOk result (scope.new ≡ scope_behind more.now scope.old table.entry) }
{
    scope.push(table)?;
    let mut conjuncts = Items::new(alloc);
    if let More::Join(join, _, cond) = more {
        push_conjuncts(alloc, scope.as_slice(), cond, &mut conjuncts)?;
        if *join != Join::Inner {
            scope.pop();
        }
    }
    Ok(conjuncts)
}

/// A further table of FROM, at this place, where these are in scope before it.
fn next_table<'t>(
    alloc: Global,
    names: &'t [NamedTable],
    scope: &mut Items<Scoped<'t>>,
    place: usize,
    more: &More,
) -> Result<BoundTable, BindFault>
    ensures checks { Checks bind_tells (on_checks scope.old (scoped names.now place (table_of more.now)) more.now) result }
    ensures bound { IfOk result (λ t. table_view t ≡ bound_table names.now scope.old (scoped names.now place (table_of more.now)) more.now) }
    ensures scope { OnOk result (scope.new ≡ scope_behind more.now scope.old (scoped names.now place (table_of more.now))) }
{
    let (table, seen) = scoped(names, place, table_of(more));
    let conditions = on_part(alloc, scope, seen, more)?;
    Ok(BoundTable {
        table,
        joined: how_of(more),
        conditions,
    })
}

/// The tables of FROM, each with its ON, and what is in scope behind them.
fn tables<'t>(
    alloc: Global,
    names: &'t [NamedTable],
    first: &Table,
    more: &[More],
) -> Result<FromPart<'t>, BindFault>
    ensures checks { Checks bind_tells (ons_checks names.now 1 (scoped names.now 0 first.now ∷ []) more.now) result }
    ensures tables { IfOk result (λ f. map table_view f.tables ≡ first_table names.now first.now ∷ bound_tables names.now 1 (scoped names.now 0 first.now ∷ []) more.now) }
    ensures scope { IfOk result (λ f. f.scope ≡ scope_from names.now 1 (scoped names.now 0 first.now ∷ []) more.now) }
{
    let (table, seen) = scoped(names, 0, first);
    let mut tables = Items::new(alloc);
    let mut scope = Items::new(alloc);
    scope.push(seen)?;
    tables.push(BoundTable {
        table,
        joined: JoinedBy::Product,
        conditions: Items::new(alloc),
    })?;
    for (place, next) in more.iter().enumerate() {
        tables.push(next_table(alloc, names, &mut scope, place + 1, next)?)?;
    }
    Ok(FromPart { tables, scope })
}

/// FROM with its ONs. All tables are looked at before the first ON.
pub(crate) fn from<'t>(
    alloc: Global,
    names: &'t [NamedTable],
    select: &Select,
) -> Result<FromPart<'t>, BindFault>
    ensures checks { Checks bind_tells (from_checks names.now select.now) result }
    ensures tables { IfOk result (λ f. map table_view f.tables ≡ bound_from names.now select.now) }
    ensures scope { IfOk result (λ f. f.scope ≡ scope_of names.now select.now) }
{
    let more = select.more.as_slice();
    check_tables(names, &select.table, more)?;
    tables(alloc, names, &select.table, more)
}
