ghost use Rattle.std.specs.Prelude.{◌≡◌, map, IfOk};
ghost use Rattle.sql_bind.specs.View.{select_view};
ghost use Rattle.std.specs.List.{list_any};
ghost use Rattle.sql_mean.specs.Meaning.{has_groups, is_bound_aggregate, plain_value, value_at};

use crate::places::value_at;
use crate::rows::{Joined, Rows};
use qsr_value::{ListOf, Memory, Row, TryCopy, Value};
use sql_bind::{BoundColumn, BoundItem, BoundSelect};
use std::alloc::Global;

/// Whether an item is computed of the rows of a group.
fn is_aggregate(item: BoundItem) -> bool
    ensures { result ≡ is_bound_aggregate item }
{
    match item {
        BoundItem::Column(_) => false,
        BoundItem::Count | BoundItem::Fold(_, _) => true,
    }
}

/// Whether some of these items are computed of the rows of a group.
fn any_aggregate(items: &[BoundItem]) -> bool
    ensures { result ≡ list_any is_bound_aggregate items.now }
{
    for item in items {
        if is_aggregate(*item) {
            return true;
        }
    }
    false
}

/// Whether the rows of a select are grouped.
pub(crate) fn has_groups(select: &BoundSelect) -> bool
    ensures { result ≡ has_groups (select_view select.now) }
{
    !select.group_by.is_empty() || any_aggregate(select.items.as_slice())
}

/// A copy of the value at a column of some rows.
pub(crate) fn copy_at(alloc: Global, env: &[Row], column: BoundColumn) -> Result<Value, Memory>
    ensures { IfOk result (λ value. value ≡ value_at env.now column) }
{
    let zero = Value::Int(0);
    value_at(env, column, &zero).copy(alloc)
}

/// An item of some rows that are no group.
fn plain_value(alloc: Global, env: &[Row], item: BoundItem) -> Result<Value, Memory>
    ensures { IfOk result (λ value. value ≡ plain_value env.now item) }
{
    match item {
        BoundItem::Column(column) => copy_at(alloc, env, column),
        BoundItem::Count | BoundItem::Fold(_, _) => Ok(Value::Int(0)),
    }
}

/// The items of some rows that are no group.
fn plain_row(alloc: Global, env: &[Row], items: &[BoundItem]) -> Result<Row, Memory>
    ensures { IfOk result (λ row. row ≡ map (plain_value env.now) items.now) }
{
    let mut row = ListOf::with_room(alloc, items.len())?;
    for item in items {
        row.push(plain_value(alloc, env, *item)?)?;
    }
    Ok(row)
}

/// The items of each of the rows that FROM and WHERE leave.
pub(crate) fn plain_rows(
    alloc: Global,
    envs: &[Joined],
    items: &[BoundItem],
) -> Result<Rows, Memory>
    ensures { IfOk result (λ rows. rows ≡ map (λ env. map (plain_value env) items.now) envs.now) }
{
    let mut rows = ListOf::with_room(alloc, envs.len())?;
    for env in envs {
        rows.push(plain_row(alloc, env.as_slice(), items)?)?;
    }
    Ok(rows)
}
