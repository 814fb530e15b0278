ghost use Rattle.std.specs.Prelude.{◌≡◌, [], ◌∷◌, map, slice_index_or, IfOk, IfErr, pos, length};
ghost use Rattle.std.specs.List.{All};
ghost use Rattle.qsr_lists.specs.Lists.{groups, of_key};
ghost use Rattle.sql_bind.specs.View.{select_view};
ghost use Rattle.sql_mean.specs.Fits.{GroupFits, GroupsFit, ItemFits};
ghost use Rattle.sql_mean.specs.Meaning.{group_row, group_rows, group_value, key_of, no_value, place_among};
ghost use Rattle.sql_mean.specs.Rows.{same_row};
ghost use Rattle.sql_mean.specs.declared.fault.AnswerFault.TheVariants as fault;

use crate::AnswerFault;
use crate::aggregates::folded;
use crate::distinct::{firsts, same_row};
use crate::items::copy_at;
use crate::places::item_or;
use crate::rows::{Group, Joined, Rows};
use qsr_value::{ListOf, Memory, Row, TryCopy, Value};
use sql_bind::{BoundColumn, BoundItem, BoundSelect};
use std::alloc::Global;

/// The place of a column among some; behind them all where it isn't there.
fn place_among(column: BoundColumn, columns: &[BoundColumn]) -> usize
    ensures { result ≡ place_among column columns.now }
{
    let mut place = 0;
    for other in columns {
        if column.table == other.table && column.place == other.place {
            return place;
        }
        place += 1;
    }
    place
}

/// The values of some rows at these columns.
fn key_of(alloc: Global, columns: &[BoundColumn], env: &[Row]) -> Result<Row, Memory>
    ensures { IfOk result (λ key. key ≡ key_of columns.now env.now) }
{
    let mut key = ListOf::with_room(alloc, columns.len())?;
    for column in columns {
        key.push(copy_at(alloc, env, *column)?)?;
    }
    Ok(key)
}

/// The keys of all rows, in their order.
fn keys_of(alloc: Global, columns: &[BoundColumn], envs: &[Joined]) -> Result<Rows, Memory>
    ensures { IfOk result (λ keys. keys ≡ map (key_of columns.now) envs.now) }
{
    let mut keys = ListOf::with_room(alloc, envs.len())?;
    for env in envs {
        keys.push(key_of(alloc, columns, env.as_slice())?)?;
    }
    Ok(keys)
}

/// Whether some rows have this key.
fn has_key(
    alloc: Global,
    columns: &[BoundColumn],
    key: &[Value],
    env: &[Row],
) -> Result<bool, Memory>
    ensures { IfOk result (λ has. has ≡ same_row key.now (key_of columns.now env.now)) }
{
    let other = key_of(alloc, columns, env)?;
    Ok(same_row(key, other.as_slice()))
}

/// The rows that have this key.
fn of_key(
    alloc: Global,
    columns: &[BoundColumn],
    key: &Row,
    envs: &[Joined],
) -> Result<ListOf<Joined>, Memory>
    ensures { IfOk result (λ rows. rows ≡ of_key same_row (key_of columns.now) envs.now key.now) }
{
    let mut rows = ListOf::new(alloc);
    for env in envs {
        if has_key(alloc, columns, key.as_slice(), env.as_slice())? {
            rows.push(env.copy(alloc)?)?;
        }
    }
    Ok(rows)
}

/// A key and the rows that have it.
fn group_of(
    alloc: Global,
    columns: &[BoundColumn],
    key: &Row,
    envs: &[Joined],
) -> Result<Group, Memory>
    ensures { IfOk result (λ group. group ≡ (key.now, of_key same_row (key_of columns.now) envs.now key.now)) }
{
    let rows = of_key(alloc, columns, key, envs)?;
    Ok((key.copy(alloc)?, rows))
}

/// The group of each of these keys.
fn groups_of(
    alloc: Global,
    columns: &[BoundColumn],
    keys: &[Row],
    envs: &[Joined],
) -> Result<ListOf<Group>, Memory>
    ensures { IfOk result (λ made. made ≡ map (λ key. (key, of_key same_row (key_of columns.now) envs.now key)) keys.now) }
{
    let mut made = ListOf::with_room(alloc, keys.len())?;
    for key in keys {
        made.push(group_of(alloc, columns, key, envs)?)?;
    }
    Ok(made)
}

/// The rows in groups of one key each, in the order in which the keys appear first.
fn groups(alloc: Global, columns: &[BoundColumn], envs: &[Joined]) -> Result<ListOf<Group>, Memory>
    ensures { IfOk result (λ made. made ≡ groups same_row (key_of columns.now) envs.now) }
{
    let keys = keys_of(alloc, columns, envs)?;
    let once = firsts(alloc, keys.as_slice())?;
    groups_of(alloc, columns, once.as_slice(), envs)
}

/// A copy of the value at a place of a row.
fn copy_in(alloc: Global, row: &[Value], place: usize) -> Result<Value, Memory>
    ensures { IfOk result (λ value. value ≡ slice_index_or row.now place no_value) }
{
    let zero = Value::Int(0);
    item_or(row, place, &zero).copy(alloc)
}

/// An item of a group.
fn group_value(
    alloc: Global,
    columns: &[BoundColumn],
    key: &[Value],
    envs: &[Joined],
    item: BoundItem,
) -> Result<Value, AnswerFault>
    ensures value { IfOk result (λ value. value ≡ group_value columns.now key.now envs.now item) }
    ensures fits { ItemFits envs.now item → IfErr result (λ e. e ≡ fault.Memory) }
{
    match item {
        BoundItem::Column(column) => Ok(copy_in(alloc, key, place_among(column, columns))?),
        BoundItem::Count => Ok(Value::Int(envs.len() as i128)),
        BoundItem::Fold(how, column) => folded(alloc, how, envs, column),
    }
}

/// Each of these items of a group.
fn group_values(
    alloc: Global,
    columns: &[BoundColumn],
    key: &[Value],
    envs: &[Joined],
    items: &[BoundItem],
) -> Result<Row, AnswerFault>
    ensures values { IfOk result (λ row. row ≡ map (group_value columns.now key.now envs.now) items.now) }
    ensures fits { GroupFits items.now envs.now → IfErr result (λ e. e ≡ fault.Memory) }
{
    let mut row = ListOf::with_room(alloc, items.len())?;
    for item in items {
        row.push(group_value(alloc, columns, key, envs, *item)?)?;
    }
    Ok(row)
}

/// The items of a group.
fn group_row(
    alloc: Global,
    select: &BoundSelect,
    key: &[Value],
    envs: &[Joined],
) -> Result<Row, AnswerFault>
    ensures row { IfOk result (λ row. row ≡ group_row (select_view select.now) key.now envs.now) }
    ensures fits { GroupFits select.now.items envs.now → IfErr result (λ e. e ≡ fault.Memory) }
{
    group_values(
        alloc,
        select.group_by.as_slice(),
        key,
        envs,
        select.items.as_slice(),
    )
}

/// The one row of a select without GROUP BY.
fn one_row(alloc: Global, select: &BoundSelect, envs: &[Joined]) -> Result<Rows, AnswerFault>
    ensures rows { IfOk result (λ rows. rows ≡ group_row (select_view select.now) [] envs.now ∷ []) }
    ensures fits { GroupFits select.now.items envs.now → IfErr result (λ e. e ≡ fault.Memory) }
{
    let mut rows = ListOf::new(alloc);
    rows.push(group_row(alloc, select, &[], envs)?)?;
    Ok(rows)
}

/// The items of a group, which is a key and the rows that have it.
fn row_of(alloc: Global, select: &BoundSelect, group: &Group) -> Result<Row, AnswerFault>
    ensures row { IfOk result (λ row. row ≡ group_row (select_view select.now) group.now.0 group.now.1) }
    ensures fits { GroupFits select.now.items group.now.1 → IfErr result (λ e. e ≡ fault.Memory) }
{
    group_row(alloc, select, group.0.as_slice(), group.1.as_slice())
}

/// The items of each of these groups.
fn rows_of(alloc: Global, select: &BoundSelect, groups: &[Group]) -> Result<Rows, AnswerFault>
    ensures rows { IfOk result (λ rows. rows ≡ map (λ g. group_row (select_view select.now) g.0 g.1) groups.now) }
    ensures fits { All (λ g. GroupFits select.now.items g.1) groups.now → IfErr result (λ e. e ≡ fault.Memory) }
{
    let mut rows = ListOf::with_room(alloc, groups.len())?;
    for group in groups {
        rows.push(row_of(alloc, select, group)?)?;
    }
    Ok(rows)
}

/// The items of each group of a select with GROUP BY.
fn rows_of_groups(alloc: Global, select: &BoundSelect, envs: &[Joined]) -> Result<Rows, AnswerFault>
    ensures rows { IfOk result (λ rows. rows ≡ map (λ g. group_row (select_view select.now) g.0 g.1) (groups same_row (key_of select.now.group_by) envs.now)) }
    ensures fits { All (λ g. GroupFits select.now.items g.1) (groups same_row (key_of select.now.group_by) envs.now) → IfErr result (λ e. e ≡ fault.Memory) }
{
    let groups = groups(alloc, select.group_by.as_slice(), envs)?;
    rows_of(alloc, select, groups.as_slice())
}

/// The items of each group; without GROUP BY all rows are one.
pub(crate) fn group_rows(
    alloc: Global,
    select: &BoundSelect,
    envs: &[Joined],
) -> Result<Rows, AnswerFault>
    ensures rows { IfOk result (λ rows. rows ≡ group_rows (select_view select.now) select.now.group_by envs.now) }
    ensures fits { GroupsFit select.now.items select.now.group_by envs.now → IfErr result (λ e. e ≡ fault.Memory) }
{
    if select.group_by.is_empty() {
        return one_row(alloc, select, envs);
    }
    rows_of_groups(alloc, select, envs)
}
