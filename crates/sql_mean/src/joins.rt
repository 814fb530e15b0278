ghost use Rattle.std.specs.Prelude.{◌≡◌, ◌∷◌, ◌++◌, [], filter, map, IfOk, OnOk};
ghost use Rattle.std.specs.List.{list_any};
ghost use Rattle.sql_bind.specs.View.{conditions_of, select_view, table_view};
ghost use Rattle.sql_bind.specs.declared.bound.JoinedBy.TheVariants as by;
ghost use Rattle.sql_mean.specs.Meaning.{all_hold, joined_all, joined_with, matches, rows_at};

use crate::conditions::all_hold;
use crate::rows::{Joined, Lists};
use qsr_value::{ListOf, Memory, Row, TryCopy};
use sql_bind::{BoundSelect, BoundTable, Condition, JoinedBy};
use std::alloc::Global;

/// The rows of a table; none where there is no such table.
fn rows_at(tables: &Lists, number: usize) -> &[Row]
    ensures { result.now ≡ rows_at tables.now number }
{
    match tables.as_slice().get(number) {
        Some(rows) => rows.as_slice(),
        None => &[],
    }
}

/// Some rows with one more.
fn beside(alloc: Global, env: &Joined, row: Row) -> Result<Joined, Memory>
    ensures { IfOk result (λ joined. joined ≡ env.now ++ row ∷ []) }
{
    let mut joined = env.copy(alloc)?;
    joined.push(row)?;
    Ok(joined)
}

/// Adds some rows beside each row of a table, where the conditions hold of them.
fn push_product(
    alloc: Global,
    env: &Joined,
    rows: &[Row],
    on: &[Condition],
    joined: &mut ListOf<Joined>,
) -> Result<(), Memory>
    ensures { OnOk result (joined.new ≡ joined.old ++ filter (λ e. all_hold e (conditions_of on.now)) (map (λ r. env.now ++ r ∷ []) rows.now)) }
{
    for row in rows {
        let next = beside(alloc, env, row.copy(alloc)?)?;
        if all_hold(next.as_slice(), on) {
            joined.push(next)?;
        }
    }
    Ok(())
}

/// The rows so far, each beside each row of a table, where the conditions hold of them.
fn product(
    alloc: Global,
    envs: &[Joined],
    rows: &[Row],
    on: &[Condition],
) -> Result<ListOf<Joined>, Memory>
    ensures { IfOk result (λ joined. joined ≡ joined_with by.Product rows.now (conditions_of on.now) envs.now) }
{
    let mut joined = ListOf::new(alloc);
    for env in envs {
        push_product(alloc, env, rows, on, &mut joined)?;
    }
    Ok(joined)
}

/// Whether some row of a table meets the conditions beside these rows.
fn meets_some(alloc: Global, env: &Joined, rows: &[Row], on: &[Condition]) -> Result<bool, Memory>
    ensures { IfOk result (λ meets. meets ≡ list_any (λ r. all_hold (env.now ++ r ∷ []) (conditions_of on.now)) rows.now) }
{
    for row in rows {
        let next = beside(alloc, env, row.copy(alloc)?)?;
        if all_hold(next.as_slice(), on) {
            return Ok(true);
        }
    }
    Ok(false)
}

/// Those of the rows so far beside which some row of a table meets the conditions.
fn semi(
    alloc: Global,
    envs: &[Joined],
    rows: &[Row],
    on: &[Condition],
) -> Result<ListOf<Joined>, Memory>
    ensures { IfOk result (λ joined. joined ≡ joined_with by.Semi rows.now (conditions_of on.now) envs.now) }
{
    let mut joined = ListOf::new(alloc);
    for env in envs {
        if meets_some(alloc, env, rows, on)? {
            joined.push(beside(alloc, env, ListOf::new(alloc))?)?;
        }
    }
    Ok(joined)
}

/// Those of the rows so far beside which no row of a table meets the conditions.
fn anti(
    alloc: Global,
    envs: &[Joined],
    rows: &[Row],
    on: &[Condition],
) -> Result<ListOf<Joined>, Memory>
    ensures { IfOk result (λ joined. joined ≡ joined_with by.Anti rows.now (conditions_of on.now) envs.now) }
{
    let mut joined = ListOf::new(alloc);
    for env in envs {
        if !meets_some(alloc, env, rows, on)? {
            joined.push(beside(alloc, env, ListOf::new(alloc))?)?;
        }
    }
    Ok(joined)
}

/// The rows so far with those of one table more, under the conditions of its ON.
fn joined_with(
    alloc: Global,
    envs: &[Joined],
    rows: &[Row],
    table: &BoundTable,
) -> Result<ListOf<Joined>, Memory>
    ensures { IfOk result (λ joined. joined ≡ joined_with table.now.joined rows.now (conditions_of table.now.conditions) envs.now) }
{
    let on = table.conditions.as_slice();
    match table.joined {
        JoinedBy::Product => product(alloc, envs, rows, on),
        JoinedBy::Semi => semi(alloc, envs, rows, on),
        JoinedBy::Anti => anti(alloc, envs, rows, on),
    }
}

/// The rows of FROM.
fn joined_all(alloc: Global, tables: &Lists, from: &[BoundTable]) -> Result<ListOf<Joined>, Memory>
    ensures { IfOk result (λ joined. joined ≡ joined_all tables.now (map table_view from.now) ([] ∷ [])) }
{
    let mut joined = ListOf::new(alloc);
    joined.push(ListOf::new(alloc))?;
    for table in from {
        joined = joined_with(
            alloc,
            joined.as_slice(),
            rows_at(tables, table.table),
            table,
        )?;
    }
    Ok(joined)
}

/// Those of some rows of which the conditions hold.
fn met(alloc: Global, envs: &[Joined], conditions: &[Condition]) -> Result<ListOf<Joined>, Memory>
    ensures { IfOk result (λ met. met ≡ filter (λ e. all_hold e (conditions_of conditions.now)) envs.now) }
{
    let mut met = ListOf::new(alloc);
    for env in envs {
        if all_hold(env.as_slice(), conditions) {
            met.push(env.copy(alloc)?)?;
        }
    }
    Ok(met)
}

/// What FROM and WHERE of a select leave.
pub(crate) fn matches(
    alloc: Global,
    tables: &Lists,
    select: &BoundSelect,
) -> Result<ListOf<Joined>, Memory>
    ensures { IfOk result (λ joined. joined ≡ matches tables.now (select_view select.now)) }
{
    let joined = joined_all(alloc, tables, select.tables.as_slice())?;
    met(alloc, joined.as_slice(), select.conditions.as_slice())
}
