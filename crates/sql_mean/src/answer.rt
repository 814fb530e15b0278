ghost use Rattle.std.specs.Prelude.{◌≡◌, ◌++◌, IfOk, IfErr, OnOk, OnErr, map};
ghost use Rattle.std.specs.List.{All, flat_map};
ghost use Rattle.sql_bind.specs.View.{bound_view, select_view};
ghost use Rattle.sql_mean.specs.Fits.{QueryFits, SelectFits, ShownFits};
ghost use Rattle.sql_mean.specs.Meaning.{IsAnswer, bag, distinct_rows, select_bag, shown, stable_answer};
ghost use Rattle.sql_mean.specs.declared.fault.AnswerFault.TheVariants as fault;

use crate::AnswerFault;
use crate::distinct::firsts;
use crate::groups::group_rows;
use crate::items::{has_groups, plain_rows};
use crate::joins::matches;
use crate::order::ordered;
use crate::rows::{Joined, Lists, Rows};
use sql_bind::{Bound, BoundSelect};
use std::alloc::Global;

/// The rows of the items of a select.
fn shown(alloc: Global, select: &BoundSelect, envs: &[Joined]) -> Result<Rows, AnswerFault>
    ensures rows { IfOk result (λ rows. rows ≡ shown (select_view select.now) envs.now) }
    ensures fits { ShownFits (select_view select.now) envs.now → IfErr result (λ e. e ≡ fault.Memory) }
{
    if has_groups(select) {
        return group_rows(alloc, select, envs);
    }
    Ok(plain_rows(alloc, envs, select.items.as_slice())?)
}

/// The rows of a select, each once under DISTINCT.
fn select_bag(alloc: Global, tables: &Lists, select: &BoundSelect) -> Result<Rows, AnswerFault>
    ensures rows { IfOk result (λ rows. rows ≡ select_bag tables.now (select_view select.now)) }
    ensures fits { SelectFits tables.now (select_view select.now) → IfErr result (λ e. e ≡ fault.Memory) }
{
    let envs = matches(alloc, tables, select)?;
    let rows = shown(alloc, select, envs.as_slice())?;
    if select.distinct {
        return Ok(firsts(alloc, rows.as_slice())?);
    }
    Ok(rows)
}

/// Some rows, and behind them those of these selects.
fn with_others(
    alloc: Global,
    tables: &Lists,
    rows: Rows,
    others: &[BoundSelect],
) -> Result<Rows, AnswerFault>
    ensures rows { IfOk result (λ all. all ≡ rows ++ flat_map (select_bag tables.now) (map select_view others.now)) }
    ensures fits { All (SelectFits tables.now) (map select_view others.now) → IfErr result (λ e. e ≡ fault.Memory) }
{
    let mut all = rows;
    for select in others {
        let more = select_bag(alloc, tables, select)?;
        all = all.join(alloc, &more)?;
    }
    Ok(all)
}

/// The rows of all selects, one behind the other.
fn bag(alloc: Global, tables: &Lists, query: &Bound) -> Result<Rows, AnswerFault>
    ensures rows { IfOk result (λ rows. rows ≡ bag tables.now (bound_view query.now)) }
    ensures fits { QueryFits tables.now (bound_view query.now) → IfErr result (λ e. e ≡ fault.Memory) }
{
    let rows = select_bag(alloc, tables, &query.first)?;
    with_others(alloc, tables, rows, query.others.as_slice())
}

/// The rows that answer a query over these tables, in the order of ORDER BY. Rows that no key tells apart stand as the query gives
/// them: in the order of the rows of its first table, then of its second, and so on; groups where their first rows stand; one select
/// behind the other. A value that isn't there is 0, and a number stands before a text: where a query was bound over the schemas of
/// these tables, no value is missing and none is compared with one of the other kind.
pub fn answer_slowly(alloc: Global, query: &Bound, tables: &Lists) -> Result<Rows, AnswerFault>
    ensures rows { IfOk result (λ rows. rows ≡ stable_answer tables.now (bound_view query.now)) }
    ensures answer { IfOk result (λ rows. IsAnswer tables.now (bound_view query.now) rows) }
    ensures fits { QueryFits tables.now (bound_view query.now) → IfErr result (λ e. e ≡ fault.Memory) }
{
    let rows = bag(alloc, tables, query)?;
    Ok(ordered(alloc, query.order_by.as_slice(), query.limit, rows)?)
}
