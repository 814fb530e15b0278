ghost use Rattle.std.specs.Prelude.{◌≡◌, IfOk};
ghost use Rattle.sql_bind.specs.Bound.{bound_query};
ghost use Rattle.sql_bind.specs.Checks.{query_checks, bind_tells};
ghost use Rattle.sql_bind.specs.View.{bound_view};
ghost use Rattle.grammar_laws.specs.Checks.{Checks};

use crate::keys::keys;
use crate::selects::{SelectPart, check_alike, others, select};
use crate::settings::plan_options;
use crate::{BindFault, Bound, Names};
use sql_front::Query;
use std::alloc::Global;

/// A query with its names bound to the columns of these tables. It is refused for the first thing in it that can't be, in this
/// order: the tables of FROM from left to right, each ON in text order, WHERE, the items, GROUP BY; so for each select; then selects
/// that aren't alike; then ORDER BY.
pub fn bind(alloc: Global, query: &Query, tables: &Names) -> Result<Bound, BindFault>
    ensures checks { Checks bind_tells (query_checks tables.now query.now) result }
    ensures bound { IfOk result (λ b. bound_view b ≡ bound_query tables.now query.now) }
{
    let names = tables.as_slice();
    let more = query.more.as_slice();
    let SelectPart {
        select: first,
        scope,
    } = select(alloc, names, &query.first)?;
    let others = others(alloc, names, more)?;
    check_alike(first.items.as_slice(), others.as_slice(), more)?;
    let order_by = keys(
        alloc,
        scope.as_slice(),
        first.items.as_slice(),
        query.order_by.as_slice(),
    )?;
    Ok(Bound {
        first,
        others,
        order_by,
        limit: query.limit.map(|limit| limit.value),
        options: plan_options(query.options.as_slice()),
    })
}
