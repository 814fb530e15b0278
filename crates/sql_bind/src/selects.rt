ghost use Rattle.std.specs.Prelude.{◌≡◌, [], ◌∷◌, ◌++◌, map, option_map, IfOk};
ghost use Rattle.sql_bind.specs.Bound.{bound_select, select_over, where_of};
ghost use Rattle.sql_bind.specs.Checks.{alike_checks, are_alike, is_text_item, scoped_checks, select_checks, selects_checks, bind_tells, where_checks};
ghost use Rattle.sql_bind.specs.Names.{scope_of};
ghost use Rattle.sql_bind.specs.View.{conditions_of, select_view, table_view};
ghost use Rattle.sql_front.specs.View.{cond_tree};
ghost use Rattle.grammar_laws.specs.Checks.{Checks};

use crate::BindFault;
use crate::bound::{BoundItem, BoundSelect, BoundTable, Condition};
use crate::conditions::is_text;
use crate::conjuncts::push_conjuncts;
use crate::from::{FromPart, from};
use crate::items::{grouping_of, groups, items};
use crate::names::NamedTable;
use crate::scope::Scoped;
use sql_front::{Cond, Select, UnionAll};
use sqlite_items::Items;
use std::alloc::Global;

/// A select, and what is in scope behind its FROM.
#[derive(Drop)]
pub(crate) struct SelectPart<'t> {
    pub(crate) select: BoundSelect,
    pub(crate) scope: Items<Scoped<'t>>,
}

/// The conjuncts of WHERE.
fn where_part(
    alloc: Global,
    scope: &[Scoped],
    condition: &Option<Cond>,
) -> Result<Items<Condition>, BindFault>
    ensures checks { Checks bind_tells (where_checks scope.now (option_map cond_tree condition.now)) result }
    ensures conditions { IfOk result (λ cs. conditions_of cs ≡ where_of scope.now (option_map cond_tree condition.now)) }
{
    let mut conjuncts = Items::new(alloc);
    if let Some(cond) = condition {
        push_conjuncts(alloc, scope, cond, &mut conjuncts)?;
    }
    Ok(conjuncts)
}

/// WHERE, the items and GROUP BY over the tables of FROM.
fn over_tables(
    alloc: Global,
    tables: Items<BoundTable>,
    scope: &[Scoped],
    select: &Select,
) -> Result<BoundSelect, BindFault>
    ensures checks { Checks bind_tells (scoped_checks scope.now select.now) result }
    ensures bound { IfOk result (λ s. select_view s ≡ select_over scope.now (map table_view tables) select.now) }
{
    let conditions = where_part(alloc, scope, &select.condition)?;
    let grouping = grouping_of(alloc, scope, select)?;
    let items = items(alloc, &grouping, scope, &select.items)?;
    let group_by = groups(grouping, scope, select.group_by.as_slice())?;
    Ok(BoundSelect {
        distinct: select.distinct,
        tables,
        conditions,
        items,
        group_by,
    })
}

/// A select over its own tables.
pub(crate) fn select<'t>(
    alloc: Global,
    names: &'t [NamedTable],
    select: &Select,
) -> Result<SelectPart<'t>, BindFault>
    ensures checks { Checks bind_tells (select_checks names.now select.now) result }
    ensures bound { IfOk result (λ s. select_view s.select ≡ bound_select names.now select.now) }
    ensures scope { IfOk result (λ s. s.scope ≡ scope_of names.now select.now) }
{
    let FromPart { tables, scope } = from(alloc, names, select)?;
    let select = over_tables(alloc, tables, scope.as_slice(), select)?;
    Ok(SelectPart { select, scope })
}

/// The selects behind UNION ALL.
pub(crate) fn others(
    alloc: Global,
    names: &[NamedTable],
    more: &[UnionAll],
) -> Result<Items<BoundSelect>, BindFault>
    ensures checks { Checks bind_tells (selects_checks names.now more.now) result }
    ensures bound { IfOk result (λ ss. map select_view ss ≡ map (λ u. bound_select names.now u.select) more.now) }
{
    let mut selects = Items::from_vec(Vec::with_capacity(alloc, more.len())?);
    for next in more {
        let SelectPart { select, .. } = self::select(alloc, names, &next.select)?;
        selects.push(select)?;
    }
    Ok(selects)
}

fn is_text_item(item: &BoundItem) -> bool
    ensures { result ≡ is_text_item item.now }
{
    match item {
        BoundItem::Column(column) | BoundItem::Fold(_, column) => is_text(column.kind),
        BoundItem::Count => false,
    }
}

/// Whether two selects have as many items, texts where the other has texts and numbers where it has numbers.
fn are_alike(first: &[BoundItem], other: &[BoundItem]) -> bool
    ensures { result ≡ are_alike first.now other.now }
{
    if first.len() != other.len() {
        return false;
    }
    for (a, b) in first.iter().zip(other) {
        if is_text_item(a) != is_text_item(b) {
            return false;
        }
    }
    true
}

/// Refuses the first select behind UNION ALL whose items aren't like these.
pub(crate) fn check_alike(
    first: &[BoundItem],
    others: &[BoundSelect],
    more: &[UnionAll],
) -> Result<(), BindFault>
    ensures { Checks bind_tells (alike_checks first.now (map (λ s. s.items) others.now) more.now) result }
{
    for (other, next) in others.iter().zip(more) {
        if !are_alike(first, other.items.as_slice()) {
            let at = next.select.at;
            return Err(BindFault::UnionClash { at });
        }
    }
    Ok(())
}
