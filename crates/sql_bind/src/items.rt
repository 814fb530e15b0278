ghost use Rattle.std.specs.Prelude.{◌≡◌, [], ◌∷◌, ◌++◌, map, IfOk, OnOk, ◌&&◌, ◌==◌, not};
ghost use Rattle.sql_bind.specs.Bound.{bound_groups, bound_items, bound_one, columns_from, every_column, same_column};
ghost use Rattle.sql_bind.specs.Checks.{any_aggregate, clash_of_sum, columns_checks, group_columns, grouping_of, has_aggregate, is_aggregate, is_column_among, is_ungrouped, item_checks, items_checks, selection_checks, bind_tells};
ghost use Rattle.sql_front.specs.View.{column_tree};
ghost use Rattle.sql_front.specs.declared.tree.Item.TheVariants as item;
ghost use Rattle.grammar_laws.specs.Checks.{Checks};

use crate::BindFault;
use crate::bound::{BoundColumn, BoundItem};
use crate::conditions::is_text;
use crate::scope::{Scoped, meant, place_in_text};
use qsr_value::ColKind;
use sql_front::{Aggregate, Column, Item, Select, Selection};
use sqlite_items::Items;
use std::alloc::{AllocError, Global};

/// How the rows of a select are grouped: whether it has GROUP BY, the columns of it that have a meaning, and whether an item is an
/// aggregate.
#[derive(Drop)]
pub(crate) struct Grouping {
    pub(crate) grouped: bool,
    pub(crate) columns: Items<BoundColumn>,
    pub(crate) aggregates: bool,
}

/// Whether two columns of a select are one.
pub(crate) fn same_column(a: BoundColumn, b: BoundColumn) -> bool
    ensures { result ≡ same_column a b }
{
    a.table == b.table && a.place == b.place
}

fn is_column_among(column: BoundColumn, others: &[BoundColumn]) -> bool
    ensures { result ≡ is_column_among column others.now }
{
    for other in others {
        if same_column(column, *other) {
            return true;
        }
    }
    false
}

/// The columns of GROUP BY that have a meaning. One that has none is refused later, by `groups`.
fn group_columns(
    alloc: Global,
    scope: &[Scoped],
    columns: &[Column],
) -> Result<Items<BoundColumn>, AllocError>
    ensures { IfOk result (λ cs. cs ≡ group_columns scope.now columns.now) }
{
    let mut meanings = Items::from_vec(Vec::with_capacity(alloc, columns.len())?);
    for column in columns {
        match meant(scope, column) {
            Ok(meaning) => meanings.push(meaning)?,
            Err(BindFault::Memory) => return Err(AllocError),
            Err(_) => {}
        }
    }
    Ok(meanings)
}

fn is_aggregate(item: &Item) -> bool
    ensures { result ≡ is_aggregate item.now }
{
    match item {
        Item::Column(_) => false,
        Item::Count(_) | Item::Fold(_, _, _) => true,
    }
}

fn any_aggregate(items: &[Item]) -> bool
    ensures { result ≡ any_aggregate items.now }
{
    for item in items {
        if is_aggregate(item) {
            return true;
        }
    }
    false
}

fn has_aggregate(selection: &Selection) -> bool
    ensures { result ≡ has_aggregate selection.now }
{
    match selection {
        Selection::Star(_) => false,
        Selection::Items(first, more) => is_aggregate(first) || any_aggregate(more.as_slice()),
    }
}

/// How the rows of a select are grouped.
pub(crate) fn grouping_of(
    alloc: Global,
    scope: &[Scoped],
    select: &Select,
) -> Result<Grouping, AllocError>
    ensures { IfOk result (λ g. g ≡ grouping_of scope.now select.now) }
{
    Ok(Grouping {
        grouped: !select.group_by.is_empty(),
        columns: group_columns(alloc, scope, select.group_by.as_slice())?,
        aggregates: has_aggregate(&select.items),
    })
}

/// Whether a plain column may not stand among the items.
fn is_ungrouped(grouping: &Grouping, column: BoundColumn) -> bool
    ensures { result ≡ is_ungrouped grouping.now column }
{
    if grouping.grouped {
        !is_column_among(column, grouping.columns.as_slice())
    } else {
        grouping.aggregates
    }
}

fn clash_of_sum(fold: Aggregate, kind: ColKind) -> bool
    ensures { result ≡ clash_of_sum fold kind }
{
    match fold {
        Aggregate::Sum => is_text(kind),
        Aggregate::Min | Aggregate::Max => false,
    }
}

/// A plain column as an item.
fn plain_item(
    grouping: &Grouping,
    scope: &[Scoped],
    column: &Column,
) -> Result<BoundItem, BindFault>
    ensures checks { Checks bind_tells (item_checks grouping.now scope.now (item.Column column.now)) result }
    ensures bound { IfOk result (λ i. i ≡ bound_one scope.now (item.Column column.now)) }
{
    let meaning = meant(scope, column)?;
    if is_ungrouped(grouping, meaning) {
        let at = place_in_text(column);
        return Err(BindFault::NeedsGroup { at });
    }
    Ok(BoundItem::Column(meaning))
}

/// SUM, MIN or MAX, whose word stands at this place.
fn fold_item(
    grouping: &Grouping,
    scope: &[Scoped],
    fold: Aggregate,
    at: u32,
    column: &Column,
) -> Result<BoundItem, BindFault>
    ensures checks { Checks bind_tells (item_checks grouping.now scope.now (item.Fold fold at column.now)) result }
    ensures bound { IfOk result (λ i. i ≡ bound_one scope.now (item.Fold fold at column.now)) }
{
    if !grouping.grouped {
        return Err(BindFault::NeedsGroup { at });
    }
    let meaning = meant(scope, column)?;
    if clash_of_sum(fold, meaning.kind) {
        let at = place_in_text(column);
        return Err(BindFault::TypeClash { at });
    }
    Ok(BoundItem::Fold(fold, meaning))
}

fn item_bound(grouping: &Grouping, scope: &[Scoped], item: &Item) -> Result<BoundItem, BindFault>
    ensures checks { Checks bind_tells (item_checks grouping.now scope.now item.now) result }
    ensures bound { IfOk result (λ i. i ≡ bound_one scope.now item.now) }
{
    match item {
        Item::Column(column) => plain_item(grouping, scope, column),
        Item::Count(_) => Ok(BoundItem::Count),
        Item::Fold(fold, at, column) => fold_item(grouping, scope, *fold, *at, column),
    }
}

/// An item and those behind it.
#[tactic(auto, using(crate::proofs::ItemLemmas::items_turn))]
fn listed(
    alloc: Global,
    grouping: &Grouping,
    scope: &[Scoped],
    first: &Item,
    more: &[Item],
) -> Result<Items<BoundItem>, BindFault>
    ensures checks { Checks bind_tells (items_checks grouping.now scope.now (first.now ∷ more.now)) result }
    ensures bound { IfOk result (λ is. is ≡ bound_one scope.now first.now ∷ map (bound_one scope.now) more.now) }
{
    let first = item_bound(grouping, scope, first)?;
    let mut items = Items::from_vec(Vec::with_capacity(alloc, more.len().saturating_add(1))?);
    items.push(first)?;
    for item in more {
        items.push(item_bound(grouping, scope, item)?)?;
    }
    Ok(items)
}

/// Adds all columns of a table.
fn push_columns(items: &mut Items<BoundItem>, table: &Scoped) -> Result<(), AllocError>
    ensures { OnOk result (items.new ≡ items.old ++ columns_from table.now.place 0 table.now.columns) }
{
    for (place, column) in table.columns.iter().enumerate() {
        items.push(BoundItem::Column(BoundColumn {
            table: table.place,
            place,
            kind: column.kind,
        }))?;
    }
    Ok(())
}

/// All columns of the tables in scope.
fn every_column(alloc: Global, scope: &[Scoped]) -> Result<Items<BoundItem>, AllocError>
    ensures { IfOk result (λ is. is ≡ every_column scope.now) }
{
    let mut items = Items::new(alloc);
    for table in scope {
        push_columns(&mut items, table)?;
    }
    Ok(items)
}

/// All items of a select.
pub(crate) fn items(
    alloc: Global,
    grouping: &Grouping,
    scope: &[Scoped],
    selection: &Selection,
) -> Result<Items<BoundItem>, BindFault>
    ensures checks { Checks bind_tells (selection_checks grouping.now scope.now selection.now) result }
    ensures bound { IfOk result (λ is. is ≡ bound_items scope.now selection.now) }
{
    match selection {
        Selection::Star(at) if grouping.grouped => Err(BindFault::NeedsGroup { at: *at }),
        Selection::Star(_) => Ok(every_column(alloc, scope)?),
        Selection::Items(first, more) => listed(alloc, grouping, scope, first, more.as_slice()),
    }
}

/// Refuses the first column of GROUP BY that has no meaning.
fn check_columns(scope: &[Scoped], columns: &[Column]) -> Result<(), BindFault>
    ensures { Checks bind_tells (columns_checks scope.now columns.now) result }
{
    for column in columns {
        meant(scope, column)?;
    }
    Ok(())
}

/// The columns of GROUP BY, all of which have to have a meaning.
#[tactic(auto, using(crate::proofs::ItemLemmas::all_meant))]
pub(crate) fn groups(
    grouping: Grouping,
    scope: &[Scoped],
    columns: &[Column],
) -> Result<Items<BoundColumn>, BindFault>
    requires { grouping.columns ≡ group_columns scope.now columns.now }
    ensures checks { Checks bind_tells (columns_checks scope.now columns.now) result }
    ensures bound { IfOk result (λ cs. cs ≡ bound_groups scope.now columns.now) }
{
    check_columns(scope, columns)?;
    let Grouping { columns, .. } = grouping;
    Ok(columns)
}
