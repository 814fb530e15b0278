ghost use Rattle.std.specs.Prelude.{◌≡◌, [], ◌∷◌, map, IfOk, IfSome, OnOk};
ghost use Rattle.sql_bind.specs.Bound.{bound_key, descends, item_from, item_of_key, key_of_key, is_column};
ghost use Rattle.sql_bind.specs.Checks.{key_checks, keys_checks, place_of_key, bind_tells};
ghost use Rattle.sql_front.specs.declared.tree.KeyOf.TheVariants as key_of;
ghost use Rattle.grammar_laws.specs.Checks.{Checks};

use crate::BindFault;
use crate::bound::{BoundColumn, BoundItem, BoundKey};
use crate::items::same_column;
use crate::scope::{Scoped, meant, place_in_text};
use sql_front::{Column, Key, KeyOf, NumberAt};
use sqlite_items::Items;
use std::alloc::Global;

fn is_column(column: BoundColumn, item: &BoundItem) -> bool
    ensures { result ≡ is_column column item.now }
{
    match item {
        BoundItem::Column(other) => same_column(column, *other),
        BoundItem::Count | BoundItem::Fold(_, _) => false,
    }
}

/// The place of the first item that is this column.
fn item_of(column: BoundColumn, items: &[BoundItem]) -> Option<usize>
    ensures { result ≡ item_from 0 column items.now }
{
    for (place, item) in items.iter().enumerate() {
        if is_column(column, item) {
            return Some(place);
        }
    }
    None
}

/// The item that a column is.
fn item_of_column(
    scope: &[Scoped],
    items: &[BoundItem],
    column: &Column,
) -> Result<usize, BindFault>
    ensures checks { Checks bind_tells (key_checks scope.now items.now (key_of.Column column.now)) result }
    ensures item { IfOk result (λ place. item_of_key scope.now items.now (key_of.Column column.now) ≡ Some place) }
{
    let meaning = meant(scope, column)?;
    let at = place_in_text(column);
    item_of(meaning, items).ok_or(BindFault::NotSelected { at })
}

/// The item of a number, counted from 1.
fn item_of_number(
    scope: &[Scoped],
    items: &[BoundItem],
    number: &NumberAt,
) -> Result<usize, BindFault>
    ensures checks { Checks bind_tells (key_checks scope.now items.now (key_of.Number number.now)) result }
    ensures item { IfOk result (λ place. item_of_key scope.now items.now (key_of.Number number.now) ≡ Some place) }
{
    let NumberAt { value, at } = *number;
    if value == 0 || value > items.len() as u128 {
        return Err(BindFault::NotSelected { at });
    }
    Ok(value as usize - 1)
}

/// The item that a key is.
fn item_of_key(scope: &[Scoped], items: &[BoundItem], key: &KeyOf) -> Result<usize, BindFault>
    ensures checks { Checks bind_tells (key_checks scope.now items.now key.now) result }
    ensures item { IfOk result (λ place. item_of_key scope.now items.now key.now ≡ Some place) }
{
    match key {
        KeyOf::Column(column) => item_of_column(scope, items, column),
        KeyOf::Number(number) => item_of_number(scope, items, number),
    }
}

/// What a key orders by, and whether it falls.
fn parts_of(key: &Key) -> (KeyOf, bool)
    ensures of { result.0 ≡ key_of_key key.now }
    ensures descends { result.1 ≡ descends key.now }
{
    match key {
        Key::Unsaid(of) | Key::Ascending(of) => (*of, false),
        Key::Descending(of) => (*of, true),
    }
}

fn key_bound(scope: &[Scoped], items: &[BoundItem], key: &Key) -> Result<BoundKey, BindFault>
    ensures checks { Checks bind_tells (key_checks scope.now items.now (key_of_key key.now)) result }
    ensures bound { IfOk result (λ k. k ≡ bound_key scope.now items.now key.now) }
{
    let (of, descending) = parts_of(key);
    let item = item_of_key(scope, items, &of)?;
    Ok(BoundKey { item, descending })
}

/// The keys of ORDER BY.
#[tactic(auto, using(crate::proofs::ItemLemmas::key_refused))]
pub(crate) fn keys(
    alloc: Global,
    scope: &[Scoped],
    items: &[BoundItem],
    keys: &[Key],
) -> Result<Items<BoundKey>, BindFault>
    ensures checks { Checks bind_tells (keys_checks scope.now items.now keys.now) result }
    ensures bound { IfOk result (λ ks. ks ≡ map (bound_key scope.now items.now) keys.now) }
{
    let mut bound = Items::from_vec(Vec::with_capacity(alloc, keys.len())?);
    for key in keys {
        bound.push(key_bound(scope, items, key)?)?;
    }
    Ok(bound)
}
