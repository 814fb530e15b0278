ghost use Rattle.std.specs.Prelude.{◌≡◌, slice_get};
ghost use Rattle.qsr_value.specs.Ordered.{AreThere, HaveKeys, compare_at, compare_by, compare_values};

use crate::{Row, Value};
use std::cmp::Ordering;

/// A column to sort by.
#[derive(Clone, Copy, Debug, PartialEq, Eq)]
pub struct SortKey {
    pub column: u8,
    pub descending: bool,
}

/// Compares two rows by the keys in turn: the first key that tells them apart decides. Whole numbers are compared by
/// value, texts by their bytes, and a number stands before a text. Each key's column has to be in both rows.
pub fn cmp_by(a: &Row, b: &Row, keys: &[SortKey]) -> Ordering
    requires { HaveKeys keys.now a.now b.now }
    ensures { result ≡ compare_by keys.now a.now b.now }
{
    for key in keys {
        let order = cmp_at(a, b, *key);
        if order != Ordering::Equal {
            return order;
        }
    }
    Ordering::Equal
}

/// Compares two rows by one key.
fn cmp_at(a: &Row, b: &Row, key: SortKey) -> Ordering
    requires { AreThere (slice_get a.now key.column) (slice_get b.now key.column) }
    ensures { result ≡ compare_at key a.now b.now }
{
    let column = key.column as usize;
    let order = cmp_values(a.get(column), b.get(column));
    if key.descending {
        return order.reverse();
    }
    order
}

/// Compares two values: whole numbers by value, texts by their bytes, and a number before a text.
pub fn cmp_values(a: &Value, b: &Value) -> Ordering
    ensures { result ≡ compare_values a.now b.now }
{
    match a {
        Value::Int(number) => match b {
            Value::Int(other) => number.cmp(other),
            Value::Text(_) => Ordering::Less,
        },
        Value::Text(text) => match b {
            Value::Int(_) => Ordering::Greater,
            Value::Text(other) => text.as_str().cmp(other.as_str()),
        },
    }
}
