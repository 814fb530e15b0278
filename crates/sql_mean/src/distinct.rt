ghost use Rattle.std.specs.Prelude.{◌≡◌, [], ◌∷◌, ◌++◌, if◌then◌else◌, IfOk, OnOk};
ghost use Rattle.std.specs.List.{list_any};
ghost use Rattle.qsr_lists.specs.Lists.{firsts};
ghost use Rattle.sql_mean.specs.Rows.{same_row, same_value};

use crate::rows::Rows;
use qsr_value::{ListOf, Memory, Row, TryCopy, Value};
use std::alloc::Global;

/// Whether two values are of one kind and equal.
fn same_value(a: &Value, b: &Value) -> bool
    ensures { result ≡ same_value a.now b.now }
{
    match a {
        Value::Int(number) => match b {
            Value::Int(other) => number.cmp(other).is_eq(),
            Value::Text(_) => false,
        },
        Value::Text(text) => match b {
            Value::Int(_) => false,
            Value::Text(other) => text.as_str().cmp(other.as_str()).is_eq(),
        },
    }
}

/// Whether two rows have equal values.
pub(crate) fn same_row(a: &[Value], b: &[Value]) -> bool
    ensures { result ≡ same_row a.now b.now }
{
    if a.len() != b.len() {
        return false;
    }
    for place in 0..a.len() {
        if !same_value(&a[place], &b[place]) {
            return false;
        }
    }
    true
}

/// Whether one of some rows has the values of this one.
fn is_among(row: &[Value], others: &[Row]) -> bool
    ensures { result ≡ list_any (λ other. same_row other row.now) others.now }
{
    for other in others {
        if same_row(other.as_slice(), row) {
            return true;
        }
    }
    false
}

/// Adds a row that isn't there yet.
fn push_new(alloc: Global, once: &mut Rows, row: &Row) -> Result<(), Memory>
    ensures { OnOk result (once.new ≡ (if list_any (λ other. same_row other row.now) once.old then once.old else once.old ++ row.now ∷ [])) }
{
    if is_among(row.as_slice(), once.as_slice()) {
        return Ok(());
    }
    once.push(row.copy(alloc)?)
}

/// The rows, each once, where it stands first.
pub(crate) fn firsts(alloc: Global, rows: &[Row]) -> Result<Rows, Memory>
    ensures { IfOk result (λ once. once ≡ firsts same_row rows.now) }
{
    let mut once = ListOf::new(alloc);
    for row in rows {
        push_new(alloc, &mut once, row)?;
    }
    Ok(once)
}
