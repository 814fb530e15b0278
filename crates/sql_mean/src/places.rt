ghost use Rattle.std.specs.Prelude.{◌≡◌, slice_index_or, unwrap_or};
ghost use Rattle.std.specs.Option.{option_copied};
ghost use Rattle.sql_mean.specs.Meaning.{no_value, value_at};

use qsr_value::{Row, Value};
use sql_bind::BoundColumn;

/// The value at a place of a row, or else this one.
pub(crate) fn item_or<'v>(row: &'v [Value], place: usize, other: &'v Value) -> &'v Value
    ensures { result.now ≡ slice_index_or row.now place other.now }
{
    match row.get(place) {
        Some(value) => value,
        None => other,
    }
}

/// The value at a column of some rows, if there is one.
pub(crate) fn value_there(env: &[Row], column: BoundColumn) -> Option<&Value>
    ensures { unwrap_or (option_copied result) no_value ≡ value_at env.now column }
{
    match env.get(column.table) {
        Some(row) => row.as_slice().get(column.place),
        None => None,
    }
}

/// The value at a column of some rows, or else this one, which is to be 0.
pub(crate) fn value_at<'v>(env: &'v [Row], column: BoundColumn, zero: &'v Value) -> &'v Value
    ensures { zero.now ≡ no_value → result.now ≡ value_at env.now column }
{
    match value_there(env, column) {
        Some(value) => value,
        None => zero,
    }
}
