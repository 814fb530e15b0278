//! Whether values are a row of columns, which calls on rows require.

ghost use Rattle.std.specs.Prelude.{IsTrue};
ghost use Rattle.qsr_value.specs.Values.{Fits, IsOfKind};

use qsr_value::{ColKind, Column, Value};

/// Whether a value may stand in a column of a kind.
fn is_of_kind(kind: ColKind, value: &Value) -> bool
    ensures { IsTrue result → IsOfKind kind value.now }
{
    match value {
        Value::Int(number) => has_number(kind, *number),
        Value::Text(text) => has_text(kind, text.as_str()),
    }
}

/// Whether a number may stand in a column of a kind.
fn has_number(kind: ColKind, number: i128) -> bool
    ensures { IsTrue result → IsOfKind kind (Value.Int number) }
{
    match kind {
        ColKind::Int => i64::try_from(number).is_ok(),
        ColKind::Wide => true,
        ColKind::Text { .. } => false,
    }
}

/// Whether a text may stand in a column of a kind.
fn has_text(kind: ColKind, text: &str) -> bool
    ensures { IsTrue result → IsOfKind kind (Value.Text text.now) }
{
    match kind {
        ColKind::Text { max } => text.len() <= max as usize,
        _ => false,
    }
}

/// Whether values are a row of columns: one of its kind for each.
pub fn fits(columns: &[Column], values: &[Value]) -> bool
    ensures { IsTrue result → Fits columns.now values.now }
{
    match columns {
        [] => values.is_empty(),
        [column, columns @ ..] => match values {
            [] => false,
            [value, values @ ..] => is_of_kind(column.kind, value) && fits(columns, values),
        },
    }
}
