//! Values as fields of a line.

use qsr_value::Value;
use std::alloc::{AllocError, Global};
use std::fmt::Write;

/// Adds a value to a line: a number, or a text between two `'`.
fn push_value(line: &mut String, value: &Value) -> Result<(), AllocError> {
    match value {
        Value::Int(number) => write!(line, "{number}"),
        Value::Text(text) => write!(line, "'{}'", text.as_str()),
    }
}

/// Adds a value behind those of the line, if there are any.
pub(crate) fn push_field(line: &mut String, value: &Value) -> Result<(), AllocError> {
    if !line.is_empty() {
        line.push('~')?;
    }
    push_value(line, value)
}

/// The values of a row as a line.
pub(crate) fn row_line(alloc: Global, row: &[Value]) -> Result<String, AllocError> {
    let mut line = String::new(alloc);
    for value in row {
        push_field(&mut line, value)?;
    }
    Ok(line)
}
