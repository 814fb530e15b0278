use crate::{ListOf, Memory, TryCopy, Txt};
use std::alloc::Global;

/// What stands in one column of a row.
#[derive(Debug, Drop)]
pub enum Value {
    /// A whole number, of a column of either width.
    Int(i128),
    Text(Txt),
}

/// The values of a row, in the order of its columns.
pub type Row = ListOf<Value>;

impl TryCopy for Value {
    fn copy(&self, alloc: Global) -> Result<Value, Memory> {
        match self {
            Value::Int(number) => Ok(Value::Int(*number)),
            Value::Text(text) => Ok(Value::Text(text.copy(alloc)?)),
        }
    }
}
