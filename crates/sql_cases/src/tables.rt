//! The tables that queries are asked of, with their rows.

use crate::table_lines;
use anyhow::{Result, ensure};
use qsr_value::{ColKind, Column, ListOf, Memory, Value};
use sql_bind::Names;
use sql_mean::{Lists, Rows};
use std::alloc::Global;
use std::mem;

#[derive(Drop)]
pub(crate) struct Tables {
    /// The tables, each with its columns.
    pub(crate) names: Names,
    /// The rows of each of them, but for the last one while its rows are still being added.
    pub(crate) lists: Lists,
    rows: Rows,
}

/// Whether a value may stand in a column of a kind.
fn is_of_kind(value: &Value, kind: ColKind) -> bool {
    match kind {
        ColKind::Text { .. } => matches!(value, Value::Text(_)),
        _ => matches!(value, Value::Int(_)),
    }
}

/// Whether values stand in columns so: one of its kind for each.
fn fits(values: &[Value], columns: &[Column]) -> bool {
    let mut pairs = values.iter().zip(columns);
    values.len() == columns.len() && pairs.all(|(value, column)| is_of_kind(value, column.kind))
}

impl Tables {
    pub(crate) fn new(alloc: Global) -> Tables {
        Tables {
            names: ListOf::new(alloc),
            lists: ListOf::new(alloc),
            rows: ListOf::new(alloc),
        }
    }

    pub(crate) fn forget(&mut self, alloc: Global) {
        *self = Tables::new(alloc);
    }

    /// The table that was added last has all its rows.
    pub(crate) fn close(&mut self, alloc: Global) -> Result<(), Memory> {
        if self.lists.len() < self.names.len() {
            let rows = mem::replace(&mut self.rows, ListOf::new(alloc));
            self.lists.push(rows)?;
        }
        Ok(())
    }

    pub(crate) fn add_table(&mut self, alloc: Global, text: &str) -> Result<()> {
        self.close(alloc)?;
        self.names.push(table_lines::named_table(alloc, text)?)?;
        Ok(())
    }

    /// The columns of the table that rows are added to, none where there is no such table.
    fn open_columns(&self) -> &[Column] {
        match self.names.as_slice().last() {
            Some(table) if self.lists.len() < self.names.len() => table.columns.as_slice(),
            _ => &[],
        }
    }

    pub(crate) fn add_row(&mut self, alloc: Global, text: &str) -> Result<()> {
        let row = table_lines::row(alloc, text)?;
        ensure!(
            fits(row.as_slice(), self.open_columns()),
            "no row of its table"
        );
        self.rows.push(row)?;
        Ok(())
    }
}
