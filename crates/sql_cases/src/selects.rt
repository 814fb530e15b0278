//! Selects as text, a line for each of their parts.

use crate::conditions::put_condition;
use crate::line::Line;
use sql_front::{Aggregate, Column, Cond, Item, Join, More, NameAt, Select, Selection, Table};
use std::alloc::AllocError;

fn word(aggregate: Aggregate) -> &'static str {
    match aggregate {
        Aggregate::Sum => "sum",
        Aggregate::Min => "min",
        Aggregate::Max => "max",
    }
}

fn put_item(line: &mut Line, item: &Item) -> Result<(), AllocError> {
    match item {
        Item::Column(column) => line.put_column(column),
        Item::Count(star) => {
            line.put_at("count(*", *star)?;
            line.put(")")
        }
        Item::Fold(aggregate, at, column) => {
            line.put_at(word(*aggregate), *at)?;
            line.put("(")?;
            line.put_column(column)?;
            line.put(")")
        }
    }
}

fn put_more_items(line: &mut Line, items: &[Item]) -> Result<(), AllocError> {
    for item in items {
        line.put(", ")?;
        put_item(line, item)?;
    }
    Ok(())
}

fn put_selection(line: &mut Line, selection: &Selection) -> Result<(), AllocError> {
    match selection {
        Selection::Star(at) => line.put_at("*", *at),
        Selection::Items(first, more) => {
            put_item(line, first)?;
            put_more_items(line, more.as_slice())
        }
    }
}

fn put_renamed(
    line: &mut Line,
    name: &NameAt,
    between: &str,
    second: &NameAt,
) -> Result<(), AllocError> {
    line.put_name(name)?;
    line.put(between)?;
    line.put_name(second)
}

fn put_table(line: &mut Line, table: &Table) -> Result<(), AllocError> {
    match table {
        Table::Bare(name) => line.put_name(name),
        Table::Renamed(name, second) => put_renamed(line, name, " ", second),
        Table::RenamedAs(name, second) => put_renamed(line, name, " as ", second),
    }
}

/// LEFT and another word, each at its place.
fn put_left(line: &mut Line, left: u32, word: &str, at: u32) -> Result<(), AllocError> {
    line.put_at("left", left)?;
    line.put(" ")?;
    line.put_at(word, at)?;
    line.put(" ")
}

fn put_join(line: &mut Line, join: &Join) -> Result<(), AllocError> {
    match join {
        Join::Inner => Ok(()),
        Join::Semi(left, semi) => put_left(line, *left, "semi", *semi),
        Join::Anti(left, anti) => put_left(line, *left, "anti", *anti),
    }
}

fn put_more_table(line: &mut Line, more: &More) -> Result<(), AllocError> {
    match more {
        More::Comma(table) => {
            line.put(", ")?;
            put_table(line, table)
        }
        More::Join(join, table, condition) => {
            line.put(" ")?;
            put_join(line, join)?;
            line.put("join ")?;
            put_table(line, table)?;
            line.put(" on ")?;
            put_condition(line, condition)
        }
    }
}

fn put_from(line: &mut Line, select: &Select) -> Result<(), AllocError> {
    line.put("from ")?;
    put_table(line, &select.table)?;
    for more in select.more.as_slice() {
        put_more_table(line, more)?;
    }
    line.put("\n")
}

fn put_group(line: &mut Line, columns: &[Column]) -> Result<(), AllocError> {
    if columns.is_empty() {
        return Ok(());
    }
    line.put("group by ")?;
    for (place, column) in columns.iter().enumerate() {
        line.put_comma(place)?;
        line.put_column(column)?;
    }
    line.put("\n")
}

fn put_where(line: &mut Line, condition: &Option<Cond>) -> Result<(), AllocError> {
    match condition {
        None => Ok(()),
        Some(condition) => {
            line.put("where ")?;
            put_condition(line, condition)?;
            line.put("\n")
        }
    }
}

/// The line of SELECT.
fn put_items(line: &mut Line, select: &Select) -> Result<(), AllocError> {
    line.put_at("select", select.at)?;
    line.put(if select.distinct { " distinct " } else { " " })?;
    put_selection(line, &select.items)?;
    line.put("\n")
}

/// Adds a select.
pub(crate) fn put_select(line: &mut Line, select: &Select) -> Result<(), AllocError> {
    put_items(line, select)?;
    put_from(line, select)?;
    put_where(line, &select.condition)?;
    put_group(line, select.group_by.as_slice())
}
