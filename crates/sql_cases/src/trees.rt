//! The tree of a query as text: its words in small letters, its names and its literals, a line for each part.

use crate::line::{Line, Places};
use crate::selects::put_select;
use crate::tails::{put_keys, put_limit, put_options};
use anyhow::Result;
use sql_front::{Query, UnionAll};
use std::alloc::{AllocError, Global};

/// Adds UNION ALL and the select behind it.
fn put_union(line: &mut Line, more: &UnionAll) -> Result<(), AllocError> {
    line.put_at("union", more.union)?;
    line.put(" ")?;
    line.put_at("all", more.all)?;
    line.put("\n")?;
    put_select(line, &more.select)
}

/// Adds all selects of a query.
fn put_selects(line: &mut Line, query: &Query) -> Result<(), AllocError> {
    put_select(line, &query.first)?;
    for more in query.more.as_slice() {
        put_union(line, more)?;
    }
    Ok(())
}

fn put_query(line: &mut Line, query: &Query) -> Result<(), AllocError> {
    put_selects(line, query)?;
    put_keys(line, query.order_by.as_slice())?;
    put_limit(line, &query.limit)?;
    put_options(line, query.options.as_slice())?;
    line.put(if query.semicolon { ";\n" } else { "" })
}

/// Says the tree of a query, with places in it or without.
pub(crate) fn say_tree(
    alloc: Global,
    said: &mut String,
    places: Places,
    query: &Query,
) -> Result<()> {
    let mut line = Line::new(alloc, places);
    put_query(&mut line, query)?;
    said.push_str(line.text())?;
    Ok(())
}
