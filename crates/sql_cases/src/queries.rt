//! What is said of a query: whether a text is one, its tree, and whether it is bound over tables.

use crate::calls::MOST_BYTES;
use crate::faults::say_bind_fault;
use crate::line::Places;
use crate::rows::{RowOrder, say_rows};
use crate::tables::Tables;
use crate::trees::say_tree;
use anyhow::{Result, bail};
use sql_bind::{Bound, bind};
use sql_front::{Query, parse};
use std::alloc::Global;
use std::fmt::Write;

/// What is asked of a query: nothing but that it is read, its tree, or something of it bound over the tables.
#[derive(Clone, Copy)]
pub(crate) enum OfQuery {
    Read,
    Tree(Places),
    Bound(OfBound),
}

/// What is asked of a query that is bound: nothing else, or its rows.
#[derive(Clone, Copy)]
pub(crate) enum OfBound {
    Bound,
    Rows(RowOrder),
}

fn say_word(said: &mut String, word: &str) -> Result<()> {
    writeln!(said, "{word}")?;
    Ok(())
}

fn say_of_bound(
    alloc: Global,
    said: &mut String,
    tables: &Tables,
    asked: OfBound,
    query: &Bound,
) -> Result<()> {
    match asked {
        OfBound::Bound => say_word(said, "bound"),
        OfBound::Rows(order) => say_rows(alloc, said, tables, order, query),
    }
}

/// Says what is asked of a query bound over the tables, or why it isn't bound.
fn say_bound(
    alloc: Global,
    said: &mut String,
    tables: &Tables,
    asked: OfBound,
    query: &Query,
) -> Result<()> {
    match bind(alloc, query, &tables.names) {
        Ok(query) => say_of_bound(alloc, said, tables, asked, &query),
        Err(fault) => say_bind_fault(said, &fault),
    }
}

fn say_of_query(
    alloc: Global,
    said: &mut String,
    tables: &Tables,
    asked: OfQuery,
    query: &Query,
) -> Result<()> {
    match asked {
        OfQuery::Read => say_word(said, "read"),
        OfQuery::Tree(places) => say_tree(alloc, said, places, query),
        OfQuery::Bound(asked) => say_bound(alloc, said, tables, asked, query),
    }
}

/// Says what is asked of the query that a text is, or why it is none.
pub(crate) fn say(
    alloc: Global,
    said: &mut String,
    tables: &Tables,
    asked: OfQuery,
    text: &str,
) -> Result<()> {
    if text.len() > MOST_BYTES {
        bail!("a text that is too long");
    }
    match parse(alloc, text) {
        Ok(query) => say_of_query(alloc, said, tables, asked, &query),
        Err(fault) => Ok(writeln!(said, "{fault}")?),
    }
}
