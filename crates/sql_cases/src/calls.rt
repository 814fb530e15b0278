//! Calls: what is asked of a text, and what is said to it.

use crate::line::Places;
use crate::queries::{self, OfBound, OfQuery};
use crate::rows::RowOrder;
use crate::tables::Tables;
use crate::tokens;
use anyhow::{Context, Result, bail};
use std::alloc::Global;

/// A text may have so many bytes.
pub(crate) const MOST_BYTES: usize = 1 << 20;

/// What is asked of a text: its tokens, what the text literal at a place in it says, or something of the query that it is.
#[derive(Clone, Copy)]
pub(crate) enum Asked {
    Tokens,
    Value,
    Query(OfQuery),
}

const WORDS: [(&str, Asked); 8] = [
    ("tokens", Asked::Tokens),
    ("value", Asked::Value),
    ("parse", Asked::Query(OfQuery::Read)),
    ("tree", Asked::Query(OfQuery::Tree(Places::Hidden))),
    ("places", Asked::Query(OfQuery::Tree(Places::Shown))),
    ("bind", Asked::Query(OfQuery::Bound(OfBound::Bound))),
    (
        "query",
        Asked::Query(OfQuery::Bound(OfBound::Rows(RowOrder::Any))),
    ),
    (
        "rows",
        Asked::Query(OfQuery::Bound(OfBound::Rows(RowOrder::AsTheyCome))),
    ),
];

/// What a word asks.
pub(crate) fn asked_by(word: &str) -> Result<Asked> {
    for (one, asked) in &WORDS {
        if *one == word {
            return Ok(*asked);
        }
    }
    bail!("no such line: {word}")
}

/// A call: the line at which it begins, what is asked of which text, and what is wanted of it.
#[derive(Drop)]
pub(crate) struct Call {
    pub(crate) line: usize,
    pub(crate) asked: Option<Asked>,
    pub(crate) text: Vec<u8>,
    pub(crate) wanted: Vec<u8>,
}

impl Call {
    /// No call, to which nothing is said.
    pub(crate) fn none(alloc: Global) -> Call {
        Call {
            line: 0,
            asked: None,
            text: Vec::new(alloc),
            wanted: Vec::new(alloc),
        }
    }
}

/// Adds what is said of a text.
fn say(alloc: Global, said: &mut String, tables: &Tables, asked: Asked, text: &str) -> Result<()> {
    match asked {
        Asked::Tokens => tokens::say_tokens(said, text),
        Asked::Value => tokens::say_value(alloc, said, text),
        Asked::Query(asked) => queries::say(alloc, said, tables, asked, text),
    }
}

/// What is said to a call.
pub(crate) fn said_by(alloc: Global, tables: &Tables, call: &Call) -> Result<String> {
    let mut said = String::new(alloc);
    if let Some(asked) = call.asked {
        let text = str::from_utf8(&call.text).context("no text")?;
        say(alloc, &mut said, tables, asked, text)?;
    }
    Ok(said)
}
