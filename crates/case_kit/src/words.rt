//! The words of a line or of a step, and numbers among them.

use anyhow::{Context, Result, ensure};
use std::alloc::Global;
use std::str::FromStr;

/// The words of a step that are still to be read.
#[derive(Clone, Copy)]
pub struct Words<'a> {
    rest: &'a str,
}

impl<'a> Words<'a> {
    pub fn of(text: &'a str) -> Words<'a> {
        Words { rest: text }
    }

    pub fn is_empty(&self) -> bool {
        self.rest.is_empty()
    }

    /// All that is still to be read.
    pub fn rest(&self) -> &'a str {
        self.rest
    }

    /// The next word.
    pub fn word(&mut self) -> Result<&'a str> {
        ensure!(!self.rest.is_empty(), "a word is missing");
        let (word, rest) = self.rest.split_once(' ').unwrap_or((self.rest, ""));
        self.rest = rest;
        Ok(word)
    }

    /// The next word, which is a number.
    pub fn number<N: FromStr>(&mut self) -> Result<N>
    where
        N::Err: Drop,
    {
        number(self.word()?)
    }
}

/// The number that a word is.
pub fn number<N: FromStr>(word: &str) -> Result<N>
where
    N::Err: Drop,
{
    word.parse::<N>()
        .ok()
        .context(format_args!("no such number: {word}"))
}

/// The numbers of `NUMBER,NUMBER`; no word and `none` are none.
pub fn numbers(alloc: Global, text: &str) -> Result<Vec<u64>> {
    let mut numbers = Vec::new(alloc);
    if text.is_empty() || text == "none" {
        return Ok(numbers);
    }
    for word in text.split(',') {
        numbers.push(number(word)?)?;
    }
    Ok(numbers)
}

/// The number that a line begins with, and what stands behind it.
pub fn number_first<N: FromStr + Drop>(text: &str) -> Result<(N, &str)>
where
    N::Err: Drop,
{
    let (word, rest) = text.split_once(' ').unwrap_or((text, ""));
    Ok((number(word)?, rest))
}

/// The numbers of `FIRST..LAST`, the last among them, or one number.
pub fn range_of<N: FromStr + Drop>(word: &str) -> Result<(N, N)>
where
    N::Err: Drop,
{
    let (first, last) = word.split_once("..").unwrap_or((word, word));
    Ok((number(first)?, number(last)?))
}
