//! What is said of the tokens of a text.

use crate::calls::MOST_BYTES;
use anyhow::{Context, Result, bail};
use case_kit::push_shown;
use sql_tokens::{Lexer, Name, Token, What, text_value};
use std::alloc::{AllocError, Global};
use std::fmt::Write;

/// A sign as it is written, and what else has no value.
fn sign(what: What) -> &'static str {
    match what {
        What::Word(_) | What::Name(_) | What::Number(_) | What::Text(_) => "",
        What::Comma => ",",
        What::Dot => ".",
        What::Open => "(",
        What::Close => ")",
        What::Star => "*",
        What::Equal => "=",
        What::Unequal => "<>",
        What::Less => "<",
        What::AtMost => "<=",
        What::More => ">",
        What::AtLeast => ">=",
        What::Minus => "-",
        What::Semicolon => ";",
        What::Bad => "bad",
        What::End => "end",
    }
}

/// Says a name in small letters.
fn say_name(said: &mut String, name: &Name) -> Result<(), AllocError> {
    said.push_str("name ")?;
    push_shown(said, name.letters())?;
    said.push_str("\n")
}

/// Says what a token is.
fn say_what(said: &mut String, what: What) -> Result<(), AllocError> {
    match what {
        What::Word(word) => writeln!(said, "word {word:?}"),
        What::Name(name) => say_name(said, &name),
        What::Number(value) => writeln!(said, "number {value}"),
        What::Text(bytes) => writeln!(said, "text {bytes}"),
        other => {
            said.push_str(sign(other))?;
            said.push_str("\n")
        }
    }
}

fn say_token(said: &mut String, token: Token) -> Result<(), AllocError> {
    let at = token.at;
    write!(said, "{at} ")?;
    say_what(said, token.what)
}

/// Says the tokens of a text, each behind its place in a line of its own.
pub(crate) fn say_tokens(said: &mut String, text: &str) -> Result<()> {
    if text.len() > MOST_BYTES {
        bail!("a text that is too long");
    }
    let mut tokens = Lexer::new(text);
    for _ in 0..=text.len() {
        let token = tokens.peek();
        say_token(said, token)?;
        match token.what {
            What::End | What::Bad => return Ok(()),
            _ => tokens.advance(),
        }
    }
    bail!("more tokens than bytes")
}

/// Says what the text literal says that stands at a place of a text and has so many bytes.
fn say_literal(alloc: Global, said: &mut String, text: &str, at: u32, length: u32) -> Result<()> {
    let value = text_value(alloc, text, at, length)?;
    let value = str::from_utf8(value.as_slice())?;
    writeln!(said, "{value}")?;
    Ok(())
}

/// Says what the text literal says that `PLACE BYTES TEXT` means.
pub(crate) fn say_value(alloc: Global, said: &mut String, text: &str) -> Result<()> {
    let (at, rest) = text.split_once(' ').context("no place")?;
    let (length, text) = rest.split_once(' ').context("no number of bytes")?;
    let (at, length) = (at.parse::<u32>()?, length.parse::<u32>()?);
    say_literal(alloc, said, text, at, length)
}
