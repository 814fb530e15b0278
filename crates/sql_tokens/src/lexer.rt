ghost use Rattle.std.specs.Prelude.{◌≡◌, ◌+◌, ◌-◌, ◌<◌, ◌^◌, [], ◌∷◌, length, drop, false, ◌&&◌};
ghost use Rattle.sql_tokens.specs.declared.token.What.TheVariants as what;
ghost use Rattle.sql_tokens.specs.Tokens.{tokens_from, tokens_of, told_from, HasMore, starts_name};
ghost use Rattle.sql_tokens.specs.Tokens.{is_number as tells_number};

use crate::scan::{begins_name, count_blanks, token_at};
use crate::{Token, What};
use std::marker::Model;

/// A token, the bytes behind it, and their place.
#[derive(Drop)]
struct Told<'t> {
    token: Token,
    rest: &'t [u8],
    at: u32,
}

/// The first token of these bytes, the first of which is at this place.
// Inlined, so that a token is made in its place and not copied there.
#[inline(always)]
fn first_of<'t>(bytes: &'t [u8], at: u32) -> Told<'t>
    requires { at + length bytes.now < 2 ^ 32 }
    ensures tokens { tokens_from bytes.now 0 false at ≡ told_from result.token result.rest.now result.at }
    ensures fits { result.at + length result.rest.now < 2 ^ 32 }
{
    let blanks = count_blanks(bytes);
    let (_, rest) = bytes.split_at(blanks);
    let at = at + blanks as u32;
    if rest.is_empty() {
        let token = Token {
            what: What::End,
            at,
        };
        return Told { token, rest, at };
    }
    let (what, length) = token_at(rest);
    let (_, behind) = rest.split_at(length);
    Told {
        token: Token { what, at },
        rest: behind,
        at: at + length as u32,
    }
}

fn is_number(what: What) -> bool
    ensures { result ≡ tells_number what }
{
    matches!(what, What::Number(_))
}

fn begins_with_letter(bytes: &[u8]) -> bool
    ensures { result ≡ starts_name bytes.now }
{
    match bytes {
        [first, ..] => begins_name(*first),
        [] => false,
    }
}

/// Whether a letter or `_` stands right behind a number.
fn spoils_number(before: What, bytes: &[u8]) -> bool
    ensures { result ≡ (tells_number before && starts_name bytes.now) }
{
    is_number(before) && begins_with_letter(bytes)
}

/// The first token of these bytes right behind another.
fn next_of<'t>(before: What, bytes: &'t [u8], at: u32) -> Told<'t>
    requires { at + length bytes.now < 2 ^ 32 }
    ensures tokens { tokens_from bytes.now 0 (tells_number before) at ≡ told_from result.token result.rest.now result.at }
    ensures fits { result.at + length result.rest.now < 2 ^ 32 }
{
    if spoils_number(before, bytes) {
        let token = Token {
            what: What::Bad,
            at,
        };
        return Told {
            token,
            rest: bytes,
            at,
        };
    }
    first_of(bytes, at)
}

/// Reads the tokens of a text from its first on. Contracts see the list of those that are still to come.
#[derive(Drop)]
pub struct Lexer<'t> {
    first: Token,
    rest: &'t [u8],
    at: u32,
}

impl<'t> Model for Lexer<'t> {
    ghost use Rattle.std.specs.Prelude.{◌+◌, ◌<◌, ◌^◌, List, length};
    ghost use Rattle.sql_tokens.specs.declared.token.Token.{Token};
    ghost use Rattle.sql_tokens.specs.Tokens.{told_from};

    ghost Value = { List Token };

    ghost view = { λ l. told_from l.first l.rest.now l.at };

    ghost invariant = { λ l. l.at + length l.rest.now < 2 ^ 32 };
}

impl<'t> Lexer<'t> {
    /// A lexer that stands before the first token of a text.
    pub fn new(text: &'t str) -> Lexer<'t>
        requires { length text.now < 2 ^ 32 - 1 }
        ensures { result ≡ tokens_of text.now }
    {
        let told = first_of(text.as_bytes(), 1);
        Lexer {
            first: told.token,
            rest: told.rest,
            at: told.at,
        }
    }

    /// The first token that is still to come.
    pub fn peek(&self) -> Token
        ensures first { self.now ≡ result ∷ drop 1 self.now }
        ensures end { result.what ≡ what.End → drop 1 self.now ≡ [] }
        ensures bad { result.what ≡ what.Bad → drop 1 self.now ≡ [] }
    {
        self.first
    }

    /// Passes the first token.
    pub fn advance(&mut self)
        requires { HasMore self.old }
        ensures { self.new ≡ drop 1 self.old }
    {
        let told = next_of(self.first.what, self.rest, self.at);
        self.first = told.token;
        self.rest = told.rest;
        self.at = told.at;
    }
}
