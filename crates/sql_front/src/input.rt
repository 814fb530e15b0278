ghost use Rattle.std.specs.Prelude.{◌≡◌, ◌≤◌, ◌<◌, ◌+◌, ◌-◌, ◌^◌, ℕ, ◌∷◌, [], length, Option, Some, IfOk, false, true};
ghost use Rattle.sql_tokens.specs.Tokens.{is_last, tokens_of};
ghost use Rattle.sql_tokens.specs.declared.token.What.TheVariants as what;
ghost use Rattle.sql_tokens.specs.Text.{text_content};
ghost use Rattle.sql_front.specs.Reads.{parse_tells, refused_at};
ghost use Rattle.sql_front.specs.Seen.{wide};

use crate::ParseFault;
use qsr_value::{Bytes, Memory};
use sql_tokens::{Lexer, Token, What, text_value};
use std::alloc::Global;
use std::marker::Model;

/// A text that is being read: its first token that is still to come, and a lexer that stands there. Contracts see it as that
/// token and those behind it.
#[derive(Drop)]
pub(crate) struct Input<'t> {
    text: &'t str,
    first: Token,
    lexer: Lexer<'t>,
}

impl<'t> Model for Input<'t> {
    ghost use Rattle.std.specs.Prelude.{◌≡◌, ◌∷◌, [], drop, true};
    ghost use Rattle.sql_tokens.specs.Tokens.{is_last};
    ghost use Rattle.sql_front.specs.Reads.{Reading};

    ghost Value = { Reading };

    ghost view = { λ i. record { text = i.text.now; first = i.first; rest = drop 1 i.lexer } };

    ghost invariant = { λ i. (i.lexer ≡ i.first ∷ drop 1 i.lexer) × (is_last i.first.what ≡ true → drop 1 i.lexer ≡ []) };
}

impl<'t> Input<'t> {
    /// A text that stands before its first token.
    pub(crate) fn new(text: &'t str) -> Input<'t>
        requires { length text.now < 2 ^ 32 - 1 }
        ensures text { result.text ≡ text.now }
        ensures tokens { result.first ∷ result.rest ≡ tokens_of text.now }
    {
        let lexer = Lexer::new(text);
        let first = lexer.peek();
        Input { text, first, lexer }
    }

    /// The first token that is still to come.
    pub(crate) fn peek(&self) -> Token
        ensures first { result ≡ self.now.first }
        ensures last { is_last result.what ≡ true → self.now.rest ≡ [] }
    {
        self.first
    }

    /// Passes the first token.
    pub(crate) fn advance(&mut self)
        requires { is_last self.old.first.what ≡ false }
        ensures rest { self.old.rest ≡ self.new.first ∷ self.new.rest }
        ensures text { self.new.text ≡ self.old.text }
    {
        self.lexer.advance();
        self.first = self.lexer.peek();
    }

    /// How many bytes of the text stand from the first token on.
    pub(crate) fn bytes_left(&self) -> usize
        ensures { result ≡ length self.now.text + 1 - self.now.first.at }
    {
        (self.text.len() + 1).saturating_sub(self.first.at as usize)
    }

    /// Why the first token is refused, behind a `-` at this place if there is one.
    pub(crate) fn refuse(&mut self, signed: Option<u32>) -> ParseFault
        ensures told { parse_tells result ≡ Some (refused_at signed self.old) }
    {
        let Token { what, at } = self.peek();
        match what {
            What::Number(n) if is_wide(signed.is_some(), n) => ParseFault::WideLiteral {
                at: signed.unwrap_or(at),
            },
            What::Minus => self.refuse_minus(at),
            _ => ParseFault::Syntax { at },
        }
    }

    /// Why the `-` here is refused.
    fn refuse_minus(&mut self, at: u32) -> ParseFault
        requires minus { self.old.first.what ≡ what.Minus }
        requires place { self.old.first.at ≡ at }
        ensures told { (signed : Option ℕ) → parse_tells result ≡ Some (refused_at signed self.old) }
    {
        self.advance();
        match self.peek().what {
            What::Number(n) if is_wide(true, n) => ParseFault::WideLiteral { at },
            _ => ParseFault::Syntax { at },
        }
    }

    /// What the text at this place with so many bytes says.
    pub(crate) fn text_value(&self, alloc: Global, at: u32, length: u32) -> Result<Bytes, Memory>
        ensures { IfOk result (λ bytes. bytes ≡ text_content self.now.text at length) }
    {
        text_value(alloc, self.text, at, length)
    }
}

/// Whether a number isn't in 128 signed bits, with a `-` before it or without.
pub(crate) fn is_wide(signed: bool, n: u128) -> bool
    ensures { result ≡ wide signed n }
{
    let most = i128::MAX as u128;
    if signed { n > most + 1 } else { n > most }
}
