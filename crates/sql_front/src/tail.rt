ghost use Rattle.std.specs.Prelude.{◌≡◌, ◌≤◌, ℕ, OnOk, length};
ghost use Rattle.sql_front.specs.Machine.{KeyK, first_key_k, want_key, add_key, follow_key, follow_keys, order_word, more_order, more_limited, more_optioned, after_semicolon};
ghost use Rattle.sql_front.specs.Reads.{Leads, runs, runs_on, begin_order, has_read};
ghost use Rattle.sql_front.specs.Tree.{Group, Order, Limited, Optioned, ended_query};
ghost use Rattle.sql_front.specs.View.{key_of_tree, key_tree, order_tree, limit_tree, options_tree, end_tree};

use crate::ParseFault;
use crate::columns::column;
use crate::input::Input;
use crate::lists::{LEAST_ITEM, MOST_KEPT, list_here};
use crate::numbers::number;
use crate::tree::{Key, KeyOf, NameAt, NumberAt};
use sql_tokens::{Keyword, What};
use sqlite_items::Items;
use std::alloc::Global;

const MOST_KEY: u128 = 65_535;

const MOST_LIMIT: u128 = i64::MAX as u128;

/// ORDER BY and its keys, if it stands there.
pub(crate) fn order_part(alloc: Global, input: &mut Input) -> Result<Items<Key>, ParseFault>
    ensures led { (g : Group) → Leads (runs_on (begin_order g)) input.old result (λ keys. runs_on (more_order (order_tree g keys))) input.new }
{
    match input.peek().what {
        What::Word(Keyword::Order) => {
            input.advance();
            by_word(input)?;
            keys(alloc, input)
        }
        _ => Ok(Items::new(alloc)),
    }
}

/// BY behind ORDER.
fn by_word(input: &mut Input) -> Result<(), ParseFault>
    ensures led { (g : Group) → Leads (runs (order_word g)) input.old result (λ _. runs (want_key (first_key_k g))) input.new }
{
    match input.peek().what {
        What::Word(Keyword::By) => {
            input.advance();
            Ok(())
        }
        _ => Err(input.refuse(None)),
    }
}

/// All keys.
fn keys(alloc: Global, input: &mut Input) -> Result<Items<Key>, ParseFault>
    ensures led { (g : Group) → Leads (runs (want_key (first_key_k g))) input.old result (λ keys. runs_on (more_order (order_tree g keys))) input.new }
{
    let mut keys = list_here(alloc, input, LEAST_ITEM)?;
    'keys: loop {
        keys.push(key(input)?)?;
        match input.peek().what {
            What::Comma => input.advance(),
            _ => return Ok(keys.into_items(MOST_KEPT)),
        }
    }
}

fn key(input: &mut Input) -> Result<Key, ParseFault>
    ensures led { (k : KeyK) → Leads (runs (want_key k)) input.old result (λ y. runs_on (follow_keys (add_key k (key_tree y)))) input.new }
    ensures shorter { OnOk result (length input.new.rest ≤ length input.old.rest) }
{
    let of = key_of(input)?;
    Ok(directed(input, of))
}

/// What a key orders by.
fn key_of(input: &mut Input) -> Result<KeyOf, ParseFault>
    ensures led { (k : KeyK) → Leads (runs (want_key k)) input.old result (λ y. runs_on (follow_key k (key_of_tree y))) input.new }
    ensures shorter { OnOk result (length input.new.rest ≤ length input.old.rest) }
{
    let token = input.peek();
    match token.what {
        What::Name(name) => {
            input.advance();
            let named = column(input, NameAt { name, at: token.at })?;
            Ok(KeyOf::Column(named))
        }
        What::Number(_) => {
            let n = number(input, 1, MOST_KEY)?;
            Ok(KeyOf::Number(n))
        }
        _ => Err(input.refuse(None)),
    }
}

/// A key, with ASC or DESC if it stands there.
fn directed(input: &mut Input, of: KeyOf) -> Key
    ensures led { (k : KeyK) → runs_on (follow_key k (key_of_tree of)) input.old ≡ runs_on (follow_keys (add_key k (key_tree result))) input.new }
    ensures shorter { length input.new.rest ≤ length input.old.rest }
{
    match input.peek().what {
        What::Word(Keyword::Asc) => {
            input.advance();
            Key::Ascending(of)
        }
        What::Word(Keyword::Desc) => {
            input.advance();
            Key::Descending(of)
        }
        _ => Key::Unsaid(of),
    }
}

/// LIMIT and its number, if it stands there.
pub(crate) fn limit_part(input: &mut Input) -> Result<Option<NumberAt>, ParseFault>
    ensures led { (o : Order) → Leads (runs_on (more_order o)) input.old result (λ n. runs_on (more_limited (limit_tree o n))) input.new }
{
    match input.peek().what {
        What::Word(Keyword::Limit) => {
            input.advance();
            let n = number(input, 0, MOST_LIMIT)?;
            Ok(Some(n))
        }
        _ => Ok(None),
    }
}

/// Whether a `;` stands at the end of the text, behind which nothing may stand.
pub(crate) fn end_part(input: &mut Input) -> Result<bool, ParseFault>
    ensures led { (p : Optioned) → Leads (runs_on (more_optioned p)) input.old result (λ semicolon. has_read (end_tree p semicolon)) input.new }
{
    match input.peek().what {
        What::End => Ok(false),
        What::Semicolon => {
            input.advance();
            end(input)?;
            Ok(true)
        }
        _ => Err(input.refuse(None)),
    }
}

/// The end of the text, behind a `;`.
fn end(input: &mut Input) -> Result<(), ParseFault>
    ensures led { (p : Optioned) → Leads (runs (after_semicolon p)) input.old result (λ _. has_read (ended_query p)) input.new }
{
    match input.peek().what {
        What::End => Ok(()),
        _ => Err(input.refuse(None)),
    }
}
