ghost use Rattle.std.specs.Prelude.{◌≡◌, ◌<◌, ◌≤◌, ℕ, length, OnOk};
ghost use Rattle.sql_tokens.specs.declared.token.What.TheVariants as what;
ghost use Rattle.sql_front.specs.Machine.{ItemK, first_item_k, fold_k, item_k, counted, count_open, folded, want_column, after_column, add_item, begin_item, follow_items, follow_fold};
ghost use Rattle.sql_front.specs.Reads.{Leads, runs, runs_on, begin_listed, begin_from};
ghost use Rattle.sql_front.specs.Tree.{Select, ItemList, next_item, plain, count_item};
ghost use Rattle.sql_front.specs.View.{name_tree, item_tree, selection_tree};

use crate::ParseFault;
use crate::columns::{column, whole_column};
use crate::input::Input;
use crate::lists::{LEAST_ITEM, MOST_KEPT, list_behind};
use crate::tree::{Item, NameAt, Selection};
use crate::words::Aggregate;
use sql_tokens::{Keyword, Token, What};
use std::alloc::Global;

/// The `(` behind COUNT, SUM, MIN or MAX.
fn open(input: &mut Input) -> Result<(), ParseFault>
    ensures count { (k : ItemK) → Leads (runs (counted k)) input.old result (λ _. runs (count_open k)) input.new }
    ensures fold { (f : Aggregate) (at : ℕ) (k : ItemK) → Leads (runs (folded f at k)) input.old result (λ _. runs (want_column (fold_k f at k))) input.new }
    ensures shorter { OnOk result (length input.new.rest < length input.old.rest) }
{
    match input.peek().what {
        What::Open => {
            input.advance();
            Ok(())
        }
        _ => Err(input.refuse(None)),
    }
}

/// The `)` at the end of an item.
fn close(input: &mut Input) -> Result<(), ParseFault>
    ensures led { (is : ItemList) → Leads (runs_on (follow_fold is)) input.old result (λ _. runs_on (follow_items is)) input.new }
    ensures shorter { OnOk result (length input.new.rest < length input.old.rest) }
{
    match input.peek().what {
        What::Close => {
            input.advance();
            Ok(())
        }
        _ => Err(input.refuse(None)),
    }
}

/// The `*` in the parentheses behind COUNT.
fn star(input: &mut Input) -> Result<u32, ParseFault>
    ensures led { (k : ItemK) → Leads (runs (count_open k)) input.old result (λ at. runs_on (follow_fold (add_item k (count_item at)))) input.new }
    ensures shorter { OnOk result (length input.new.rest < length input.old.rest) }
{
    let Token { what, at } = input.peek();
    match what {
        What::Star => {
            input.advance();
            Ok(at)
        }
        _ => Err(input.refuse(None)),
    }
}

/// COUNT of all rows, whose word was read.
fn count_item(input: &mut Input) -> Result<Item, ParseFault>
    ensures led { (k : ItemK) → Leads (runs (counted k)) input.old result (λ i. runs_on (follow_items (add_item k (item_tree i)))) input.new }
    ensures shorter { OnOk result (length input.new.rest < length input.old.rest) }
{
    open(input)?;
    let at = star(input)?;
    close(input)?;
    Ok(Item::Count(at))
}

/// SUM, MIN or MAX of a column, whose word was read at this place.
fn fold_item(input: &mut Input, fold: Aggregate, at: u32) -> Result<Item, ParseFault>
    ensures led { (k : ItemK) → Leads (runs (folded fold at k)) input.old result (λ i. runs_on (follow_items (add_item k (item_tree i)))) input.new }
    ensures shorter { OnOk result (length input.new.rest < length input.old.rest) }
{
    open(input)?;
    let column = whole_column(input)?;
    close(input)?;
    Ok(Item::Fold(fold, at, column))
}

/// A column, whose first name was read.
fn column_item(input: &mut Input, first: NameAt) -> Result<Item, ParseFault>
    ensures led { (k : ItemK) → Leads (runs (after_column (plain (name_tree first)) (item_k k))) input.old result (λ i. runs_on (follow_items (add_item k (item_tree i)))) input.new }
    ensures no_longer { OnOk result (length input.new.rest ≤ length input.old.rest) }
{
    Ok(Item::Column(column(input, first)?))
}

/// An item.
fn item(input: &mut Input) -> Result<Item, ParseFault>
    ensures led { (k : ItemK) → Leads (runs_on (begin_listed k)) input.old result (λ i. runs_on (follow_items (add_item k (item_tree i)))) input.new }
    ensures shorter { OnOk result (length input.new.rest < length input.old.rest) }
{
    let token = input.peek();
    let at = token.at;
    match token.what {
        What::Name(name) => {
            input.advance();
            column_item(input, NameAt { name, at })
        }
        What::Word(Keyword::Count) => {
            input.advance();
            count_item(input)
        }
        What::Word(Keyword::Sum) => {
            input.advance();
            fold_item(input, Aggregate::Sum, at)
        }
        What::Word(Keyword::Min) => {
            input.advance();
            fold_item(input, Aggregate::Min, at)
        }
        What::Word(Keyword::Max) => {
            input.advance();
            fold_item(input, Aggregate::Max, at)
        }
        _ => Err(input.refuse(None)),
    }
}

/// The comma that stands here, and the item behind it.
fn next_item(input: &mut Input) -> Result<Item, ParseFault>
    requires { input.old.first.what ≡ what.Comma }
    ensures led { (is : ItemList) → Leads (runs_on (follow_items is)) input.old result (λ i. runs_on (follow_items (next_item is (item_tree i)))) input.new }
    ensures shorter { OnOk result (length input.new.rest < length input.old.rest) }
{
    input.advance();
    item(input)
}

/// Items behind SELECT, but for `*`.
#[tactic(auto, using(crate::proofs::ItemLemmas::pushes))]
fn listed(alloc: Global, input: &mut Input) -> Result<Selection, ParseFault>
    ensures led { (s : Select) → Leads (runs_on (begin_listed (first_item_k s))) input.old result (λ items. runs_on (begin_from (selection_tree s items))) input.new }
{
    let first = item(input)?;
    let mut more = list_behind(alloc, &*input, What::Comma, LEAST_ITEM)?;
    while input.peek().what == What::Comma {
        more.push(next_item(input)?)?;
    }
    Ok(Selection::Items(first, more.into_items(MOST_KEPT)))
}

/// All items of a select.
pub(crate) fn selection(alloc: Global, input: &mut Input) -> Result<Selection, ParseFault>
    ensures led { (s : Select) → Leads (runs_on (begin_item (first_item_k s))) input.old result (λ items. runs_on (begin_from (selection_tree s items))) input.new }
{
    let token = input.peek();
    match token.what {
        What::Star => {
            input.advance();
            Ok(Selection::Star(token.at))
        }
        _ => listed(alloc, input),
    }
}
