ghost use Rattle.std.specs.Prelude.{◌≡◌, ◌<◌, ◌≤◌, ℕ, IfOk};
ghost use Rattle.sql_front.specs.Machine.{want_select, selected, want_column, want_cond, group_word, first_item_k, first_group_k, group_k, where_k, begin_item, more_where, more_group};
ghost use Rattle.sql_front.specs.Reads.{Leads, runs, runs_on, begin_from, begin_where, at_union, behind_tables};
ghost use Rattle.sql_front.specs.Spell.{tables_start, tables_items, tables_from, tables_group};
ghost use Rattle.sql_front.specs.Tree.{From, Where, Group, Start};
ghost use Rattle.sql_front.specs.View.{head_tree, selection_tree, where_tree, group_tree, select_tree};

use crate::ParseFault;
use crate::columns::whole_column;
use crate::conditions::cond;
use crate::input::Input;
use crate::items::selection;
use crate::lists::{LEAST_ITEM, MOST_KEPT, list_here};
use crate::tables::{FromPart, UnionPlaces, all_word, from_part};
use crate::tree::{Column, Cond, Select, Selection};
use crate::words::{Unreserved, word_ahead};
use sql_tokens::{Keyword, What};
use sqlite_items::Items;
use std::alloc::Global;

/// A select, how many tables stand in the query up to there, and the places of UNION and ALL if they stand behind it.
#[derive(Drop)]
pub(crate) struct SelectPart {
    pub(crate) select: Select,
    pub(crate) tables: u8,
    pub(crate) union: Option<UnionPlaces>,
}

/// What stands in a select before its tables: the place of SELECT, whether DISTINCT stands behind it, and the items.
#[derive(Drop)]
struct ItemsPart {
    at: u32,
    distinct: bool,
    items: Selection,
}

/// What stands in a select behind its tables.
#[derive(Drop)]
struct RestPart {
    condition: Option<Cond>,
    group_by: Items<Column>,
    union: Option<UnionPlaces>,
}

/// The place of SELECT.
fn start(input: &mut Input) -> Result<u32, ParseFault>
    ensures led { (start : Start) → Leads (runs (want_select start)) input.old result (λ at. runs (selected start at)) input.new }
{
    let token = input.peek();
    match token.what {
        What::Word(Keyword::Select) => {
            input.advance();
            Ok(token.at)
        }
        _ => Err(input.refuse(None)),
    }
}

/// Whether DISTINCT stands behind SELECT.
fn distinct(input: &mut Input) -> bool
    ensures led { (start : Start) (at : ℕ) → runs (selected start at) input.old ≡ runs_on (begin_item (first_item_k (head_tree start result at))) input.new }
{
    match input.peek().what {
        What::Word(Keyword::Distinct) => {
            input.advance();
            true
        }
        _ => false,
    }
}

/// SELECT and the items.
#[tactic(auto, using(crate::proofs::SelectLemmas::items_tables))]
fn items_part(alloc: Global, input: &mut Input) -> Result<ItemsPart, ParseFault>
    ensures led { (start : Start) → Leads (runs (want_select start)) input.old result (λ p. runs_on (begin_from (selection_tree (head_tree start p.distinct p.at) p.items))) input.new }
    ensures count { (start : Start) → IfOk result (λ p. tables_items (selection_tree (head_tree start p.distinct p.at) p.items) ≡ tables_start start) }
{
    let at = start(input)?;
    let distinct = distinct(input);
    let items = selection(alloc, input)?;
    Ok(ItemsPart {
        at,
        distinct,
        items,
    })
}

/// The condition behind WHERE.
fn condition(alloc: Global, input: &mut Input) -> Result<Option<Cond>, ParseFault>
    ensures led { (f : From) → Leads (runs (want_cond (where_k f))) input.old result (λ c. runs_on (more_where (where_tree f c))) input.new }
{
    Ok(Some(cond(alloc, input, 0)?))
}

/// WHERE and its condition, if it stands there.
fn where_part(alloc: Global, input: &mut Input) -> Result<Option<Cond>, ParseFault>
    ensures led { (f : From) → Leads (runs_on (begin_where f)) input.old result (λ c. runs_on (more_where (where_tree f c))) input.new }
{
    match input.peek().what {
        What::Word(Keyword::Where) => {
            input.advance();
            condition(alloc, input)
        }
        _ => Ok(None),
    }
}

/// BY behind GROUP.
fn by(input: &mut Input) -> Result<(), ParseFault>
    ensures led { (h : Where) → Leads (runs (group_word h)) input.old result (λ _. runs (want_column (group_k (first_group_k h)))) input.new }
{
    match input.peek().what {
        What::Word(Keyword::By) => {
            input.advance();
            Ok(())
        }
        _ => Err(input.refuse(None)),
    }
}

/// The columns behind GROUP BY.
fn columns(alloc: Global, input: &mut Input) -> Result<Items<Column>, ParseFault>
    ensures led { (h : Where) → Leads (runs (want_column (group_k (first_group_k h)))) input.old result (λ cs. runs_on (more_group (group_tree h cs))) input.new }
{
    let mut columns = list_here(alloc, input, LEAST_ITEM)?;
    loop {
        columns.push(whole_column(input)?)?;
        match input.peek().what {
            What::Comma => input.advance(),
            _ => return Ok(columns.into_items(MOST_KEPT)),
        }
    }
}

/// GROUP BY and its columns, if it stands there.
fn group_part(alloc: Global, input: &mut Input) -> Result<Items<Column>, ParseFault>
    ensures led { (h : Where) → Leads (runs_on (more_where h)) input.old result (λ cs. runs_on (more_group (group_tree h cs))) input.new }
{
    match input.peek().what {
        What::Word(Keyword::Group) => {
            input.advance();
            by(input)?;
            columns(alloc, input)
        }
        _ => Ok(Items::new(alloc)),
    }
}

/// UNION and ALL, if they stand there.
fn union_part(input: &mut Input) -> Result<Option<UnionPlaces>, ParseFault>
    ensures led { (g : Group) → Leads (runs_on (more_group g)) input.old result (λ places. at_union g places) input.new }
{
    let at = input.peek().at;
    match word_ahead(input) {
        Some(Unreserved::Union) => {
            input.advance();
            let places = all_word(input, at)?;
            Ok(Some(places))
        }
        _ => Ok(None),
    }
}

/// What stands behind the tables, where UNION ALL stands right behind them at these places or not.
#[tactic(auto, using(crate::proofs::SelectLemmas::rest_tables))]
fn rest_part(
    alloc: Global,
    input: &mut Input,
    union: Option<UnionPlaces>,
) -> Result<RestPart, ParseFault>
    ensures led { (f : From) → Leads (behind_tables f union) input.old result (λ b. at_union (group_tree (where_tree f b.condition) b.group_by) b.union) input.new }
    ensures count { (f : From) → IfOk result (λ b. tables_group (group_tree (where_tree f b.condition) b.group_by) ≡ tables_from f) }
{
    if union.is_some() {
        return Ok(RestPart {
            condition: None,
            group_by: Items::new(alloc),
            union,
        });
    }
    let condition = where_part(alloc, input)?;
    let group_by = group_part(alloc, input)?;
    let union = union_part(input)?;
    Ok(RestPart {
        condition,
        group_by,
        union,
    })
}

/// A select, behind so many tables.
pub(crate) fn select(alloc: Global, input: &mut Input, tables: u8) -> Result<SelectPart, ParseFault>
    requires { tables ≤ 4 }
    ensures led { (start : Start) → tables_start start ≡ tables
        → Leads (runs (want_select start)) input.old result (λ s. at_union (select_tree start s.select) s.union) input.new }
    ensures count { (start : Start) → tables_start start ≡ tables → IfOk result (λ s. tables_group (select_tree start s.select) ≡ s.tables) }
    ensures most { IfOk result (λ s. s.tables ≤ 4) }
    ensures grows { IfOk result (λ s. tables < s.tables) }
{
    let ItemsPart {
        at,
        distinct,
        items,
    } = items_part(alloc, input)?;
    let FromPart {
        table,
        more,
        tables,
        union,
    } = from_part(alloc, input, tables)?;
    let RestPart {
        condition,
        group_by,
        union,
    } = rest_part(alloc, input, union)?;
    let select = Select {
        at,
        distinct,
        items,
        table,
        more,
        condition,
        group_by,
    };
    Ok(SelectPart {
        select,
        tables,
        union,
    })
}
