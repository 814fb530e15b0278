ghost use Rattle.std.specs.Prelude.{◌≡◌, ◌<◌, ◌≤◌, ◌-◌, ◌^◌, length, IfOk};
ghost use Rattle.sql_tokens.specs.Tokens.{tokens_of};
ghost use Rattle.sql_front.specs.Machine.{begin, want_select};
ghost use Rattle.sql_front.specs.Reads.{Leads, runs, runs_on, begin_order, at_union, has_read, parse_tells};
ghost use Rattle.sql_front.specs.Seen.{words};
ghost use Rattle.sql_front.specs.Spell.{spell, tables_group};
ghost use Rattle.sql_front.specs.View.{more_selects, query_tree, select_tree, order_tree, limit_tree, options_tree, end_tree};
ghost use Rattle.sql_front.specs.Tree.{Group, at_first, union_all};
ghost use Rattle.grammar_laws.specs.Reading.{Found, Only, Refused, OnlyRefused};

use crate::ParseFault;
use crate::input::Input;
use crate::lists::{MOST_KEPT, with_room};
use crate::options::options_part;
use crate::selects::{SelectPart, select};
use crate::tables::{MOST_FURTHER, UnionPlaces};
use crate::tail::{end_part, limit_part, order_part};
use crate::tree::{Key, NumberAt, Query, QueryOption, Select, UnionAll};
use sqlite_items::Items;
use std::alloc::Global;

/// The first select and those behind UNION ALL.
type Selects = (Select, Items<UnionAll>);

/// A select behind UNION ALL, how many tables stand in the query up to there, and the places of UNION and ALL if they stand behind
/// it.
#[derive(Drop)]
struct NextPart {
    next: UnionAll,
    tables: u8,
    words: Option<UnionPlaces>,
}

/// What stands behind the selects of a query.
#[derive(Drop)]
struct TailPart {
    order_by: Items<Key>,
    limit: Option<NumberAt>,
    options: Items<QueryOption>,
    semicolon: bool,
}

/// The select behind so many tables and behind UNION and ALL at these places.
fn next_select(
    alloc: Global,
    input: &mut Input,
    tables: u8,
    places: UnionPlaces,
) -> Result<NextPart, ParseFault>
    requires { tables ≤ 4 }
    ensures led { (g : Group) → tables_group g ≡ tables → Leads (runs (want_select (union_all g places.0 places.1))) input.old result
        (λ n. at_union (select_tree (union_all g n.next.union n.next.all) n.next.select) n.words) input.new }
    ensures count { (g : Group) → tables_group g ≡ tables → IfOk result (λ n. tables_group (select_tree (union_all g n.next.union n.next.all) n.next.select) ≡ n.tables) }
    ensures most { IfOk result (λ n. n.tables ≤ 4) }
    ensures grows { IfOk result (λ n. tables < n.tables) }
{
    let (union, all) = places;
    let SelectPart {
        select,
        tables,
        union: words,
    } = select(alloc, input, tables)?;
    let next = UnionAll { union, all, select };
    Ok(NextPart {
        next,
        tables,
        words,
    })
}

/// The selects behind the first and behind so many tables, where UNION and ALL stand right before at these places or not.
#[tactic(auto, using(crate::proofs::ParserLemmas::selects_push))]
fn further_selects(
    alloc: Global,
    input: &mut Input,
    tables: u8,
    words: Option<UnionPlaces>,
) -> Result<Items<UnionAll>, ParseFault>
    requires { tables ≤ 4 }
    ensures led { (g : Group) → tables_group g ≡ tables
        → Leads (at_union g words) input.old result (λ more. runs_on (begin_order (more_selects g more))) input.new }
{
    let room = if words.is_some() { MOST_FURTHER } else { 0 };
    let mut more = with_room(alloc, room)?;
    let mut count = tables;
    let mut ahead = words;
    while let Some(places) = ahead {
        let NextPart {
            next,
            tables,
            words,
        } = next_select(alloc, input, count, places)?;
        more.push(next)?;
        count = tables;
        ahead = words;
    }
    Ok(more.into_items(MOST_KEPT))
}

/// All selects of a query.
fn selects(alloc: Global, input: &mut Input) -> Result<Selects, ParseFault>
    ensures led { Leads (runs begin) input.old result (λ s. runs_on (begin_order (more_selects (select_tree at_first s.0) s.1))) input.new }
{
    let SelectPart {
        select: first,
        tables,
        union,
    } = select(alloc, input, 0)?;
    let more = further_selects(alloc, input, tables, union)?;
    Ok((first, more))
}

/// ORDER BY, LIMIT and OPTION where they stand, and the end of a query.
fn tail_part(alloc: Global, input: &mut Input) -> Result<TailPart, ParseFault>
    ensures led { (g : Group) → Leads (runs_on (begin_order g)) input.old result
        (λ t. has_read (end_tree (options_tree (limit_tree (order_tree g t.order_by) t.limit) t.options) t.semicolon)) input.new }
{
    let order_by = order_part(alloc, input)?;
    let limit = limit_part(input)?;
    let options = options_part(alloc, input)?;
    let semicolon = end_part(input)?;
    Ok(TailPart {
        order_by,
        limit,
        options,
        semicolon,
    })
}

/// A whole query.
fn query(alloc: Global, input: &mut Input) -> Result<Query, ParseFault>
    ensures led { Leads (runs begin) input.old result (λ q. has_read (query_tree q)) input.new }
{
    let (first, more) = selects(alloc, input)?;
    let TailPart {
        order_by,
        limit,
        options,
        semicolon,
    } = tail_part(alloc, input)?;
    Ok(Query {
        first,
        more,
        order_by,
        limit,
        options,
        semicolon,
    })
}

/// The query that a text is. Each text of the grammar is read as its one tree, and each other text is refused at the first token
/// that can't continue any query, or as a literal there that isn't in 128 signed bits.
pub fn parse(alloc: Global, text: &str) -> Result<Query, ParseFault>
    requires { length text.now < 2 ^ 32 - 1 }
    ensures found { Found (words text.now) spell query_tree parse_tells (tokens_of text.now) result }
    ensures only { Only (words text.now) spell query_tree parse_tells (tokens_of text.now) result }
    ensures refused { Refused (words text.now) spell query_tree parse_tells (tokens_of text.now) result }
    ensures only_refused { OnlyRefused (words text.now) spell query_tree parse_tells (tokens_of text.now) result }
{
    let mut input = Input::new(text);
    query(alloc, &mut input)
}
