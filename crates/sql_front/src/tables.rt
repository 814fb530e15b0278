ghost use Rattle.std.specs.Prelude.{◌≡◌, ◌≤◌, ◌<◌, IfOk, OnOk};
ghost use Rattle.sql_tokens.specs.declared.token.What.TheVariants as what;
ghost use Rattle.sql_front.specs.Machine.{TableK, before_k, join_k, after_table, as_word, follow_table, want_table, left_word, union_word, join_word, want_select, want_cond, on_k, more_from, tables_behind};
ghost use Rattle.sql_front.specs.Reads.{Leads, runs, runs_on, begin_from, behind_names, behind_tables, pair_of, link_k, at_ahead};
ghost use Rattle.sql_front.specs.Spell.{tables_before, tables_items, tables_from};
ghost use Rattle.sql_front.specs.Tree.{Before, from, comma, From, Group, Items, bare, joined, renamed, renamed_as, table, union_all};
ghost use Rattle.sql_front.specs.Tree as tree;
ghost use Rattle.sql_front.specs.View.{name_tree, table_tree, join_tree, cond_tree, next_table, from_tree};

use crate::ParseFault;
use crate::conditions::cond;
use crate::input::Input;
use crate::lists::{MOST_KEPT, with_room};
use crate::tree::{Cond, Join, More, NameAt, Table};
use crate::words::{Unreserved, word_ahead, word_of};
use sql_tokens::{Keyword, Name, What};
use std::alloc::Global;

/// The most tables in a query.
const MOST_TABLES: u8 = 4;

/// The most tables behind the first one of FROM, and the most selects behind UNION ALL, since each select has a table.
pub(crate) const MOST_FURTHER: usize = MOST_TABLES as usize - 1;

/// The places of UNION and ALL.
pub(crate) type UnionPlaces = (u32, u32);

/// The tables of a select, how many stand in the query up to there, and the places of UNION and ALL if they stand right behind a
/// table.
#[derive(Drop)]
pub(crate) struct FromPart {
    pub(crate) table: Table,
    pub(crate) more: sqlite_items::Items<More>,
    pub(crate) tables: u8,
    pub(crate) union: Option<UnionPlaces>,
}

/// What stands before a further table.
#[derive(Clone, Copy)]
enum Link {
    Comma,
    Join(Join),
}

/// What was passed behind a table or its condition: what stands before a further table, or UNION ALL, or nothing.
#[derive(Clone, Copy)]
enum Ahead {
    More(Link),
    End(Option<UnionPlaces>),
}

/// Two words that are names elsewhere: LEFT SEMI or LEFT ANTI, UNION ALL.
#[derive(Clone, Copy)]
enum Pair {
    LeftJoin,
    UnionAll,
}

/// What two names are together where such words may stand.
#[tactic(auto, unfolding(crate::specs::Reads::pair_of))]
fn pair_of(first: Option<Unreserved>, second: Option<Unreserved>) -> Option<Pair>
    ensures { result ≡ pair_of first second }
{
    match (first, second) {
        (Some(Unreserved::Left), Some(Unreserved::Semi | Unreserved::Anti)) => Some(Pair::LeftJoin),
        (Some(Unreserved::Union), Some(Unreserved::All)) => Some(Pair::UnionAll),
        _ => None,
    }
}

/// The name behind AS.
fn name_behind_as(input: &mut Input, first: NameAt) -> Result<NameAt, ParseFault>
    ensures led { (k : TableK) → Leads (runs (as_word (name_tree first) k)) input.old result (λ n. runs_on (behind_names (renamed_as (name_tree first) (name_tree n)) k)) input.new }
{
    let token = input.peek();
    match token.what {
        What::Name(name) => {
            input.advance();
            Ok(NameAt { name, at: token.at })
        }
        _ => Err(input.refuse(None)),
    }
}

/// A table whose first name was passed, with its second one if there is one.
#[tactic(auto, using(crate::proofs::FromLemmas::named_again))]
fn second_name(input: &mut Input, first: NameAt) -> Result<Table, ParseFault>
    ensures led { (k : TableK) → Leads (runs (after_table (bare (name_tree first)) k)) input.old result (λ t. runs_on (behind_names (table_tree t) k)) input.new }
{
    let token = input.peek();
    match token.what {
        What::Name(name) => {
            input.advance();
            let second = NameAt { name, at: token.at };
            Ok(Table::Renamed(first, second))
        }
        What::Word(Keyword::As) => {
            input.advance();
            let second = name_behind_as(input, first)?;
            Ok(Table::RenamedAs(first, second))
        }
        _ => Ok(Table::Bare(first)),
    }
}

/// A table's name and its second one, behind so many tables.
#[tactic(auto, using(crate::proofs::FromLemmas::table_named))]
fn table(input: &mut Input, tables: u8) -> Result<Table, ParseFault>
    ensures led { (k : TableK) → tables_behind k ≡ tables → Leads (runs (want_table k)) input.old result (λ t. runs_on (behind_names (table_tree t) k)) input.new }
    ensures fits { OnOk result (tables < 4) }
{
    let token = input.peek();
    match token.what {
        What::Name(name) if tables < MOST_TABLES => {
            input.advance();
            second_name(input, NameAt { name, at: token.at })
        }
        _ => Err(input.refuse(None)),
    }
}

/// JOIN behind LEFT SEMI or LEFT ANTI.
fn pass_join(input: &mut Input) -> Result<(), ParseFault>
    ensures led { (f : From) (j : tree.Join) → Leads (runs (join_word f j)) input.old result (λ none. runs (want_table (join_k f j))) input.new }
{
    match input.peek().what {
        What::Word(Keyword::Join) => {
            input.advance();
            Ok(())
        }
        _ => Err(input.refuse(None)),
    }
}

/// SEMI JOIN or ANTI JOIN behind LEFT at this place.
fn left_join(input: &mut Input, left: u32) -> Result<Join, ParseFault>
    ensures led { (f : From) → Leads (runs (left_word f left)) input.old result (λ j. runs (want_table (join_k f (join_tree j)))) input.new }
{
    let at = input.peek().at;
    match word_ahead(input) {
        Some(Unreserved::Semi) => {
            input.advance();
            pass_join(input)?;
            Ok(Join::Semi(left, at))
        }
        Some(Unreserved::Anti) => {
            input.advance();
            pass_join(input)?;
            Ok(Join::Anti(left, at))
        }
        _ => Err(input.refuse(None)),
    }
}

/// ALL behind UNION at this place, and the places of both.
pub(crate) fn all_word(input: &mut Input, union: u32) -> Result<UnionPlaces, ParseFault>
    ensures led { (g : Group) → Leads (runs (union_word g union)) input.old result (λ places. runs (want_select (union_all g places.0 places.1))) input.new }
{
    let at = input.peek().at;
    match word_ahead(input) {
        Some(Unreserved::All) => {
            input.advance();
            Ok((union, at))
        }
        _ => Err(input.refuse(None)),
    }
}

/// The words that begin with the name here.
fn names_ahead(input: &mut Input, name: Name) -> Result<Ahead, ParseFault>
    requires { input.old.first.what ≡ what.Name name }
    ensures led { (f : From) → Leads (runs_on (more_from f)) input.old result (λ a. at_ahead f a) input.new }
{
    let at = input.peek().at;
    match word_of(&name) {
        Some(Unreserved::Left) => {
            input.advance();
            let join = left_join(input, at)?;
            Ok(Ahead::More(Link::Join(join)))
        }
        Some(Unreserved::Union) => {
            input.advance();
            let places = all_word(input, at)?;
            Ok(Ahead::End(Some(places)))
        }
        _ => Ok(Ahead::End(None)),
    }
}

/// What stands behind a table or its condition before a further table, or UNION ALL, or nothing.
fn words_ahead(input: &mut Input) -> Result<Ahead, ParseFault>
    ensures led { (f : From) → Leads (runs_on (more_from f)) input.old result (λ a. at_ahead f a) input.new }
{
    match input.peek().what {
        What::Comma => {
            input.advance();
            Ok(Ahead::More(Link::Comma))
        }
        What::Word(Keyword::Join) => {
            input.advance();
            Ok(Ahead::More(Link::Join(Join::Inner)))
        }
        What::Name(name) => names_ahead(input, name),
        _ => Ok(Ahead::End(None)),
    }
}

/// A table behind FROM or a comma whose second name was passed, and what stands behind it. A second name that is LEFT or UNION is
/// none where SEMI, ANTI or ALL stands behind it.
#[tactic(auto, using(crate::proofs::FromLemmas::left_pair, crate::proofs::FromLemmas::union_pair, crate::proofs::FromLemmas::no_pair))]
fn renamed_table(
    input: &mut Input,
    name: NameAt,
    second: NameAt,
) -> Result<(Table, Ahead), ParseFault>
    ensures led { (b : Before) → Leads (runs_on (follow_table (renamed (name_tree name) (name_tree second)) (before_k b))) input.old result
        (λ r. at_ahead (table b (table_tree r.0)) r.1) input.new }
{
    match pair_of(word_of(&second.name), word_ahead(input)) {
        Some(Pair::LeftJoin) => {
            let join = left_join(input, second.at)?;
            Ok((Table::Bare(name), Ahead::More(Link::Join(join))))
        }
        Some(Pair::UnionAll) => {
            let places = all_word(input, second.at)?;
            Ok((Table::Bare(name), Ahead::End(Some(places))))
        }
        None => {
            let ahead = words_ahead(input)?;
            Ok((Table::Renamed(name, second), ahead))
        }
    }
}

/// A table behind FROM or a comma and behind so many tables, and what stands behind it.
#[tactic(auto, using(crate::proofs::FromLemmas::no_renamed))]
fn listed_table(input: &mut Input, tables: u8) -> Result<(Table, Ahead), ParseFault>
    ensures led { (b : Before) → tables_before b ≡ tables → Leads (runs (want_table (before_k b))) input.old result
        (λ r. at_ahead (table b (table_tree r.0)) r.1) input.new }
    ensures fits { OnOk result (tables < 4) }
{
    let listed = table(input, tables)?;
    if let Table::Renamed(name, second) = listed {
        return renamed_table(input, name, second);
    }
    let ahead = words_ahead(input)?;
    Ok((listed, ahead))
}

/// ON behind a table that is joined.
#[tactic(auto, using(crate::proofs::FromLemmas::wants_on, crate::proofs::FromLemmas::on_passed))]
fn pass_on(input: &mut Input, table: Table) -> Result<(), ParseFault>
    ensures led { (f : From) (j : tree.Join) → Leads (runs_on (behind_names (table_tree table) (join_k f j))) input.old result
        (λ none. runs (want_cond (on_k f j (table_tree table)))) input.new }
{
    match input.peek().what {
        What::Word(Keyword::On) => {
            input.advance();
            Ok(())
        }
        _ => Err(input.refuse(None)),
    }
}

/// A table that is joined behind so many tables, and its condition.
fn joined_table(alloc: Global, input: &mut Input, tables: u8) -> Result<(Table, Cond), ParseFault>
    ensures led { (f : From) (j : tree.Join) → tables_from f ≡ tables → Leads (runs (want_table (join_k f j))) input.old result
        (λ r. runs_on (more_from (joined f j (table_tree r.0) (cond_tree r.1)))) input.new }
    ensures fits { OnOk result (tables < 4) }
{
    let joined = table(input, tables)?;
    pass_on(input, joined)?;
    let condition = cond(alloc, input, 0)?;
    Ok((joined, condition))
}

/// A table behind a comma and so many tables, and what stands behind it.
fn comma_table(input: &mut Input, tables: u8) -> Result<(More, Ahead), ParseFault>
    ensures led { (f : From) → tables_from f ≡ tables → Leads (runs (want_table (before_k (comma f)))) input.old result
        (λ r. at_ahead (next_table f r.0) r.1) input.new }
    ensures fits { OnOk result (tables < 4) }
{
    let (table, ahead) = listed_table(input, tables)?;
    Ok((More::Comma(table), ahead))
}

/// A table that is joined so behind so many tables, with its condition, and what stands behind it.
fn join_table(
    alloc: Global,
    input: &mut Input,
    join: Join,
    tables: u8,
) -> Result<(More, Ahead), ParseFault>
    ensures led { (f : From) → tables_from f ≡ tables → Leads (runs (want_table (join_k f (join_tree join)))) input.old result
        (λ r. at_ahead (next_table f r.0) r.1) input.new }
    ensures fits { OnOk result (tables < 4) }
{
    let (table, condition) = joined_table(alloc, input, tables)?;
    let ahead = words_ahead(input)?;
    Ok((More::Join(join, table, condition), ahead))
}

/// A further table behind so many others, and what stands behind it.
fn further_table(
    alloc: Global,
    input: &mut Input,
    link: Link,
    tables: u8,
) -> Result<(More, Ahead), ParseFault>
    ensures led { (f : From) → tables_from f ≡ tables → Leads (runs (want_table (link_k f link))) input.old result
        (λ r. at_ahead (next_table f r.0) r.1) input.new }
    ensures fits { OnOk result (tables < 4) }
{
    match link {
        Link::Comma => comma_table(input, tables),
        Link::Join(join) => join_table(alloc, input, join, tables),
    }
}

/// FROM and its first table, behind so many tables, and what stands behind it.
fn first_table(input: &mut Input, tables: u8) -> Result<(Table, Ahead), ParseFault>
    ensures led { (i : Items) → tables_items i ≡ tables → Leads (runs_on (begin_from i)) input.old result
        (λ r. at_ahead (table (from i) (table_tree r.0)) r.1) input.new }
    ensures fits { OnOk result (tables < 4) }
{
    match input.peek().what {
        What::Word(Keyword::From) => {
            input.advance();
            listed_table(input, tables)
        }
        _ => Err(input.refuse(None)),
    }
}

/// FROM and its tables, behind so many tables.
#[tactic(auto, using(crate::proofs::FromLemmas::more_pushed, crate::proofs::FromLemmas::next_counted))]
pub(crate) fn from_part(
    alloc: Global,
    input: &mut Input,
    tables: u8,
) -> Result<FromPart, ParseFault>
    requires { tables ≤ 4 }
    ensures led { (i : Items) → tables_items i ≡ tables
        → Leads (runs_on (begin_from i)) input.old result (λ f. behind_tables (from_tree i f.table f.more) f.union) input.new }
    ensures count { (i : Items) → tables_items i ≡ tables → IfOk result (λ f. tables_from (from_tree i f.table f.more) ≡ f.tables) }
    ensures most { IfOk result (λ f. f.tables ≤ 4) }
    ensures grows { IfOk result (λ f. tables < f.tables) }
{
    let (table, mut ahead) = first_table(input, tables)?;
    let room = match ahead {
        Ahead::More(_) => MOST_FURTHER,
        Ahead::End(_) => 0,
    };
    let mut more = with_room(alloc, room)?;
    let mut count = tables + 1;
    loop {
        match ahead {
            Ahead::End(union) => {
                return Ok(FromPart {
                    table,
                    more: more.into_items(MOST_KEPT),
                    tables: count,
                    union,
                });
            }
            Ahead::More(link) => {
                let (next, words) = further_table(alloc, input, link, count)?;
                more.push(next)?;
                count += 1;
                ahead = words;
            }
        }
    }
}
