use crate::words::{Aggregate, Comparison, Method, Setting};
use qsr_value::Bytes;
use sql_tokens::Name;
use sqlite_items::{Boxed, Items};

/// A name and its place. Places are counted in bytes of the text from 1.
#[derive(Clone, Copy)]
pub struct NameAt {
    pub name: Name,
    pub at: u32,
}

/// A number and its place.
#[derive(Clone, Copy)]
pub struct NumberAt {
    pub value: u128,
    pub at: u32,
}

/// A column, alone or behind its table's name.
#[derive(Clone, Copy)]
pub enum Column {
    Plain(NameAt),
    Dotted(NameAt, NameAt),
}

/// A side of a comparison. A negative number has the place of its `-`.
#[derive(Drop)]
pub enum Side {
    Column(Column),
    Number(NumberAt),
    Negative(u32, NumberAt),
    Text(Bytes),
}

/// A unit of a condition behind so many NOTs: a condition in parentheses, or a comparison with the place of its operator.
#[cycle(tree)]
#[derive(Drop)]
pub enum Predicate {
    Compare(u8, Side, Comparison, u32, Side),
    Group(u8, Boxed<Cond>),
}

/// A further unit, with the word that joins it to those before it. AND binds tighter than OR.
#[cycle(tree)]
#[derive(Drop)]
pub enum Joined {
    And(Predicate),
    Or(Predicate),
}

/// A condition: its first unit, and the others in the order of the text.
#[cycle(tree)]
#[derive(Drop)]
pub enum Cond {
    Units(Predicate, Items<Joined>),
}

/// What a query gives of each row or group. COUNT has the place of its `*`, SUM, MIN and MAX that of their word.
#[derive(Clone, Copy)]
pub enum Item {
    Column(Column),
    Count(u32),
    Fold(Aggregate, u32, Column),
}

/// All columns, with the place of `*`, or a first item and the others.
#[derive(Drop)]
pub enum Selection {
    Star(u32),
    Items(Item, Items<Item>),
}

/// A table's name, and a second one behind it, without AS or with it.
#[derive(Clone, Copy)]
pub enum Table {
    Bare(NameAt),
    Renamed(NameAt, NameAt),
    RenamedAs(NameAt, NameAt),
}

/// How a table is joined, with the places of LEFT and of SEMI or ANTI.
#[derive(Clone, Copy, PartialEq, Eq)]
pub enum Join {
    Inner,
    Semi(u32, u32),
    Anti(u32, u32),
}

/// A further table of FROM: behind a comma, or joined on a condition.
#[derive(Drop)]
pub enum More {
    Comma(Table),
    Join(Join, Table, Cond),
}

/// A query without ORDER BY and what stands behind it, with the place of SELECT. Without GROUP BY its columns are none.
#[derive(Drop)]
pub struct Select {
    pub at: u32,
    pub distinct: bool,
    pub items: Selection,
    pub table: Table,
    pub more: Items<More>,
    pub condition: Option<Cond>,
    pub group_by: Items<Column>,
}

/// A select behind UNION ALL, with the places of these words.
#[derive(Drop)]
pub struct UnionAll {
    pub union: u32,
    pub all: u32,
    pub select: Select,
}

/// What rows are ordered by: a column or an item's number.
#[derive(Clone, Copy)]
pub enum KeyOf {
    Column(Column),
    Number(NumberAt),
}

/// A key of ORDER BY, and whether ASC or DESC stands behind it.
#[derive(Clone, Copy)]
pub enum Key {
    Unsaid(KeyOf),
    Ascending(KeyOf),
    Descending(KeyOf),
}

/// An option, with the places of its words.
#[derive(Clone, Copy)]
pub enum QueryOption {
    Set(Setting, u32, NumberAt),
    Use(u32, Method, u32),
}

/// A query as it is written. Without ORDER BY or OPTION its keys or options are none.
#[derive(Drop)]
pub struct Query {
    pub first: Select,
    pub more: Items<UnionAll>,
    pub order_by: Items<Key>,
    pub limit: Option<NumberAt>,
    pub options: Items<QueryOption>,
    pub semicolon: bool,
}
