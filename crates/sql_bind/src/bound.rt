use qsr_value::{Bytes, ColKind};
use sql_front::{Aggregate, Comparison, Method};
use sqlite_items::{Boxed, Items};

/// A column of a select: its table's place in FROM, its place in the table, both from 0, and its kind.
#[derive(Clone, Copy)]
pub struct BoundColumn {
    pub table: usize,
    pub place: usize,
    pub kind: ColKind,
}

/// A side of a comparison.
#[derive(Drop)]
pub enum Operand {
    Column(BoundColumn),
    Number(i128),
    Text(Bytes),
}

/// A condition over the columns of a select.
#[cycle(condition)]
#[derive(Drop)]
pub enum Condition {
    Compare(Operand, Comparison, Operand),
    Not(Boxed<Condition>),
    All(Items<Condition>),
    Any(Items<Condition>),
}

/// How a table joins those before it: rows are put beside one another, or rows are kept that meet some row of it, or none.
#[derive(Clone, Copy)]
pub enum JoinedBy {
    Product,
    Semi,
    Anti,
}

/// A table of FROM: its place among the tables that there are, from 0, how it joins those before it, and the conjuncts of its ON.
#[derive(Drop)]
pub struct BoundTable {
    pub table: usize,
    pub joined: JoinedBy,
    pub conditions: Items<Condition>,
}

/// What a select gives of each row or group.
#[derive(Clone, Copy)]
pub enum BoundItem {
    Column(BoundColumn),
    Count,
    Fold(Aggregate, BoundColumn),
}

/// A select: its tables, the conjuncts of its WHERE, its items, `*` being all columns of its tables, and its GROUP BY columns, none
/// without GROUP BY.
#[derive(Drop)]
pub struct BoundSelect {
    pub distinct: bool,
    pub tables: Items<BoundTable>,
    pub conditions: Items<Condition>,
    pub items: Items<BoundItem>,
    pub group_by: Items<BoundColumn>,
}

/// A key of ORDER BY: an item of the first select, by its place among the items from 0.
#[derive(Clone, Copy)]
pub struct BoundKey {
    pub item: usize,
    pub descending: bool,
}

/// What a plan is asked to use: rows of a block join's block, partitions of a hash join, rows of a sort's run, and a way of joining.
#[derive(Clone, Copy)]
pub struct PlanOptions {
    pub block: u128,
    pub parts: u128,
    pub sort: u128,
    pub method: Option<Method>,
}

/// A query whose names are bound: the first select and those behind UNION ALL.
#[derive(Drop)]
pub struct Bound {
    pub first: BoundSelect,
    pub others: Items<BoundSelect>,
    pub order_by: Items<BoundKey>,
    pub limit: Option<u128>,
    pub options: PlanOptions,
}
