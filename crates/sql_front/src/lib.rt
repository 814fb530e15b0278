//! The front of SQL: a query's text is read into its tree, or refused at its first wrong place.
#![tactic(auto)]

mod columns;
mod conditions;
mod fault;
mod input;
mod items;
mod lists;
mod make;
mod numbers;
mod options;
mod parser;
mod selects;
mod tables;
mod tail;
mod tree;
mod words;

pub use fault::ParseFault;
pub use parser::parse;
pub use tree::{
    Column, Cond, Item, Join, Joined, Key, KeyOf, More, NameAt, NumberAt, Predicate, Query,
    QueryOption, Select, Selection, Side, Table, UnionAll,
};
pub use words::{Aggregate, Comparison, Method, Setting};
