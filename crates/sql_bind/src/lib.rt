//! Names and types of a query: what its tables and columns are, or the first thing in it that can't be.
#![tactic(auto)]

mod binder;
mod bound;
mod conditions;
mod conjuncts;
mod fault;
mod from;
mod items;
mod keys;
mod make;
mod names;
mod scope;
mod selects;
mod settings;

pub use binder::bind;
pub use bound::{
    Bound, BoundColumn, BoundItem, BoundKey, BoundSelect, BoundTable, Condition, JoinedBy, Operand,
    PlanOptions,
};
pub use fault::BindFault;
pub use names::{NamedTable, Names};
