//! What every layer of qsr speaks of: texts, lists, rows, their schemas and where they go to, and the two failures that a
//! layer hands on.
#![tactic(auto)]

mod compare;
mod copies;
mod decode;
mod encode;
mod failure;
mod kind;
pub mod laws;
mod limits;
mod list;
mod number;
mod row;
mod row_sink;
mod schema;
mod text;

pub use compare::{SortKey, cmp_by, cmp_values};
pub use copies::TryCopy;
pub use decode::{RowFault, decode_row};
pub use encode::{NoRoom, encode_row};
pub use failure::{Failed, Memory};
pub use kind::ColKind;
pub use limits::{
    MAX_AREA_PAGES, MAX_COLUMNS, MAX_INDEXES, MAX_LINE, MAX_LINES, MAX_NAME, MAX_ROWS, MAX_TABLES,
    MAX_TEXT, MAX_WIDTH, PAGE_BYTES,
};
pub use list::{Bytes, ListOf};
pub use number::{count_of, number_of};
pub use row::{Row, Value};
pub use row_sink::{Outside, RowSink};
pub use schema::{Column, Schema};
pub use text::Txt;
