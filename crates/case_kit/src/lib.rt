//! What the programs of cases share: the loop over the lines of cases, how a line's words, bytes, columns and rows are read and shown, the
//! five fills, and what is printed of each case.
//!
//! A program of cases is for the gate: it reads cases, does what they say, and prints a line for each case. Its stored standard
//! input has the cases and what is wanted of them, so that a further case costs no proof.
#![tactic(auto)]

mod bytes;
mod bytes_at;
mod calls;
mod columns;
mod compare;
mod escapes;
mod fills;
mod fitting;
mod notes;
mod pieces;
mod report;
mod rows;
mod words;

pub use bytes::{byte_of, bytes_of, push_bytes, show_bytes};
pub use bytes_at::{BytesAt, read_bytes_at};
pub use calls::{Calls, try_all};
pub use columns::{schema_of, show_columns};
pub use compare::{difference, push_shown};
pub use escapes::{push_escaped, push_hex};
pub use fills::{ALL_CALLS, FILLS};
pub use fitting::fits;
pub use notes::{Place, Variant, expect_bytes, expect_number, note};
pub use pieces::push_piece;
pub use report::Report;
pub use rows::{row_of, rows_of, show_row, value_of};
pub use words::{Words, number, number_first, numbers, range_of};
