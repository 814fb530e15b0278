//! Rows on pages: how they are put on a page one behind the other, and found there again. Pages of tables, of indexes and of
//! what a query spills have this one form.
#![tactic(auto)]

mod reading;
mod writing;

pub use reading::{row_at, rows_end};
pub use writing::{end_page, put_row};
