use qsr_value::{ListOf, Row};

/// The rows of a table, or of an answer.
pub type Rows = ListOf<Row>;

/// The rows of each table.
pub type Lists = ListOf<Rows>;

/// A row of each table of FROM so far; the table of a semi or anti join has an empty one.
pub(crate) type Joined = ListOf<Row>;

/// A key of GROUP BY, and the rows that have it.
pub(crate) type Group = (Row, ListOf<Joined>);
