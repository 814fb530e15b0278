ghost use Rattle.std.specs.Prelude.{◌≡◌, ◌≤◌, List, length};
ghost use Rattle.qsr_value.specs.declared.row.Value.{Value as RowValue};
ghost use Rattle.qsr_value.specs.declared.schema.Column.{Column as RowColumn};
ghost use Rattle.qsr_value.specs.Columns.{width_of};
ghost use Rattle.qsr_value.specs.Encoding.{encoded_row};
ghost use Rattle.qsr_value.specs.Ordered.{compare_values};
ghost use Rattle.qsr_value.specs.Values.{Fits};
ghost use Rattle.std.specs.Cmp.{IsTotalOrder};
ghost use Rattle.std.specs.declared.cmp.Ordering.TheVariants as order;

/// Two laws of the bytes of rows: a row has no more of them than its columns are wide, and rows of one schema with the
/// same bytes are one row. A call does nothing, and a proof after it knows the laws.
pub const fn encodings_are_exact()
    ensures width { (schema : List RowColumn) (row : List RowValue) → Fits schema row → length (encoded_row schema row) ≤ width_of schema }
    ensures one { (schema : List RowColumn) (row other : List RowValue) → Fits schema row → Fits schema other → encoded_row schema row ≡ encoded_row schema other → row ≡ other }
{}

/// The order of values: any two compare, in one way, and those that tie are equal.
pub const fn values_are_ordered()
    ensures order { IsTotalOrder compare_values }
    ensures ties { (v w : RowValue) → compare_values v w ≡ order.Equal → v ≡ w }
{}
