// Names among others.

ghost use Rattle.std.specs.Prelude.{◌≡◌};
ghost use Rattle.qsr_value.specs.Names.{is_among};
ghost use Rattle.table_file.specs.Refusals.{column_names, repeats};

use qsr_value::Column;

/// Whether a column has this name.
pub(crate) fn is_among(name: &str, columns: &[Column]) -> bool
    ensures { result ≡ is_among name.now (column_names columns.now) }
{
    for column in columns {
        if column.name.as_str() == name {
            return true;
        }
    }
    false
}

/// Whether two columns have one name.
pub(crate) fn repeats_name(columns: &[Column]) -> bool
    ensures { result ≡ repeats (column_names columns.now) }
{
    for (place, column) in columns.iter().enumerate() {
        if is_among(column.name.as_str(), &columns[place + 1..]) {
            return true;
        }
    }
    false
}
