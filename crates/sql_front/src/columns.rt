ghost use Rattle.std.specs.Prelude.{◌≡◌, ◌<◌, ◌≤◌, length, OnOk};
ghost use Rattle.sql_front.specs.Machine.{ColumnK, want_column, after_column, after_dot, follow_column};
ghost use Rattle.sql_front.specs.Reads.{Leads, runs, runs_on};
ghost use Rattle.sql_front.specs.Tree.{plain, dotted};
ghost use Rattle.sql_front.specs.View.{column_tree, name_tree};

use crate::ParseFault;
use crate::input::Input;
use crate::tree::{Column, NameAt};
use sql_tokens::What;

/// The column whose first name was read.
pub(crate) fn column(input: &mut Input, first: NameAt) -> Result<Column, ParseFault>
    ensures led { (k : ColumnK) → Leads (runs (after_column (plain (name_tree first)) k)) input.old result (λ c. runs_on (follow_column k (column_tree c))) input.new }
    ensures no_longer { OnOk result (length input.new.rest ≤ length input.old.rest) }
{
    match input.peek().what {
        What::Dot => {
            input.advance();
            let second = behind_dot(input, first)?;
            Ok(Column::Dotted(first, second))
        }
        _ => Ok(Column::Plain(first)),
    }
}

/// The column's own name, behind the `.` that stands behind its table's.
fn behind_dot(input: &mut Input, table: NameAt) -> Result<NameAt, ParseFault>
    ensures led { (k : ColumnK) → Leads (runs (after_dot (name_tree table) k)) input.old result (λ n. runs_on (follow_column k (dotted (name_tree table) (name_tree n)))) input.new }
    ensures shorter { OnOk result (length input.new.rest < length input.old.rest) }
{
    let token = input.peek();
    match token.what {
        What::Name(name) => {
            input.advance();
            Ok(NameAt { name, at: token.at })
        }
        _ => Err(input.refuse(None)),
    }
}

/// A column.
pub(crate) fn whole_column(input: &mut Input) -> Result<Column, ParseFault>
    ensures led { (k : ColumnK) → Leads (runs (want_column k)) input.old result (λ c. runs_on (follow_column k (column_tree c))) input.new }
    ensures shorter { OnOk result (length input.new.rest < length input.old.rest) }
{
    let token = input.peek();
    let What::Name(name) = token.what else {
        return Err(input.refuse(None));
    };
    input.advance();
    column(input, NameAt { name, at: token.at })
}
