ghost use Rattle.std.specs.Prelude.{◌≡◌};
ghost use Rattle.row_script.specs.Grammar.{line_of, row_line_of, rows_of, turn_of};

use qsr_value::{count_of, number_of};

/// What a line of a script asks for.
#[derive(Clone, Copy)]
pub enum ScriptLine {
    /// `row V`: adds a row, which is a number.
    Row { value: i64 },
    /// `turn N`: writes the next rows to the disk.
    Turn { count: u64 },
    /// `rows`: lists the rows that are acknowledged, as the disk has them.
    Rows,
}

/// Reads a line, without its end. None where it is none of a script's.
pub fn line_of(text: &[u8]) -> Option<ScriptLine>
    ensures { result ≡ line_of text.now }
{
    match text.strip_prefix(b"row ") {
        Some(text) => row_of(text),
        None => match text.strip_prefix(b"turn ") {
            Some(text) => turn_of(text),
            None => rows_of(text),
        },
    }
}

fn row_of(text: &[u8]) -> Option<ScriptLine>
    ensures { result ≡ row_line_of text.now }
{
    let value = number_of(text)?;
    Some(ScriptLine::Row { value })
}

fn turn_of(text: &[u8]) -> Option<ScriptLine>
    ensures { result ≡ turn_of text.now }
{
    let count = count_of(text)?;
    Some(ScriptLine::Turn { count })
}

fn rows_of(text: &[u8]) -> Option<ScriptLine>
    ensures { result ≡ rows_of text.now }
{
    if text == b"rows".as_slice() {
        Some(ScriptLine::Rows)
    } else {
        None
    }
}
