ghost use Rattle.std.specs.Prelude.{◌≤◌, ◌++◌, ◌≡◌, [], ◌∷◌, List, map, IfOk, IfSome};
ghost use Rattle.std.specs.String.{string_bytes};
ghost use Rattle.std.specs.List.{list_all};
ghost use Rattle.std.specs.Option.{option_and_then, option_map};
ghost use Rattle.qsr_value.specs.declared.schema.Column.{Column as ColumnData};
ghost use Rattle.qsr_value.specs.declared.limits.TheConstants.{MAX_AREA_PAGES};
ghost use Rattle.qsr_top.specs.Words.{AreColumns, AreRead, IsCommand, ReadsCommand, ReadsColumns, column_kind, columns_of, command_of, command_with, create_of, explain_of, format_of, is_name, is_name_byte, kind_of, load_of, pages_of, script_of, some_columns, text_kind};

use page_store::Sizes;
use qsr_value::{
    ColKind, Column, MAX_AREA_PAGES, MAX_COLUMNS, MAX_NAME, MAX_TEXT, Memory, Schema, Txt, count_of,
};
use std::alloc::Global;

/// How many pages an area has at most, beside a number that was read.
const MAX_PAGES: u64 = MAX_AREA_PAGES as u64;

/// What the program is asked to do.
#[derive(Drop)]
pub enum Command<'a> {
    /// Reads the lines of a script from the input and answers each.
    Script,
    /// Writes an empty store with areas of these sizes.
    Format {
        sizes: Sizes,
    },
    /// Creates a table of this name and these columns, for which there may have been no memory.
    Create {
        name: &'a str,
        columns: Result<Schema, Memory>,
    },
    /// Adds the rows of the input to the table of this name.
    Load {
        name: &'a str,
    },
    /// Says what comes of the query that the input is.
    Explain,
}

/// The command that the words name: FILE, which is not read here, then the command and what it takes.
pub fn command_of<'a>(alloc: Global, words: &'a [String]) -> Option<Command<'a>>
    ensures names { ReadsCommand (command_of (map string_bytes words.now)) result }
    ensures fits { IfSome result IsCommand }
{
    match words {
        [_, command, arguments @ ..] => command_with(alloc, command.as_str(), arguments),
        _ => None,
    }
}

/// A command and what it takes.
fn command_with<'a>(alloc: Global, command: &str, arguments: &'a [String]) -> Option<Command<'a>>
    ensures names { ReadsCommand (command_with command.now (map string_bytes arguments.now)) result }
    ensures fits { IfSome result IsCommand }
{
    match command {
        "script" => script_of(arguments),
        "format" => format_of(arguments),
        "create" => create_of(alloc, arguments),
        "load" => load_of(arguments),
        "explain" => explain_of(arguments),
        _ => None,
    }
}

/// `script`, which takes nothing.
fn script_of<'a>(arguments: &'a [String]) -> Option<Command<'a>>
    ensures names { ReadsCommand (script_of (map string_bytes arguments.now)) result }
    ensures fits { IfSome result IsCommand }
{
    if arguments.is_empty() {
        Some(Command::Script)
    } else {
        None
    }
}

/// `format`, which takes how many pages each area of a kind is to have.
fn format_of<'a>(arguments: &'a [String]) -> Option<Command<'a>>
    ensures names { ReadsCommand (format_of (map string_bytes arguments.now)) result }
    ensures fits { IfSome result IsCommand }
{
    match arguments {
        [table, index, out, image, spill] => {
            let table = pages_of(table.as_str())?;
            let index = pages_of(index.as_str())?;
            let out = pages_of(out.as_str())?;
            let image = pages_of(image.as_str())?;
            let spill = pages_of(spill.as_str())?;
            let sizes = Sizes {
                table,
                index,
                out,
                image,
                spill,
            };
            Some(Command::Format { sizes })
        }
        _ => None,
    }
}

/// `create`, which takes the name of a table, and a name and a kind for each of its columns.
fn create_of<'a>(alloc: Global, arguments: &'a [String]) -> Option<Command<'a>>
    ensures names { ReadsCommand (create_of (map string_bytes arguments.now)) result }
    ensures fits { IfSome result IsCommand }
{
    match arguments {
        [name, columns @ ..] if is_name(name.as_str()) => {
            let columns = some_columns(alloc, columns)?;
            Some(Command::Create {
                name: name.as_str(),
                columns,
            })
        }
        _ => None,
    }
}

/// `load`, which takes the name of a table.
fn load_of<'a>(arguments: &'a [String]) -> Option<Command<'a>>
    ensures names { ReadsCommand (load_of (map string_bytes arguments.now)) result }
    ensures fits { IfSome result IsCommand }
{
    match arguments {
        [name] if is_name(name.as_str()) => Some(Command::Load {
            name: name.as_str(),
        }),
        _ => None,
    }
}

/// `explain`, which takes nothing.
fn explain_of<'a>(arguments: &'a [String]) -> Option<Command<'a>>
    ensures names { ReadsCommand (explain_of (map string_bytes arguments.now)) result }
    ensures fits { IfSome result IsCommand }
{
    match arguments {
        [] => Some(Command::Explain),
        _ => None,
    }
}

/// Whether a word is a name: 1 to 16 small letters, digits and `_`, of which the first is no digit.
fn is_name(word: &str) -> bool
    ensures { result ≡ is_name word.now }
{
    match word.as_bytes() {
        [first, rest @ ..] => !first.is_ascii_digit()
            && rest.len() < MAX_NAME
            && are_name_bytes(word.as_bytes()),
        [] => false,
    }
}

fn are_name_bytes(bytes: &[u8]) -> bool
    ensures { result ≡ list_all is_name_byte bytes.now }
{
    bytes.iter().all(|byte| is_name_byte(*byte))
}

fn is_name_byte(byte: u8) -> bool
    ensures { result ≡ is_name_byte byte }
{
    byte.is_ascii_lowercase() || byte.is_ascii_digit() || byte == b'_'
}

/// The 1 to 16 columns that words are, each a name and a kind. None where the words are none, whatever memory there is.
fn some_columns(alloc: Global, words: &[String]) -> Option<Result<Schema, Memory>>
    ensures names { ReadsColumns (option_and_then some_columns (columns_of (map string_bytes words.now))) result }
    ensures fits { IfSome result (λ read. IfOk read AreColumns) }
{
    // So the words below are 16 columns at most.
    if words.is_empty() || words.len() > 2 * MAX_COLUMNS {
        return None;
    }
    columns_behind(alloc, Ok(Schema::new(alloc)), words)
}

/// The columns that words are, behind these. Where there is no memory for one the words behind it are read all the same.
fn columns_behind(
    alloc: Global,
    columns: Result<Schema, Memory>,
    words: &[String],
) -> Option<Result<Schema, Memory>>
    ensures { (front : List ColumnData) → AreRead front columns → ReadsColumns (option_map (λ more. front ++ more) (columns_of (map string_bytes words.now))) result }
{
    let [name, kind, rest @ ..] = words else {
        return if words.is_empty() {
            Some(columns)
        } else {
            None
        };
    };
    let name = name.as_str();
    let kind = column_kind(name, kind.as_str())?;
    let columns = with_column(alloc, columns, name, kind);
    columns_behind(alloc, columns, rest)
}

/// Columns and one more, where there is memory for it and was for them.
fn with_column(
    alloc: Global,
    columns: Result<Schema, Memory>,
    name: &str,
    kind: ColKind,
) -> Result<Schema, Memory>
    ensures { (front : List ColumnData) → AreRead front columns → AreRead (front ++ record { name = name.now; kind = kind } ∷ []) result }
{
    let mut columns = columns?;
    let name = Txt::from_str(alloc, name)?;
    columns.push(Column { name, kind })?;
    Ok(columns)
}

/// What the values of a column of this name are to be. None where the name is none.
fn column_kind(name: &str, kind: &str) -> Option<ColKind>
    ensures { result ≡ column_kind name.now kind.now }
{
    if is_name(name) { kind_of(kind) } else { None }
}

/// What the values of a column are to be.
fn kind_of(word: &str) -> Option<ColKind>
    ensures { result ≡ kind_of word.now }
{
    if word == "int" {
        return Some(ColKind::Int);
    }
    text_kind(count_of(word.as_bytes().strip_prefix(b"text:")?)?)
}

/// Texts of so many bytes at most.
fn text_kind(max: u64) -> Option<ColKind>
    ensures { result ≡ text_kind max }
{
    match max {
        1..=MAX_TEXT => Some(ColKind::Text { max: max as u16 }),
        _ => None,
    }
}

/// How many pages an area is to have.
fn pages_of(word: &str) -> Option<u32>
    ensures number { result ≡ pages_of word.now }
    ensures within { IfSome result (λ pages. (1 ≤ pages) × (pages ≤ MAX_AREA_PAGES)) }
{
    match count_of(word.as_bytes()) {
        Some(count @ 1..=MAX_PAGES) => Some(count as u32),
        _ => None,
    }
}
