// Rows as lines of text.

ghost use Rattle.std.specs.Prelude.{◌≡◌, ◌+◌, ◌≤◌, ◌∷◌, length, take, drop, Ok, IfOk, IfErr, IfSome, option_map};
ghost use Rattle.qsr_value.specs.Values.{AreTexts, Fits, IsOfKind, IsText};
ghost use Rattle.table_file.specs.Fields.{IsFieldFault, fields_of, read_row, value_of_field};
ghost use Rattle.table_file.specs.FieldsLeft.{fields_behind, fields_from};

use crate::TableFault;
use qsr_value::{ColKind, Memory, Row, Schema, Txt, Value, number_of};
use std::alloc::Global;
use std::str;

/// Reads the fields of a line, separated by one tab each, as a row of these columns. The line's number is told with the first
/// wrong column: its field is missing, or is no optional `-` and 1 to 19 digits within 64 bits, or no UTF-8 of at most its
/// greatest length; or there is a field too many.
pub fn read_fields(
    alloc: Global,
    schema: &Schema,
    line: u32,
    text: &[u8],
) -> Result<Row, TableFault>
    requires { length schema.now ≤ 16 }
    ensures row { IfOk result (λ row. read_row schema.now text.now ≡ Ok row) }
    ensures fits { IfOk result (λ row. Fits schema.now row × AreTexts row) }
    ensures fault { IfErr result (IsFieldFault schema.now line text.now) }
{
    let mut row = Row::with_room(alloc, schema.len())?;
    let mut next = Some(0);
    for place in 0..schema.len() {
        let Some(at) = next else {
            return Err(bad_field(line, place));
        };
        let end = at + field_length(&text[at..]);
        let Some(value) = read_value(alloc, schema.get(place).kind, &text[at..end])? else {
            return Err(bad_field(line, place));
        };
        row.push(value)?;
        next = next_field(text, end);
    }
    match next {
        None => Ok(row),
        Some(_) => Err(bad_field(line, schema.len())),
    }
}

/// The fault of the column at this place, which is counted from 0.
fn bad_field(line: u32, place: usize) -> TableFault
    requires { place ≤ 16 }
    ensures { result ≡ TableFault.BadField line (place + 1) }
{
    TableFault::BadField {
        line,
        column: place as u8 + 1,
    }
}

/// How many bytes the first field of a text has: those before its first tab, or all.
fn field_length(text: &[u8]) -> usize
    ensures within { result ≤ length text.now }
    ensures fields { fields_of text.now ≡ take result text.now ∷ fields_behind (drop result text.now) }
{
    for (place, byte) in text.iter().enumerate() {
        if *byte == b'\t' {
            return place;
        }
    }
    text.len()
}

/// Where the field begins that follows one which ends here. There is none at the end of the text.
fn next_field(text: &[u8], end: usize) -> Option<usize>
    requires { end ≤ length text.now }
    ensures within { IfSome result (λ at. at ≤ length text.now) }
    ensures fields { fields_from text.now result ≡ fields_behind (drop end text.now) }
{
    if end < text.len() {
        return Some(end + 1);
    }
    None
}

/// Reads a field as a value of a column of this kind. None where it is no such value.
fn read_value(alloc: Global, kind: ColKind, field: &[u8]) -> Result<Option<Value>, Memory>
    ensures value { IfOk result (λ found. found ≡ value_of_field kind field.now) }
    ensures fits { IfOk result (λ found. IfSome found (λ value. IsOfKind kind value × IsText value)) }
{
    match kind {
        ColKind::Int => Ok(read_int(field)),
        ColKind::Wide => Ok(None),
        ColKind::Text { max } => match text_of(max, field) {
            None => Ok(None),
            Some(text) => Ok(Some(Value::Text(Txt::from_str(alloc, text)?))),
        },
    }
}

/// Reads a field as a number of 64 bits.
fn read_int(field: &[u8]) -> Option<Value>
    ensures value { result ≡ value_of_field ColKind.Int field.now }
    ensures fits { IfSome result (λ value. IsOfKind ColKind.Int value × IsText value) }
{
    let number = number_of(field)?;
    Some(Value::Int(i128::from(number)))
}

/// The field as a text of at most `max` bytes. None where it is longer, or not UTF-8.
fn text_of(max: u16, field: &[u8]) -> Option<&str>
    ensures value { option_map (λ text. Value.Text text.now) result ≡ value_of_field (ColKind.Text max) field.now }
    ensures fits { IfSome result (λ text. IsOfKind (ColKind.Text max) (Value.Text text.now) × IsText (Value.Text text.now)) }
{
    if field.len() > max as usize {
        return None;
    }
    match str::from_utf8(field) {
        Ok(text) => Some(text),
        Err(_) => None,
    }
}
